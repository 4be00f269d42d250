//! Whether all numbers of a text are of classes.
ghost use Rattle.std.specs.{Prelude.{◌≡◌, map, nat_lt}, List.{list_all}};
ghost use Rattle.kernel_text.specs.{Reader.{entry_of, RangeIsTold}, Reading.{Reading}};

use crate::reader::Clause;
use row_book::Pair;

/// Whether each number of a clause and each conflicting number is one of a class.
pub(crate) fn is_in_range(clauses: &[Clause], pairs: &[Pair], classes: u32) -> bool
    ensures { (t : Reading) → map entry_of clauses.now ≡ t.clauses → pairs.now ≡ t.conflicts →
        classes ≡ t.classes → RangeIsTold t result }
{
    if !are_clauses_below(clauses, classes) {
        return false;
    }
    are_pairs_below(pairs, classes)
}

// Whether the numbers of each clause are below the limit.
fn are_clauses_below(clauses: &[Clause], limit: u32) -> bool
    ensures { result
        ≡ list_all (λ clause. list_all (λ n. nat_lt n limit) clause.numbers) clauses.now }
{
    clauses
        .iter()
        .all(|clause| is_below(clause.numbers.as_slice(), limit))
}

// Whether the greater number of each pair is below the limit.
fn are_pairs_below(pairs: &[Pair], limit: u32) -> bool
    ensures { result ≡ list_all (λ pair. nat_lt pair.high limit) pairs.now }
{
    pairs.iter().all(|pair| pair.high < limit)
}

/// Whether the numbers are below the limit.
pub(crate) fn is_below(numbers: &[u32], limit: u32) -> bool
    ensures { result ≡ list_all (λ n. nat_lt n limit) numbers.now }
{
    numbers.iter().all(|number| *number < limit)
}
