//! Whether two books are of the same repository.
ghost use Rattle.std.specs.{Prelude.{◌≡◌, ◌<◌, ◌&&◌, ◌||◌, eqb, length}, Bool.{OnTrue}};
ghost use Rattle.std.specs.Cmp.Lexicographic.{pointwise};
ghost use Rattle.clause_pool.specs.Interned.{row_at};
ghost use Rattle.row_book.specs.{Book.{repository_of, Sound}, Rounds.{is_same_repository}};

use crate::book::Book;
use clause_pool::{NumList, Pool, RowId};

/// Whether two books, each in a pool of its own, are of the same repository. A yes is right; a no
/// promises nothing.
pub fn is_same_book(pool: &Pool, book: &Book, other_pool: &Pool, other: &Book) -> bool
    requires one { Sound pool.now book.now }
    requires other { Sound other_pool.now other.now }
    ensures { OnTrue result (repository_of pool.now book.now
        ≡ repository_of other_pool.now other.now) }
{
    if !are_same_lists(book.conflicts.as_slice(), other.conflicts.as_slice()) {
        return false;
    }
    // A book has as many rows as lists of conflicts.
    for number in 0..book.size() {
        if !is_same_row(pool, book.row(number), other_pool, other.row(number)) {
            return false;
        }
    }
    true
}

/// Whether the books have the same repository: in a pool each row is kept once.
pub fn same_books(pool: &Pool, book: &Book, other: &Book) -> bool
    requires first { Sound pool.now book.now }
    requires second { Sound pool.now other.now }
    ensures { result
        ≡ is_same_repository (repository_of pool.now book.now) (repository_of pool.now other.now) }
{
    same_rows(book.rows.as_slice(), other.rows.as_slice())
        && are_same_lists(book.conflicts.as_slice(), other.conflicts.as_slice())
}

/// Whether the lists are the same.
pub fn are_same_lists(lists: &[NumList], others: &[NumList]) -> bool
    ensures { result ≡ pointwise (pointwise eqb) lists.now others.now }
{
    if lists.len() != others.len() {
        return false;
    }
    for place in 0..lists.len() {
        if !same_numbers(lists[place].as_slice(), others[place].as_slice()) {
            return false;
        }
    }
    true
}

// Whether two rows, each in a pool of its own, have the same clauses.
fn is_same_row(pool: &Pool, row: RowId, other_pool: &Pool, other: RowId) -> bool
    requires one { row < length pool.now.rows }
    requires other { other < length other_pool.now.rows }
    ensures { OnTrue result (row_at pool.now row ≡ row_at other_pool.now other) }
{
    let ids = pool.row(row);
    let others = other_pool.row(other);
    if ids.len() != others.len() {
        return false;
    }
    for place in 0..ids.len() {
        if pool.slice(ids[place]) != other_pool.slice(others[place]) {
            return false;
        }
    }
    true
}

// Whether the ids are the same.
fn same_rows(rows: &[RowId], others: &[RowId]) -> bool
    ensures { result ≡ pointwise eqb rows.now others.now }
{
    rows == others
}

// Whether the numbers are the same.
fn same_numbers(list: &[u32], other: &[u32]) -> bool
    ensures { result ≡ pointwise eqb list.now other.now }
{
    list == other
}
