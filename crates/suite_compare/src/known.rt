//! Pairs of kinds judged in an earlier comparison. Many mixes of two indexes have one and the same
//! kernel, and the same kinds in it, so that their pairs need not be searched again.
ghost use Rattle.std.specs.{Prelude.{◌≡◌, ◌<◌, IfOk}, Bool.{OnTrue}, Option.{ForSome}};
ghost use Rattle.row_book.specs.Book.{Sound};
ghost use Rattle.suite_compare.specs.Bad.{AreAllBad, AreSingles};
ghost use Rattle.suite_compare.specs.Known.{AreKnownPairs, IsAskedAlike};

use crate::judge::Judge;
use crate::verdicts::{BadList, bad_lists};
use clause_pool::{NumList, Pool, RowId};
use clause_solver::Verdict;
use listed::Listed;
use row_book::{Book, are_same_lists, is_same_book};
use std::alloc::{AllocError, Global};

/// A kernel and its kinds, and for each kind those that do not go together with it, or are not
/// known to, within a budget.
#[derive(Drop)]
pub struct KnownPairs {
    // The pool of the book's rows.
    pub(crate) pool: Pool,
    // The book of the kernel.
    pub(crate) book: Book,
    // The kinds.
    pub(crate) kinds: Vec<NumList>,
    // The most failed leaves of a search.
    pub(crate) budget: u64,
    // For each kind those that are bad with it.
    pub(crate) lists: Vec<BadList>,
}

/// The kinds that are bad with each kind of a judge. They are reused if kernel, kinds and budget
/// are the same; otherwise they are searched.
pub(crate) fn pairs_of(
    alloc: Global,
    judge: &Judge,
    singles: &[Verdict],
    known: Option<KnownPairs>,
) -> Result<KnownPairs, AllocError>
    requires singles { AreSingles judge.now singles.now }
    requires known { ForSome known AreKnownPairs }
    ensures known { IfOk result AreKnownPairs }
    ensures alike { IfOk result (λ made. IsAskedAlike made judge.now) }
{
    if let Some(pairs) = known {
        if is_alike(&pairs, judge) {
            return Ok(pairs);
        }
    }
    let lists = bad_lists(alloc, judge, singles)?;
    kept_pairs(alloc, judge, lists)
}

// The judged pairs of a judge, to be kept.
fn kept_pairs(alloc: Global, judge: &Judge, lists: Vec<BadList>) -> Result<KnownPairs, AllocError>
    requires { AreAllBad judge.now lists.items }
    ensures known { IfOk result AreKnownPairs }
    ensures alike { IfOk result (λ made. IsAskedAlike made judge.now) }
{
    let kinds = copies_of(alloc, &judge.kinds)?;
    let mut pool = Pool::new(alloc)?;
    let copy = judge.kernel.book.copy(alloc)?;
    let book = copy.carry(alloc, judge.kernel.pool, &mut pool)?;
    Ok(KnownPairs {
        pool,
        book,
        kinds,
        budget: judge.budget,
        lists,
    })
}

// Copies of lists of numbers.
fn copies_of(alloc: Global, lists: &[NumList]) -> Result<Vec<NumList>, AllocError>
    ensures { IfOk result (λ made. made.items ≡ lists.now) }
{
    let mut made = Vec::with_capacity(alloc, lists.len())?;
    for list in lists {
        let copy = Vec::from_slice(alloc, list.as_slice())?;
        made.push(Listed::of(copy))?;
    }
    Ok(made)
}

// Whether a judge is asked of the same kinds of the same kernel within the same budget.
fn is_alike(known: &KnownPairs, judge: &Judge) -> bool
    requires { Sound known.now.pool known.now.book }
    ensures { OnTrue result (IsAskedAlike known.now judge.now) }
{
    if known.budget != judge.budget {
        return false;
    }
    if !are_same_lists(&known.kinds, &judge.kinds) {
        return false;
    }
    is_same_book(
        &known.pool,
        &known.book,
        judge.kernel.pool,
        judge.kernel.book,
    )
}
