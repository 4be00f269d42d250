//! The rounds after the first, kept from an earlier extraction. Many books that differ by a few
//! changes come to one and the same repository by their first round, so that the rounds after it
//! need not be run again.
ghost use Rattle.std.specs.{Prelude.{◌≡◌, ◌<◌, false, None, Some, IfOk}, Bool.{OnTrue}};
ghost use Rattle.std.specs.Option.{ForSome};
ghost use Rattle.class_merge.specs.Masks.{IsMaskOfRows};
ghost use Rattle.row_book.specs.{Book.{repository_of, Sound}, Repository.{Repository}};
ghost use Rattle.row_book.specs.Rounds.{limit_at};
ghost use Rattle.kernel_rounds.specs.Known.{AreKnownRounds, AreRoundsOf, IsClassifiedPart};
ghost use Rattle.kernel_rounds.specs.{Known.{IsFlatPart}, declared.known.KnownRounds.{KnownRounds}};

use crate::advancing::compose;
use crate::error::RoundError;
use crate::extraction::{Kernel, extract};
use crate::moving::keep_live;
use crate::rounding::prune_and_thin;
use class_merge::{MaskedRows, merge_chosen};
use clause_pool::{NumList, Pool};
use listed::Listed;
use row_book::{Book, is_same_book};
use std::alloc::{AllocError, Global};

/// What a first round without hold has left, its kernel, and the class in that kernel of each
/// package that was left.
#[derive(Drop)]
pub struct KnownRounds {
    /// The pool of the kernel's rows.
    pub pool: Pool,
    /// The kernel.
    pub kernel: Book,
    // What the first round has left, in the same pool.
    pub(crate) first: Book,
    // For each package of `first` its class in the kernel.
    pub(crate) class_of: NumList,
    // The clause limit.
    pub(crate) limit: u32,
}

/// The class of each package of a mask in the kernel of their part, in the numbers of all packages,
/// and the kernel.
#[derive(Drop)]
pub struct Classified {
    /// For each package its class; that of a package that is not in the mask says nothing.
    pub class_of: NumList,
    /// The kernel, with what is known of the rounds after the first.
    pub rounds: KnownRounds,
}

/// The class of each package of a mask in the kernel of their part, without hold, and the kernel.
/// It is made from the flattened rows of the part, in the numbers of all packages. None if a row
/// has more clauses than the limit allows at some stage of a round after the first. The rounds
/// after the first of an earlier call may be given: they are taken if the first round leaves the
/// same repository at the same limit. This saves time and changes no result.
pub fn classes_of_part(
    alloc: Global,
    masked: &MaskedRows,
    limit: u32,
    earlier: &mut Option<KnownRounds>,
) -> Result<Option<Classified>, AllocError>
    requires mask { IsMaskOfRows masked.now }
    requires limit { 0 < limit }
    requires earlier { ForSome earlier.old AreKnownRounds }
    ensures classes { (P : Repository) → IsFlatPart limit P masked.now →
        IfOk result (λ made. ForSome made (IsClassifiedPart limit P masked.now.flags.now)) }
    ensures rounds { IfOk result (λ made.
        ForSome made (λ classified. AreKnownRounds classified.rounds)) }
    ensures passed { (P : Repository) → IsFlatPart limit P masked.now →
        IfOk result (λ made. made ≡ None → limit_at limit false P ≡ None → ⊥) }
    ensures earlier { ForSome earlier.new AreKnownRounds }
{
    let mut pool = Pool::new(alloc)?;
    let merged = merge_chosen(alloc, &mut pool, masked)?;
    let left = prune_and_thin(alloc, &mut pool, &merged.book)?;
    let Some(rounds) = rounds_behind(alloc, pool, left.book, limit, earlier)? else {
        return Ok(None);
    };
    let classes = compose(
        alloc,
        merged.class_of.as_slice(),
        rounds.class_of.as_slice(),
    )?;
    Ok(Some(Classified {
        class_of: Listed::of(classes),
        rounds,
    }))
}

// The rounds after the first, which has left this book: those of the earlier call, if they are of
// the same repository at the same limit. None if a row has more clauses than the limit allows at
// some stage of one of these rounds.
fn rounds_behind(
    alloc: Global,
    pool: Pool,
    first: Book,
    limit: u32,
    earlier: &mut Option<KnownRounds>,
) -> Result<Option<KnownRounds>, AllocError>
    requires sound { Sound pool first }
    requires limit { 0 < limit }
    requires earlier { ForSome earlier.old AreKnownRounds }
    ensures known { IfOk result (λ made. ForSome made AreKnownRounds) }
    ensures of_first { IfOk result (λ made.
        ForSome made (λ rounds. AreRoundsOf rounds limit (repository_of pool first))) }
    ensures passed { IfOk result (λ made. made ≡ None →
        limit_at limit false (repository_of pool first) ≡ None → ⊥) }
    ensures earlier { ForSome earlier.new AreKnownRounds }
{
    if are_there(earlier, &pool, &first, limit) {
        return Ok(earlier.take());
    }
    new_rounds(alloc, pool, first, limit)
}

// Whether rounds are kept that are of the repository of the book, at this limit.
fn are_there(earlier: &Option<KnownRounds>, pool: &Pool, first: &Book, limit: u32) -> bool
    requires earlier { ForSome earlier.now AreKnownRounds }
    requires sound { Sound pool.now first.now }
    ensures { OnTrue result ((rounds : KnownRounds) × (earlier.now ≡ Some rounds)
        × AreRoundsOf rounds limit (repository_of pool.now first.now)) }
{
    match earlier {
        Some(rounds) => is_of(rounds, pool, first, limit),
        None => false,
    }
}

// Whether the kept rounds are of the repository of the book, at this limit.
fn is_of(known: &KnownRounds, pool: &Pool, first: &Book, limit: u32) -> bool
    requires known { Sound known.now.pool known.now.first }
    requires sound { Sound pool.now first.now }
    ensures { OnTrue result (AreRoundsOf known.now limit (repository_of pool.now first.now)) }
{
    if known.limit != limit {
        return false;
    }
    is_same_book(&known.pool, &known.first, pool, first)
}

// The rounds after the first, run anew. None if a row has more clauses than the limit allows at
// some stage of one of them.
fn new_rounds(
    alloc: Global,
    mut pool: Pool,
    first: Book,
    limit: u32,
) -> Result<Option<KnownRounds>, AllocError>
    requires sound { Sound pool first }
    requires limit { 0 < limit }
    ensures known { IfOk result (λ made. ForSome made AreKnownRounds) }
    ensures of_first { IfOk result (λ made.
        ForSome made (λ rounds. AreRoundsOf rounds limit (repository_of pool first))) }
    ensures passed { IfOk result (λ made. made ≡ None →
        limit_at limit false (repository_of pool first) ≡ None → ⊥) }
{
    let (first, _) = keep_live(alloc, &mut pool, &first, &[])?;
    match extract(alloc, &mut pool, &first, limit, false) {
        Ok(Kernel { book, class_of, .. }) => Ok(Some(KnownRounds {
            pool,
            kernel: book,
            first,
            class_of,
            limit,
        })),
        Err(RoundError::Limit { .. }) => Ok(None),
        Err(RoundError::Memory) => Err(AllocError),
    }
}
