//! Extraction of a kernel.
//!
//! Rounds work in a copy of the caller's pool, which is compacted each round, so no later round
//! carries the first repository on. The first book has the same ids in both pools.
ghost use Rattle.std.specs.Prelude.{Some, ◌≡◌, ◌<◌, IfErr, IfOk, ℕ};
ghost use Rattle.clause_pool.specs.Interned.{Interned, IsPool, Kept};
ghost use Rattle.row_book.specs.{Book.{repository_of, AddsOnly, Sound}, Keeping.{KeepsImages}};
ghost use Rattle.row_book.specs.{Repository.{Repository}, Sound.{SoundRepository}};
ghost use Rattle.row_book.specs.Rounds.{kernel_image, limit_at, round, Settled};
ghost use Rattle.kernel_rounds.specs.Extracting.{HasStepsBefore, IsExtracted, IsMidway};
ghost use Rattle.kernel_rounds.specs.Extracting.{IsOwnKernel, IsReduced, OnRoundLimit};
ghost use Rattle.kernel_rounds.specs.Moving.{live_rows};

use crate::advancing::{Progress, begin, go_on, round_error};
use crate::error::RoundError;
use crate::rounding::{Reduced, reduce};
use clause_pool::{NumList, Pool};
use listed::Listed;
use row_book::{Book, Trail, same_books};
use std::alloc::{AllocError, Global};

/// A kernel.
#[derive(Drop)]
pub struct Kernel {
    /// The classes as packages.
    pub book: Book,
    /// For each package of the old book its class.
    pub class_of: NumList,
    /// The held packages of the book, ascending.
    pub held: NumList,
    /// Whether the rounds held packages whose elimination would have made a row pass the limit.
    pub hold: bool,
    /// The steps by which the kernel came from the old book.
    pub trail: Trail,
}

/// The kernel that a round has left as it is, with its book too in the other pool.
fn finish(
    alloc: Global,
    now: Progress,
    made: Reduced,
    hold: bool,
    from: &Pool,
    into: &mut Pool,
) -> Result<Kernel, AllocError>
    requires sound { Sound from.now made.book }
    requires into { IsPool into.old }
    ensures kernel { (R : Repository) (limit : ℕ) (start old : Interned) → SoundRepository R →
        IsMidway R limit hold start into.old old now →
        IsReduced limit hold (repository_of old now.book) from.now made →
        round limit hold (repository_of old now.book) ≡ repository_of old now.book →
        IfOk result (λ kernel. IsExtracted R limit hold start into.new kernel.book kernel.class_of
        kernel.held kernel.trail.steps) }
    ensures hold { IfOk result (λ kernel. kernel.hold ≡ hold) }
    ensures only { (R : Repository) (limit : ℕ) (start old : Interned) →
        IsMidway R limit hold start into.old old now →
        IfOk result (λ kernel. AddsOnly start into.new (live_rows kernel.book kernel.trail.steps)) }
    ensures kept { Kept into.old into.new }
{
    let book = made.book.carry(alloc, from, into)?;
    Ok(Kernel {
        book,
        class_of: Listed::of(now.class_of),
        held: made.held,
        hold,
        trail: Trail { steps: now.steps },
    })
}

/// The kernel of a book that has the same ids in the pool that the rounds work in. The other pool
/// gains only the rows of the kernel's book and of the books of the steps, with their clauses.
fn rounds(
    alloc: Global,
    work: &mut Pool,
    book: &Book,
    limit: u32,
    hold: bool,
    into: &mut Pool,
) -> Result<Kernel, RoundError>
    requires sound { Sound into.old book.now }
    requires same { work.old ≡ into.old }
    requires limit { 0 < limit }
    ensures kernel { IfOk result (λ made. IsExtracted (repository_of into.old book.now) limit hold
        into.old into.new made.book made.class_of made.held made.trail.steps) }
    ensures hold { IfOk result (λ made. made.hold ≡ hold) }
    ensures only { IfOk result (λ made.
        AddsOnly into.old into.new (live_rows made.book made.trail.steps)) }
    ensures passed { IfErr result (OnRoundLimit (λ passed.
        limit_at limit hold (repository_of into.old book.now) ≡ Some passed)) }
    ensures refused_only { IfErr result (OnRoundLimit (λ _.
        HasStepsBefore (repository_of into.old book.now) limit hold into.old into.new)) }
    ensures kept { Kept into.old into.new }
{
    let mut now = begin(alloc, book)?;
    loop {
        let made = match reduce(alloc, work, &now.book, limit, hold) {
            Ok(made) => made,
            Err(fault) => return Err(round_error(fault, now.number, now.class_of.as_slice())),
        };
        if same_books(work, &now.book, &made.book) {
            let kernel = finish(alloc, now, made, hold, work, into)?;
            return Ok(kernel);
        }
        now = go_on(alloc, now, made, work, into)?;
    }
}

/// The kernel of the book: rounds of flattening, merging, pruning and thinning go on until one
/// changes nothing.
///
/// Without hold it is refused if a row has more clauses than the limit allows at some stage of the
/// flattening of some round; the first such round is named. With hold a package stays if its
/// elimination would make a row pass the limit. The kernel is then refused only if a row passes it
/// before any package of the round is eliminated.
///
/// The rounds work in a pool of their own. What the pool held stays. It gains only the rows of the
/// kernel's book and of the books in the trail, with their clauses. By a refusal for the limit it
/// gains those of the books in the steps of all rounds before it.
pub fn extract(
    alloc: Global,
    pool: &mut Pool,
    book: &Book,
    limit: u32,
    hold: bool,
) -> Result<Kernel, RoundError>
    requires sound { Sound pool.old book.now }
    requires limit { 0 < limit }
    ensures kernel { IfOk result (λ made. IsExtracted (repository_of pool.old book.now) limit hold
        pool.old pool.new made.book made.class_of made.held made.trail.steps) }
    ensures hold { IfOk result (λ made. made.hold ≡ hold) }
    ensures keeps { IfOk result (λ made.
        KeepsImages (repository_of pool.old book.now) (repository_of pool.new made.book)
        (kernel_image limit hold (repository_of pool.old book.now))) }
    ensures settled { IfOk result (λ made. Settled limit hold (repository_of pool.new made.book)) }
    ensures own { IfOk result (λ made.
        IsOwnKernel (repository_of pool.new made.book) made.held limit hold) }
    ensures only { IfOk result (λ made.
        AddsOnly pool.old pool.new (live_rows made.book made.trail.steps)) }
    ensures passed { IfErr result (OnRoundLimit (λ passed.
        limit_at limit hold (repository_of pool.old book.now) ≡ Some passed)) }
    ensures refused_only { IfErr result (OnRoundLimit (λ _.
        HasStepsBefore (repository_of pool.old book.now) limit hold pool.old pool.new)) }
    ensures kept { Kept pool.old pool.new }
{
    let mut work = pool.copy(alloc)?;
    let made = rounds(alloc, &mut work, book, limit, hold, pool)?;
    Ok(made)
}
