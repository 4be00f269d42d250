//! Pools with their live rows alone, and books and trails over what is left.
ghost use Rattle.std.specs.Prelude.{◌≡◌, ℕ, List, IfOk};
ghost use Rattle.clause_pool.specs.{Interned.{Interned}, Compacting.{Compacts, Knows}};
ghost use Rattle.listed.specs.Lists.{In};
ghost use Rattle.row_book.specs.{Book.{IsSameBook, Sound}, Trail.{SoundSteps}};
ghost use Rattle.kernel_rounds.specs.Moving.{live_rows, step_rows, trail_rows, AreSameSteps};
ghost use Rattle.kernel_rounds.specs.Moving.{HasOnly, IsSameStep};

use clause_pool::{NumList, Pool, Remap, RowId};
use listed::Listed;
use row_book::{Book, Step, StepList};
use std::alloc::{AllocError, Global};

/// A copy of the list.
pub(crate) fn copied(alloc: Global, list: &NumList) -> Result<NumList, AllocError>
    ensures { IfOk result (λ made. made ≡ list.now) }
{
    Ok(Listed::of(Vec::from_slice(alloc, list.as_slice())?))
}

/// The rows of the book of a step, if it has one.
fn step_rows(step: &Step) -> &[RowId]
    ensures { result.now ≡ step_rows step.now }
{
    match step {
        Step::Flat { before } => before.rows.as_slice(),
        Step::Idle { .. } => &[],
        Step::Merge { .. } => &[],
    }
}

/// The rows of the book and of the books of the steps.
fn live_rows(alloc: Global, book: &Book, steps: &[Step]) -> Result<Vec<RowId>, AllocError>
    ensures { IfOk result (λ rows. rows.items ≡ live_rows book.now steps.now) }
{
    let mut rows = Vec::from_slice(alloc, book.rows.as_slice())?;
    for step in steps {
        rows.extend_from_slice(step_rows(step))?;
    }
    Ok(rows)
}

/// The step in the pool that a compaction has left.
fn rename_step(alloc: Global, step: &Step, remap: &Remap) -> Result<Step, AllocError>
    requires { (id : ℕ) → In id (step_rows step.now) → Knows remap.now id }
    ensures { IfOk result (λ made. (old new : Interned) (live : List ℕ) →
        Compacts old live remap.now new → IsSameStep old step.now new made) }
{
    match step {
        Step::Flat { before } => {
            let before = before.rename(alloc, remap)?;
            Ok(Step::Flat { before })
        }
        Step::Idle {
            package,
            clause,
            added,
        } => {
            let clause = copied(alloc, clause)?;
            Ok(Step::Idle {
                package: *package,
                clause,
                added: *added,
            })
        }
        Step::Merge { class_of } => {
            let class_of = copied(alloc, class_of)?;
            Ok(Step::Merge { class_of })
        }
    }
}

/// The steps in the pool that a compaction has left.
fn rename_steps(alloc: Global, steps: &[Step], remap: &Remap) -> Result<StepList, AllocError>
    requires { (id : ℕ) → In id (trail_rows steps.now) → Knows remap.now id }
    ensures { IfOk result (λ made. (old new : Interned) (live : List ℕ) →
        Compacts old live remap.now new → AreSameSteps old steps.now new made) }
{
    let mut made = StepList::new(alloc);
    for step in steps {
        let moved = rename_step(alloc, step, remap)?;
        made.push(moved)?;
    }
    Ok(made)
}

/// Leaves only the rows of the book and of the books of the steps in the pool, and returns the book
/// and the steps over what is left.
pub(crate) fn keep_live(
    alloc: Global,
    pool: &mut Pool,
    book: &Book,
    steps: &[Step],
) -> Result<(Book, StepList), AllocError>
    requires book { Sound pool.old book.now }
    requires steps { SoundSteps pool.old steps.now }
    ensures book { IfOk result (λ made. IsSameBook pool.old book.now pool.new made.0) }
    ensures steps { IfOk result (λ made. AreSameSteps pool.old steps.now pool.new made.1) }
    ensures only { IfOk result (λ made. HasOnly pool.new (live_rows made.0 made.1)) }
{
    let live = live_rows(alloc, book, steps)?;
    let remap = pool.compact(alloc, live.as_slice())?;
    let moved = book.rename(alloc, &remap)?;
    let renamed = rename_steps(alloc, steps, &remap)?;
    Ok((moved, renamed))
}
