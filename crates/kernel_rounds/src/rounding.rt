//! One round of reduction.
ghost use Rattle.std.specs.Prelude.{◌≡◌, ◌<◌, ◌↔◌, ◌∷◌, ◌++◌, [], false, if◌then◌else◌, IfErr};
ghost use Rattle.std.specs.Prelude.{IfOk, None, OnOk, Some, map};
ghost use Rattle.clause_pool.specs.Interned.{Kept};
ghost use Rattle.clause_flatten.specs.Refusals.{OnLimit};
ghost use Rattle.row_book.specs.Book.{repository_of, RowsTidy, Sound};
ghost use Rattle.row_book.specs.{Flattening.{flat, held_of, passes}, Merging.{class_list}};
ghost use Rattle.row_book.specs.Pruning.{idle_steps, prune};
ghost use Rattle.row_book.specs.{Rounds.{IdleStep, round, round_steps}, Thinning.{thin}};
ghost use Rattle.row_book.specs.Trail.{SoundSteps, trail_meaning};
ghost use Rattle.row_book.specs.declared.trail.Step.TheVariants.{Flat, Merge};
ghost use Rattle.kernel_rounds.specs.{Extracting.{IsReduced}, Moving.{live_rows, HasOnly}};

use crate::moving::{copied, keep_live};
use class_merge::merge;
use clause_flatten::{FlatError, Flattened, flatten};
use clause_pool::{NumList, Pool};
use clause_prune::prune;
use conflict_reduce::thin;
use row_book::{Book, Step, StepList, Trail, same_books};
use std::alloc::{AllocError, Global};

/// What one round gives.
#[derive(Drop)]
pub struct Rounded {
    /// The classes as packages.
    pub book: Book,
    /// For each package of the old book its class.
    pub class_of: NumList,
    /// The held packages of the old book, ascending.
    pub held: NumList,
    /// The earlier steps, and those of the round if it changed something.
    pub trail: Trail,
    /// Whether the round changed something.
    pub changed: bool,
}

/// A book after the four reductions, with the class of each package, the held packages of the book
/// before, and the idle steps of pruning.
#[derive(Drop)]
pub(crate) struct Reduced {
    pub(crate) book: Book,
    pub(crate) class_of: NumList,
    pub(crate) held: NumList,
    pub(crate) idle: StepList,
}

/// A book after pruning and thinning, with the idle steps of pruning.
#[derive(Drop)]
pub(crate) struct Shrunk {
    pub(crate) book: Book,
    idle: StepList,
}

/// The book after pruning and thinning.
pub(crate) fn prune_and_thin(
    alloc: Global,
    pool: &mut Pool,
    book: &Book,
) -> Result<Shrunk, AllocError>
    requires sound { Sound pool.old book.now }
    requires tidy { RowsTidy pool.old book.now.rows }
    ensures book { IfOk result (λ made. repository_of pool.new made.book
        ≡ thin (prune (repository_of pool.old book.now))) }
    ensures idle { IfOk result (λ made. trail_meaning pool.new made.idle
        ≡ map IdleStep (idle_steps (repository_of pool.old book.now))) }
    ensures sound { IfOk result (λ made. Sound pool.new made.book) }
    ensures kept { Kept pool.old pool.new }
{
    let pruned = prune(alloc, pool, book)?;
    let thinned = thin(alloc, pool, &pruned.book)?;
    Ok(Shrunk {
        book: thinned,
        idle: pruned.idle,
    })
}

/// The book after flattening, merging, pruning and thinning.
pub(crate) fn reduce(
    alloc: Global,
    pool: &mut Pool,
    book: &Book,
    limit: u32,
    hold: bool,
) -> Result<Reduced, FlatError>
    requires sound { Sound pool.old book.now }
    requires limit { 0 < limit }
    ensures reduced { IfOk result
        (IsReduced limit hold (repository_of pool.old book.now) pool.new) }
    ensures passed { IfErr result (OnLimit (λ passed.
        passes limit hold (repository_of pool.old book.now) ≡ Some passed)) }
    ensures kept { Kept pool.old pool.new }
{
    let Flattened { book: flat, held } = flatten(alloc, pool, book, limit, hold)?;
    let merged = merge(alloc, pool, &flat)?;
    let shrunk = prune_and_thin(alloc, pool, &merged.book)?;
    Ok(Reduced {
        book: shrunk.book,
        class_of: merged.class_of,
        held,
        idle: shrunk.idle,
    })
}

/// Appends the steps of a round.
pub(crate) fn add_round(
    steps: StepList,
    before: Book,
    class_of: NumList,
    idle: StepList,
) -> Result<StepList, AllocError>
    ensures { IfOk result (λ made. made ≡ steps ++ (Flat before ∷ (Merge class_of ∷ idle))) }
{
    let mut made = steps;
    made.push(Step::Flat { before })?;
    made.push(Step::Merge { class_of })?;
    made.append(idle)?;
    Ok(made)
}

/// Appends the steps of a round, if it changed something.
fn add_changes(
    alloc: Global,
    steps: StepList,
    before: Book,
    class_of: &NumList,
    idle: StepList,
    changed: bool,
) -> Result<StepList, AllocError>
    ensures { IfOk result (λ made. made
        ≡ (if changed then steps ++ (Flat before ∷ (Merge class_of.now ∷ idle)) else steps)) }
{
    if !changed {
        return Ok(steps);
    }
    let class_of = copied(alloc, class_of)?;
    add_round(steps, before, class_of, idle)
}

/// One round: flattening, merging, pruning and thinning. At its end the pool is compacted: it has
/// the rows of the new book and of the books in the new trail, and no others.
///
/// With hold a package stays if its elimination would make a row pass the limit. The round is
/// refused as `flatten` is on the book. A refusal drops the book and the trail, and promises
/// nothing of the pool's ids.
pub fn one_round(
    alloc: Global,
    pool: &mut Pool,
    book: Book,
    past: Trail,
    limit: u32,
    hold: bool,
) -> Result<Rounded, FlatError>
    requires sound { Sound pool.old book }
    requires past { SoundSteps pool.old past.steps }
    requires limit { 0 < limit }
    ensures round { IfOk result (λ made. repository_of pool.new made.book
        ≡ round limit hold (repository_of pool.old book)) }
    ensures classes { IfOk result (λ made. made.class_of
        ≡ class_list (flat limit hold (repository_of pool.old book))) }
    ensures held { IfOk result (λ made. made.held
        ≡ held_of limit hold (repository_of pool.old book)) }
    ensures changed { IfOk result (λ made. (made.changed ≡ false)
        ↔ (round limit hold (repository_of pool.old book) ≡ repository_of pool.old book)) }
    ensures trail { IfOk result (λ made. trail_meaning pool.new made.trail.steps ≡
        trail_meaning pool.old past.steps
        ++ (if made.changed then round_steps limit hold (repository_of pool.old book) else [])) }
    ensures sound { IfOk result (λ made. Sound pool.new made.book) }
    ensures books { IfOk result (λ made. SoundSteps pool.new made.trail.steps) }
    ensures only { IfOk result (λ made. HasOnly pool.new (live_rows made.book made.trail.steps)) }
    ensures within { OnOk result (passes limit hold (repository_of pool.old book) ≡ None) }
    ensures passed { IfErr result (OnLimit (λ passed.
        passes limit hold (repository_of pool.old book) ≡ Some passed)) }
{
    let made = reduce(alloc, pool, &book, limit, hold)?;
    let changed = !same_books(pool, &book, &made.book);
    let Reduced {
        book: after,
        class_of,
        held,
        idle,
    } = made;
    let told = add_changes(alloc, past.steps, book, &class_of, idle, changed)?;
    let (kept, steps) = keep_live(alloc, pool, &after, told.as_slice())?;
    Ok(Rounded {
        book: kept,
        class_of,
        held,
        trail: Trail { steps },
        changed,
    })
}
