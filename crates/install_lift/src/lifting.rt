//! A healthy set of a kernel taken back to the repository that the kernel came from.
ghost use Rattle.std.specs.Prelude.{◌≡◌, ◌<◌, ◌+◌, ℕ, ◌||◌, ◌==◌, false, IfOk, length, map};
ghost use Rattle.std.specs.Prelude.{replicate};
ghost use Rattle.row_book.specs.{Sets.{plus, union}, Repository.{Healthy}};
ghost use Rattle.row_book.specs.{Book.{repository_of, Sound}, Flags.{flag}, Pruning.{lift_idle}};
ghost use Rattle.row_book.specs.Trail.{step_meaning, trail_meaning, SoundStep, SoundSteps};
ghost use Rattle.install_lift.specs.Lifting.{lift_of, members_by, IsLift, IsLiftThrough};
ghost use Rattle.install_lift.specs.Laws.{HoldsMembers, IsKernelBy};

use crate::raising::{greatest_support, is_up};
use crate::trimming::hits_one;
use clause_pool::{FlagList, Pool};
use listed::Listed;
use row_book::{Book, Step, Trail};
use std::alloc::{AllocError, Global};

/// Whether the flag at a place is up.
fn flag_at(flags: &[bool], place: usize) -> bool
    ensures { result ≡ flag flags.now place }
{
    flags.get(place).copied().unwrap_or(false)
}

/// The union of two sets.
fn union_of(alloc: Global, first: &[bool], second: &[bool]) -> Result<Vec<bool>, AllocError>
    ensures { IfOk result (λ made. flag made.items ≡ union (flag first.now) (flag second.now)) }
{
    let size = first.len().max(second.len());
    let mut made = Vec::new(alloc);
    for place in 0..size {
        made.push(flag_at(first, place) || flag_at(second, place))?;
    }
    Ok(made)
}

/// The flags of the first packages.
fn front_of(alloc: Global, flags: &[bool], size: u32) -> Result<Vec<bool>, AllocError>
    ensures long { IfOk result (λ made. length made.items ≡ size) }
    ensures same { IfOk result (λ made. (n : ℕ) → n < size → flag made.items n ≡ flag flags.now n) }
{
    let mut made = Vec::new(alloc);
    for number in 0..size {
        made.push(is_up(flags, number))?;
    }
    Ok(made)
}

/// Raises the last of the flags.
fn put_last(flags: &mut [bool], number: u32)
    requires { flags.old ≡ replicate (number + 1) false }
    ensures { flag flags.new ≡ (λ m. m == number) }
{
    flags[number as usize] = true;
}

/// The flags of a set with one number.
fn only(alloc: Global, number: u32) -> Result<Vec<bool>, AllocError>
    ensures { IfOk result (λ made. flag made.items ≡ (λ m. m == number)) }
{
    let mut flags = vec![in alloc; false; number as usize + 1]?;
    put_last(&mut flags, number);
    Ok(flags)
}

/// The flags with one more raised.
fn put_in(alloc: Global, set: Vec<bool>, number: u32) -> Result<Vec<bool>, AllocError>
    ensures { IfOk result (λ made. flag made.items ≡ plus (flag set.items) number) }
{
    let mut set = set;
    let place = number as usize;
    if place < set.len() {
        set[place] = true;
        return Ok(set);
    }
    let one = only(alloc, number)?;
    let made = union_of(alloc, &set, &one)?;
    Ok(made)
}

/// The packages whose classes are in the set.
fn members_of(alloc: Global, class_of: &[u32], set: &[bool]) -> Result<Vec<bool>, AllocError>
    ensures { IfOk result (λ made. made.items ≡ map (λ k. flag set.now k) class_of.now) }
{
    class_of
        .iter()
        .map(|class| is_up(set, *class))
        .collect(alloc)
}

/// Adds the member to the set, if the package is in it and no member of its clause is.
fn mend(
    alloc: Global,
    set: Vec<bool>,
    number: u32,
    clause: &[u32],
    added: u32,
) -> Result<Vec<bool>, AllocError>
    ensures { IfOk result (λ made. flag made.items
        ≡ lift_idle (flag set.items) number clause.now added) }
{
    if !is_up(&set, number) {
        return Ok(set);
    }
    if hits_one(&set, clause) {
        return Ok(set);
    }
    let made = put_in(alloc, set, added)?;
    Ok(made)
}

/// The set taken back through a step.
fn take_back(
    alloc: Global,
    pool: &Pool,
    step: &Step,
    set: Vec<bool>,
) -> Result<Vec<bool>, AllocError>
    requires { SoundStep pool.now step.now }
    ensures { IfOk result (λ made.
        IsLiftThrough (step_meaning pool.now step.now) (flag set.items) (flag made.items)) }
{
    match step {
        Step::Flat { before } => {
            let more = greatest_support(alloc, pool, before, &set)?;
            let made = union_of(alloc, &set, &more)?;
            Ok(made)
        }
        Step::Merge { class_of } => {
            let made = members_of(alloc, class_of.as_slice(), &set)?;
            Ok(made)
        }
        Step::Idle {
            package,
            clause,
            added,
        } => {
            let made = mend(alloc, set, *package, clause.as_slice(), *added)?;
            Ok(made)
        }
    }
}

/// The set taken back through the steps, from the last to the first.
fn take_all_back(
    alloc: Global,
    pool: &Pool,
    steps: &[Step],
    classes: &[bool],
) -> Result<Vec<bool>, AllocError>
    requires { SoundSteps pool.now steps.now }
    ensures { IfOk result (λ made.
        IsLift (trail_meaning pool.now steps.now) (flag classes.now) (flag made.items)) }
{
    let mut set = Vec::from_slice(alloc, classes)?;
    let mut left = steps.len();
    while left > 0 {
        left -= 1;
        set = take_back(alloc, pool, &steps[left], set)?;
    }
    Ok(set)
}

/// A healthy set of the kernel of a book, at some limit and hold, taken back through the steps of
/// the kernel. It is a healthy set of the book, and has each package of each given class.
pub fn lift(
    alloc: Global,
    pool: &Pool,
    from: &Book,
    to: &Book,
    trail: &Trail,
    classes: &[bool],
) -> Result<FlagList, AllocError>
    requires from { Sound pool.now from.now }
    requires to { Sound pool.now to.now }
    requires steps { SoundSteps pool.now trail.now.steps }
    requires kernel { IsKernelBy (repository_of pool.now from.now) (repository_of pool.now to.now)
        (trail_meaning pool.now trail.now.steps) }
    requires healthy { Healthy (repository_of pool.now to.now) (flag classes.now) }
    ensures lift { IfOk result (λ set.
        IsLift (trail_meaning pool.now trail.now.steps) (flag classes.now) (flag set)) }
    ensures is { IfOk result (λ set. flag set
        ≡ lift_of (trail_meaning pool.now trail.now.steps) (flag classes.now)) }
    ensures healthy { IfOk result (λ set. Healthy (repository_of pool.now from.now) (flag set)) }
    ensures holds { (by : IsKernelBy (repository_of pool.now from.now)
        (repository_of pool.now to.now) (trail_meaning pool.now trail.now.steps)) →
        IfOk result (λ set. HoldsMembers by.limit by.hold (repository_of pool.now from.now)
        (flag classes.now) (flag set)) }
    ensures long { IfOk result (λ set. length set ≡ length from.now.rows) }
{
    let set = take_all_back(alloc, pool, trail.steps.as_slice(), classes)?;
    let flags = front_of(alloc, &set, from.size())?;
    Ok(Listed::of(flags))
}
