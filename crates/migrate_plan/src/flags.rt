//! Which packages come into a mix: those of the newer index whose names are in a set, and those of
//! the older one whose names are not.
ghost use Rattle.std.specs.Prelude.{◌≡◌, false, true, filter, length, map, not, replicate};
ghost use Rattle.std.specs.Prelude.{slice_set, IfOk};
ghost use Rattle.migrate_plan.specs.{Flagged.{Raises}, Mix.{count_named, is_left, is_taken}};

use deb_version::Bytes;
use repo_model::Suite;
use std::alloc::{AllocError, Global};

/// For each package whether its name is one of those that are taken. Its packages are found by the
/// suite's register, however many there are.
pub(crate) fn taken_flags(
    alloc: Global,
    suite: &Suite,
    taken: &[Bytes],
) -> Result<Vec<bool>, AllocError>
    ensures { IfOk result (λ flags. flags.items
        ≡ map (λ facts. is_taken taken.now facts.name) suite.now.packages) }
{
    let mut flags = no_flags(alloc, suite.count())?;
    for name in taken {
        let numbers = suite.named(alloc, name.as_slice())?;
        raise_all(&mut flags, &numbers);
    }
    Ok(flags)
}

/// For each package whether its name is none of those that are taken.
pub(crate) fn left_flags(
    alloc: Global,
    suite: &Suite,
    taken: &[Bytes],
) -> Result<Vec<bool>, AllocError>
    ensures { IfOk result (λ flags. flags.items
        ≡ map (λ facts. is_left taken.now facts.name) suite.now.packages) }
{
    let taken = taken_flags(alloc, suite, taken)?;
    let left = others(alloc, &taken)?;
    Ok(left)
}

// For each flag whether it is not up.
fn others(alloc: Global, flags: &[bool]) -> Result<Vec<bool>, AllocError>
    ensures { IfOk result (λ made. made.items ≡ map not flags.now) }
{
    flags.iter().map(|flag| !*flag).collect(alloc)
}

// A flag for each package, none of them up.
fn no_flags(alloc: Global, count: u32) -> Result<Vec<bool>, AllocError>
    ensures { IfOk result (λ flags. flags.items ≡ replicate count false) }
{
    vec![in alloc; false; count as usize]
}

// Raises the flags of these numbers.
fn raise_all(flags: &mut Vec<bool>, numbers: &[u32])
    ensures { Raises flags.old.items numbers.now flags.new.items }
{
    for number in numbers {
        raise(flags, *number);
    }
}

// Raises the flag of a number, if it has one.
fn raise(flags: &mut Vec<bool>, number: u32)
    ensures { flags.new.items ≡ slice_set flags.old.items number true }
{
    let place = number as usize;
    if place < flags.len() {
        flags[place] = true;
    }
}

/// How many packages have one of the names.
pub(crate) fn count_among(
    alloc: Global,
    suite: &Suite,
    names: &[Bytes],
) -> Result<usize, AllocError>
    ensures { IfOk result (λ count. count ≡ count_named names.now suite.now.packages) }
{
    let flags = taken_flags(alloc, suite, names)?;
    Ok(count_raised(&flags))
}

// How many flags are up.
fn count_raised(flags: &[bool]) -> usize
    ensures { result ≡ length (filter (λ flag. flag) flags.now) }
{
    flags.iter().filter(|flag| **flag).count()
}
