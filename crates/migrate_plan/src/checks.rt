//! When no plan is made.
ghost use Rattle.std.specs.Prelude.{◌≡◌, ◌≤◌, ◌+◌, None, IfErr, IfOk, OnOk, length};
ghost use Rattle.migrate_plan.specs.Refusals.{above, are_apart, homes_refusal, packages_with};
ghost use Rattle.migrate_plan.specs.Refusals.{RefusesPlan};
ghost use Rattle.migrate_plan.specs.declared.refusals.PlanError.TheVariants.{Names, Packages};
ghost use Rattle.migrate_plan.specs.declared.refusals.PlanError.TheVariants.{TooLong};
ghost use Rattle.repo_model.specs.Limits.{most_bytes, most_packages};

use crate::flags::count_among;
use crate::refusals::PlanError;
use deb_version::Bytes;
use relation_fields::Home;
use repo_model::Suite;
use std::alloc::{AllocError, Global};

/// The most names that may differ.
const MOST_NAMES: u64 = 256;

/// The most packages of the old index and of the names that differ.
const MOST_PACKAGES: u64 = 200_000;

/// The most bytes of both texts and two line feeds.
const MOST_BYTES: u64 = 1_073_741_824;

/// Checks that the two do not have different common architectures.
pub(crate) fn check_homes(old: &Home, new: &Home) -> Result<(), PlanError>
    ensures refused { IfErr result (λ error. RefusesPlan error (homes_refusal old.now new.now)) }
    ensures fine { OnOk result (homes_refusal old.now new.now ≡ None) }
{
    if are_apart(old, new) {
        return Err(PlanError::Homes);
    }
    Ok(())
}

// Whether both have a common architecture, and these differ.
fn are_apart(old: &Home, new: &Home) -> bool
    ensures { result ≡ are_apart old.now.name new.now.name }
{
    match &old.name {
        Some(one) => match &new.name {
            Some(other) => one.as_slice() != other.as_slice(),
            None => false,
        },
        None => false,
    }
}

/// Checks that not too many names differ.
pub(crate) fn check_names(names: &[Bytes]) -> Result<(), PlanError>
    ensures refused { IfErr result (λ error.
        RefusesPlan error (above 256 Names (length names.now))) }
    ensures fine { OnOk result (above 256 Names (length names.now) ≡ None) }
{
    let count = names.len() as u64;
    if count > MOST_NAMES {
        return Err(PlanError::Names { count });
    }
    Ok(())
}

/// Checks that the packages of the old index, and those of the new one that have one of the names,
/// are not too many.
pub(crate) fn check_packages(
    alloc: Global,
    old: &Suite,
    new: &Suite,
    names: &[Bytes],
) -> Result<(), PlanError>
    ensures refused { IfErr result (λ error. RefusesPlan error (above most_packages Packages
        (packages_with old.now.packages new.now.packages names.now))) }
    ensures fine { OnOk result (above most_packages Packages
        (packages_with old.now.packages new.now.packages names.now) ≡ None) }
{
    let count = packages_with(alloc, old, new, names)?;
    if count > MOST_PACKAGES {
        return Err(PlanError::Packages { count });
    }
    Ok(())
}

// How many packages the old index has, and the new one of these names.
fn packages_with(
    alloc: Global,
    old: &Suite,
    new: &Suite,
    names: &[Bytes],
) -> Result<u64, AllocError>
    ensures { IfOk result (λ count. count
        ≡ packages_with old.now.packages new.now.packages names.now) }
{
    let found = count_among(alloc, new, names)?;
    let count = old.count() as u64 + found as u64;
    Ok(count)
}

/// Checks that two texts with these numbers of bytes, and two line feeds, are not too long.
pub(crate) fn check_length(old: u64, new: u64) -> Result<(), PlanError>
    requires old { old ≤ most_bytes }
    requires new { new ≤ most_bytes }
    ensures refused { IfErr result (λ error.
        RefusesPlan error (above most_bytes TooLong (old + new + 2))) }
    ensures fine { OnOk result (above most_bytes TooLong (old + new + 2) ≡ None) }
{
    let count = old + new + 2;
    if count > MOST_BYTES {
        return Err(PlanError::TooLong { count });
    }
    Ok(())
}
