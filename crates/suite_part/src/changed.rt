//! Flags of packages that are not the same in two parts.
ghost use Rattle.std.specs.Prelude.{◌≡◌, ◌+◌, ◌<◌, ◌≤◌, ℕ, false, not, count_by, IfOk, OnOk};
ghost use Rattle.std.specs.Prelude.{length, replicate};
ghost use Rattle.listed.specs.Lists.{In};
ghost use Rattle.suite_part.specs.Bases.{first_flags, Flags};

use crate::subset::Subset;
use std::alloc::{AllocError, Global};

/// The first `count` of all packages.
pub(crate) fn first_chosen(alloc: Global, count: u32, size: u32) -> Result<Subset, AllocError>
    requires { count ≤ size }
    ensures { IfOk result (λ made. made.flags.items ≡ first_flags count size) }
{
    let mut flags = Vec::with_capacity(alloc, size as usize)?;
    for number in 0..size {
        flags.push(number < count)?;
    }
    Subset::of(alloc, flags)
}

/// Flags that are all down.
pub(crate) fn none_flagged(alloc: Global, count: usize) -> Result<Vec<bool>, AllocError>
    ensures { IfOk result (λ flags. flags.items ≡ replicate count false) }
{
    vec![in alloc; false; count]
}

/// Flags the packages. Those that were not flagged are appended to the work, so that their users
/// are looked at.
pub(crate) fn put_changed(
    packages: &[u32],
    changed: &mut [bool],
    work: &mut Vec<u32>,
) -> Result<(), AllocError>
    requires { (n : ℕ) → In n packages.now → n < length changed.old }
    ensures flags { OnOk result
        (Flags packages.now changed.old work.old.items changed.new work.new.items) }
    ensures count { OnOk result (count_by not changed.new + length work.new.items
        ≡ count_by not changed.old + length work.old.items) }
{
    for number in packages {
        if !changed[*number as usize] {
            changed[*number as usize] = true;
            work.push(*number)?;
        }
    }
    Ok(())
}
