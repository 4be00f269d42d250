//! The common architecture of a mix.
//!
//! A suite has at most one architecture besides `all`, and each package knows whether it is of that
//! one. If the mix has such a package of the first suite, its architecture is that of the mix. If
//! not, this is tried with the second suite.
ghost use Rattle.std.specs.Prelude.{◌≡◌, ◌&&◌, IfOk, slice_index_or, false};
ghost use Rattle.std.specs.{List.{items_where_true}, Option.{option_or}};
ghost use Rattle.migrate_plan.specs.Indexes.{has_arch_dependent, home_where};

use deb_version::Bytes;
use relation_fields::{Home, PackageFacts};
use repo_model::Suite;
use std::alloc::{AllocError, Global};

/// The common architecture of the packages of two suites whose flags are up, those of the first
/// suite before the others.
pub(crate) fn home_of_both(
    alloc: Global,
    first: &Suite,
    flags: &[bool],
    second: &Suite,
    others: &[bool],
) -> Result<Home, AllocError>
    ensures { IfOk result (λ home. home.name
        ≡ option_or (home_where flags.now first.now) (home_where others.now second.now)) }
{
    let found = home_where(alloc, first, flags)?;
    match found {
        Some(name) => Ok(Home { name: Some(name) }),
        None => {
            let name = home_where(alloc, second, others)?;
            Ok(Home { name })
        }
    }
}

// The architecture of a suite, if one of its packages whose flags are up has it.
fn home_where(alloc: Global, suite: &Suite, flags: &[bool]) -> Result<Option<Bytes>, AllocError>
    ensures { IfOk result (λ name. name ≡ home_where flags.now suite.now) }
{
    if !has_arch_dependent(suite.packages.as_slice(), flags) {
        return Ok(None);
    }
    match &suite.home.name {
        Some(name) => Ok(Some(Bytes::copy(alloc, name.as_slice())?)),
        None => Ok(None),
    }
}

// Whether one of the packages whose flags are up has an architecture other than `all`.
fn has_arch_dependent(packages: &[PackageFacts], flags: &[bool]) -> bool
    ensures { result ≡ has_arch_dependent (items_where_true flags.now packages.now) }
{
    for (place, facts) in packages.iter().enumerate() {
        if is_dependent_where(facts, is_raised(flags, place)) {
            return true;
        }
    }
    false
}

// Whether the flag is up, and the package has an architecture other than `all`.
fn is_dependent_where(facts: &PackageFacts, flag: bool) -> bool
    ensures { result ≡ (flag && facts.now.is_arch_dependent) }
{
    flag && facts.is_arch_dependent
}

// Whether there is a flag at the place, and it is up.
fn is_raised(flags: &[bool], place: usize) -> bool
    ensures { result ≡ slice_index_or flags.now place false }
{
    if place < flags.len() {
        return flags[place];
    }
    false
}
