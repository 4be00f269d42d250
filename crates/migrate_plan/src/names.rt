//! The names of two indexes, each once.
ghost use Rattle.std.specs.Prelude.{◌≡◌, ◌++◌, map, IfOk};
ghost use Rattle.repo_model.specs.Goals.{names_in};

use relation_fields::PackageFacts;
use repo_model::{NameList, distinct_names};
use std::alloc::{AllocError, Global};

/// The distinct names of the packages of two indexes, ascending by bytes.
pub(crate) fn names_of_either(
    alloc: Global,
    old: &[PackageFacts],
    new: &[PackageFacts],
) -> Result<NameList, AllocError>
    ensures { IfOk result (λ names. names ≡ names_in (old.now ++ new.now)) }
{
    let names = lent_names(alloc, old, new)?;
    distinct_names(alloc, names)
}

// One name for each package, lent from it: first those of the old index, then those of the new.
fn lent_names<'a>(
    alloc: Global,
    old: &'a [PackageFacts],
    new: &'a [PackageFacts],
) -> Result<Vec<&'a [u8]>, AllocError>
    ensures { IfOk result (λ names. map (λ name. name.now) names.items
        ≡ map (λ facts. facts.name) (old.now ++ new.now)) }
{
    let mut names = Vec::new(alloc);
    for facts in old {
        names.push(facts.name.as_slice())?;
    }
    for package in new {
        names.push(package.name.as_slice())?;
    }
    Ok(names)
}
