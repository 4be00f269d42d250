//! What goals ask for: packages, and classes of the kernel.
ghost use Rattle.std.specs.Prelude.{◌≡◌, ◌↔◌, ◌<◌, ℕ, None, Some, map, length, slice_index_or};
ghost use Rattle.std.specs.Prelude.{IfOk, IfErr, OnOk};
ghost use Rattle.listed.specs.Lists.{Ascending, In};
ghost use Rattle.repo_model.specs.Repository.{suite_repository};
ghost use Rattle.suite_compare.specs.Asking.{goal_classes, images_of, wanted_by};
ghost use Rattle.suite_compare.specs.{Answering.{unknown_goal, OnUnknown}, Bearers.{AreClasses}};

use crate::answers::DecideError;
use crate::view::SuiteView;
use listed::sort_once;
use repo_model::Goal;
use row_book::Needs;
use std::alloc::{AllocError, Global};

/// For each goal the packages that it names, and their classes.
#[derive(Drop)]
pub(crate) struct Asked {
    pub(crate) packages: Needs,
    pub(crate) classes: Needs,
}

/// What the goals ask for, or the first of them that names no package.
pub(crate) fn ask(alloc: Global, view: &SuiteView, goals: &[Goal]) -> Result<Asked, DecideError>
    ensures packages { IfOk result (λ asked. asked.packages
        ≡ wanted_by view.now.suite.packages goals.now) }
    ensures classes { IfOk result (λ asked. asked.classes ≡ images_of view.now.limit
        view.now.kernel.hold view.now.suite.home view.now.suite.packages goals.now) }
    ensures known { OnOk result (unknown_goal view.now.suite.packages goals.now ≡ None) }
    ensures unknown { IfErr result (OnUnknown (λ goal.
        unknown_goal view.now.suite.packages goals.now ≡ Some goal)) }
{
    let mut packages = Needs::new(alloc);
    let mut classes = Needs::new(alloc);
    for (place, goal) in goals.iter().enumerate() {
        let chosen = view.suite.chosen_by(alloc, goal)?;
        if chosen.is_empty() {
            return Err(DecideError::Unknown {
                goal: place as u64 + 1,
            });
        }
        let image = image_of(alloc, view, &chosen)?;
        packages.push(&chosen)?;
        classes.push(&image)?;
    }
    Ok(Asked { packages, classes })
}

/// The classes of some packages, ascending.
pub fn image_of(alloc: Global, view: &SuiteView, chosen: &[u32]) -> Result<Vec<u32>, AllocError>
    requires { (n : ℕ) → In n chosen.now → n < length view.now.suite.packages }
    ensures { IfOk result (λ image. image.items ≡ goal_classes view.now.limit view.now.kernel.hold
        (suite_repository view.now.suite.home view.now.suite.packages) chosen.now) }
{
    let classes = classes_by(alloc, view.kernel.class_of.as_slice(), chosen)?;
    Ok(classes)
}

/// The classes of some packages, ascending, by the class of each package.
pub(crate) fn classes_by(
    alloc: Global,
    class_of: &[u32],
    chosen: &[u32],
) -> Result<Vec<u32>, AllocError>
    requires { (n : ℕ) → In n chosen.now → n < length class_of.now }
    ensures { IfOk result (λ image. AreClasses class_of.now chosen.now image.items) }
{
    let mut classes = each_class(alloc, class_of, chosen)?;
    sort_once(&mut classes);
    Ok(classes)
}

// The class of each of the packages.
fn each_class(alloc: Global, class_of: &[u32], chosen: &[u32]) -> Result<Vec<u32>, AllocError>
    requires { (n : ℕ) → In n chosen.now → n < length class_of.now }
    ensures { IfOk result (λ classes. classes.items
        ≡ map (λ n. slice_index_or class_of.now n 0) chosen.now) }
{
    let mut classes = Vec::new(alloc);
    for number in chosen {
        classes.push(class_of[*number as usize])?;
    }
    Ok(classes)
}
