//! What goals ask for: packages, and classes of the kernel.
ghost use Rattle.std.specs.Prelude.{◌≡◌, None, Some, IfOk, IfErr, OnOk};
ghost use Rattle.repo_model.specs.declared.goals.Goal.{Goal};
ghost use Rattle.suite_compare.specs.{Asking.{images_of, wanted_by}, Answering.{unknown_goal}};
ghost use Rattle.explain_core.specs.Explaining.{OnUnknownGoal};

use crate::explanation::ExplainError;
use repo_model::Goal;
use row_book::Needs;
use std::alloc::{AllocError, Global};
use suite_compare::{SuiteView, image_of};

/// The packages that each goal names, or the first goal that names none.
pub(crate) fn wanted_by(
    alloc: Global,
    view: &SuiteView,
    goals: &[Goal],
) -> Result<Needs, ExplainError>
    ensures wanted { IfOk result (λ wanted. wanted ≡ wanted_by view.now.suite.packages goals.now) }
    ensures known { OnOk result (unknown_goal view.now.suite.packages goals.now ≡ None) }
    ensures unknown { IfErr result (OnUnknownGoal (λ goal.
        unknown_goal view.now.suite.packages goals.now ≡ Some goal)) }
{
    let mut wanted = Needs::new(alloc);
    for (place, goal) in goals.iter().enumerate() {
        let chosen = view.suite.chosen_by(alloc, goal)?;
        if chosen.is_empty() {
            return Err(ExplainError::Unknown {
                goal: place as u64 + 1,
            });
        }
        wanted.push(&chosen)?;
    }
    Ok(wanted)
}

/// The classes of the packages that each goal names.
pub(crate) fn classes_of(
    alloc: Global,
    view: &SuiteView,
    goals: &[Goal],
    wanted: &Needs,
) -> Result<Needs, AllocError>
    requires { wanted.now ≡ wanted_by view.now.suite.packages goals.now }
    ensures { IfOk result (λ classes. classes ≡ images_of view.now.limit view.now.kernel.hold
        view.now.suite.home view.now.suite.packages goals.now) }
{
    let mut classes = Needs::new(alloc);
    for place in 0..wanted.count() {
        let image = image_of(alloc, view, wanted.at(place))?;
        classes.push(&image)?;
    }
    Ok(classes)
}
