//! Decides goals: by the search for a healthy set of classes, which is then taken back to packages.
ghost use Rattle.std.specs.Prelude.{◌≡◌, None, Some, IfOk, IfErr, OnOk};
ghost use Rattle.clause_solver.specs.Outcomes.{IsBudget};
ghost use Rattle.suite_compare.specs.Answering.{unknown_goal, IsAnswerOf, HasCertificate};
ghost use Rattle.suite_compare.specs.Answering.{OnUnknown};

use crate::answers::{Answer, DecideError};
use crate::ask::ask;
use crate::install::install;
use crate::view::SuiteView;
use clause_solver::{Outcome, search};
use listed::true_numbers;
use repo_model::Goal;
use std::alloc::Global;

/// Whether one package for each goal can be installed together, within a budget of failed leaves,
/// from 1 to 1,000,000. The search is that of the goals' classes in the kernel. A yes has an
/// installation of the suite, a no the log of the search.
pub fn decide(
    alloc: Global,
    view: &SuiteView,
    goals: &[Goal],
    budget: u64,
) -> Result<Answer, DecideError>
    requires { IsBudget budget }
    ensures answer { IfOk result (IsAnswerOf view.now.limit view.now.kernel.hold view.now.suite.home
        view.now.suite.packages goals.now budget) }
    ensures certified { IfOk result (HasCertificate view.now.limit view.now.kernel.hold
        view.now.suite.home view.now.suite.packages goals.now) }
    ensures known { OnOk result (unknown_goal view.now.suite.packages goals.now ≡ None) }
    ensures unknown { IfErr result (OnUnknown (λ goal.
        unknown_goal view.now.suite.packages goals.now ≡ Some goal)) }
{
    let asked = ask(alloc, view, goals)?;
    let outcome = search(alloc, &view.pool, &view.kernel.book, &asked.classes, budget)?;
    match outcome {
        Outcome::Found { chosen } => {
            let installed = install(alloc, view, &asked.packages, chosen.as_slice())?;
            let classes = true_numbers(alloc, chosen.as_slice())?;
            Ok(Answer::Yes {
                install: installed,
                classes,
            })
        }
        Outcome::Refuted { log } => Ok(Answer::No { log }),
        Outcome::Spent { failed } => Ok(Answer::Spent { failed }),
    }
}
