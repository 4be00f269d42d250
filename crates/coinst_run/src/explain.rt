//! The command that says why one package for each goal cannot be installed together.
ghost use Rattle.std.specs.Prelude.{length};
ghost use Rattle.clause_solver.specs.Outcomes.{IsBudget};
ghost use Rattle.coinst_words.specs.Jobs.{AreInLimits};
ghost use Rattle.coinst_run.specs.{Course.{answers}, Ending.{Settles, ending_of}};
ghost use Rattle.coinst_run.specs.Explain.{explain_course, explanation_answer, goals_explained};
ghost use Rattle.coinst_run.specs.{Follows.{Follows}, Index.{index_of}};
ghost use Rattle.explain_core.specs.OnStanzas.{IsTellable};

use crate::answer::{Report, ReportVerdict, Stop};
use crate::explain_text::core_text;
use crate::query::unknown_goal;
use crate::query_text::undecided_text;
use crate::views::view_at;
use byte_flow::Shelf;
use coinst_words::Settings;
use explain_core::{ExplainError, Explanation};
use relation_fields::PackageFacts;
use repo_model::Goal;
use std::alloc::Global;
use suite_compare::SuiteView;

/// The report on why goals cannot be met together in the index at a path, if they cannot.
pub fn explain<F: Shelf>(
    alloc: Global,
    shelf: &mut F,
    path: &str,
    goals: &[Goal],
    settings: Settings,
) -> Result<Report, Stop>
    requires { AreInLimits settings }
    ensures { Follows F.model
        (explain_course path.now goals.now settings.budget settings.clause_limit settings.hold)
        shelf.old (ending_of result) shelf.new }
{
    let view = view_at(alloc, shelf, path, settings.clause_limit, settings.hold)?;
    let report = explain_goals(alloc, &view, goals, settings.budget);
    // Its one end: a proof follows each field at every end of the body that owns it.
    drop(view);
    report
}

// The report on goals in a view.
fn explain_goals(
    alloc: Global,
    view: &SuiteView,
    goals: &[Goal],
    budget: u64,
) -> Result<Report, Stop>
    requires { IsBudget budget }
    ensures { Settles
        (answers (goals_explained goals.now budget view.now.limit view.now.kernel.hold
        (index_of view.now.suite))) (ending_of result) }
{
    match explain_core::explain(alloc, view, goals, budget) {
        Ok(explanation) => explanation_report(
            alloc,
            view.suite.packages.as_slice(),
            goals,
            budget,
            &explanation,
        ),
        Err(ExplainError::Unknown { goal }) => Err(unknown_goal(alloc, goals, goal)),
        Err(ExplainError::Memory) => Err(Stop::Memory),
    }
}

// The report on an explanation of goals over packages.
#[tactic(auto, unfolding(crate::specs::ExplainText::yes_line))]
fn explanation_report(
    alloc: Global,
    packages: &[PackageFacts],
    goals: &[Goal],
    budget: u64,
    explanation: &Explanation,
) -> Result<Report, Stop>
    requires { IsTellable (length packages.now) (length goals.now) explanation.now }
    ensures { Settles (answers (explanation_answer packages.now goals.now budget explanation.now))
        (ending_of result) }
{
    match explanation {
        Explanation::Yes => {
            let text = Vec::from_slice(alloc, b"yes\n")?;
            Ok(Report::of(ReportVerdict::Done, text))
        }
        Explanation::Spent { .. } => Ok(Report::of(
            ReportVerdict::Undecided,
            undecided_text(alloc, budget)?,
        )),
        Explanation::Core {
            goals: marks,
            clashes,
        } => Ok(Report::of(
            ReportVerdict::Negative,
            core_text(alloc, packages, goals, marks.as_slice(), clashes)?,
        )),
    }
}
