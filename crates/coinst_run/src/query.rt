//! The command that asks whether one package for each goal can be installed together.
ghost use Rattle.std.specs.Prelude.{◌≡◌, ◌<◌, ◌≤◌, IfSome, length};
ghost use Rattle.clause_solver.specs.Outcomes.{IsBudget};
ghost use Rattle.coinst_words.specs.Jobs.{AreInLimits};
ghost use Rattle.coinst_run.specs.{Course.{answers}, Ending.{Settles, ending_of, stop_ending}};
ghost use Rattle.coinst_run.specs.{Follows.{Follows}, Index.{index_of}, Outcome.{answered}};
ghost use Rattle.coinst_run.specs.Query.{goal_of_number, goals_answer, query_course};
ghost use Rattle.coinst_run.specs.Query.{unknown_answer};

use crate::answer::{Cause, Report, ReportVerdict, Stop};
use crate::query_text::{no_text, undecided_text, unknown_line, yes_text};
use crate::views::view_at;
use byte_flow::Shelf;
use coinst_words::Settings;
use repo_model::Goal;
use std::alloc::Global;
use suite_compare::{Answer, DecideError, SuiteView, decide};

/// The report on goals that are asked of the index at a path.
pub fn query<F: Shelf>(
    alloc: Global,
    shelf: &mut F,
    path: &str,
    goals: &[Goal],
    settings: Settings,
) -> Result<Report, Stop>
    requires { AreInLimits settings }
    ensures { Follows F.model
        (query_course path.now goals.now settings.budget settings.clause_limit settings.hold)
        shelf.old (ending_of result) shelf.new }
{
    let view = view_at(alloc, shelf, path, settings.clause_limit, settings.hold)?;
    let report = goals_report(alloc, &view, goals, settings.budget);
    // Its one end: a proof follows each field at every end of the body that owns it.
    drop(view);
    report
}

/// The goal of a number, counted from 1.
pub(crate) fn goal_of_number(goals: &[Goal], number: u64) -> &Goal
    requires counted { 0 < number }
    requires within { number ≤ length goals.now }
    ensures { result.now ≡ goal_of_number goals.now number }
{
    &goals[number as usize - 1]
}

/// The stop of the goal of a number, counted from 1, that is the first to name no package.
pub(crate) fn unknown_goal(alloc: Global, goals: &[Goal], number: u64) -> Stop
    requires { (0 < number) × (number ≤ length goals.now) }
    ensures { IfSome (stop_ending result) (λ outcome. outcome
        ≡ answered (unknown_answer goals.now number)) }
{
    let goal = goal_of_number(goals, number);
    Stop::refused(Cause::UnknownGoal, unknown_line(alloc, number, goal))
}

// The report on goals that are asked of a view.
fn goals_report(
    alloc: Global,
    view: &SuiteView,
    goals: &[Goal],
    budget: u64,
) -> Result<Report, Stop>
    requires { IsBudget budget }
    ensures { Settles
        (answers (goals_answer goals.now budget view.now.limit view.now.kernel.hold
        (index_of view.now.suite))) (ending_of result) }
{
    match decide(alloc, view, goals, budget) {
        Ok(Answer::Yes { install, .. }) => Ok(Report::of(
            ReportVerdict::Done,
            yes_text(alloc, view.suite.packages.as_slice(), install.as_slice())?,
        )),
        Ok(Answer::No { log }) => Ok(Report::of(ReportVerdict::Negative, no_text(alloc, &log)?)),
        Ok(Answer::Spent { .. }) => Ok(Report::of(
            ReportVerdict::Undecided,
            undecided_text(alloc, budget)?,
        )),
        Err(DecideError::Unknown { goal }) => Err(unknown_goal(alloc, goals, goal)),
        Err(DecideError::Memory) => Err(Stop::Memory),
    }
}
