//! The command that takes names over from a newer index into an older one, without breaking any.
ghost use Rattle.std.specs.Prelude.{◌≡◌, ◌<◌, ◌≤◌, ℕ, List, Option, IfOk, length};
ghost use Rattle.clause_solver.specs.Outcomes.{IsBudget};
ghost use Rattle.coinst_words.specs.Jobs.{AreInLimits};
ghost use Rattle.migrate_plan.specs.{Indexes.{AreMeasured, Texts}, Plan.{plan_settings}};
ghost use Rattle.migrate_plan.specs.{Refusals.{RefusesPlan}, declared.plan.PlanLine.{PlanLine}};
ghost use Rattle.migrate_plan.specs.declared.refusals.PlanError.{PlanError};
ghost use Rattle.repo_model.specs.{Feeding.{IsSuiteOf}, Limits.{most_bytes}};
ghost use Rattle.coinst_run.specs.Ending.{Settles, StopsAt, ending_of, stop_ending};
ghost use Rattle.coinst_run.specs.Follows.{Follows};
ghost use Rattle.coinst_run.specs.Migrate.{by_refusal, homes_line, migrate_course, new_course};
ghost use Rattle.coinst_run.specs.Migrate.{plan_answer};

use crate::answer::{Cause, Report, Stop};
use crate::lines::{Made, line_about, too_long_line};
use crate::migrate_text::{plan_text, plan_verdict};
use crate::stages::{MeasuredIndex, measured_at};
use crate::views::view_of;
use byte_flow::Shelf;
use coinst_words::Settings;
use migrate_plan::{PlanError, TextLengths, plan_between};
use repo_model::Suite;
use std::alloc::Global;
use suite_compare::SuiteView;

/// The report on which names that differ can be taken over from the index at the newer path into
/// that at the older one. Of each text only the stanza that is open is held.
pub fn migrate<F: Shelf>(
    alloc: Global,
    shelf: &mut F,
    old: &str,
    new: &str,
    settings: Settings,
) -> Result<Report, Stop>
    requires { AreInLimits settings }
    ensures { Follows F.model
        (migrate_course old.now new.now settings.budget settings.clause_limit settings.hold)
        shelf.old (ending_of result) shelf.new }
{
    let older = measured_at(alloc, shelf, old)?;
    let MeasuredIndex { suite, length } = older;
    let view = view_of(alloc, suite, old, settings.clause_limit, settings.hold)?;
    let report = with_newer(alloc, shelf, &view, length, old, new, settings.budget);
    // Its one end: a proof follows each field at every end of the body that owns it.
    drop(view);
    report
}

// The report, once the kernel of the older index is made.
fn with_newer<F: Shelf>(
    alloc: Global,
    shelf: &mut F,
    view: &SuiteView,
    old_length: u64,
    old: &str,
    new: &str,
    budget: u64,
) -> Result<Report, Stop>
    requires short { old_length ≤ most_bytes }
    requires budget { IsBudget budget }
    requires limit { 0 < view.now.limit }
    ensures { (text : List ℕ) → IsSuiteOf text view.now.suite.packages view.now.suite.home.name →
        old_length ≡ length text
        → Follows F.model (new_course old.now new.now
        (plan_settings budget view.now.limit view.now.kernel.hold) text)
        shelf.old (ending_of result) shelf.new }
{
    let newer = measured_at(alloc, shelf, new)?;
    let lengths = TextLengths {
        old: old_length,
        new: newer.length,
    };
    let report = plan_report(alloc, view, &newer.suite, lengths, old, new, budget);
    // Its one end: a proof follows each field at every end of the body that owns it.
    drop(newer);
    report
}

// The report on the plan of two indexes.
#[tactic(auto, using(crate::proofs::Migrating::plan_told))]
fn plan_report(
    alloc: Global,
    view: &SuiteView,
    newer: &Suite,
    lengths: TextLengths,
    old: &str,
    new: &str,
    budget: u64,
) -> Result<Report, Stop>
    requires short { lengths.old ≤ most_bytes }
    requires newer_short { lengths.new ≤ most_bytes }
    requires budget { IsBudget budget }
    requires limit { 0 < view.now.limit }
    ensures { (texts : Texts) → AreMeasured texts view.now.suite newer.now lengths
        → Settles (plan_answer old.now new.now
        (plan_settings budget view.now.limit view.now.kernel.hold)
        texts.old texts.new) (ending_of result) }
{
    match plan_between(alloc, view, newer, lengths, budget) {
        Ok(plan) => {
            let lines = plan.lines.as_slice();
            Ok(Report::of(plan_verdict(lines), plan_text(alloc, lines)?))
        }
        Err(error) => Err(refusal(alloc, old, new, error)),
    }
}

// The stop if no plan is made of the indexes at two paths.
fn refusal(alloc: Global, old: &str, new: &str, error: PlanError) -> Stop
    ensures { (lines : List PlanLine) (there : Option PlanError) → RefusesPlan error there →
        StopsAt (by_refusal old.now new.now lines there) (stop_ending result) }
{
    match error {
        PlanError::Homes => Stop::refused(Cause::Content, homes_line(alloc, old, new)),
        PlanError::Names { .. } => {
            let line = line_about(alloc, new, b"more than 256 names differ");
            Stop::refused(Cause::TooLarge, line)
        }
        PlanError::Packages { .. } => {
            let line = line_about(alloc, "mix", b"more than 200000 packages");
            Stop::refused(Cause::TooLarge, line)
        }
        PlanError::TooLong { .. } => Stop::refused(Cause::TooLarge, too_long_line(alloc, "mix")),
        PlanError::Memory => Stop::Memory,
    }
}

// The line of two indexes with different architectures.
fn homes_line(alloc: Global, old: &str, new: &str) -> Made
    ensures { IfOk result (λ line. line.items ≡ homes_line old.now new.now) }
{
    let mut words = Vec::from_slice(alloc, b"another architecture than ")?;
    words.extend_from_slice(old.as_bytes())?;
    line_about(alloc, new, words.as_slice())
}
