//! The command that holds an installed system against an index.
ghost use Rattle.std.specs.Prelude.{◌≤◌, length};
ghost use Rattle.clause_solver.specs.Outcomes.{IsBudget};
ghost use Rattle.coinst_words.specs.Jobs.{AreInLimits};
ghost use Rattle.coinst_run.specs.{Course.{reads}, Ending.{Settles, ending_of}, Follows.{Follows}};
ghost use Rattle.coinst_run.specs.{Index.{index_of}, SystemStatus.{status_course, system_answer}};
ghost use Rattle.repo_model.specs.Limits.{most_bytes};

use crate::answer::{Report, Stop};
use crate::stages::{faulty, text_at};
use crate::system_text::{system_text, system_verdict};
use crate::views::view_at;
use byte_flow::Shelf;
use coinst_words::Settings;
use status_check::status_report;
use std::alloc::Global;
use suite_compare::SuiteView;

/// The report on the installed system of the status file at a path against the index at another,
/// which is read first.
pub fn system_status<F: Shelf>(
    alloc: Global,
    shelf: &mut F,
    file: &str,
    index: &str,
    settings: Settings,
) -> Result<Report, Stop>
    requires { AreInLimits settings }
    ensures { Follows F.model
        (status_course file.now index.now settings.budget settings.clause_limit settings.hold)
        shelf.old (ending_of result) shelf.new }
{
    let view = view_at(alloc, shelf, index, settings.clause_limit, settings.hold)?;
    let report = system_at(alloc, shelf, &view, file, settings.budget);
    // Its one end: a proof follows each field at every end of the body that owns it.
    drop(view);
    report
}

// The report on the installed system of the status file at a path against the index of a view.
fn system_at<F: Shelf>(
    alloc: Global,
    shelf: &mut F,
    view: &SuiteView,
    file: &str,
    budget: u64,
) -> Result<Report, Stop>
    requires { IsBudget budget }
    ensures { Follows F.model (reads file.now (system_answer file.now budget view.now.limit
        view.now.kernel.hold (index_of view.now.suite))) shelf.old (ending_of result) shelf.new }
{
    let text = text_at(alloc, shelf, file)?;
    system_report(alloc, view, text.as_slice(), file, budget)
}

// The report on the installed system of a text.
fn system_report(
    alloc: Global,
    view: &SuiteView,
    text: &[u8],
    path: &str,
    budget: u64,
) -> Result<Report, Stop>
    requires budget { IsBudget budget }
    requires short { length text.now ≤ most_bytes }
    ensures { Settles
        (system_answer path.now budget view.now.limit view.now.kernel.hold
        (index_of view.now.suite) text.now) (ending_of result) }
{
    match status_report(alloc, view, text, budget) {
        Ok(report) => Ok(Report::of(
            system_verdict(report.own, report.verdict),
            system_text(alloc, &report, budget)?,
        )),
        Err(fault) => Err(faulty(alloc, path, fault)),
    }
}
