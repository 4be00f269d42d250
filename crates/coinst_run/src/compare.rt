//! The command that lists what a newer index has broken of an older one.
ghost use Rattle.std.specs.Prelude.{◌≡◌, ◌<◌};
ghost use Rattle.clause_solver.specs.Outcomes.{IsBudget};
ghost use Rattle.coinst_words.specs.Jobs.{AreInLimits};
ghost use Rattle.coinst_run.specs.Compare.{broken_lines, compare_answer, compare_course};
ghost use Rattle.coinst_run.specs.{Compare.{lines_answer}, Course.{answers}};
ghost use Rattle.coinst_run.specs.{Ending.{Settles, ending_of}, Follows.{Follows}};
ghost use Rattle.coinst_run.specs.{Index.{index_of}, Kernel.{reads_kernel}};

use crate::answer::{Report, Stop};
use crate::compare_text::{comparison_text, comparison_verdict};
use crate::views::view_at;
use byte_flow::Shelf;
use coinst_words::Settings;
use std::alloc::Global;
use suite_compare::SuiteView;

/// The report on what the index at the newer path has broken of that at the older one.
pub fn compare<F: Shelf>(
    alloc: Global,
    shelf: &mut F,
    old: &str,
    new: &str,
    settings: Settings,
) -> Result<Report, Stop>
    requires { AreInLimits settings }
    ensures { Follows F.model
        (compare_course old.now new.now settings.budget settings.clause_limit settings.hold)
        shelf.old (ending_of result) shelf.new }
{
    let before = view_at(alloc, shelf, old, settings.clause_limit, settings.hold)?;
    let report = against_newer(alloc, shelf, &before, new, settings.budget);
    // Its one end: a proof follows each field at every end of the body that owns it.
    drop(before);
    report
}

// The report on what the index at a path has broken of that of an older view, at the limit of this
// view, with hold or without.
fn against_newer<F: Shelf>(
    alloc: Global,
    shelf: &mut F,
    old: &SuiteView,
    new: &str,
    budget: u64,
) -> Result<Report, Stop>
    requires budget { IsBudget budget }
    requires limit { 0 < old.now.limit }
    ensures { Follows F.model (reads_kernel new.now old.now.limit old.now.kernel.hold
        (compare_answer budget old.now.limit old.now.kernel.hold (index_of old.now.suite)))
        shelf.old (ending_of result) shelf.new }
{
    let after = view_at(alloc, shelf, new, old.limit, old.kernel.hold)?;
    let report = comparison(alloc, old, &after, budget);
    // Its one end: a proof follows each field at every end of the body that owns it.
    drop(after);
    report
}

// The report on two views of one limit and hold.
#[tactic(auto, unfolding(crate::specs::Compare::broken_lines))]
fn comparison(alloc: Global, old: &SuiteView, new: &SuiteView, budget: u64) -> Result<Report, Stop>
    requires budget { IsBudget budget }
    requires limit { new.now.limit ≡ old.now.limit }
    requires hold { new.now.kernel.hold ≡ old.now.kernel.hold }
    ensures { Settles (answers (lines_answer (broken_lines budget old.now.limit old.now.kernel.hold
        (index_of old.now.suite) (index_of new.now.suite)))) (ending_of result) }
{
    let report = suite_compare::compare(alloc, old, new, budget)?;
    let lines = report.lines.as_slice();
    Ok(Report::of(comparison_verdict(lines), comparison_text(alloc, lines)?))
}
