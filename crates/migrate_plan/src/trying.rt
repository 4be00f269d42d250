//! What becomes of a name, by the mix with it.
ghost use Rattle.std.specs.Prelude.{◌≡◌, ◌<◌, List, None, IfOk};
ghost use Rattle.migrate_plan.specs.Plan.{outcome_of, plan_settings};
ghost use Rattle.migrate_plan.specs.Trying.{outcome_by, told_of, IsViewAt};
ghost use Rattle.suite_compare.specs.{Report.{first_told}, declared.report.ReportLine.{ReportLine}};

use crate::plan::PlanLine;
use deb_version::Bytes;
use repo_model::Suite;
use std::alloc::{AllocError, Global};
use suite_compare::{LimitError, OldSide, ReportLine, SuiteView, first_line};

/// The line of a name by the suite of the mix with it, at the limit and hold of the view of the old
/// index. Such a suite is made only if the mix has another common architecture than both suites.
pub(crate) fn line_of(
    alloc: Global,
    old: &OldSide,
    mix: Suite,
    name: &[u8],
) -> Result<PlanLine, AllocError>
    requires limit { 0 < old.now.view.now.limit }
    ensures { let view = old.now.view.now in
        let settings = plan_settings old.now.budget view.limit view.kernel.hold in
        IfOk result (λ line. line
        ≡ outcome_by settings view.suite.home view.suite.packages mix.home mix.packages name.now) }
{
    let made = view_of(alloc, mix, old.view.limit, old.view.kernel.hold)?;
    match made {
        Some(view) => {
            let line = line_by_view(alloc, old, &view, name);
            // Its one end: a proof follows each field at every end of the body that owns it.
            drop(view);
            line
        }
        None => {
            let name = Bytes::copy(alloc, name)?;
            Ok(PlanLine::LeftLimit { name })
        }
    }
}

// The line of a name by the view of the mix with it, at the limit and hold of the view of the old
// index.
fn line_by_view(
    alloc: Global,
    old: &OldSide,
    view: &SuiteView,
    name: &[u8],
) -> Result<PlanLine, AllocError>
    requires limit { view.now.limit ≡ old.now.view.now.limit }
    requires hold { view.now.kernel.hold ≡ old.now.view.now.kernel.hold }
    ensures { let before = old.now.view.now in
        let settings = plan_settings old.now.budget before.limit before.kernel.hold in
        IfOk result (λ line. line ≡ outcome_of name.now None (told_of settings before.suite.home
        before.suite.packages view.now.suite.home view.now.suite.packages)) }
{
    let first = first_line(alloc, old, view)?;
    let line = plan_line(alloc, name, first)?;
    Ok(line)
}

// The view of a mix; none if it passes the clause limit.
fn view_of(
    alloc: Global,
    mix: Suite,
    limit: u32,
    hold: bool,
) -> Result<Option<SuiteView>, AllocError>
    requires { 0 < limit }
    ensures { IfOk result (IsViewAt mix.home mix.packages limit hold) }
{
    match SuiteView::of_suite(alloc, mix, limit, hold) {
        Ok(view) => Ok(Some(view)),
        Err(LimitError::Limit { .. }) => Ok(None),
        Err(LimitError::Memory) => Err(AllocError),
    }
}

/// The line of a name by the first line of the comparison with its mix.
pub(crate) fn plan_line(
    alloc: Global,
    name: &[u8],
    first: Option<ReportLine>,
) -> Result<PlanLine, AllocError>
    ensures { (lines : List ReportLine) → first ≡ first_told lines →
        IfOk result (λ line. line ≡ outcome_of name.now None lines) }
{
    let name = Bytes::copy(alloc, name)?;
    match first {
        None => Ok(PlanLine::Take { name }),
        Some(line) => Ok(PlanLine::LeftLine { name, line }),
    }
}
