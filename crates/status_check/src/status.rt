//! An installed system against an index.
ghost use Rattle.std.specs.Prelude.{◌≡◌, ◌≤◌, ◌↔◌, None, length, map, IfOk, IfErr, OnOk};
ghost use Rattle.clause_solver.specs.Outcomes.{IsBudget};
ghost use Rattle.repo_model.specs.{Refusals.{Refuses}, Repository.{suite_repository}};
ghost use Rattle.repo_model.specs.{Stanzas.{HealthyStanzas}, Limits.{most_bytes}};
ghost use Rattle.suite_compare.specs.Asking.{verdict_in};
ghost use Rattle.status_check.specs.Own.{foreign_count, own_home, own_packages, status_fault};
ghost use Rattle.status_check.specs.declared.report.OwnState.TheVariants.{Healthy};
ghost use Rattle.status_check.specs.Report.{all_of, had_goals, line_for, state_of, HoldsInIndex};
ghost use Rattle.status_check.specs.Report.{IsStateOf};

use crate::classes::{look_up, suite_state};
use crate::own::read_own;
use crate::report::StatusReport;
use crate::state::own_state;
use repo_model::IndexFault;
use std::alloc::Global;
use suite_compare::SuiteView;

/// What an index has of the packages that a status file of dpkg says are installed, and whether
/// these are consistent.
///
/// The report says which of the own packages the index has. It says whether all of them are a
/// healthy set, and whether those that the index has can be installed from it together. The search
/// for that may have from 1 to 1,000,000 failed leaves. Stanzas that are not installed are passed
/// over. Foreign ones, whose architecture is neither `all` nor the home of the index, are only
/// counted. The error is the first fault of the file, or want of memory.
pub fn status_report(
    alloc: Global,
    view: &SuiteView,
    bytes: &[u8],
    budget: u64,
) -> Result<StatusReport, IndexFault>
    requires budget { IsBudget budget }
    requires size { length bytes.now ≤ most_bytes }
    ensures refused { IfErr result (λ fault.
        Refuses fault (status_fault view.now.suite.home bytes.now)) }
    ensures accepted { OnOk result (status_fault view.now.suite.home bytes.now ≡ None) }
    ensures lines { IfOk result (λ report. report.lines
        ≡ map (line_for view.now.suite.packages) (own_packages view.now.suite.home bytes.now)) }
    ensures foreign { IfOk result (λ report. report.foreign
        ≡ foreign_count view.now.suite.home bytes.now) }
    ensures own { IfOk result (λ report. IsStateOf
        (suite_repository (own_home view.now.suite.home bytes.now)
        (own_packages view.now.suite.home bytes.now))
        (all_of (own_packages view.now.suite.home bytes.now)) report.own) }
    ensures verdict { IfOk result (λ report. report.verdict ≡ state_of budget
        (verdict_in view.now.limit view.now.kernel.hold
        view.now.suite.home view.now.suite.packages budget
        (had_goals view.now.suite.packages (own_packages view.now.suite.home bytes.now)))) }
    // `Healthy` is said exactly if all own packages are a healthy set, judged on their stanzas.
    ensures healthy { IfOk result (λ report. (report.own ≡ Healthy)
        ↔ HealthyStanzas (own_home view.now.suite.home bytes.now)
        (own_packages view.now.suite.home bytes.now)
        (all_of (own_packages view.now.suite.home bytes.now))) }
    // A yes and a no are true on the stanzas of the index.
    ensures judged { IfOk result (λ report.
        HoldsInIndex view.now.suite.home view.now.suite.packages
        (had_goals view.now.suite.packages (own_packages view.now.suite.home bytes.now))
        report.verdict) }
{
    let read = read_own(alloc, &view.suite.home, bytes)?;
    let packages = read.suite.packages.as_slice();
    let had = look_up(alloc, view, packages)?;
    let own = own_state(alloc, &read.suite)?;
    let verdict = suite_state(alloc, view, &had.classes, budget)?;
    Ok(StatusReport {
        lines: had.lines,
        foreign: read.foreign,
        own,
        verdict,
    })
}
