//! The command that prints the kernel of an index.
ghost use Rattle.std.specs.Prelude.{◌≡◌, IfOk};
ghost use Rattle.coinst_words.specs.Jobs.{AreInLimits};
ghost use Rattle.repo_model.specs.Facts.{AreNamedPackages};
ghost use Rattle.coinst_run.specs.{Ending.{Settles, ending_of}, Follows.{Follows}};
ghost use Rattle.coinst_run.specs.{Index.{index_of}, IndexKernel.{index_kernel}};
ghost use Rattle.coinst_run.specs.Kernel.{kernel_answer, kernel_course, printed_kernel};

use crate::answer::{Report, ReportVerdict, Stop};
use crate::lines::Made;
use crate::views::view_at;
use byte_flow::Shelf;
use coinst_words::Settings;
use kernel_text::{kernel_json, write_kernel};
use std::alloc::Global;
use suite_compare::SuiteView;

/// The report on the kernel of the index at a path, as text or as JSON.
pub fn kernel<F: Shelf>(
    alloc: Global,
    shelf: &mut F,
    path: &str,
    json: bool,
    settings: Settings,
) -> Result<Report, Stop>
    requires { AreInLimits settings }
    ensures { Follows F.model
        (kernel_course path.now json settings.clause_limit settings.hold) shelf.old
        (ending_of result) shelf.new }
{
    let view = view_at(alloc, shelf, path, settings.clause_limit, settings.hold)?;
    let report = kernel_report(alloc, &view, json);
    // Its one end: a proof follows each field at every end of the body that owns it.
    drop(view);
    report
}

// The report on the kernel of a view, as text or as JSON.
fn kernel_report(alloc: Global, view: &SuiteView, json: bool) -> Result<Report, Stop>
    requires { AreNamedPackages view.now.suite.packages }
    ensures { Settles (kernel_answer json (index_of view.now.suite) (index_kernel view.now.limit
        view.now.kernel.hold view.now.suite.home view.now.suite.packages)) (ending_of result) }
{
    Ok(Report::of(ReportVerdict::Done, printed_kernel(alloc, view, json)?))
}

// The kernel of a view as text, or as JSON.
fn printed_kernel(alloc: Global, view: &SuiteView, json: bool) -> Made
    requires { AreNamedPackages view.now.suite.packages }
    ensures { IfOk result (λ text. text.items
        ≡ printed_kernel json view.now.suite.packages (index_kernel view.now.limit
        view.now.kernel.hold view.now.suite.home view.now.suite.packages)) }
{
    if json {
        return kernel_json(alloc, &view.pool, &view.suite, &view.kernel);
    }
    write_kernel(alloc, &view.pool, &view.suite, &view.kernel)
}
