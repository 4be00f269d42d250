//! The view of an index, as a part of commands: its packages, and its kernel at a clause limit.
ghost use Rattle.std.specs.Prelude.{◌≡◌, ◌<◌, Bool, Ok, IfOk, IfErr, OnOk};
ghost use Rattle.suite_compare.specs.Refusals.{RefusesSuite};
ghost use Rattle.repo_model.specs.Facts.{AreNamedPackages};
ghost use Rattle.coinst_run.specs.{Course.{Course}, Ending.{StopsAt, stop_ending}};
ghost use Rattle.coinst_run.specs.{Follows.{Follows, ReachesKernel}, Index.{Index, index_of}};
ghost use Rattle.coinst_run.specs.IndexKernel.{ClassedKernel, index_kernel};
ghost use Rattle.coinst_run.specs.Kernel.{kernel_of, reads_kernel};

use crate::answer::{Cause, Stop};
use crate::lines::{line_about, push_row, push_stage};
use crate::stages::suite_at;
use byte_flow::Shelf;
use repo_model::Suite;
use std::alloc::{AllocError, Global};
use suite_compare::{LimitError, SuiteView};

// The stop of a suite that passed the clause limit.
fn limit_stop(alloc: Global, path: &str, limit: u32, error: LimitError) -> Result<Stop, AllocError>
    ensures { IfOk result (λ stop. (index : Index) (hold : Bool) →
        RefusesSuite index.home index.packages limit hold error →
        StopsAt (kernel_of path.now limit hold index) (stop_ending stop)) }
{
    match error {
        LimitError::Limit {
            round,
            gone,
            count,
            name,
            version,
            ..
        } => {
            let mut words = Vec::new(alloc);
            push_stage(
                &mut words,
                u64::from(limit),
                u64::from(round),
                u64::from(gone),
            )?;
            push_row(&mut words, name.as_slice(), version.as_slice(), count)?;
            let line = line_about(alloc, path, words.as_slice());
            Ok(Stop::refused(Cause::ClauseLimit, line))
        }
        LimitError::Memory => Ok(Stop::Memory),
    }
}

/// The view of a suite at a clause limit, with hold or without, or the package that passed the
/// limit.
pub fn view_of(
    alloc: Global,
    suite: Suite,
    path: &str,
    limit: u32,
    hold: bool,
) -> Result<SuiteView, Stop>
    requires { 0 < limit }
    ensures kernel { OnOk result (kernel_of path.now limit hold (index_of suite)
        ≡ Ok (index_kernel limit hold suite.home suite.packages)) }
    ensures suite { IfOk result (λ view. index_of view.suite ≡ index_of suite) }
    ensures limit { IfOk result (λ view. view.limit ≡ limit) }
    ensures hold { IfOk result (λ view. view.kernel.hold ≡ hold) }
    ensures stop { IfErr result (λ stop.
        StopsAt (kernel_of path.now limit hold (index_of suite)) (stop_ending stop)) }
{
    match SuiteView::of_suite(alloc, suite, limit, hold) {
        Ok(view) => Ok(view),
        Err(error) => Err(limit_stop(alloc, path, limit, error)?),
    }
}

/// The view of the index at a path at a clause limit, with hold or without. The file is read whole
/// and its kernel is extracted, or it is said why there is none.
pub fn view_at<F: Shelf>(
    alloc: Global,
    shelf: &mut F,
    path: &str,
    limit: u32,
    hold: bool,
) -> Result<SuiteView, Stop>
    requires { 0 < limit }
    ensures view { IfOk result (λ view.
        ReachesKernel F.model shelf.old path.now limit hold (index_of view.suite) shelf.new) }
    ensures named { IfOk result (λ view. AreNamedPackages view.suite.packages) }
    ensures limit { IfOk result (λ view. view.limit ≡ limit) }
    ensures hold { IfOk result (λ view. view.kernel.hold ≡ hold) }
    ensures stop { IfErr result (λ stop. (next : Index → ClassedKernel → Course) → Follows F.model
        (reads_kernel path.now limit hold next) shelf.old (stop_ending stop) shelf.new) }
{
    let suite = suite_at(alloc, shelf, path)?;
    view_of(alloc, suite, path, limit, hold)
}
