//! The way from classes that were found to packages that are installed.
ghost use Rattle.std.specs.{Prelude.{◌≡◌, ◌<◌, filter, length, IfOk}, List.{range_with_len}};
ghost use Rattle.install_lift.specs.{Lifting.{lift_of}, Trimming.{trim_of}};
ghost use Rattle.row_book.specs.{Book.{repository_of}, Flags.{flag}, Needs.{NeedsFit}};
ghost use Rattle.row_book.specs.{Repository.{Healthy}, Sets.{HitsAll}, Trail.{trail_meaning}};
ghost use Rattle.suite_compare.specs.Answering.{true_numbers};

use crate::view::SuiteView;
use clause_pool::NumList;
use install_lift::{lift, trim};
use listed::true_numbers;
use row_book::Needs;
use std::alloc::{AllocError, Global};

/// The packages that are installed if these classes are found: a healthy set that has a wanted
/// package for each goal, without what no need asks for, ascending.
pub(crate) fn install(
    alloc: Global,
    view: &SuiteView,
    wanted: &Needs,
    chosen: &[bool],
) -> Result<NumList, AllocError>
    requires healthy { Healthy
        (repository_of view.now.pool view.now.kernel.book) (flag chosen.now) }
    requires fit { NeedsFit (length view.now.book.rows) wanted.now }
    requires hits { HitsAll
        (lift_of (trail_meaning view.now.pool view.now.kernel.trail.steps) (flag chosen.now))
        wanted.now }
    ensures { IfOk result (λ install. install ≡ filter
        (trim_of (repository_of view.now.pool view.now.book) wanted.now
        (lift_of (trail_meaning view.now.pool view.now.kernel.trail.steps) (flag chosen.now)))
        (range_with_len 0 (length view.now.book.rows))) }
{
    let lifted = lift(
        alloc,
        &view.pool,
        &view.book,
        &view.kernel.book,
        &view.kernel.trail,
        chosen,
    )?;
    let trimmed = trim(alloc, &view.pool, &view.book, wanted, lifted.as_slice())?;
    let numbers = true_numbers(alloc, trimmed.as_slice())?;
    Ok(numbers)
}
