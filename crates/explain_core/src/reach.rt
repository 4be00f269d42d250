//! Packages within reach of goals.
ghost use Rattle.std.specs.{Prelude.{◌≡◌, ◌<◌, IfOk, OnOk, length, slice_index_or}, List.{concat}};
ghost use Rattle.clause_pool.specs.Interned.{row_at};
ghost use Rattle.row_book.specs.{Book.{repository_of, Sound}, Flags.{flag}, Needs.{NeedsFit}};
ghost use Rattle.explain_core.specs.{Meeting.{Meets}, Reach.{IsReach}};

use crate::met::Met;
use clause_pool::Pool;
use row_book::{Book, Needs};
use std::alloc::{AllocError, Global};

/// Meets what a package needs.
fn meet_needs(pool: &Pool, book: &Book, package: u32, met: &mut Met) -> Result<(), AllocError>
    requires sound { Sound pool.now book.now }
    requires number { «package» < length book.now.rows }
    requires size { met.old.0 ≡ length book.now.rows }
    ensures size { OnOk result (met.new.0 ≡ met.old.0) }
    ensures put { OnOk result (Meets met.old.1 met.new.1
        (concat (row_at pool.now (slice_index_or book.now.rows «package» 0)))) }
{
    met.meet_row(pool, pool.row(book.row(package)))
}

/// The packages within reach of the goals, a flag for each package.
pub(crate) fn reach_of(
    alloc: Global,
    pool: &Pool,
    book: &Book,
    goals: &Needs,
) -> Result<Vec<bool>, AllocError>
    requires sound { Sound pool.now book.now }
    requires goals { NeedsFit (length book.now.rows) goals.now }
    ensures { IfOk result (λ flags.
        IsReach (repository_of pool.now book.now) goals.now (flag flags.items)) }
{
    let mut met = Met::new(alloc, book.size())?;
    met.meet_goals(goals)?;
    let mut place = 0;
    while place < met.as_slice().len() {
        let number = met.as_slice()[place];
        meet_needs(pool, book, number, &mut met)?;
        place += 1;
    }
    Ok(met.into_flags())
}
