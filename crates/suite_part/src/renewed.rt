//! The rows of a base with some of them made anew. Those of packages that have not changed stay,
//! since in the numbers of the book they are the same in both parts.
ghost use Rattle.std.specs.{Prelude.{◌≡◌, ◌<◌, IfNone, IfOk, length, true}, Option.{ForSome}};
ghost use Rattle.clause_pool.specs.Interned.{IsPool, Kept};
ghost use Rattle.row_book.specs.{Flags.{flag}, Parts.{place_in}};
ghost use Rattle.suite_part.specs.BaseRows.{AreBaseRows};
ghost use Rattle.suite_part.specs.Renewed.{AreRenewed, AreRowsOf, EndsInEmpty, IsNewRow};

use crate::back::row_back;
use crate::rows::none_known;
use crate::subset::Subset;
use clause_pool::{Pool, RowId};
use listed::true_numbers;
use std::alloc::{AllocError, Global};

/// The rows, followed by a number of empty ones.
pub(crate) fn with_empty(
    pool: &mut Pool,
    rows: Vec<RowId>,
    count: u32,
) -> Result<Vec<RowId>, AllocError>
    ensures rows { IfOk result (λ all. EndsInEmpty pool.new rows.items count all.items) }
    ensures kept { Kept pool.old pool.new }
    ensures sound { IsPool pool.new }
{
    let empty = pool.intern_row(&[])?;
    let mut all = rows;
    for _i in 0..count {
        all.push(empty)?;
    }
    Ok(all)
}

/// The rows, in which those of packages that have changed are replaced by the ones that they have
/// in a part, in the numbers of the book.
pub(crate) fn renewed_rows(
    alloc: Global,
    pool: &mut Pool,
    rows: &[RowId],
    from: &Pool,
    made: &[RowId],
    changed: &[bool],
    apart: &Subset,
) -> Result<Vec<RowId>, AllocError>
    requires rows { AreBaseRows pool.old rows.now (length apart.now.flags.items) }
    requires few { length apart.now.flags.items < 4294967296 }
    requires made { AreRowsOf from.now apart.now.flags.items made.now }
    requires changed { length changed.now ≡ length apart.now.flags.items }
    ensures rows { IfOk result (λ more. AreRenewed from.now made.now apart.now.flags.items
        changed.now pool.new rows.now more.items) }
    ensures kept { Kept pool.old pool.new }
{
    let numbers = true_numbers(alloc, &apart.flags)?;
    let mut seen = none_known(alloc, from.clause_count() as usize)?;
    let mut more = Vec::with_capacity(alloc, rows.len())?;
    for (number, row) in rows.iter().enumerate() {
        let id = match new_row(made, changed, apart, number) {
            Some(new) => {
                let there = from.row(new);
                row_back(alloc, pool, from, there, numbers.as_slice(), &mut seen)?
            }
            None => *row,
        };
        more.push(id)?;
    }
    Ok(more)
}

/// The row of a package in a part, if it has changed and is there.
fn new_row(made: &[RowId], changed: &[bool], apart: &Subset, number: usize) -> Option<RowId>
    requires number { number < length changed.now }
    requires changed { length changed.now ≡ length apart.now.flags.items }
    requires made { length made.now
        ≡ place_in apart.now.flags.items (length apart.now.flags.items) }
    ensures some { ForSome result (IsNewRow made.now apart.now.flags.items changed.now number) }
    ensures none { IfNone result (flag apart.now.flags.items number ≡ true →
        flag changed.now number ≡ true → ⊥) }
{
    if !changed[number] {
        return None;
    }
    if !apart.flags[number] {
        return None;
    }
    Some(made[apart.place(number) as usize])
}
