//! The rows before any package is taken out.
ghost use Rattle.std.specs.{Prelude.{◌≡◌, ◌<◌, ℕ, List, IfOk, length, map}, List.{filter}};
ghost use Rattle.clause_pool.specs.Interned.{clause_at, clauses_at, row_at, OfPool, IsPool};
ghost use Rattle.clause_pool.specs.Lists.{InOrder};
ghost use Rattle.row_book.specs.{Book.{RowsFit}, Holders.{ListsFit}};
ghost use Rattle.listed.specs.Lists.{Ascending, In};
ghost use Rattle.clause_flatten.specs.Ready.{table_of, ListsTidy};
ghost use Rattle.clause_flatten.specs.TidyRows.{begins_empty, first_row, tidied_table};
ghost use Rattle.clause_families.specs.Inclusion.{stays};

use clause_pool::{ClauseId, Pool, RowId, has_within};
use listed::{Listed, holds_ascending};
use row_book::IdList;
use std::alloc::{AllocError, Global};

/// Whether the clause of the row stays: it does not hold the package, and no other one is within
/// it.
fn stays_in(pool: &Pool, number: u32, row: &[ClauseId], id: ClauseId) -> bool
    requires pool { IsPool pool.now }
    requires of_pool { OfPool pool.now row.now }
    requires in_order { InOrder (clauses_at pool.now row.now) }
    requires rising { (c : List ℕ) → In c (clauses_at pool.now row.now) → Ascending c }
    requires id { id < length pool.now.clauses }
    ensures { result ≡ stays number (clauses_at pool.now row.now) (clause_at pool.now id) }
{
    let clause = pool.slice(id);
    if holds_ascending(clause, number) {
        return false;
    }
    // Only the empty clause, which comes first in its row, can be within a clause of one number.
    if clause.len() == 1 {
        return !begins_empty(pool, row);
    }
    !has_within(pool, row, &Some(id), clause)
}

/// Whether the first clause of the row is empty.
fn begins_empty(pool: &Pool, row: &[ClauseId]) -> bool
    requires { OfPool pool.now row.now }
    ensures { result ≡ begins_empty (clauses_at pool.now row.now) }
{
    match row.first() {
        Some(id) => pool.slice(*id).is_empty(),
        None => false,
    }
}

/// The clauses that stay.
fn kept_clauses(
    alloc: Global,
    pool: &Pool,
    number: u32,
    row: &[ClauseId],
) -> Result<Vec<ClauseId>, AllocError>
    requires pool { IsPool pool.now }
    requires of_pool { OfPool pool.now row.now }
    requires in_order { InOrder (clauses_at pool.now row.now) }
    requires rising { (c : List ℕ) → In c (clauses_at pool.now row.now) → Ascending c }
    ensures { IfOk result (λ kept. kept.items ≡ filter (λ id.
        stays number (clauses_at pool.now row.now) (clause_at pool.now id)) row.now) }
{
    let mut kept = Vec::with_capacity(alloc, row.len())?;
    for id in row {
        if stays_in(pool, number, row, *id) {
            kept.push(*id)?;
        }
    }
    Ok(kept)
}

/// The first row of a package from the row of its clauses.
fn tidy_row(alloc: Global, pool: &Pool, number: u32, row: RowId) -> Result<IdList, AllocError>
    requires pool { IsPool pool.now }
    requires row { row < length pool.now.rows }
    ensures of_pool { IfOk result (OfPool pool.now) }
    ensures tidied { IfOk result (λ ids. clauses_at pool.now ids
        ≡ first_row number (row_at pool.now row)) }
{
    let kept = kept_clauses(alloc, pool, number, pool.row(row))?;
    Ok(Listed::of(kept))
}

/// The first row of each package from the rows of their clauses.
pub(crate) fn tidy_rows(
    alloc: Global,
    pool: &Pool,
    rows: &[RowId],
) -> Result<Vec<IdList>, AllocError>
    requires few { length rows.now < u32.MAX }
    requires fit { RowsFit pool.now rows.now }
    ensures tidied { IfOk result (λ made. table_of pool.now made.items
        ≡ tidied_table (map (row_at pool.now) rows.now)) }
    ensures count { IfOk result (λ made. length made.items ≡ length rows.now) }
    ensures fit { IfOk result (λ made. ListsFit pool.now made.items) }
    ensures tidy { IfOk result (λ made. ListsTidy pool.now made.items) }
{
    let mut made = Vec::with_capacity(alloc, rows.len())?;
    for (number, row) in rows.iter().enumerate() {
        let first = tidy_row(alloc, pool, number as u32, *row)?;
        made.push(first)?;
    }
    Ok(made)
}
