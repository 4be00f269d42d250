//! Whether a row would pass the clause limit once a package is taken out, found without a change of
//! the pool or the rows.
//!
//! Two bounds are tried first, the coarser one without a look at a clause. Only if both pass the
//! limit are the clauses counted, which makes no row.
ghost use Rattle.std.specs.Prelude.{◌≡◌, ◌≢◌, ℕ, ◌+◌, ◌*◌, ◌<◌, ◌≤◌, List, IfOk, length};
ghost use Rattle.std.specs.{List.{find}, Option.{option_map, ForSome}};
ghost use Rattle.clause_pool.specs.{Interned.{clauses_at, OfPool, IsPool}, Clauses.{in_row_order}};
ghost use Rattle.clause_pool.specs.Lists.{InOrder};
ghost use Rattle.listed.specs.Lists.{In, Inside};
ghost use Rattle.row_book.specs.Holders.{users_in, ListsFit};
ghost use Rattle.clause_flatten.specs.Ready.{table_of, AreReady, ListsTidy};
ghost use Rattle.clause_flatten.specs.Holding.{clauses_with, most_clauses, over_limit};
ghost use Rattle.clause_flatten.specs.Substitution.{length_in, table_passes, table_without};
ghost use Rattle.clause_flatten.specs.TakingOut.{is_over};
ghost use Rattle.clause_families.specs.Unions.{substituted};

use clause_families::{count_with_unions, useful_of};
use clause_pool::{ClauseId, Pool};
use listed::holds_ascending;
use row_book::{ClauseTable, IdList};
use std::alloc::{AllocError, Global};

/// A row that would have more clauses than the limit allows.
#[derive(Clone, Copy)]
pub(crate) struct Over {
    /// The package of the row.
    pub(crate) package: u32,
    /// The number of its clauses.
    pub(crate) count: u64,
}

/// Whether some row would have more clauses than the limit allows once the package is taken out.
pub(crate) fn would_pass(
    alloc: Global,
    pool: &Pool,
    rows: &[IdList],
    uses: &ClauseTable,
    gone: u32,
    limit: u32,
) -> Result<bool, AllocError>
    requires ready { AreReady pool.now rows.now uses.now }
    requires gone { gone < length rows.now }
    requires within { (p : ℕ) → p < length rows.now →
        length_in (table_of pool.now rows.now) p ≤ limit }
    ensures { IfOk result (λ passes. passes
        ≡ table_passes limit (table_without gone (table_of pool.now rows.now))) }
{
    let users = uses.users(alloc, pool, rows, gone)?;
    let over = first_over(alloc, pool, rows, users.as_slice(), gone, limit)?;
    Ok(over.is_some())
}

/// The first of the users of a package whose row would have more clauses than the limit allows once
/// it is taken out.
pub(crate) fn first_over(
    alloc: Global,
    pool: &Pool,
    rows: &[IdList],
    users: &[u32],
    gone: u32,
    limit: u32,
) -> Result<Option<Over>, AllocError>
    requires fit { ListsFit pool.now rows.now }
    requires tidy { ListsTidy pool.now rows.now }
    requires gone { gone < length rows.now }
    requires users { users.now ≡ users_in pool.now rows.now gone }
    requires within { (p : ℕ) → p < length rows.now →
        length_in (table_of pool.now rows.now) p ≤ limit }
    ensures first { IfOk result (λ over. option_map (λ o. o.package) over
        ≡ find (is_over (table_without gone (table_of pool.now rows.now)) limit) users.now) }
    ensures count { IfOk result (λ over. ForSome over (λ o. o.count
        ≡ length_in (table_without gone (table_of pool.now rows.now)) o.package)) }
{
    for user in users {
        let over = count_over(alloc, pool, rows, *user, gone, limit)?;
        if let Some(count) = over {
            return Ok(Some(Over {
                package: *user,
                count,
            }));
        }
    }
    Ok(None)
}

/// How many clauses the row of a user would have, if these are more than the limit allows.
fn count_over(
    alloc: Global,
    pool: &Pool,
    rows: &[IdList],
    user: u32,
    gone: u32,
    limit: u32,
) -> Result<Option<u64>, AllocError>
    requires fit { ListsFit pool.now rows.now }
    requires tidy { ListsTidy pool.now rows.now }
    requires user { user < length rows.now }
    requires gone { gone < length rows.now }
    requires other { user ≢ gone }
    requires within { (p : ℕ) → p < length rows.now →
        length_in (table_of pool.now rows.now) p ≤ limit }
    ensures { IfOk result (λ over. over
        ≡ over_limit limit (length_in (table_without gone (table_of pool.now rows.now)) user)) }
{
    let row = rows[user as usize].as_slice();
    let others = rows[gone as usize].as_slice();
    row_over(alloc, pool, user, gone, row, others, limit)
}

/// How many clauses the row of a user would have without the spent package, whose row is `others`,
/// if these are more than the limit allows. They are counted only if both bounds pass the limit.
fn row_over(
    alloc: Global,
    pool: &Pool,
    user: u32,
    spent: u32,
    row: &[ClauseId],
    others: &[ClauseId],
    limit: u32,
) -> Result<Option<u64>, AllocError>
    requires pool { IsPool pool.now }
    requires row { OfPool pool.now row.now }
    requires in_order { InOrder (clauses_at pool.now row.now) }
    requires others { OfPool pool.now others.now }
    requires few { length row.now ≤ limit }
    requires few_others { length others.now ≤ limit }
    requires apart { (c : List ℕ) → In c (clauses_at pool.now row.now) → In user c → ⊥ }
    requires minimal { (c d : List ℕ) → In c (clauses_at pool.now row.now) →
        In d (clauses_at pool.now row.now) → Inside c d → c ≡ d }
    requires minimal_others { (c d : List ℕ) → In c (clauses_at pool.now others.now) →
        In d (clauses_at pool.now others.now) → Inside c d → c ≡ d }
    ensures { IfOk result (λ over. over
        ≡ over_limit limit (length (in_row_order
        (substituted user spent (clauses_at pool.now row.now) (clauses_at pool.now others.now))))) }
{
    let coarse = coarse_bound(row, others);
    if coarse <= u64::from(limit) {
        return Ok(None);
    }
    let most = most_clauses(pool, spent, row, others);
    if most <= u64::from(limit) {
        return Ok(None);
    }
    let useful = useful_of(alloc, pool, user, spent, row, others)?;
    let count = count_with_unions(alloc, pool, spent, row, useful.as_slice())?;
    Ok(more_than(count, limit))
}

/// The count, if it is more than the limit allows.
fn more_than(count: u64, limit: u32) -> Option<u64>
    ensures { result ≡ over_limit limit count }
{
    if u64::from(limit) < count {
        return Some(count);
    }
    None
}

/// How many clauses a row can have at most: each one may stay, or give one for each clause of the
/// spent package's row. It looks at no clause.
fn coarse_bound(row: &[ClauseId], others: &[ClauseId]) -> u64
    requires few { length row.now < 4294967296 }
    requires few_others { length others.now < 4294967296 }
    ensures { result ≡ length row.now + length row.now * length others.now }
{
    let count = row.len() as u64;
    count + count * others.len() as u64
}

/// How many clauses the row can have at most: each one that holds the spent package may give one
/// for each clause of the spent package's row.
fn most_clauses(pool: &Pool, spent: u32, row: &[ClauseId], others: &[ClauseId]) -> u64
    requires row { OfPool pool.now row.now }
    requires few { length row.now < 4294967296 }
    requires few_others { length others.now < 4294967296 }
    ensures { result ≡ most_clauses spent (clauses_at pool.now row.now) (length others.now) }
{
    let with = count_holding(pool, spent, row);
    row.len() as u64 - with + with * others.len() as u64
}

/// How many of the clauses hold a number.
fn count_holding(pool: &Pool, number: u32, row: &[ClauseId]) -> u64
    requires { OfPool pool.now row.now }
    ensures { result ≡ length (clauses_with number (clauses_at pool.now row.now)) }
{
    let mut count = 0;
    for id in row {
        if holds_ascending(pool.slice(*id), number) {
            count += 1;
        }
    }
    count
}
