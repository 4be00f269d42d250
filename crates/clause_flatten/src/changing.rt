//! The rows of a package's users, once it is taken out.
ghost use Rattle.std.specs.Prelude.{◌≡◌, ◌<◌, ℕ, IfOk, OnErr, OnOk, length};
ghost use Rattle.clause_pool.specs.{Interned.{clauses_at, Kept, OfPool}, Clauses.{apart_from}};
ghost use Rattle.row_book.specs.Holders.{users_in, ArePlaced};
ghost use Rattle.listed.specs.Lists.{In};
ghost use Rattle.clause_flatten.specs.Ready.{table_of, AreReady};
ghost use Rattle.clause_flatten.specs.Substitution.{table_turned, table_without};

use clause_families::{useful_of, with_unions};
use clause_pool::{ClauseId, Pool};
use listed::Listed;
use row_book::{ClauseTable, IdList, clause_holds};
use std::alloc::{AllocError, Global};
use std::mem;

/// Takes a package out of the rows of its users, and so out of all rows. The table of clauses
/// describes the rows even if no memory is found.
pub(crate) fn change_rows(
    alloc: Global,
    pool: &mut Pool,
    rows: &mut [IdList],
    uses: &mut ClauseTable,
    users: &[u32],
    gone: u32,
) -> Result<(), AllocError>
    requires few { length rows.old < u32.MAX }
    requires ready { AreReady pool.old rows.old uses.old }
    requires gone { gone < length rows.old }
    requires users { users.now ≡ users_in pool.old rows.old gone }
    ensures ok { OnOk result (table_of pool.new rows.new
        ≡ table_without gone (table_of pool.old rows.old)) }
    ensures ready { AreReady pool.new rows.new uses.new }
    ensures kept { Kept pool.old pool.new }
{
    // The last user comes first, as in `eliminate`, so that both go through the same tables of
    // rows.
    for place in (0..users.len()).rev() {
        change_row(alloc, pool, rows, uses, users[place], gone)?;
    }
    Ok(())
}

/// Takes a package out of the row of one user; if no memory is found, the rows stay as they were.
fn change_row(
    alloc: Global,
    pool: &mut Pool,
    rows: &mut [IdList],
    uses: &mut ClauseTable,
    user: u32,
    gone: u32,
) -> Result<(), AllocError>
    requires ready { AreReady pool.old rows.old uses.old }
    requires user { user < length rows.old }
    requires gone { gone < length rows.old }
    ensures ok { OnOk result (table_of pool.new rows.new
        ≡ table_turned user gone (table_of pool.old rows.old)) }
    ensures ready { AreReady pool.new rows.new uses.new }
    ensures kept { Kept pool.old pool.new }
{
    let row = rows[user as usize].as_slice();
    let others = rows[gone as usize].as_slice();
    let useful = useful_of(alloc, pool, user, gone, row, others)?;
    if useful.is_empty() {
        // No clause is added, so the table describes the shorter row as it is.
        let places = uses.clauses_with(gone);
        shorten(alloc, pool, &mut rows[user as usize], gone, places);
        return Ok(());
    }
    let new = with_unions(alloc, pool, gone, row, useful.as_slice())?;
    uses.replace(alloc, pool, user, row, new.as_slice())?;
    rows[user as usize] = Listed::of(new);
    Ok(())
}

/// Removes the clauses that hold a number, which are those at these places, from a row; it takes no
/// memory.
fn shorten(alloc: Global, pool: &Pool, row: &mut IdList, number: u32, places: &[u32])
    requires row { OfPool pool.now row.old }
    requires placed { ArePlaced pool.now number places.now row.old }
    ensures made { clauses_at pool.now row.new ≡ apart_from number (clauses_at pool.now row.old) }
    ensures part { (id : ℕ) → In id row.new → In id row.old }
{
    let mut ids = mem::replace(row, Listed::new(alloc)).into_vec();
    drop_holders(pool, &mut ids, number, places);
    *row = Listed::of(ids);
}

/// Keeps the clauses that do not hold a number, in their order; those that do stand at these
/// places.
fn drop_holders(pool: &Pool, ids: &mut Vec<ClauseId>, number: u32, places: &[u32])
    requires ids { OfPool pool.now ids.old.items }
    requires placed { ArePlaced pool.now number places.now ids.old.items }
    ensures made { clauses_at pool.now ids.new.items
        ≡ apart_from number (clauses_at pool.now ids.old.items) }
    ensures part { (id : ℕ) → In id ids.new.items → In id ids.old.items }
{
    let mut kept = 0;
    for place in 0..ids.len() {
        let id = ids[place];
        if !clause_holds(pool, id, number, places) {
            ids[kept] = id;
            kept += 1;
        }
    }
    ids.truncate(kept);
}
