//! Puts ids into rows in the order of their clauses.
ghost use Rattle.std.specs.Prelude.{◌≡◌, ◌≤◌, ◌<◌, ℕ, length, true, false, slice_index_or, OnOk};
ghost use Rattle.clause_pool.specs.Interned.{clause_at, clauses_at, OfPool, IsPool};
ghost use Rattle.clause_pool.specs.{Clauses.{comes_before}, Lists.{InOrder}};
ghost use Rattle.clause_families.specs.Families.{HasGained};

use clause_pool::{ClauseId, Pool, is_before};
use std::alloc::AllocError;

/// Puts the id of a clause into its place among ids in the order of their clauses, if it is not
/// there yet.
pub(crate) fn put_in_place(
    pool: &Pool,
    ids: &mut Vec<ClauseId>,
    id: ClauseId,
) -> Result<(), AllocError>
    requires pool { IsPool pool.now }
    requires of_pool { OfPool pool.now ids.old.items }
    requires there { id < length pool.now.clauses }
    requires in_order { InOrder (clauses_at pool.now ids.old.items) }
    ensures gained { OnOk result (HasGained ids.old.items ids.new.items id) }
    ensures in_order { OnOk result (InOrder (clauses_at pool.now ids.new.items)) }
{
    let place = place_of(pool, ids.as_slice(), pool.slice(id));
    if place < ids.len() && ids[place] == id {
        return Ok(());
    }
    ids.insert(place, id)?;
    Ok(())
}

/// How many of the ids, which are in the order of their clauses, have a clause that comes before
/// this one.
fn place_of(pool: &Pool, ids: &[ClauseId], clause: &[u32]) -> usize
    requires of_pool { OfPool pool.now ids.now }
    requires in_order { InOrder (clauses_at pool.now ids.now) }
    ensures bound { result ≤ length ids.now }
    ensures before { (k : ℕ) → k < result →
        comes_before (clause_at pool.now (slice_index_or ids.now k 0)) clause.now ≡ true }
    ensures behind { (k : ℕ) → result ≤ k → k < length ids.now →
        comes_before (clause_at pool.now (slice_index_or ids.now k 0)) clause.now ≡ false }
{
    let mut low = 0;
    let mut high = ids.len();
    'halving: while low < high {
        let middle = low + (high - low) / 2;
        if is_before(pool.slice(ids[middle]), clause) {
            low = middle + 1;
        } else {
            high = middle;
        }
    }
    low
}
