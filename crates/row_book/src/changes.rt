//! What two rows do not share.
ghost use Rattle.std.specs.Prelude.{◌≡◌, [], IfOk, OnOk};
ghost use Rattle.clause_pool.specs.Interned.{OfPool};
ghost use Rattle.row_book.specs.Uses.{HoldsDifference};

use clause_pool::{ClauseId, Pool};
use std::alloc::{AllocError, Global};

/// The clauses that only one of two rows has. If the rows are not in order, there may be others.
#[derive(Drop)]
pub(crate) struct Changes {
    /// The clauses of the old row that the new one does not have.
    pub(crate) lost: Vec<ClauseId>,
    /// The clauses of the new row that the old one did not have.
    pub(crate) gained: Vec<ClauseId>,
}

/// The changes from the old row to the new one.
pub(crate) fn changes_between(
    alloc: Global,
    pool: &Pool,
    old: &[ClauseId],
    new: &[ClauseId],
) -> Result<Changes, AllocError>
    requires old { OfPool pool.now old.now }
    requires new { OfPool pool.now new.now }
    ensures lost { IfOk result (λ changes. HoldsDifference old.now new.now changes.lost.items) }
    ensures gained { IfOk result (λ changes. HoldsDifference new.now old.now changes.gained.items) }
{
    let mut lost = Vec::new(alloc);
    let mut gained = Vec::new(alloc);
    note_changes(pool, old, new, &mut lost, &mut gained)?;
    Ok(Changes { lost, gained })
}

/// Notes the changes from the old row to the new one in two empty lists, by a walk over both rows
/// side by side. Of two clauses that differ, the one that comes first in order is passed.
fn note_changes(
    pool: &Pool,
    old: &[ClauseId],
    new: &[ClauseId],
    lost: &mut Vec<ClauseId>,
    gained: &mut Vec<ClauseId>,
) -> Result<(), AllocError>
    requires old { OfPool pool.now old.now }
    requires new { OfPool pool.now new.now }
    requires none_lost { lost.old.items ≡ [] }
    requires none_gained { gained.old.items ≡ [] }
    ensures lost { OnOk result (HoldsDifference old.now new.now lost.new.items) }
    ensures gained { OnOk result (HoldsDifference new.now old.now gained.new.items) }
{
    let mut i = 0;
    let mut j = 0;
    'walk: while i < old.len() && j < new.len() {
        let before = old[i];
        let after = new[j];
        if before == after {
            i += 1;
            j += 1;
        } else if pool.slice(before) < pool.slice(after) {
            lost.push(before)?;
            i += 1;
        } else {
            gained.push(after)?;
            j += 1;
        }
    }
    lost.extend_from_slice(&old[i..])?;
    gained.extend_from_slice(&new[j..])?;
    Ok(())
}

/// The clauses of the new row that the old one does not have, by the same walk.
pub(crate) fn gained_between(
    alloc: Global,
    pool: &Pool,
    old: &[ClauseId],
    new: &[ClauseId],
) -> Result<Vec<ClauseId>, AllocError>
    requires old { OfPool pool.now old.now }
    requires new { OfPool pool.now new.now }
    ensures { IfOk result (λ gained. HoldsDifference new.now old.now gained.items) }
{
    let mut gained = Vec::new(alloc);
    let mut i = 0;
    let mut j = 0;
    'walk: while i < old.len() && j < new.len() {
        let before = old[i];
        let after = new[j];
        if before == after {
            i += 1;
            j += 1;
        } else if pool.slice(before) < pool.slice(after) {
            i += 1;
        } else {
            gained.push(after)?;
            j += 1;
        }
    }
    gained.extend_from_slice(&new[j..])?;
    Ok(gained)
}
