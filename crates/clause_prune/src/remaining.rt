//! The clauses of a package that are left while one after another is dropped.
ghost use Rattle.std.specs.Prelude.{◌≡◌, ◌<◌, ◌≤◌, ◌+◌, ℕ, IfOk, cond, drop, length};
ghost use Rattle.std.specs.Prelude.{slice_index_or};
ghost use Rattle.clause_prune.specs.Tests.{ids_without};

use clause_pool::ClauseId;
use std::alloc::{AllocError, Global};
use std::marker::Model;

/// The clauses that are left, after those that are gone. A clause that is dropped shifts those
/// before it, which were looked at and kept. It does not shift the many that are still to be looked
/// at.
#[derive(Drop)]
pub(crate) struct Left {
    ids: Vec<ClauseId>,
    gone: usize,
}

impl Model for Left {
    ghost use Rattle.std.specs.Prelude.{◌≤◌, ℕ, List, drop, length};

    ghost Value = { List ℕ };

    ghost view = { λ s. drop s.gone s.ids.items };

    ghost invariant = { λ s. s.gone ≤ length s.ids.items };
}

impl Left {
    /// All of the clauses.
    pub(crate) fn all_of(alloc: Global, ids: &[ClauseId]) -> Result<Left, AllocError>
        ensures { IfOk result (λ left. left ≡ ids.now) }
    {
        let ids = Vec::from_slice(alloc, ids)?;
        Ok(Left { ids, gone: 0 })
    }

    /// Lends the clauses that are left.
    pub(crate) fn as_slice(&self) -> &[ClauseId]
        ensures { result.now ≡ self.now }
    {
        &self.ids[self.gone..]
    }

    /// Removes the clause from those that are left; each of them is there once.
    pub(crate) fn drop_id(&mut self, clause: ClauseId)
        requires { (i j : ℕ) → i < j → j < length self.old →
            slice_index_or self.old i 0 ≡ slice_index_or self.old j 0 → ⊥ }
        ensures { self.new ≡ ids_without self.old clause }
    {
        let gone = self.gone;
        let ids = self.ids.as_mut_slice();
        if moves_up(ids, gone, clause) {
            self.gone = gone + 1;
        }
    }
}

// The place of the clause among those that are left, or their number if it is not there.
fn place_of(left: &[ClauseId], clause: ClauseId) -> usize
    ensures within { result ≤ length left.now }
    ensures before { (k : ℕ) → k < result → slice_index_or left.now k 0 ≡ clause → ⊥ }
    ensures at { result < length left.now → slice_index_or left.now result 0 ≡ clause }
{
    for (place, other) in left.iter().enumerate() {
        if *other == clause {
            return place;
        }
    }
    left.len()
}

// If the clause is still in the list, removes it by shifting those before it. Returns whether it
// was.
fn moves_up(ids: &mut [ClauseId], gone: usize, clause: ClauseId) -> bool
    requires within { gone ≤ length ids.old }
    requires once { (i j : ℕ) → i < j → j < length (drop gone ids.old) →
        slice_index_or (drop gone ids.old) i 0 ≡ slice_index_or (drop gone ids.old) j 0 → ⊥ }
    ensures left { drop (cond result (gone + 1) gone) ids.new
        ≡ ids_without (drop gone ids.old) clause }
    ensures within { cond result (gone + 1) gone ≤ length ids.new }
{
    let place = place_of(&ids[gone..], clause);
    if place == ids.len() - gone {
        return false;
    }
    ids.copy_within(gone..gone + place, gone + 1);
    true
}
