//! Pruning of the clauses of one package.
ghost use Rattle.std.specs.Prelude.{◌≡◌, ◌<◌, ◌++◌, ℕ, IfOk, List, OnOk, length, map};
ghost use Rattle.clause_pool.specs.{Interned.{clause_at, clauses_at, OfPool}, Lists.{InOrder}};
ghost use Rattle.listed.specs.Lists.{In};
ghost use Rattle.row_book.specs.{Repository.{Repository}, Pruning.{prune_clause, prune_clauses}};
ghost use Rattle.row_book.specs.{Rounds.{IdleStep}, Trail.{trail_meaning}};
ghost use Rattle.clause_prune.specs.Filing.{AsksServing, FiledFor};
ghost use Rattle.clause_prune.specs.PrunedPackages.{bare_with, left_with, IsPrunable};

use crate::filing::Filed;
use crate::pruned_package::PrunedPackage;
use crate::remaining::Left;
use clause_pool::ClauseId;
use listed::Listed;
use row_book::{Step, StepList};
use std::alloc::{AllocError, Global};

impl PrunedPackage<'_> {
    // Drops the clause of the package if it is forced or idle among those that are left. If it is
    // only idle, the step is recorded.
    fn prune_one(
        &self,
        alloc: Global,
        left: &mut Left,
        filed: &Filed,
        clause: ClauseId,
        idle: &mut StepList,
    ) -> Result<(), AllocError>
        requires fits { IsPrunable self.now }
        requires left { OfPool self.now.pool.now left.old }
        requires order { InOrder (clauses_at self.now.pool.now left.old) }
        requires clause { clause < length self.now.pool.now.clauses }
        requires own { (n : ℕ) → In n (clause_at self.now.pool.now clause) →
            n < length self.now.rows.now }
        requires filed { FiledFor self.now.pool.now self.now.rows.now self.now.number filed.now }
        requires asks { AsksServing self.now.pool.now (bare_with self.now left.old)
            (clauses_at self.now.pool.now left.old) filed.now (clause_at self.now.pool.now clause) }
        ensures left { OnOk result (◌≡◌ {A = Repository} (left_with self.now left.new)
            (prune_clause (left_with self.now left.old) self.now.number
            (clause_at self.now.pool.now clause)).left) }
        ensures part { OnOk result ((id : ℕ) → In id left.new → In id left.old) }
        ensures order { OnOk result (InOrder (clauses_at self.now.pool.now left.new)) }
        ensures idle { OnOk result (trail_meaning self.now.pool.now idle.new
            ≡ trail_meaning self.now.pool.now idle.old
            ++ map IdleStep (prune_clause (left_with self.now left.old) self.now.number
            (clause_at self.now.pool.now clause)).steps) }
    {
        let forced = self.is_forced(alloc, left.as_slice(), filed, clause)?;
        if forced {
            left.drop_id(clause);
            return Ok(());
        }
        if let Some(added) = self.idle_by(left.as_slice(), clause) {
            let copy = Vec::from_slice(alloc, self.pool.slice(clause))?;
            idle.push(Step::Idle {
                package: self.number,
                clause: Listed::of(copy),
                added,
            })?;
            left.drop_id(clause);
        }
        Ok(())
    }

    /// The clauses of the package that are left when each that is forced or idle is dropped in
    /// turn.
    pub(crate) fn prune_each(
        &self,
        alloc: Global,
        ids: &[ClauseId],
        idle: &mut StepList,
    ) -> Result<Left, AllocError>
        requires fits { IsPrunable self.now }
        requires ids { OfPool self.now.pool.now ids.now }
        requires order { InOrder (clauses_at self.now.pool.now ids.now) }
        requires members { (c : List ℕ) → In c (clauses_at self.now.pool.now ids.now) →
            (n : ℕ) → In n c → n < length self.now.rows.now }
        ensures left { IfOk result (λ left. ◌≡◌ {A = Repository} (left_with self.now left)
            (prune_clauses (left_with self.now ids.now) self.now.number
            (clauses_at self.now.pool.now ids.now)).left) }
        ensures part { IfOk result (λ left. (id : ℕ) → In id left → In id ids.now) }
        ensures order { IfOk result (λ left. InOrder (clauses_at self.now.pool.now left)) }
        ensures idle { OnOk result (trail_meaning self.now.pool.now idle.new
            ≡ trail_meaning self.now.pool.now idle.old
            ++ map IdleStep (prune_clauses (left_with self.now ids.now) self.now.number
            (clauses_at self.now.pool.now ids.now)).steps) }
    {
        let filed = Filed::of(alloc, self, ids)?;
        let mut left = Left::all_of(alloc, ids)?;
        for id in ids {
            self.prune_one(alloc, &mut left, &filed, *id, idle)?;
        }
        Ok(left)
    }
}
