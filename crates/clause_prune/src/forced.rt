//! Whether a clause is hit as soon as the others are.
ghost use Rattle.std.specs.Prelude.{◌≡◌, ◌<◌, ◌||◌, ◌++◌, ℕ, IfOk, filter, length};
ghost use Rattle.clause_pool.specs.{Interned.{clause_at, clauses_at, OfPool}, Lists.{InOrder}};
ghost use Rattle.listed.specs.Lists.{has, In, Ascending};
ghost use Rattle.row_book.specs.{Repository.{clauses_of}, Uses.{IsListOf}};
ghost use Rattle.row_book.specs.Pruning.{is_forced, serves};
ghost use Rattle.clause_prune.specs.Filing.{filed_within, AsksServing, FiledFor};
ghost use Rattle.clause_prune.specs.PrunedPackages.{bare_with, IsPrunable};

use crate::filing::Filed;
use crate::pruned_package::PrunedPackage;
use clause_pool::{ClauseId, has_side_within, has_within};
use std::alloc::{AllocError, Global};

impl PrunedPackage<'_> {
    /// The clauses of a package; of the pruned one those that are left.
    pub(crate) fn clauses_of<'a>(&'a self, left: &'a [ClauseId], other: u32) -> &'a [ClauseId]
        requires fits { IsPrunable self.now }
        requires other { other < length self.now.rows.now }
        requires left { OfPool self.now.pool.now left.now }
        requires order { InOrder (clauses_at self.now.pool.now left.now) }
        ensures is { clauses_at self.now.pool.now result.now
            ≡ clauses_of (bare_with self.now left.now) other }
        ensures of_pool { OfPool self.now.pool.now result.now }
        ensures order { InOrder (clauses_at self.now.pool.now result.now) }
    {
        if other == self.number {
            left
        } else {
            self.pool.row(self.rows[other as usize])
        }
    }

    // Whether the other package sees to it that the clause is hit.
    fn serves(&self, left: &[ClauseId], clause: &[u32], other: u32) -> bool
        requires fits { IsPrunable self.now }
        requires other { other < length self.now.rows.now }
        requires left { OfPool self.now.pool.now left.now }
        requires order { InOrder (clauses_at self.now.pool.now left.now) }
        requires clause { Ascending clause.now }
        ensures { result ≡ serves (bare_with self.now left.now) clause.now other }
    {
        let row = self.clauses_of(left, other);
        has_side_within(self.pool, other, row, clause)
    }

    // The members of the clause, and those of the packages asked about it that see to it that it is
    // hit.
    fn asked_serving(
        &self,
        alloc: Global,
        left: &[ClauseId],
        asked: &[u32],
        clause: &[u32],
    ) -> Result<Vec<u32>, AllocError>
        requires fits { IsPrunable self.now }
        requires asked { (n : ℕ) → In n asked.now → n < length self.now.rows.now }
        requires left { OfPool self.now.pool.now left.now }
        requires order { InOrder (clauses_at self.now.pool.now left.now) }
        requires clause { Ascending clause.now }
        ensures { IfOk result (λ serving. serving.items
            ≡ clause.now ++ filter (serves (bare_with self.now left.now) clause.now) asked.now) }
    {
        let mut serving = Vec::from_slice(alloc, clause)?;
        for other in asked {
            if self.serves(left, clause, *other) {
                serving.push(*other)?;
            }
        }
        Ok(serving)
    }

    // The members of the clause, the packages asked about it that see to it that it is hit, and
    // those filed with a clause within it; in order.
    fn serving(
        &self,
        alloc: Global,
        left: &[ClauseId],
        filed: &Filed,
        clause: &[u32],
    ) -> Result<Vec<u32>, AllocError>
        requires fits { IsPrunable self.now }
        requires filed { FiledFor self.now.pool.now self.now.rows.now self.now.number filed.now }
        requires left { OfPool self.now.pool.now left.now }
        requires order { InOrder (clauses_at self.now.pool.now left.now) }
        requires clause { Ascending clause.now }
        ensures { IfOk result (λ serving. IsListOf (λ n. has (clause.now
            ++ filter (serves (bare_with self.now left.now) clause.now) filed.now.always) n
            || filed_within self.now.pool.now filed.now.lists clause.now n) serving.items) }
    {
        let mut serving = self.asked_serving(alloc, left, filed.always(), clause)?;
        filed.push_within(self.pool, clause, &mut serving)?;
        serving.sort_unstable();
        serving.dedup();
        Ok(serving)
    }

    /// Whether the clause is forced among the clauses that are left: another one lies within the
    /// packages that see to it that the clause is hit. Each member of the clauses that are left is
    /// filed for its clauses.
    pub(crate) fn is_forced(
        &self,
        alloc: Global,
        left: &[ClauseId],
        filed: &Filed,
        clause: ClauseId,
    ) -> Result<bool, AllocError>
        requires fits { IsPrunable self.now }
        requires left { OfPool self.now.pool.now left.now }
        requires order { InOrder (clauses_at self.now.pool.now left.now) }
        requires filed { FiledFor self.now.pool.now self.now.rows.now self.now.number filed.now }
        requires asks { AsksServing self.now.pool.now (bare_with self.now left.now)
            (clauses_at self.now.pool.now left.now) filed.now (clause_at self.now.pool.now clause) }
        requires clause { clause < length self.now.pool.now.clauses }
        ensures { IfOk result (λ forced. forced ≡ is_forced
            (bare_with self.now left.now) self.now.number (clause_at self.now.pool.now clause)) }
    {
        let numbers = self.pool.slice(clause);
        let found = self.serving(alloc, left, filed, numbers)?;
        Ok(has_within(self.pool, left, &Some(clause), found.as_slice()))
    }
}
