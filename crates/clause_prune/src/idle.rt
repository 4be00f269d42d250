//! Whether a clause may be hit at no cost.
//!
//! A clause is idle by a member if that member can be added whenever the package is in. For this,
//! what conflicts with the member has to be out anyway, and its clauses have to be hit anyway. So
//! the clause decides nothing.
ghost use Rattle.std.specs.{Prelude.{◌≡◌, ◌<◌, ℕ, length}, List.{find, list_all, list_any}};
ghost use Rattle.clause_pool.specs.{Interned.{clause_at, clauses_at, OfPool}, Lists.{InOrder}};
ghost use Rattle.listed.specs.Lists.{In, Ascending};
ghost use Rattle.row_book.specs.Pruning.{is_idle};
ghost use Rattle.clause_prune.specs.PrunedPackages.{left_with, IsPrunable};
ghost use Rattle.clause_prune.specs.Tests.{excludes_in, harmless_in, includes_in, hit_anyway_in};

use crate::pruned_package::PrunedPackage;
use clause_pool::{ClauseId, has_within};
use row_book::{are_against, conflicts_of, holds};

impl PrunedPackage<'_> {
    // Whether the other package conflicts with each member of some clause that is left, other than
    // the given one.
    fn excludes_one(&self, left: &[ClauseId], clause: ClauseId, other: u32) -> bool
        requires fits { IsPrunable self.now }
        requires left { OfPool self.now.pool.now left.now }
        requires order { InOrder (clauses_at self.now.pool.now left.now) }
        requires clause { clause < length self.now.pool.now.clauses }
        ensures { result ≡ list_any (excludes_in self.now.pool.now self.now.table.now other
            (clause_at self.now.pool.now clause)) (clauses_at self.now.pool.now left.now) }
    {
        has_within(
            self.pool,
            left,
            &Some(clause),
            conflicts_of(self.table, other),
        )
    }

    // Whether the other package, which conflicts with a member of the clause, is out anyway if the
    // package is in and the clause is not hit.
    fn is_harmless(&self, left: &[ClauseId], clause: ClauseId, other: u32) -> bool
        requires fits { IsPrunable self.now }
        requires left { OfPool self.now.pool.now left.now }
        requires order { InOrder (clauses_at self.now.pool.now left.now) }
        requires clause { clause < length self.now.pool.now.clauses }
        ensures { result ≡ harmless_in self.now.pool.now self.now.table.now self.now.number left.now
            (clause_at self.now.pool.now clause) other }
    {
        other != self.number
            && (holds(self.pool.slice(clause), other)
                || (are_against(self.table, self.number, other)
                    || self.excludes_one(left, clause, other)))
    }

    // Whether some clause of `left`, other than `clause`, lies within `whole`.
    fn includes_one(&self, left: &[ClauseId], clause: ClauseId, whole: &[u32]) -> bool
        requires fits { IsPrunable self.now }
        requires left { OfPool self.now.pool.now left.now }
        requires order { InOrder (clauses_at self.now.pool.now left.now) }
        requires clause { clause < length self.now.pool.now.clauses }
        requires whole { Ascending whole.now }
        ensures { result ≡ list_any (includes_in (clause_at self.now.pool.now clause) whole.now)
            (clauses_at self.now.pool.now left.now) }
    {
        has_within(self.pool, left, &Some(clause), whole)
    }

    // Whether `whole` is hit whenever the package is in and its clauses other than `clause` are
    // hit.
    fn is_hit_anyway(&self, left: &[ClauseId], clause: ClauseId, whole: &[u32]) -> bool
        requires fits { IsPrunable self.now }
        requires left { OfPool self.now.pool.now left.now }
        requires order { InOrder (clauses_at self.now.pool.now left.now) }
        requires whole { Ascending whole.now }
        requires clause { clause < length self.now.pool.now.clauses }
        ensures { result ≡ hit_anyway_in self.now.pool.now self.now.number left.now
            (clause_at self.now.pool.now clause) whole.now }
    {
        holds(whole, self.number) || self.includes_one(left, clause, whole)
    }

    // Whether each of the packages that conflict with a member is out anyway.
    fn all_harmless(&self, left: &[ClauseId], clause: ClauseId, conflicting: &[u32]) -> bool
        requires fits { IsPrunable self.now }
        requires left { OfPool self.now.pool.now left.now }
        requires order { InOrder (clauses_at self.now.pool.now left.now) }
        requires clause { clause < length self.now.pool.now.clauses }
        ensures { result ≡ list_all (harmless_in self.now.pool.now self.now.table.now
            self.now.number left.now (clause_at self.now.pool.now clause)) conflicting.now }
    {
        for other in conflicting {
            if !self.is_harmless(left, clause, *other) {
                return false;
            }
        }
        true
    }

    // Whether each clause of the row is hit whenever the package is in and its other clauses are
    // hit.
    fn all_hit_anyway(&self, left: &[ClauseId], clause: ClauseId, row: &[ClauseId]) -> bool
        requires fits { IsPrunable self.now }
        requires left { OfPool self.now.pool.now left.now }
        requires order { InOrder (clauses_at self.now.pool.now left.now) }
        requires clause { clause < length self.now.pool.now.clauses }
        requires row { OfPool self.now.pool.now row.now }
        ensures { result ≡ list_all (hit_anyway_in self.now.pool.now self.now.number left.now
            (clause_at self.now.pool.now clause)) (clauses_at self.now.pool.now row.now) }
    {
        for id in row {
            if !self.is_hit_anyway(left, clause, self.pool.slice(*id)) {
                return false;
            }
        }
        true
    }

    // Whether the clause is idle by its member.
    fn is_idle(&self, left: &[ClauseId], clause: ClauseId, member: u32) -> bool
        requires fits { IsPrunable self.now }
        requires left { OfPool self.now.pool.now left.now }
        requires order { InOrder (clauses_at self.now.pool.now left.now) }
        requires clause { clause < length self.now.pool.now.clauses }
        requires member { In member (clause_at self.now.pool.now clause) }
        requires below { member < length self.now.rows.now }
        ensures { result ≡ is_idle (left_with self.now left.now) self.now.number
            (clause_at self.now.pool.now clause) member }
    {
        self.all_harmless(left, clause, conflicts_of(self.table, member))
            && self.all_hit_anyway(left, clause, self.clauses_of(left, member))
    }

    /// The least member by which the clause is idle, if there is one.
    pub(crate) fn idle_by(&self, left: &[ClauseId], clause: ClauseId) -> Option<u32>
        requires fits { IsPrunable self.now }
        requires left { OfPool self.now.pool.now left.now }
        requires order { InOrder (clauses_at self.now.pool.now left.now) }
        requires clause { clause < length self.now.pool.now.clauses }
        requires members { (n : ℕ) → In n (clause_at self.now.pool.now clause) →
            n < length self.now.rows.now }
        ensures { result ≡ find (is_idle (left_with self.now left.now) self.now.number
            (clause_at self.now.pool.now clause)) (clause_at self.now.pool.now clause) }
    {
        for member in self.pool.slice(clause) {
            if self.is_idle(left, clause, *member) {
                return Some(*member);
            }
        }
        None
    }
}
