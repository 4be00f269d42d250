//! Whether a set of packages is healthy, and the first reason why not.
ghost use Rattle.std.specs.Prelude.{◌≡◌, ◌<◌, ◌&&◌, ltb, length, IfErr, MatchOption, OnOk};
ghost use Rattle.std.specs.List.{find};
ghost use Rattle.clause_pool.specs.Interned.{clauses_at, OfPool};
ghost use Rattle.row_book.specs.{Sets.{HitsAll}, Repository.{Healthy}};
ghost use Rattle.row_book.specs.{Book.{repository_of, AreConflicts, Sound}, Flags.{flag}};
ghost use Rattle.row_book.specs.Health.{AllSatisfied, HasNoClash, IsFirstClash, IsFirstFault};
ghost use Rattle.row_book.specs.Health.{IsFirstUnhit};

use crate::book::Book;
use crate::pair::Pair;
use crate::subsets::{hits_clause, is_member};
use clause_pool::{ClauseId, Pool};

/// The first reason why a set of packages is not healthy.
#[derive(Clone, Copy, Debug, PartialEq, Eq)]
pub enum Unhealthy {
    /// The set has no member of a clause of one of its packages.
    Unhit {
        /// The least package with such a clause.
        package: u32,
        /// The place of its first such clause, from 0.
        clause: u64,
    },
    /// Every clause is hit, and two packages of the set conflict.
    Clash {
        /// The least package that conflicts with a greater one of the set.
        first: u32,
        /// The least of those that it conflicts with.
        second: u32,
    },
}

impl Book {
    /// Whether the packages with a flag that is up are a healthy set, or the first reason why not.
    /// That is the first clause that is not hit, by package and place. If all are hit, it is the
    /// first conflict, by its lesser and then by its greater number.
    pub fn is_healthy(&self, pool: &Pool, chosen: &[bool]) -> Result<(), Unhealthy>
        requires sound { Sound pool.now self.now }
        requires flags { length chosen.now ≡ length self.now.rows }
        ensures healthy { OnOk result
            (Healthy (repository_of pool.now self.now) (flag chosen.now)) }
        ensures refused { IfErr result
            (IsFirstFault (repository_of pool.now self.now) (flag chosen.now)) }
    {
        self.check_clauses(pool, chosen)?;
        match self.first_clash(chosen) {
            Some(pair) => Err(Unhealthy::Clash {
                first: pair.low,
                second: pair.high,
            }),
            None => Ok(()),
        }
    }

    /// Whether each clause of each chosen package is hit, or the first that is not.
    fn check_clauses(&self, pool: &Pool, chosen: &[bool]) -> Result<(), Unhealthy>
        requires sound { Sound pool.now self.now }
        requires flags { length chosen.now ≡ length self.now.rows }
        ensures satisfied { OnOk result
            (AllSatisfied (repository_of pool.now self.now) (flag chosen.now)) }
        ensures refused { IfErr result
            (IsFirstFault (repository_of pool.now self.now) (flag chosen.now)) }
    {
        for number in 0..self.size() {
            if is_member(chosen, number) {
                let ids = pool.row(self.row(number));
                if let Some(clause) = first_unhit(pool, ids, chosen) {
                    return Err(Unhealthy::Unhit {
                        package: number,
                        clause,
                    });
                }
            }
        }
        Ok(())
    }

    /// The first two chosen packages that conflict.
    fn first_clash(&self, chosen: &[bool]) -> Option<Pair>
        requires conflicts { AreConflicts self.now.conflicts }
        requires flags { length chosen.now ≡ length self.now.rows }
        ensures { MatchOption result (HasNoClash self.now.conflicts (flag chosen.now))
            (λ pair. IsFirstClash self.now.conflicts (flag chosen.now) pair.low pair.high) }
    {
        for low in 0..self.size() {
            if is_member(chosen, low) {
                if let Some(high) = first_conflicting(self.against(low), low, chosen) {
                    return Some(Pair { low, high });
                }
            }
        }
        None
    }
}

/// The place of the first clause that is not hit.
fn first_unhit(pool: &Pool, ids: &[ClauseId], chosen: &[bool]) -> Option<u64>
    requires { OfPool pool.now ids.now }
    ensures { MatchOption result (HitsAll (flag chosen.now) (clauses_at pool.now ids.now))
        (IsFirstUnhit (clauses_at pool.now ids.now) (flag chosen.now)) }
{
    for (place, id) in ids.iter().enumerate() {
        if !hits_clause(chosen, pool.slice(*id)) {
            return Some(place as u64);
        }
    }
    None
}

/// The first of the conflicts that is chosen and greater than the given package.
fn first_conflicting(conflicts: &[u32], low: u32, chosen: &[bool]) -> Option<u32>
    ensures { result ≡ find (λ n. ltb low n && flag chosen.now n) conflicts.now }
{
    conflicts
        .iter()
        .copied()
        .find(|&other| low < other && is_member(chosen, other))
}
