//! Packages that were met, each once.
ghost use Rattle.std.specs.{Prelude.{◌≡◌, ◌<◌, ◌≤◌, ◌∷◌, [], ℕ, IfOk, OnOk, length}, List.{concat}};
ghost use Rattle.clause_pool.specs.Interned.{clauses_at, OfPool};
ghost use Rattle.row_book.specs.{Flags.{flag}, Needs.{NeedsFit}};
ghost use Rattle.listed.specs.Lists.{In, has};
ghost use Rattle.explain_core.specs.Meeting.{Meets};

use clause_pool::{ClauseId, Pool};
use row_book::Needs;
use std::alloc::{AllocError, Global};
use std::marker::Model;

/// The packages that were met: a flag for each package, and their order.
#[derive(Drop)]
pub(crate) struct Met {
    flags: Vec<bool>,
    order: Vec<u32>,
}

impl Model for Met {
    ghost use Rattle.std.specs.Prelude.{ℕ, List, length};
    ghost use Rattle.explain_core.specs.Meeting.{IsMetList};

    ghost Value = { ℕ × List ℕ };

    ghost view = { λ s. (length s.flags.items, s.order.items) };

    ghost invariant = { λ s. IsMetList s.flags.items s.order.items };
}

impl Met {
    /// No package, of `size`.
    pub(crate) fn new(alloc: Global, size: u32) -> Result<Met, AllocError>
        ensures { IfOk result (λ met. met ≡ (size, [])) }
    {
        Ok(Met {
            flags: vec![in alloc; false; size as usize]?,
            order: Vec::new(alloc),
        })
    }

    /// The packages, in the order in which they were met.
    pub(crate) fn as_slice(&self) -> &[u32]
        ensures items { result.now ≡ self.now.1 }
        ensures few { length self.now.1 ≤ self.now.0 }
    {
        self.order.as_slice()
    }

    /// A flag for each package, up for those that were met.
    pub(crate) fn into_flags(self) -> Vec<bool>
        ensures { (n : ℕ) → flag result.items n ≡ has self.1 n }
    {
        let Met { flags, .. } = self;
        flags
    }

    /// Meets a package, unless it was met before.
    fn meet(&mut self, number: u32) -> Result<(), AllocError>
        requires { number < self.old.0 }
        ensures size { OnOk result (self.new.0 ≡ self.old.0) }
        ensures put { OnOk result (Meets self.old.1 self.new.1 (number ∷ [])) }
    {
        if self.flags[number as usize] {
            return Ok(());
        }
        self.order.push(number)?;
        self.flags[number as usize] = true;
        Ok(())
    }

    /// Meets the members of a clause.
    pub(crate) fn meet_all(&mut self, clause: &[u32]) -> Result<(), AllocError>
        requires { (n : ℕ) → In n clause.now → n < self.old.0 }
        ensures size { OnOk result (self.new.0 ≡ self.old.0) }
        ensures put { OnOk result (Meets self.old.1 self.new.1 clause.now) }
    {
        for number in clause {
            self.meet(*number)?;
        }
        Ok(())
    }

    /// Meets the members of each clause of a row.
    pub(crate) fn meet_row(&mut self, pool: &Pool, row: &[ClauseId]) -> Result<(), AllocError>
        requires row { OfPool pool.now row.now }
        requires fit { NeedsFit self.old.0 (clauses_at pool.now row.now) }
        ensures size { OnOk result (self.new.0 ≡ self.old.0) }
        ensures put { OnOk result
            (Meets self.old.1 self.new.1 (concat (clauses_at pool.now row.now))) }
    {
        for id in row {
            self.meet_all(pool.slice(*id))?;
        }
        Ok(())
    }

    /// Meets the packages of each goal.
    pub(crate) fn meet_goals(&mut self, goals: &Needs) -> Result<(), AllocError>
        requires { NeedsFit self.old.0 goals.now }
        ensures size { OnOk result (self.new.0 ≡ self.old.0) }
        ensures put { OnOk result (Meets self.old.1 self.new.1 (concat goals.now)) }
    {
        for place in 0..goals.count() {
            self.meet_all(goals.at(place))?;
        }
        Ok(())
    }
}
