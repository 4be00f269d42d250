//! Clauses that are wanted and that no pool holds.
ghost use Rattle.std.specs.Prelude.{◌≡◌, ◌<◌, ◌∷◌, ◌++◌, [], length, slice_index_or, OnOk, OnErr};
ghost use Rattle.listed.specs.Lists.{Ascending};
ghost use Rattle.row_book.specs.Needs.{AreNeeds, IsNeed};

use crate::NumList;
use listed::Listed;
use std::alloc::{AllocError, Global};
use std::marker::Model;

/// A growing list of clauses, each strictly ascending and not empty. A set is to hit every one of
/// them.
#[derive(Drop)]
pub struct Needs {
    clauses: Vec<NumList>,
}

impl Model for Needs {
    ghost use Rattle.std.specs.{Prelude.{ℕ, List}, Coded.{coded_list, coded_ℕ}};
    ghost use Rattle.row_book.specs.Needs.{AreNeeds};

    ghost Value = { List (List ℕ) };

    ghost coded = { coded_list (coded_list coded_ℕ) };

    ghost view = { λ s. s.clauses.items };

    ghost invariant = { λ s. AreNeeds s.clauses.items };
}

impl Needs {
    /// No clauses.
    pub fn new(alloc: Global) -> Needs
        ensures { result ≡ [] }
    {
        Needs {
            clauses: Vec::new(alloc),
        }
    }

    /// Appends a clause, strictly ascending and not empty. If memory runs out, the list stays as it
    /// was.
    pub fn push(&mut self, clause: &[u32]) -> Result<(), AllocError>
        requires ascending { Ascending clause.now }
        requires filled { 0 < length clause.now }
        ensures ok { OnOk result (self.new ≡ self.old ++ clause.now ∷ []) }
        ensures err { OnErr result (self.new ≡ self.old) }
    {
        let copy = Vec::from_slice(*self.clauses.allocator(), clause)?;
        self.clauses.push(Listed::of(copy))?;
        Ok(())
    }

    /// The number of clauses.
    pub fn count(&self) -> u64
        ensures count { result ≡ length self.now }
        ensures needs { AreNeeds self.now }
    {
        self.clauses.len() as u64
    }

    /// Lends the clause at a place below the count.
    pub fn at(&self, place: u64) -> &[u32]
        requires { place < length self.now }
        ensures clause { result.now ≡ slice_index_or self.now place [] }
        ensures need { IsNeed result.now }
    {
        self.clauses[place as usize].as_slice()
    }
}
