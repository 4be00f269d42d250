//! The packages that wait to be taken out.
ghost use Rattle.std.specs.Prelude.{◌≡◌, ◌≢◌, ◌<◌, ◌≤◌, ℕ, Bool, false, IfNone, IfOk, IfSome};
ghost use Rattle.std.specs.Prelude.{length, replicate};
ghost use Rattle.row_book.specs.Sets.{plus, without};
ghost use Rattle.clause_flatten.specs.Waiting.{never, turn, Filed, IsFirst, recounted};

use crate::least_tree::{depth_for, first_least, put_leaf};
use std::alloc::{AllocError, Global};
use std::marker::Model;

/// The number at a package that does not wait.
const NEVER: u64 = u64::MAX;

/// The packages that wait to be taken out. The leaf of a package has the number of its clauses
/// while it waits, so the one with the fewest comes first, and of these the least package.
#[derive(Drop)]
pub(crate) struct Waiting {
    depth: u32,
    nodes: Vec<u64>,
}

impl Model for Waiting {
    ghost use Rattle.std.specs.{Prelude.{List, ℕ, ◌^◌, ◌≤◌, drop}, Coded.{coded_list, coded_ℕ}};
    ghost use Rattle.clause_flatten.specs.LeastTree.{IsTree};

    ghost Value = { List ℕ };

    ghost coded = { coded_list coded_ℕ };

    ghost view = { λ s. drop (2 ^ s.depth) s.nodes.items };

    ghost invariant = { λ s. IsTree s.nodes.items (2 ^ s.depth) × (s.depth ≤ 32) };
}

impl Waiting {
    /// No package, with room for this number of them.
    pub(crate) fn with_room(alloc: Global, packages: u32) -> Result<Waiting, AllocError>
        ensures none { IfOk result (λ waiting. (count : ℕ → ℕ) → Filed waiting (λ q. false) count) }
        ensures room { IfOk result (λ waiting. packages ≤ length waiting) }
    {
        let depth = depth_for(packages);
        let nodes = none_filed(alloc, 2usize << depth)?;
        Ok(Waiting { depth, nodes })
    }

    /// Adds a package with the number of its clauses.
    pub(crate) fn put(&mut self, number: u32, clauses: u64)
        requires room { number < length self.old }
        requires few { clauses < never }
        ensures filed { (may : ℕ → Bool) (count : ℕ → ℕ) → Filed self.old may count →
            count number ≡ clauses →
            Filed self.new (plus may number) count }
        ensures room { length self.new ≡ length self.old }
    {
        self.file(number as usize, clauses);
    }

    /// Removes and returns the package whose turn is first.
    pub(crate) fn take_first(&mut self) -> Option<u32>
        ensures none { IfNone result ((may : ℕ → Bool) (count : ℕ → ℕ) → Filed self.old may count →
            (q : ℕ) → may q ≡ false) }
        ensures first { IfSome result (λ q. (may : ℕ → Bool) (count : ℕ → ℕ) →
            Filed self.old may count → IsFirst may count q) }
        ensures taken { IfSome result (λ q. (may : ℕ → Bool) (count : ℕ → ℕ) →
            Filed self.old may count → Filed self.new (without may q) count) }
    {
        let number = first_least(self.nodes.as_slice(), self.depth) as u32;
        if self.turn(number) == NEVER {
            return None;
        }
        self.file(number as usize, NEVER);
        Some(number)
    }

    /// Files a package, if it waits, under another number of clauses.
    pub(crate) fn file_again(&mut self, number: u32, clauses: u64)
        requires few { clauses < never }
        ensures { (may : ℕ → Bool) (count : ℕ → ℕ) → Filed self.old may count →
            Filed self.new may (recounted count number clauses) }
    {
        if self.turn(number) == NEVER {
            return;
        }
        self.file(number as usize, clauses);
    }

    /// The number under which a package is filed.
    fn turn(&self, number: u32) -> u64
        ensures { result ≡ turn self.now number }
    {
        match self.nodes.get(self.nodes.len() / 2 + number as usize) {
            Some(clauses) => *clauses,
            None => NEVER,
        }
    }

    /// Files a package under a number.
    fn file(&mut self, number: usize, clauses: u64)
        requires { number < length self.old }
        ensures room { length self.new ≡ length self.old }
        ensures here { turn self.new number ≡ clauses }
        ensures others { (q : ℕ) → q ≢ number → turn self.new q ≡ turn self.old q }
    {
        let leaves = self.nodes.len() / 2;
        put_leaf(self.nodes.as_mut_slice(), leaves, leaves + number, clauses);
    }
}

/// The nodes of a tree in which no package waits.
fn none_filed(alloc: Global, count: usize) -> Result<Vec<u64>, AllocError>
    ensures { IfOk result (λ nodes. nodes.items ≡ replicate count never) }
{
    vec![in alloc; NEVER; count]
}
