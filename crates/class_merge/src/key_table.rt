//! The keys of packages that were seen, each once.
ghost use Rattle.std.specs.Prelude.{◌≡◌, ◌∷◌, ◌++◌, [], IfOk, None, OnErr, length, nat_eq};
ghost use Rattle.std.specs.{Prelude.{position}, Cmp.Lexicographic.{pointwise}};

use indexmap::IndexSet;
use std::alloc::{AllocError, Global};
use std::marker::Model;

/// Keys in the order in which they came, with a table that finds each by its numbers.
#[derive(Drop)]
pub struct KeyTable {
    keys: IndexSet<Vec<u64>>,
}

impl Model for KeyTable {
    ghost use Rattle.std.specs.{Prelude.{ℕ, List, map}, Coded.{coded_list, coded_ℕ}};

    ghost Value = { List (List ℕ) };

    ghost coded = { coded_list (coded_list coded_ℕ) };

    ghost view = { λ s. map (λ v. v.items) s.keys.keys };
}

impl KeyTable {
    /// No keys.
    pub fn new(alloc: Global) -> Self
        ensures { result ≡ [] }
    {
        KeyTable {
            keys: IndexSet::new(alloc),
        }
    }

    /// The place of the key.
    pub fn find(&self, key: &[u64]) -> Option<usize>
        ensures { result ≡ position (pointwise nat_eq key.now) self.now }
    {
        self.keys.get_index_of(key)
    }

    /// Appends a key, and returns its place.
    pub fn push(&mut self, key: &[u64]) -> Result<usize, AllocError>
        requires { position (pointwise nat_eq key.now) self.old ≡ None }
        ensures place { IfOk result (λ place. place ≡ length self.old) }
        ensures ok { IfOk result (λ place. self.new ≡ self.old ++ key.now ∷ []) }
        ensures err { OnErr result (self.new ≡ self.old) }
    {
        let key = Vec::from_slice(*self.keys.allocator(), key)?;
        let (place, _) = self.keys.insert_full(key)?;
        Ok(place)
    }
}
