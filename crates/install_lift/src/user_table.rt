//! For each package its users: entries in one vector, in which those of a package are a chain, the
//! newest first.
//!
//! The table is made once and then only read, so one vector with chains is enough. A package
//! without a user takes no memory of its own.
ghost use Rattle.std.specs.Prelude.{◌≡◌, ◌<◌, ◌≤◌, ◌∷◌, ◌++◌, [], IfOk, OnOk, length, replicate};
ghost use Rattle.std.specs.Prelude.{slice_set};
ghost use Rattle.row_book.specs.Book.{listed_for};
ghost use Rattle.install_lift.specs.Chains.{chain, Falls};

use std::alloc::{AllocError, Global};
use std::marker::Model;

/// A user of a package, and the entry before it in the chain of that package: its place plus one,
/// or zero if it is the last of the chain.
#[derive(Clone, Copy)]
pub(crate) struct Entry {
    user: u32,
    before: usize,
}

/// For each package its users, the newest first.
#[derive(Drop)]
pub(crate) struct UserTable {
    heads: Vec<usize>,
    entries: Vec<Entry>,
}

impl Model for UserTable {
    ghost use Rattle.std.specs.Prelude.{List, ℕ};
    ghost use Rattle.install_lift.specs.Chains.{chains_of, AreChains};

    ghost Value = { List (List ℕ) };

    ghost view = { λ s. chains_of s.heads.items s.entries.items };

    ghost invariant = { λ s. AreChains s.heads.items s.entries.items };
}

impl UserTable {
    /// A table of packages without users.
    pub(crate) fn new(alloc: Global, size: u32) -> Result<UserTable, AllocError>
        ensures { IfOk result (λ table. table ≡ replicate size []) }
    {
        let heads = no_heads(alloc, size)?;
        Ok(UserTable {
            heads,
            entries: Vec::new(alloc),
        })
    }

    /// Adds a user of a package, before the others.
    pub(crate) fn put(&mut self, number: u32, user: u32) -> Result<(), AllocError>
        requires { number < length self.old }
        ensures { OnOk result (self.new
            ≡ slice_set self.old number (user ∷ listed_for self.old number)) }
    {
        let before = self.heads[number as usize];
        self.entries.push(Entry { user, before })?;
        self.heads[number as usize] = self.entries.len();
        Ok(())
    }

    /// Appends the users of a package to a list.
    pub(crate) fn add_users(&self, number: u32, list: &mut Vec<u32>) -> Result<(), AllocError>
        requires { number < length self.now }
        ensures { OnOk result (list.new.items ≡ list.old.items ++ listed_for self.now number) }
    {
        let head = self.heads[number as usize];
        add_chain(self.entries.as_slice(), head, list)
    }
}

/// Empty chains, one for each package.
fn no_heads(alloc: Global, size: u32) -> Result<Vec<usize>, AllocError>
    ensures { IfOk result (λ heads. heads.items ≡ replicate size 0) }
{
    vec![in alloc; 0; size as usize]
}

/// Appends the users of a chain to a list.
fn add_chain(entries: &[Entry], head: usize, list: &mut Vec<u32>) -> Result<(), AllocError>
    requires falls { Falls entries.now }
    requires head { head ≤ length entries.now }
    ensures { OnOk result (list.new.items
        ≡ list.old.items ++ chain (length entries.now) entries.now head) }
{
    let mut left = head;
    while left > 0 {
        let entry = entries[left - 1];
        list.push(entry.user)?;
        left = entry.before;
    }
    Ok(())
}
