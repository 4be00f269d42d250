//! Books whose rows come into another pool.
ghost use Rattle.std.specs.Prelude.{ℕ, List, IfOk, OnOk};
ghost use Rattle.clause_pool.specs.Interned.{Interned, IsPool, Kept};
ghost use Rattle.clause_pool.specs.Compacting.{Compacts, Knows};
ghost use Rattle.listed.specs.Lists.{In};
ghost use Rattle.row_book.specs.Book.{AddsOnly, IsSameBook, Sound};

use crate::book::Book;
use clause_pool::{Pool, Remap};
use listed::Listed;
use std::alloc::{AllocError, Global};

impl Book {
    /// The book in the pool that a compaction has left. Each of its rows was live.
    pub fn rename(&self, alloc: Global, remap: &Remap) -> Result<Book, AllocError>
        requires { (id : ℕ) → In id self.now.rows → Knows remap.now id }
        ensures { IfOk result (λ book. (old new : Interned) (live : List ℕ) →
            Compacts old live remap.now new → IsSameBook old self.now new book) }
    {
        let mut rows = Vec::new(alloc);
        for row in self.rows.as_slice() {
            rows.push(remap.row(*row))?;
        }
        self.with_rows(alloc, Listed::of(rows))
    }

    /// The same book in another pool, which gains only its rows and their clauses. If memory runs
    /// out, some of these may have been gained. What that pool held stays.
    pub fn carry(&self, alloc: Global, from: &Pool, into: &mut Pool) -> Result<Book, AllocError>
        requires { Sound from.now self.now }
        ensures same { IfOk result (λ book. IsSameBook from.now self.now into.new book) }
        ensures only { IfOk result (λ book. AddsOnly into.old into.new book.rows) }
        ensures kept { Kept into.old into.new }
        ensures pool { OnOk result (IsPool into.new) }
    {
        let rows = into.carry_rows(from, self.rows.as_slice())?;
        self.with_rows(alloc, Listed::of(rows))
    }
}
