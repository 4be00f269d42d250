//! The repository of a suite.
ghost use Rattle.std.specs.Prelude.{◌≡◌, IfOk};
ghost use Rattle.clause_pool.specs.Interned.{Kept};
ghost use Rattle.row_book.specs.Book.{repository_of, AddsOnly, Sound};
ghost use Rattle.repo_model.specs.Repository.{suite_repository};

use crate::pairs::conflict_pairs;
use crate::rows::intern_rows;
use crate::suite::Suite;
use clause_pool::Pool;
use row_book::Book;
use std::alloc::{AllocError, Global};

impl Suite {
    /// The repository of the packages, as a book over the pool. The pool gains only the rows of the
    /// book and their clauses. What it held stays, even without memory.
    pub fn book(&self, alloc: Global, pool: &mut Pool) -> Result<Book, AllocError>
        ensures repository { IfOk result (λ book. repository_of pool.new book
            ≡ suite_repository self.now.home self.now.packages) }
        ensures sound { IfOk result (Sound pool.new) }
        ensures kept { Kept pool.old pool.new }
        ensures only { IfOk result (λ book. AddsOnly pool.old pool.new book.rows) }
    {
        let packages = self.packages.as_slice();
        let names = &self.names;
        let rows = intern_rows(alloc, pool, names, packages, &self.home, &self.elements)?;
        let pairs = conflict_pairs(alloc, names, packages, &self.home)?;
        let book = Book::build(alloc, pool, &rows, &pairs)?;
        Ok(book)
    }
}
