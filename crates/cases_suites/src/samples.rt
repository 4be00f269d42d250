//! Suites and books of short indexes.
ghost use Rattle.std.specs.Prelude.{IfOk};
ghost use Rattle.row_book.specs.Book.{Sound};

use clause_pool::Pool;
use repo_model::{IndexFault, Suite, read_suite};
use row_book::Book;
use std::alloc::Global;

/// The suite of a short index.
pub(crate) fn suite_of(alloc: Global, text: &str) -> Result<Suite, IndexFault> {
    if text.len() > 1000 {
        return Err(IndexFault::TooMany);
    }
    read_suite(alloc, text.as_bytes())
}

fn book_in(alloc: Global, pool: &mut Pool, suite: &Suite) -> Result<Book, IndexFault>
    ensures { IfOk result (Sound pool.new) }
{
    Ok(suite.book(alloc, pool)?)
}

/// The book of a short index.
pub(crate) fn book_of(alloc: Global, pool: &mut Pool, text: &str) -> Result<Book, IndexFault>
    ensures { IfOk result (Sound pool.new) }
{
    let suite = suite_of(alloc, text)?;
    book_in(alloc, pool, &suite)
}
