//! Books that are lent with their pools.
ghost use Rattle.row_book.specs.{Book.{Sound}, Props.{Sound-prop}};

use crate::book::Book;
use clause_pool::Pool;

/// A sound book, with the pool of its rows.
#[derive(Clone, Copy)]
pub struct LentBook<'a> {
    /// The pool of its rows.
    pub pool: &'a Pool,
    /// The book.
    pub book: &'a Book,
    ghost sound: { Sound pool.now book.now } by { Sound-prop pool.now book.now },
}
