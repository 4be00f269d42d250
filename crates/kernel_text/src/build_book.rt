//! The book of the classes that were read.
ghost use Rattle.std.specs.Prelude.{◌≡◌, ◌∷◌, ◌++◌, ◌<◌, ℕ, List, [], IfOk, OnOk, length, map};
ghost use Rattle.std.specs.Prelude.{slice_set};
ghost use Rattle.clause_pool.specs.{Interned.{clauses_at, Kept, OfPool}, Lists.{InOrder}};
ghost use Rattle.row_book.specs.Book.{AddsOnly, listed_for, repository_of, Sound};
ghost use Rattle.listed.specs.Lists.{Ascending, In};
ghost use Rattle.kernel_text.specs.Booking.{AreRows, GainsClauses, GainsRows, HasIdsByClass};
ghost use Rattle.kernel_text.specs.{Booking.{IsBookable}, Reading.{repository_of_reading, Reading}};
ghost use Rattle.kernel_text.specs.Reader.{entry_of, HoldsReading};
ghost use Rattle.kernel_text.specs.declared.reader.Clause.{Clause};

use crate::reader::{Clause, Reader};
use clause_pool::{ClauseId, Pool, RowId};
use listed::Listed;
use row_book::Book;
use std::alloc::{AllocError, Global};

/// The classes that were read, as a book over the pool. What the pool held stays, even if memory
/// runs out. It gains only the rows of the book and their clauses.
pub(crate) fn book_of(alloc: Global, pool: &mut Pool, reader: &Reader) -> Result<Book, AllocError>
    requires { (t : Reading) × HoldsReading reader.now t × IsBookable t }
    ensures repository { IfOk result (λ book. (t : Reading) → HoldsReading reader.now t →
        repository_of pool.new book ≡ repository_of_reading t) }
    ensures sound { IfOk result (Sound pool.new) }
    ensures size { IfOk result (λ book. length book.rows ≡ reader.now.classes) }
    ensures only { IfOk result (λ book. AddsOnly pool.old pool.new book.rows) }
    ensures kept { Kept pool.old pool.new }
{
    let ids = intern_clauses(alloc, pool, reader.clauses.as_slice(), reader.classes)?;
    let rows = intern_rows(alloc, pool, ids.as_slice())?;
    Book::build(alloc, pool, &rows, reader.conflicts.as_slice())
}

// For each class the ids of its clauses, in their order.
fn intern_clauses(
    alloc: Global,
    pool: &mut Pool,
    clauses: &[Clause],
    classes: u32,
) -> Result<Vec<Listed<ClauseId>>, AllocError>
    requires inside { (c : Clause) → In c clauses.now → c.class < classes }
    requires ascending { (c : Clause) → In c clauses.now → Ascending c.numbers }
    ensures ids { IfOk result (λ table.
        HasIdsByClass pool.new (map entry_of clauses.now) classes table.items) }
    ensures gains { IfOk result (λ table. GainsClauses pool.old pool.new table.items) }
    ensures kept { Kept pool.old pool.new }
{
    let mut table = no_ids(alloc, classes)?;
    for clause in clauses {
        let id = pool.intern(clause.numbers.as_slice())?;
        enter(&mut table, clause.class, id)?;
    }
    Ok(table)
}

// An empty list for each class.
fn no_ids(alloc: Global, size: u32) -> Result<Vec<Listed<ClauseId>>, AllocError>
    ensures count { IfOk result (λ table. length table.items ≡ size) }
    ensures empty { IfOk result (λ table. (n : ℕ) → listed_for table.items n ≡ []) }
{
    let mut table = Vec::new(alloc);
    for _ in 0..size {
        table.push(Listed::new(alloc))?;
    }
    Ok(table)
}

// Appends an id to the list of a class.
fn enter(table: &mut Vec<Listed<ClauseId>>, class: u32, id: ClauseId) -> Result<(), AllocError>
    requires { class < length table.old.items }
    ensures { OnOk result (table.new.items
        ≡ slice_set table.old.items class (listed_for table.old.items class ++ id ∷ [])) }
{
    let list = &mut table[class as usize];
    list.push(id)
}

// The rows of these lists of ids.
fn intern_rows(
    alloc: Global,
    pool: &mut Pool,
    table: &[Listed<ClauseId>],
) -> Result<Vec<RowId>, AllocError>
    requires of_pool { (ids : List ℕ) → In ids table.now → OfPool pool.old ids }
    requires in_order { (ids : List ℕ) → In ids table.now → InOrder (clauses_at pool.old ids) }
    ensures rows { IfOk result (λ rows.
        AreRows pool.new (map (clauses_at pool.old) table.now) rows.items) }
    ensures gains { IfOk result (λ rows. GainsRows pool.old pool.new table.now rows.items) }
    ensures kept { Kept pool.old pool.new }
{
    let mut rows = Vec::new(alloc);
    for ids in table {
        let row = pool.intern_row(ids.as_slice())?;
        rows.push(row)?;
    }
    Ok(rows)
}
