//! The book of some packages of a book.
ghost use Rattle.std.specs.Prelude.{◌≡◌, ◌<◌, ℕ, List, length, map, IfOk};
ghost use Rattle.std.specs.List.{items_where_true};
ghost use Rattle.clause_pool.specs.Compacting.{RowsOf};
ghost use Rattle.clause_pool.specs.Interned.{clauses_at, row_at, IsPool, Kept, OfPool};
ghost use Rattle.listed.specs.Lists.{Ascending, In};
ghost use Rattle.row_book.specs.Book.{repository_of, AreConflicts, Sound};
ghost use Rattle.row_book.specs.Parts.{chosen_in, part, row_in};

use crate::rows::{LeftRows, row_left};
use crate::subset::Subset;
use clause_pool::{NumList, Pool, RowId};
use listed::Listed;
use row_book::Book;
use std::alloc::{AllocError, Global};

/// The part of a book with only the chosen packages, in their order and numbered anew. What the
/// pool held stays.
pub fn part_of(
    alloc: Global,
    pool: &mut Pool,
    from: &Pool,
    book: &Book,
    chosen: &Subset,
) -> Result<Book, AllocError>
    requires pool { IsPool pool.old }
    requires book { Sound from.now book.now }
    requires flags { length chosen.now.flags.items ≡ length book.now.rows }
    ensures part { IfOk result (λ made. repository_of pool.new made
        ≡ part chosen.now.flags.items (repository_of from.now book.now)) }
    ensures sound { IfOk result (Sound pool.new) }
    ensures kept { Kept pool.old pool.new }
{
    let rows = rows_in(alloc, pool, from, book, chosen)?;
    let conflicts = conflicts_in(alloc, book, chosen)?;
    Ok(Book {
        rows: Listed::of(rows),
        conflicts: Listed::of(conflicts),
    })
}

// The rows of the chosen packages.
fn rows_in(
    alloc: Global,
    pool: &mut Pool,
    from: &Pool,
    book: &Book,
    chosen: &Subset,
) -> Result<Vec<RowId>, AllocError>
    requires pool { IsPool pool.old }
    requires book { Sound from.now book.now }
    requires flags { length chosen.now.flags.items ≡ length book.now.rows }
    ensures rows { IfOk result (λ rows. map (row_at pool.new) rows.items
        ≡ map (row_in chosen.now.flags.items)
        (items_where_true chosen.now.flags.items (repository_of from.now book.now).clauses)) }
    ensures of_pool { IfOk result (λ rows. RowsOf pool.new rows.items) }
    ensures kept { Kept pool.old pool.new }
{
    let mut left = LeftRows::new(alloc, from)?;
    let mut rows = Vec::new(alloc);
    for place in 0..book.size() {
        if chosen.flags[place as usize] {
            let made = row_left(alloc, pool, from, book.row(place), chosen, &mut left)?;
            rows.push(made)?;
        }
    }
    Ok(rows)
}

// The conflicts of the chosen packages among themselves.
fn conflicts_in(alloc: Global, book: &Book, chosen: &Subset) -> Result<Vec<NumList>, AllocError>
    requires conflicts { AreConflicts book.now.conflicts }
    requires flags { length chosen.now.flags.items ≡ length book.now.rows }
    ensures { IfOk result (λ lists. lists.items ≡ map (chosen_in chosen.now.flags.items)
        (items_where_true chosen.now.flags.items book.now.conflicts)) }
{
    let mut lists = Vec::new(alloc);
    for number in 0..book.size() {
        if chosen.flags[number as usize] {
            let list = chosen.among(alloc, book.against(number))?;
            lists.push(Listed::of(list))?;
        }
    }
    Ok(lists)
}
