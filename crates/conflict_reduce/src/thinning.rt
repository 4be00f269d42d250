//! Thinning of a book. The book's own conflicts stay in their lists, and those that are dropped are
//! recorded in lists of their own. So no list is shifted when one of its conflicts goes.
ghost use Rattle.std.specs.Prelude.{◌≡◌, ◌<◌, ◌+◌, IfOk, OnOk, filter, length, not};
ghost use Rattle.row_book.specs.{Book.{listed_for, repository_of, Sound}, Facing.{against_in}};
ghost use Rattle.row_book.specs.{Repository.{Repository}, Keeping.{KeepsHealthySets}};
ghost use Rattle.row_book.specs.Thinning.{thin, thin_over};
ghost use Rattle.listed.specs.Lists.{Ascending};
ghost use Rattle.conflict_reduce.specs.{Ascending.{AreAscending}, Live.{IsLiveBook}};
ghost use Rattle.conflict_reduce.specs.Tests.{book_left, gone_after, left_of, pairs_with};
ghost use Rattle.conflict_reduce.specs.Tests.{with_behind, with_gone, PassedBelow};

use crate::live::{LiveBook, live_rows};
use clause_pool::{NumList, Pool};
use listed::{Listed, empty_lists};
use row_book::{Book, Pair, are_against, conflicts_of};
use std::alloc::{AllocError, Global};

// Appends the number to the list of a package.
fn put_behind(table: &mut Vec<NumList>, holder: u32, number: u32) -> Result<(), AllocError>
    requires { holder < length table.old.items }
    ensures { OnOk result (table.new.items ≡ with_behind table.old.items holder number) }
{
    let list = &mut table[holder as usize];
    list.push(number)?;
    Ok(())
}

// Adds the conflict of two packages to those that are gone.
fn drop_conflict(gone: &mut Vec<NumList>, a: u32, b: u32) -> Result<(), AllocError>
    requires a { a < length gone.old.items }
    requires b { b < length gone.old.items }
    ensures { OnOk result (gone.new.items ≡ with_gone gone.old.items a b) }
{
    put_behind(gone, a, b)?;
    put_behind(gone, b, a)
}

impl LiveBook<'_> {
    // Drops the conflict of a package with another one, if that is the greater and the conflict is
    // redundant in what is left.
    fn thin_pair(
        &self,
        alloc: Global,
        gone: &mut Vec<NumList>,
        a: u32,
        b: u32,
    ) -> Result<(), AllocError>
        requires live { IsLiveBook self.now }
        requires count { length gone.old.items ≡ length self.now.book.now.rows }
        requires gone { AreAscending gone.old.items }
        requires a { a < length self.now.book.now.rows }
        requires b { b < length self.now.book.now.rows }
        ensures { OnOk result (gone.new.items ≡ gone_after
            (book_left self.now.pool.now self.now.book.now gone.old.items) gone.old.items a b) }
    {
        if a >= b {
            return Ok(());
        }
        let pair = Pair { low: a, high: b };
        let redundant = self.is_redundant(alloc, gone.as_slice(), pair)?;
        if redundant {
            drop_conflict(gone, a, b)?;
        }
        Ok(())
    }

    // Drops in turn the conflicts of a package with greater ones, each if it is redundant in what
    // is left.
    fn thin_package(
        &self,
        alloc: Global,
        gone: &mut Vec<NumList>,
        number: u32,
        list: &[u32],
    ) -> Result<(), AllocError>
        requires live { IsLiveBook self.now }
        requires inside { number < length self.now.book.now.rows }
        requires list { list.now ≡ listed_for self.now.book.now.conflicts number }
        requires passed { PassedBelow gone.old.items (length self.now.book.now.rows) number }
        ensures left { OnOk result (◌≡◌ {A = Repository}
            (book_left self.now.pool.now self.now.book.now gone.new.items) (thin_over (book_left
            self.now.pool.now self.now.book.now gone.old.items) (pairs_with number list.now))) }
        ensures passed { OnOk result
            (PassedBelow gone.new.items (length self.now.book.now.rows) (number + 1)) }
    {
        for other in list {
            self.thin_pair(alloc, gone, number, *other)?;
        }
        Ok(())
    }
}

// The conflicts that go when the book is thinned.
fn gone_of(alloc: Global, pool: &Pool, book: &Book) -> Result<Vec<NumList>, AllocError>
    requires { Sound pool.now book.now }
    ensures thinned { IfOk result (λ gone. ◌≡◌ {A = Repository}
        (book_left pool.now book.now gone.items) (thin (repository_of pool.now book.now))) }
    ensures ascending { IfOk result (λ gone. AreAscending gone.items) }
{
    let live = live_rows(alloc, pool, book)?;
    let thinned = LiveBook { pool, book, live };
    let mut gone = empty_lists(alloc, book.size() as usize)?;
    for number in 0..book.size() {
        let list = book.against(number);
        thinned.thin_package(alloc, &mut gone, number, list)?;
    }
    Ok(gone)
}

// The conflicts of the package in the list that are not gone.
fn left_list(
    alloc: Global,
    gone: &[NumList],
    number: u32,
    list: &[u32],
) -> Result<NumList, AllocError>
    requires { Ascending (listed_for gone.now number) }
    ensures { IfOk result (λ made. made
        ≡ filter (λ q. not (against_in gone.now number q)) list.now) }
{
    if conflicts_of(gone, number).is_empty() {
        return Ok(Listed::of(Vec::from_slice(alloc, list)?));
    }
    let mut made = NumList::new(alloc);
    for other in list {
        if !are_against(gone, number, *other) {
            made.push(*other)?;
        }
    }
    Ok(made)
}

// The lists of conflicts without those that are gone.
fn left_lists(
    alloc: Global,
    table: &[NumList],
    gone: &[NumList],
    size: u32,
) -> Result<Vec<NumList>, AllocError>
    requires size { length table.now ≡ size }
    requires gone { AreAscending gone.now }
    ensures left { IfOk result (λ made. made.items ≡ left_of table.now gone.now) }
    ensures count { IfOk result (λ made. length made.items ≡ size) }
{
    let mut made = Vec::new(alloc);
    for number in 0..size {
        let list = left_list(alloc, gone, number, conflicts_of(table, number))?;
        made.push(list)?;
    }
    Ok(made)
}

/// The thinned book: each conflict is dropped in turn that is redundant in what is left.
pub fn thin(alloc: Global, pool: &Pool, book: &Book) -> Result<Book, AllocError>
    requires { Sound pool.now book.now }
    ensures thinned { IfOk result (λ made. repository_of pool.now made
        ≡ thin (repository_of pool.now book.now)) }
    ensures keeps { IfOk result (λ made.
        KeepsHealthySets (repository_of pool.now book.now) (repository_of pool.now made)) }
    ensures rows { IfOk result (λ made. made.rows ≡ book.now.rows) }
    ensures sound { IfOk result (Sound pool.now) }
{
    let gone = gone_of(alloc, pool, book)?;
    let conflicts = left_lists(
        alloc,
        book.conflicts.as_slice(),
        gone.as_slice(),
        book.size(),
    )?;
    let rows = Vec::from_slice(alloc, book.rows.as_slice())?;
    Ok(Book {
        rows: Listed::of(rows),
        conflicts: Listed::of(conflicts),
    })
}
