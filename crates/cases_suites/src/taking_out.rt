//! A small repository that has one package taken out, a call that no command makes by itself.
ghost use Rattle.std.specs.Prelude.{◌≡◌, length};
ghost use Rattle.row_book.specs.Book.{RowsFit, RowsTidy, Sound};

use crate::samples::book_of;
use class_merge::merge;
use clause_flatten::eliminate;
use clause_pool::{Pool, RowId};
use row_book::{Book, UseTable};
use std::alloc::AllocError;
use std::process::Abort;
use std::test::Fail;

/// Package 0 depends on 1, which depends on 2, and on 3 or 4; each of these three has a conflict of
/// its own.
const CHAIN: &str = "Package: a\nVersion: 1\nDepends: m\n\n\
     Package: m\nVersion: 1\nDepends: b, c | d\n\n\
     Package: b\nVersion: 1\nConflicts: e\n\n\
     Package: c\nVersion: 1\nConflicts: f\n\n\
     Package: d\nVersion: 1\nConflicts: g\n\n\
     Package: e\nVersion: 1\n\n\
     Package: f\nVersion: 1\n\n\
     Package: g\nVersion: 1\n";

/// The user has the row of what was taken out, nobody names that any more, and both name what it
/// needs.
fn check_taken(rt: &impl Abort, rows: &[RowId], uses: &UseTable)
    requires { length uses.now ≡ length rows.now }
{
    assert!(rt; rows.len() == 8);
    assert!(rt; rows[0] == rows[1]);
    assert!(rt; uses.packages(1).is_empty());
    assert!(rt; uses.packages(2) == [0, 1].as_slice());
    assert!(rt; uses.packages(3) == [0, 1].as_slice());
}

/// Takes package 1 out of the rows.
#[tactic(auto, using(crate::proofs::Rows::uses_size))]
fn check_without(
    rt: &(impl Abort + AllocGlobal),
    pool: &mut Pool,
    rows: &mut [RowId],
) -> Result<(), AllocError>
    requires fit { RowsFit pool.old rows.old }
    requires tidy { RowsTidy pool.old rows.old }
{
    assert!(rt; rows.len() == 8);
    let mut uses = UseTable::of(rt.alloc(), pool, rows)?;
    eliminate(rt.alloc(), pool, rows, &mut uses, 1)?;
    check_taken(rt, rows, &uses);
    Ok(())
}

/// Takes package 1 out of a book in which no two packages are alike. Merging makes its rows tidy,
/// and no classes.
fn check_merged(
    rt: &(impl Abort + AllocGlobal),
    pool: &mut Pool,
    book: &Book,
) -> Result<(), AllocError>
    requires { Sound pool.old book.now }
{
    let tidy = merge(rt.alloc(), pool, book)?;
    let mut rows = Vec::from_slice(rt.alloc(), tidy.book.rows.as_slice())?;
    check_without(rt, pool, rows.as_mut_slice())
}

fn check_chain(rt: &(impl Abort + AllocGlobal), pool: &mut Pool) -> Result<(), Fail> {
    let book = book_of(rt.alloc(), pool, CHAIN)?;
    Ok(check_merged(rt, pool, &book)?)
}

#[test]
fn one_package_is_taken_out(rt: HostRuntime) -> Result<(), Fail> {
    let mut pool = Pool::new(rt.alloc())?;
    check_chain(&rt, &mut pool)
}
