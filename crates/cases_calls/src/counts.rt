//! How many clauses a pool has, before and after equal ones, and with the clauses of one row alone.
ghost use Rattle.row_book.specs.Book.{Sound};

use crate::samples::{ALONE, suite_of};
use clause_pool::Pool;
use repo_model::Suite;
use row_book::Book;
use std::alloc::AllocError;
use std::process::Abort;
use std::test::Fail;

fn check_equal(rt: &impl Abort, pool: &mut Pool) -> Result<(), AllocError> {
    assert!(rt; pool.clause_count() == 0);
    pool.intern(&[1, 2])?;
    assert!(rt; pool.clause_count() == 1);
    pool.intern(&[1, 2])?;
    assert!(rt; pool.clause_count() == 1);
    pool.intern(&[1, 3])?;
    assert!(rt; pool.clause_count() == 2);
    Ok(())
}

#[test]
fn equal_clauses_count_once(rt: HostRuntime) -> Result<(), Fail> {
    let mut pool = Pool::new(rt.alloc())?;
    check_equal(&rt, &mut pool)?;
    Ok(())
}

/// Leaves the only row of a book, which has an empty clause alone.
fn check_left(
    rt: &(impl Abort + AllocGlobal),
    pool: &mut Pool,
    book: &Book,
) -> Result<(), AllocError>
    requires { Sound pool.old book.now }
{
    assert!(rt; book.size() == 1);
    pool.compact(rt.alloc(), book.rows.as_slice())?;
    assert!(rt; pool.clause_count() == 1);
    assert!(rt; pool.find(&[]).is_some());
    Ok(())
}

fn check_book(
    rt: &(impl Abort + AllocGlobal),
    pool: &mut Pool,
    suite: &Suite,
) -> Result<(), AllocError> {
    pool.intern(&[1, 2])?;
    let book = suite.book(rt.alloc(), pool)?;
    assert!(rt; pool.clause_count() == 2);
    check_left(rt, pool, &book)
}

#[test]
fn one_row_is_left(rt: HostRuntime) -> Result<(), Fail> {
    let suite = suite_of(rt.alloc(), ALONE)?;
    let mut pool = Pool::new(rt.alloc())?;
    check_book(&rt, &mut pool, &suite)?;
    Ok(())
}
