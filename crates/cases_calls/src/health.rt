//! Whether sets of packages are healthy, and the first reason why not.
ghost use Rattle.row_book.specs.Book.{Sound};

use crate::samples::{CHOICE, suite_of};
use clause_pool::Pool;
use repo_model::Suite;
use row_book::{Book, Unhealthy};
use std::alloc::AllocError;
use std::process::Abort;
use std::test::Fail;

fn check_set(
    rt: &impl Abort,
    pool: &Pool,
    book: &Book,
    chosen: &[bool],
    wanted: Result<(), Unhealthy>,
)
    requires { Sound pool.now book.now }
{
    assert!(rt; chosen.len() == book.size() as usize);
    assert!(rt; book.is_healthy(pool, chosen) == wanted, "{chosen:?}");
}

fn check_sets(rt: &impl Abort, pool: &Pool, book: &Book)
    requires { Sound pool.now book.now }
{
    let unhit = Unhealthy::Unhit {
        package: 2,
        clause: 0,
    };
    let clash = Unhealthy::Clash {
        first: 0,
        second: 3,
    };
    check_set(rt, pool, book, &[false, false, false, false], Ok(()));
    check_set(rt, pool, book, &[true, true, false, false], Ok(()));
    check_set(rt, pool, book, &[true, false, true, true], Err(unhit));
    check_set(rt, pool, book, &[true, true, false, true], Err(clash));
}

fn check_book(
    rt: &(impl Abort + AllocGlobal),
    pool: &mut Pool,
    suite: &Suite,
) -> Result<(), AllocError> {
    let book = suite.book(rt.alloc(), pool)?;
    check_sets(rt, pool, &book);
    assert!(rt; book.size() == 4);
    assert!(rt; book.all_conflict(&[0], &[3]));
    assert!(rt; !book.all_conflict(&[1], &[3]));
    Ok(())
}

#[test]
fn sets_are_healthy_or_why_not(rt: HostRuntime) -> Result<(), Fail> {
    let suite = suite_of(rt.alloc(), CHOICE)?;
    let mut pool = Pool::new(rt.alloc())?;
    check_book(&rt, &mut pool, &suite)?;
    Ok(())
}
