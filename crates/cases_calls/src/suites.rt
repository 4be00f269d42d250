//! The names of a suite, and the suite of some of its packages.
use crate::samples::{CHOICE, suite_of};
use repo_model::Suite;
use std::alloc::AllocError;
use std::process::Abort;
use std::test::Fail;

/// Asserts how many names there are, and which is the last one.
fn check_names(
    rt: &(impl Abort + AllocGlobal),
    suite: &Suite,
    count: usize,
    last: &[u8],
) -> Result<(), AllocError> {
    let names = suite.names(rt.alloc())?;
    let names = names.as_slice();
    assert!(rt; names.len() == count);
    assert!(rt; names.last().is_some_and(|name| name.as_slice() == last));
    Ok(())
}

/// Keeps packages 1 and 2.
fn check_selected(rt: &(impl Abort + AllocGlobal), suite: &Suite) -> Result<(), AllocError> {
    let flags = [false, true, true, false];
    assert!(rt; suite.count() as usize == flags.len());
    let some = suite.select(rt.alloc(), &flags)?;
    assert!(rt; some.count() == 2);
    check_names(rt, &some, 2, b"c")
}

fn check_suite(rt: &(impl Abort + AllocGlobal), suite: &Suite) -> Result<(), AllocError> {
    check_names(rt, suite, 4, b"d")?;
    check_selected(rt, suite)
}

#[test]
fn names_and_selections(rt: HostRuntime) -> Result<(), Fail> {
    let suite = suite_of(rt.alloc(), CHOICE)?;
    check_suite(&rt, &suite)?;
    Ok(())
}
