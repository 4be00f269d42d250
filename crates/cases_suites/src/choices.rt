//! Two questions on a small suite that no command asks. Which packages have a name? Which can be
//! installed together, if every set is tried?
use crate::samples::suite_of;
use repo_model::{Suite, are_coinstallable};
use std::alloc::AllocError;
use std::process::Abort;
use std::test::Fail;

/// Package 0 needs 1 or 2, which are versions of one name, and conflicts with 3.
const CHOICE: &str = "Package: a\nVersion: 1\nDepends: b\nConflicts: c\n\n\
     Package: b\nVersion: 1\n\n\
     Package: b\nVersion: 2\n\n\
     Package: c\nVersion: 1\n";

fn check_choice(
    rt: &(impl Abort + AllocGlobal),
    suite: &Suite,
    chosen: &[u32],
    wanted: bool,
) -> Result<(), AllocError> {
    let together = are_coinstallable(rt.alloc(), suite, chosen)?;
    assert!(rt; together == wanted, "{chosen:?}");
    Ok(())
}

fn check_choices(rt: &(impl Abort + AllocGlobal), suite: &Suite) -> Result<(), AllocError> {
    check_choice(rt, suite, &[0], true)?;
    check_choice(rt, suite, &[], true)?;
    check_choice(rt, suite, &[0, 2], true)?;
    check_choice(rt, suite, &[0, 3], false)?;
    check_choice(rt, suite, &[1, 2], false)?;
    check_choice(rt, suite, &[4], false)
}

fn check_named(rt: &(impl Abort + AllocGlobal), suite: &Suite) -> Result<(), AllocError> {
    let named = suite.named(rt.alloc(), b"b")?;
    assert!(rt; named.as_slice() == [1, 2].as_slice());
    Ok(())
}

fn check_suite(rt: &(impl Abort + AllocGlobal), suite: &Suite) -> Result<(), Fail> {
    check_choices(rt, suite)?;
    check_named(rt, suite)?;
    Ok(())
}

#[test]
fn packages_installed_together(rt: HostRuntime) -> Result<(), Fail> {
    let suite = suite_of(rt.alloc(), CHOICE)?;
    check_suite(&rt, &suite)
}
