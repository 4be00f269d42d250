//! Clauses are each kept once.
use clause_pool::{ClauseId, FlagList, Pool};
use std::alloc::AllocError;
use std::process::Abort;
use std::test::Fail;

fn check_found(rt: &impl Abort, pool: &Pool, second: ClauseId) {
    assert!(rt; pool.clause_count() == 2);
    assert!(rt; pool.find(&[3]) == Some(second));
    assert!(rt; pool.find(&[4]).is_none());
}

fn check_clauses(rt: &impl Abort, pool: &mut Pool) -> Result<(), AllocError> {
    let first = pool.intern(&[1, 2])?;
    let second = pool.intern(&[3])?;
    let again = pool.intern(&[1, 2])?;
    assert!(rt; first != second);
    assert!(rt; first == again);
    check_found(rt, pool, second);
    Ok(())
}

#[test]
fn clauses_are_kept_once(rt: HostRuntime) -> Result<(), Fail> {
    let mut pool = Pool::new(rt.alloc())?;
    check_clauses(&rt, &mut pool)?;
    Ok(())
}

#[test]
fn flags_are_pushed(rt: HostRuntime) -> Result<(), Fail> {
    let mut flags = FlagList::new(rt.alloc());
    flags.push(true)?;
    assert!(rt; flags.as_slice() == [true].as_slice());
    Ok(())
}
