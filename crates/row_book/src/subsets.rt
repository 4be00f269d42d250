//! Co-installability by the plainest way: every set of packages is tried.

ghost use Rattle.std.specs.Prelude.{◌≡◌, ◌↔◌, ◌++◌, ◌∷◌, [], IfOk, IsTrue};
ghost use Rattle.std.specs.List.{list_all, list_any};
ghost use Rattle.listed.specs.Lists.{has};
ghost use Rattle.row_book.specs.Repository.{Coinst};
ghost use Rattle.row_book.specs.Flags.{flag, hits_row, is_abundant, is_peaceful, is_solution};
ghost use Rattle.row_book.specs.Flags.{Extends};

use crate::{ClauseList, NumList};
use std::alloc::{AllocError, Global};

/// Whether some healthy set of packages contains all the wanted ones, by trying every set: in time
/// exponential in the number of packages.
pub fn is_coinst(
    alloc: Global,
    clauses: &[ClauseList],
    conflicts: &[NumList],
    wanted: &[u32],
) -> Result<bool, AllocError>
    ensures { IfOk result (λ r. IsTrue r ↔
        Coinst (record { clauses = clauses.now; conflicts = conflicts.now }) (has wanted.now)) }
{
    let mut flags = Vec::new(alloc);
    extends(clauses, conflicts, wanted, &mut flags, clauses.len())
}

/// Whether some choice for the packages that have no flag yet makes a healthy set with all wanted.
#[cycle(choices)]
fn extends(
    clauses: &[ClauseList],
    conflicts: &[NumList],
    wanted: &[u32],
    flags: &mut Vec<bool>,
    left: usize,
) -> Result<bool, AllocError>
    ensures kept { IfOk result (λ r. flags.new.items ≡ flags.old.items) }
    ensures found { IfOk result (λ r. IsTrue r ↔
        Extends clauses.now conflicts.now wanted.now flags.old.items left) }
{
    if left == 0 {
        return Ok(is_solution(clauses, conflicts, wanted, flags.as_slice()));
    }
    let is_found = extends_by(clauses, conflicts, wanted, flags, false, left - 1)?;
    if is_found {
        return Ok(true);
    }
    extends_by(clauses, conflicts, wanted, flags, true, left - 1)
}

/// Whether some choice makes such a set, once the next package has this flag.
#[cycle(choices)]
fn extends_by(
    clauses: &[ClauseList],
    conflicts: &[NumList],
    wanted: &[u32],
    flags: &mut Vec<bool>,
    next: bool,
    left: usize,
) -> Result<bool, AllocError>
    ensures kept { IfOk result (λ r. flags.new.items ≡ flags.old.items) }
    ensures found { IfOk result (λ r. IsTrue r ↔
        Extends clauses.now conflicts.now wanted.now (flags.old.items ++ next ∷ []) left) }
{
    flags.push(next)?;
    let is_found = extends(clauses, conflicts, wanted, flags, left)?;
    flags.pop();
    Ok(is_found)
}

fn is_solution(
    clauses: &[ClauseList],
    conflicts: &[NumList],
    wanted: &[u32],
    flags: &[bool],
) -> bool
    ensures { result ≡ is_solution clauses.now conflicts.now wanted.now flags.now }
{
    is_abundant(clauses, flags) && is_peaceful(conflicts, flags) && has_all(flags, wanted)
}

/// Whether each clause of each member is hit.
fn is_abundant(clauses: &[ClauseList], flags: &[bool]) -> bool
    ensures { result ≡ is_abundant clauses.now flags.now }
{
    clauses.iter().zip(flags.iter()).all(|(row, is_member)| !*is_member
        || hits_row(flags, row.as_slice()))
}

/// Whether no member has another among its conflicts.
fn is_peaceful(conflicts: &[NumList], flags: &[bool]) -> bool
    ensures { result ≡ is_peaceful conflicts.now flags.now }
{
    conflicts.iter().zip(flags.iter()).all(|(others, is_member)| !*is_member
        || !hits_clause(flags, others.as_slice()))
}

fn hits_row(flags: &[bool], row: &[NumList]) -> bool
    ensures { result ≡ hits_row flags.now row.now }
{
    row.iter()
        .all(|clause| hits_clause(flags, clause.as_slice()))
}

pub(crate) fn hits_clause(flags: &[bool], clause: &[u32]) -> bool
    ensures { result ≡ list_any (flag flags.now) clause.now }
{
    clause.iter().any(|&number| is_member(flags, number))
}

fn has_all(flags: &[bool], wanted: &[u32]) -> bool
    ensures { result ≡ list_all (flag flags.now) wanted.now }
{
    wanted.iter().all(|&number| is_member(flags, number))
}

pub(crate) fn is_member(flags: &[bool], number: u32) -> bool
    ensures { result ≡ flag flags.now number }
{
    match flags.get(number as usize) {
        Some(is_member) => *is_member,
        None => false,
    }
}
