//! Which clauses of a spent package's row may give unions that a user's row needs.
ghost use Rattle.std.specs.{Prelude.{◌≡◌, ℕ, ◌<◌, ◌∷◌, [], IfOk, IfSome, length}, Bool.{OnTrue}};
ghost use Rattle.clause_pool.specs.{Interned.{clause_at, clauses_at, OfPool}, Clauses.{apart_from}};
ghost use Rattle.listed.specs.Lists.{In};
ghost use Rattle.clause_families.specs.Families.{HoldsOneOf, IncludesOneOf, Useful};

use clause_pool::{ClauseId, Pool, is_before};
use listed::holds_ascending;
use std::alloc::{AllocError, Global};

/// The clauses of the spent package's row whose unions a user's row may need: they do not hold the
/// user. Most of those that include a clause which the user's row keeps are left out.
pub fn useful_of(
    alloc: Global,
    pool: &Pool,
    user: u32,
    spent: u32,
    row: &[ClauseId],
    others: &[ClauseId],
) -> Result<Vec<ClauseId>, AllocError>
    requires row { OfPool pool.now row.now }
    requires others { OfPool pool.now others.now }
    ensures { IfOk result (λ useful.
        Useful pool.now user
        (IncludesOneOf (apart_from spent (clauses_at pool.now row.now))) others.now useful.items) }
{
    if others.is_empty() {
        return Ok(Vec::new(alloc));
    }
    let fresh = fresh_of(alloc, pool, user, spent, row, others)?;
    if fresh.is_empty() {
        return Ok(fresh);
    }
    let singles = singles_for(alloc, pool, spent, row, fresh.len())?;
    useful_beside(alloc, pool, user, singles.as_slice(), fresh.as_slice())
}

/// The clauses that do not hold the user, and are not kept by its row. Both rows are in order, so
/// one walk over the user's row finds most of those that it keeps.
fn fresh_of(
    alloc: Global,
    pool: &Pool,
    user: u32,
    spent: u32,
    row: &[ClauseId],
    others: &[ClauseId],
) -> Result<Vec<ClauseId>, AllocError>
    requires row { OfPool pool.now row.now }
    requires others { OfPool pool.now others.now }
    ensures { IfOk result (λ fresh.
        Useful pool.now user
        (IncludesOneOf (apart_from spent (clauses_at pool.now row.now))) others.now fresh.items) }
{
    let mut fresh = Vec::with_capacity(alloc, others.len())?;
    let mut place = 0;
    for id in others {
        let clause = pool.slice(*id);
        place = place_from(pool, row, place, clause);
        if !holds_ascending(clause, user) && !stands_at(pool, spent, row, place, *id) {
            fresh.push(*id)?;
        }
    }
    Ok(fresh)
}

/// The first place, from a place on, whose clause does not come before this one.
fn place_from(pool: &Pool, row: &[ClauseId], start: usize, clause: &[u32]) -> usize
    requires { OfPool pool.now row.now }
{
    for place in start..row.len() {
        if !is_before(pool.slice(row[place]), clause) {
            return place;
        }
    }
    row.len()
}

/// Whether the clause stands at the place of the row, and does not hold the spent package.
fn stands_at(pool: &Pool, spent: u32, row: &[ClauseId], place: usize, id: ClauseId) -> bool
    requires { id < length pool.now.clauses }
    ensures { OnTrue result
        (IncludesOneOf (apart_from spent (clauses_at pool.now row.now)) (clause_at pool.now id)) }
{
    if is_at(row, place, id) {
        return !holds_ascending(pool.slice(id), spent);
    }
    false
}

/// Whether the row has the id at the place.
fn is_at(row: &[ClauseId], place: usize, id: ClauseId) -> bool
    ensures { OnTrue result (In id row.now) }
{
    if row.len() <= place {
        return false;
    }
    row[place] == id
}

/// The numbers other than the spent one that are clauses by themselves. None are looked for if
/// there is only one other clause: its unions are tested anyway.
fn singles_for(
    alloc: Global,
    pool: &Pool,
    spent: u32,
    row: &[ClauseId],
    others: usize,
) -> Result<Vec<u32>, AllocError>
    requires { OfPool pool.now row.now }
    ensures { IfOk result (λ singles. (n : ℕ) → In n singles.items →
        In (n ∷ []) (apart_from spent (clauses_at pool.now row.now))) }
{
    if others == 1 {
        return Ok(Vec::new(alloc));
    }
    singles_of(alloc, pool, spent, row)
}

/// The numbers other than the spent one that are clauses by themselves; they ascend, since the row
/// is in order.
fn singles_of(
    alloc: Global,
    pool: &Pool,
    spent: u32,
    row: &[ClauseId],
) -> Result<Vec<u32>, AllocError>
    requires { OfPool pool.now row.now }
    ensures { IfOk result (λ singles. (n : ℕ) → In n singles.items →
        In (n ∷ []) (apart_from spent (clauses_at pool.now row.now))) }
{
    let mut singles = Vec::new(alloc);
    for id in row {
        if let Some(literal) = single(pool.slice(*id)) {
            if literal != spent {
                singles.push(literal)?;
            }
        }
    }
    Ok(singles)
}

/// The only literal of a clause that has just one.
fn single(clause: &[u32]) -> Option<u32>
    ensures { IfSome result (λ literal. clause.now ≡ literal ∷ []) }
{
    match clause {
        [literal] => Some(*literal),
        _ => None,
    }
}

/// The clauses that hold neither the user nor one of the numbers.
fn useful_beside(
    alloc: Global,
    pool: &Pool,
    user: u32,
    singles: &[u32],
    others: &[ClauseId],
) -> Result<Vec<ClauseId>, AllocError>
    requires { OfPool pool.now others.now }
    ensures { IfOk result (λ useful.
        Useful pool.now user (HoldsOneOf singles.now) others.now useful.items) }
{
    let mut useful = Vec::with_capacity(alloc, others.len())?;
    for id in others {
        let clause = pool.slice(*id);
        if !holds_ascending(clause, user) && !holds_one_of(singles, clause) {
            useful.push(*id)?;
        }
    }
    Ok(useful)
}

/// Whether the clause holds one of the numbers, which are ascending.
fn holds_one_of(numbers: &[u32], clause: &[u32]) -> bool
    ensures { OnTrue result (HoldsOneOf numbers.now clause.now) }
{
    for literal in clause {
        if is_one_of(numbers, *literal) {
            return true;
        }
    }
    false
}

/// Whether the number is one of the numbers, which are ascending.
fn is_one_of(numbers: &[u32], number: u32) -> bool
    ensures { OnTrue result (In number numbers.now) }
{
    numbers.binary_search(&number).is_ok()
}
