//! Splits the clauses by which a row is counted: those that it keeps, the first family and the
//! second one.
//!
//! Some unions need not be made. Let a be a clause of the first family without a number of the
//! second family or of a kept clause. Let b be one of the second family without a number of the
//! first family or of a kept clause. Then of all kept clauses and clauses of the families only a
//! and b are within a ∪ b. So a ∪ b counts, and it is the union of no other pair. The clauses that
//! b may be stand apart, and the numbers that a must not have are gathered once.
ghost use Rattle.std.specs.{Prelude.{◌≡◌, ◌++◌, ℕ, List, IfOk, OnOk, not}, List.{filter}};
ghost use Rattle.clause_pool.specs.{Interned.{clauses_at, OfPool}, Lists.{InOrder}};
ghost use Rattle.listed.specs.Lists.{In, Ascending};
ghost use Rattle.clause_families.specs.Families.{SameClauses};
ghost use Rattle.clause_families.specs.Counting.{clauses_cut, is_apart, AreParts, HasNumbers};
ghost use Rattle.clause_families.specs.Counting.{IsFamily};

use crate::family::put_in_order;
use crate::family_tree::FamilyTree;
use crate::scratch::Clause;
use clause_pool::{ClauseId, Pool};
use listed::{holds_ascending, sort_once};
use std::alloc::{AllocError, Global};

/// A family in order, with its tree.
#[derive(Drop)]
pub(crate) struct Family {
    pub(crate) clauses: Vec<Clause>,
    pub(crate) tree: FamilyTree,
}

/// The clauses by which a row is counted.
#[derive(Drop)]
pub(crate) struct Parts {
    /// The clauses of the row that do not hold the package.
    pub(crate) kept: Family,
    /// The clauses of the row that hold the package, each without it.
    pub(crate) first: Family,
    /// The useful clauses of the package's own row.
    pub(crate) second: Family,
    /// The clauses of the second family that have no number of the first one or of a kept clause.
    pub(crate) alone: Vec<Clause>,
    /// The other clauses of the second family.
    pub(crate) others: Vec<Clause>,
    /// The numbers of the second family and of the kept clauses.
    pub(crate) numbers: Vec<u32>,
}

/// The clauses of a row that hold a number, each without it, in order.
pub(crate) fn holders_without(
    alloc: Global,
    pool: &Pool,
    number: u32,
    row: &[ClauseId],
) -> Result<Vec<Clause>, AllocError>
    requires { OfPool pool.now row.now }
    ensures in_order { IfOk result (λ family. InOrder family.items) }
    ensures same { IfOk result (λ family.
        SameClauses (clauses_cut number (clauses_at pool.now row.now)) family.items) }
{
    let mut family = Vec::new(alloc);
    add_holders(alloc, pool, number, row, &mut family)?;
    put_in_order(&mut family);
    Ok(family)
}

/// Appends the clauses of a row that hold a number, each without it.
fn add_holders(
    alloc: Global,
    pool: &Pool,
    number: u32,
    row: &[ClauseId],
    family: &mut Vec<Clause>,
) -> Result<(), AllocError>
    requires { OfPool pool.now row.now }
    ensures { OnOk result (family.new.items
        ≡ family.old.items ++ clauses_cut number (clauses_at pool.now row.now)) }
{
    for id in row {
        let clause = pool.slice(*id);
        if holds_ascending(clause, number) {
            family.push(Clause::without(alloc, number, clause)?)?;
        }
    }
    Ok(())
}

/// Copies of the clauses of the ids, in order.
pub(crate) fn copies(
    alloc: Global,
    pool: &Pool,
    ids: &[ClauseId],
) -> Result<Vec<Clause>, AllocError>
    requires { OfPool pool.now ids.now }
    ensures in_order { IfOk result (λ family. InOrder family.items) }
    ensures same { IfOk result (λ family. SameClauses (clauses_at pool.now ids.now) family.items) }
{
    let mut family = Vec::with_capacity(alloc, ids.len())?;
    add_copies(alloc, pool, ids, &mut family)?;
    put_in_order(&mut family);
    Ok(family)
}

/// Appends copies of the clauses of the ids.
fn add_copies(
    alloc: Global,
    pool: &Pool,
    ids: &[ClauseId],
    family: &mut Vec<Clause>,
) -> Result<(), AllocError>
    requires { OfPool pool.now ids.now }
    ensures { OnOk result (family.new.items ≡ family.old.items ++ clauses_at pool.now ids.now) }
{
    for id in ids {
        family.push(Clause::copy(alloc, pool.slice(*id))?)?;
    }
    Ok(())
}

/// Makes the trees of the three families, and splits the second one.
pub(crate) fn parts_of(
    alloc: Global,
    kept: Vec<Clause>,
    first: Vec<Clause>,
    second: Vec<Clause>,
) -> Result<Parts, AllocError>
    requires kept { InOrder kept.items }
    requires first { InOrder first.items }
    requires second { InOrder second.items }
    requires kept_rise { (c : List ℕ) → In c kept.items → Ascending c }
    requires first_rise { (c : List ℕ) → In c first.items → Ascending c }
    requires second_rise { (c : List ℕ) → In c second.items → Ascending c }
    ensures parts { IfOk result (λ parts. AreParts parts) }
    ensures kept { IfOk result (λ parts. parts.kept.clauses.items ≡ kept.items) }
    ensures first { IfOk result (λ parts. parts.first.clauses.items ≡ first.items) }
    ensures second { IfOk result (λ parts. parts.second.clauses.items ≡ second.items) }
{
    let near = numbers_of(alloc, first.as_slice(), kept.as_slice())?;
    let alone = clauses_apart(alloc, second.as_slice(), near.as_slice())?;
    let others = clauses_near(alloc, second.as_slice(), near.as_slice())?;
    let numbers = numbers_of(alloc, second.as_slice(), kept.as_slice())?;
    Ok(Parts {
        kept: family_of(alloc, kept)?,
        first: family_of(alloc, first)?,
        second: family_of(alloc, second)?,
        alone,
        others,
        numbers,
    })
}

/// A family with its tree.
fn family_of(alloc: Global, clauses: Vec<Clause>) -> Result<Family, AllocError>
    requires in_order { InOrder clauses.items }
    requires rising { (c : List ℕ) → In c clauses.items → Ascending c }
    ensures family { IfOk result (λ family. IsFamily family) }
    ensures clauses { IfOk result (λ family. family.clauses.items ≡ clauses.items) }
{
    let tree = FamilyTree::of(alloc, clauses.as_slice())?;
    Ok(Family { clauses, tree })
}

/// The numbers of the clauses of two families, ascending.
fn numbers_of(alloc: Global, first: &[Clause], second: &[Clause]) -> Result<Vec<u32>, AllocError>
    ensures ascending { IfOk result (λ numbers. Ascending numbers.items) }
    ensures first { IfOk result (λ numbers. HasNumbers first.now numbers.items) }
    ensures second { IfOk result (λ numbers. HasNumbers second.now numbers.items) }
{
    let mut numbers = Vec::new(alloc);
    add_numbers(&mut numbers, first)?;
    add_numbers(&mut numbers, second)?;
    sort_once(&mut numbers);
    Ok(numbers)
}

/// Appends the numbers of the clauses.
fn add_numbers(numbers: &mut Vec<u32>, family: &[Clause]) -> Result<(), AllocError>
    ensures all { OnOk result (HasNumbers family.now numbers.new.items) }
    ensures stay { OnOk result ((n : ℕ) → In n numbers.old.items → In n numbers.new.items) }
{
    for clause in family {
        numbers.extend_from_slice(clause.as_slice())?;
    }
    Ok(())
}

/// The clauses that hold none of the numbers, in their order.
fn clauses_apart(
    alloc: Global,
    family: &[Clause],
    numbers: &[u32],
) -> Result<Vec<Clause>, AllocError>
    requires { Ascending numbers.now }
    ensures { IfOk result (λ apart. apart.items ≡ filter (is_apart numbers.now) family.now) }
{
    let mut apart = Vec::new(alloc);
    for clause in family {
        if is_apart(numbers, clause.as_slice()) {
            apart.push(Clause::copy(alloc, clause.as_slice())?)?;
        }
    }
    Ok(apart)
}

/// The clauses that hold one of the numbers, in their order.
fn clauses_near(
    alloc: Global,
    family: &[Clause],
    numbers: &[u32],
) -> Result<Vec<Clause>, AllocError>
    requires { Ascending numbers.now }
    ensures { IfOk result (λ near. near.items
        ≡ filter (λ clause. not (is_apart numbers.now clause)) family.now) }
{
    let mut near = Vec::new(alloc);
    for clause in family {
        if !is_apart(numbers, clause.as_slice()) {
            near.push(Clause::copy(alloc, clause.as_slice())?)?;
        }
    }
    Ok(near)
}

/// Whether the clause holds none of the numbers.
pub(crate) fn is_apart(numbers: &[u32], clause: &[u32]) -> bool
    requires { Ascending numbers.now }
    ensures { result ≡ is_apart numbers.now clause.now }
{
    clause
        .iter()
        .all(|number| !holds_ascending(numbers, *number))
}
