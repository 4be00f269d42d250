//! Counts the clauses that a row has once a package is taken out, without making the row.
//!
//! The row consists of the minimal ones among the clauses that it keeps and the unions of each
//! clause of a first family with each of a second one. The first family has the clauses that hold
//! the package, each without it. The second has the useful clauses of the package's own row.
//! Thousands of each give millions of unions, too much memory for a row that may be refused. So
//! only the unions of one clause of the first family are in memory at a time.
//!
//! The count is exact. A union may come of several pairs, so it counts with the last clause of the
//! first family within it. This misses none: let u = a ∪ b be minimal, and c a clause of the first
//! family within u. Then c ∪ b is within u, and so it is u: u is a union of c too, and counts with
//! the last such clause.
//!
//! A union is within a clause exactly if a clause of each family is, which trees find. A shorter
//! union is within it exactly if a union is within the clause less one of its numbers. A kept
//! clause that is also a union counts as a union.
//!
//! Some unions need not be made: `splitting` says which.
ghost use Rattle.std.specs.Prelude.{◌≡◌, ◌<◌, ◌+◌, ◌++◌, ℕ, List, IfOk, OnOk, length, map, get_or};
ghost use Rattle.std.specs.{Prelude.{[]}, List.{filter}};
ghost use Rattle.clause_pool.specs.Interned.{clauses_at, IsPool, OfPool};
ghost use Rattle.clause_pool.specs.Clauses.{apart_from, in_row_order, minimal_of};
ghost use Rattle.clause_pool.specs.Lists.{InOrder};
ghost use Rattle.listed.specs.Lists.{In, Ascending, Inside};
ghost use Rattle.clause_families.specs.{Branches.{HasFamily, TreeOf}, Families.{all_unions}};
ghost use Rattle.clause_families.specs.Unions.{clause_without, union_of};
ghost use Rattle.clause_families.specs.Counting.{first_at, is_new, own_count, rest_of, slice_count};
ghost use Rattle.clause_families.specs.Counting.{slices, unites, unites_less, AreParts};

use crate::family::{clauses_without, put_in_order};
use crate::family_tree::FamilyTree;
use crate::scratch::Clause;
use crate::splitting::{Parts, copies, holders_without, is_apart, parts_of};
use clause_pool::{ClauseId, Pool};
use std::alloc::{AllocError, Global};

/// Counts the minimal clauses of the row once each clause that holds the spent package is replaced
/// by its unions, without the package, with the useful clauses.
pub fn count_with_unions(
    alloc: Global,
    pool: &Pool,
    spent: u32,
    row: &[ClauseId],
    useful: &[ClauseId],
) -> Result<u64, AllocError>
    requires pool { IsPool pool.now }
    requires row { OfPool pool.now row.now }
    requires in_order { InOrder (clauses_at pool.now row.now) }
    requires useful { OfPool pool.now useful.now }
    requires minimal { (c d : List ℕ) → In c (clauses_at pool.now row.now) →
        In d (clauses_at pool.now row.now) → Inside c d → c ≡ d }
    requires minimal_useful { (c d : List ℕ) → In c (clauses_at pool.now useful.now) →
        In d (clauses_at pool.now useful.now) → Inside c d → c ≡ d }
    requires few { length (minimal_of (in_row_order (apart_from spent (clauses_at pool.now row.now)
        ++ all_unions spent (clauses_at pool.now row.now) (clauses_at pool.now useful.now))))
        < 18446744073709551616 }
    ensures { IfOk result (λ count. count
        ≡ length (minimal_of (in_row_order (apart_from spent (clauses_at pool.now row.now)
        ++ all_unions spent (clauses_at pool.now row.now) (clauses_at pool.now useful.now))))) }
{
    let kept = clauses_without(alloc, pool, spent, row)?;
    let first = holders_without(alloc, pool, spent, row)?;
    let second = copies(alloc, pool, useful)?;
    let parts = parts_of(alloc, kept, first, second)?;
    count_all(alloc, spent, &parts)
}

/// Counts the minimal clauses among the kept ones and the unions.
fn count_all(alloc: Global, spent: u32, parts: &Parts) -> Result<u64, AllocError>
    requires parts { AreParts parts.now }
    requires apart { (c : List ℕ) → In c parts.now.first.clauses.items → In spent c → ⊥ }
    requires minimal_first { (c d : List ℕ) → In c parts.now.first.clauses.items →
        In d parts.now.first.clauses.items → Inside c d → c ≡ d }
    requires minimal_second { (c d : List ℕ) → In c parts.now.second.clauses.items →
        In d parts.now.second.clauses.items → Inside c d → c ≡ d }
    requires beside { (c d : List ℕ) → In c parts.now.kept.clauses.items →
        In d parts.now.first.clauses.items → Inside c d → ⊥ }
    requires few { own_count parts.now.kept.clauses.items parts.now.first.clauses.items
        parts.now.second.clauses.items
        + slices parts.now.kept.clauses.items parts.now.first.clauses.items
        parts.now.second.clauses.items parts.now.first.clauses.items < 18446744073709551616 }
    ensures { IfOk result (λ count. count ≡ own_count parts.now.kept.clauses.items
        parts.now.first.clauses.items parts.now.second.clauses.items
        + slices parts.now.kept.clauses.items parts.now.first.clauses.items
        parts.now.second.clauses.items parts.now.first.clauses.items) }
{
    let unions = count_unions(alloc, spent, parts)?;
    let own = count_own(parts.kept.clauses.as_slice(), parts);
    Ok(own + unions)
}

/// Counts the kept clauses that have no union within them.
fn count_own(kept: &[Clause], parts: &Parts) -> u64
    requires parts { AreParts parts.now }
    requires ascending { (c : List ℕ) → In c kept.now → Ascending c }
    ensures { result
        ≡ own_count kept.now parts.now.first.clauses.items parts.now.second.clauses.items }
{
    let mut count = 0u64;
    for clause in kept {
        if !is_united(clause.as_slice(), parts) {
            count += 1;
        }
    }
    count
}

/// Whether a union is within the clause: then a clause of each family is.
fn is_united(clause: &[u32], parts: &Parts) -> bool
    requires parts { AreParts parts.now }
    requires ascending { Ascending clause.now }
    ensures { result
        ≡ unites parts.now.first.clauses.items parts.now.second.clauses.items clause.now }
{
    if !parts.first.tree.has_inside(clause) {
        return false;
    }
    parts.second.tree.has_inside(clause)
}

/// Counts the unions that are minimal, each with the last clause of the first family within it.
fn count_unions(alloc: Global, spent: u32, parts: &Parts) -> Result<u64, AllocError>
    requires parts { AreParts parts.now }
    requires apart { (c : List ℕ) → In c parts.now.first.clauses.items → In spent c → ⊥ }
    requires minimal_first { (c d : List ℕ) → In c parts.now.first.clauses.items →
        In d parts.now.first.clauses.items → Inside c d → c ≡ d }
    requires minimal_second { (c d : List ℕ) → In c parts.now.second.clauses.items →
        In d parts.now.second.clauses.items → Inside c d → c ≡ d }
    requires beside { (c d : List ℕ) → In c parts.now.kept.clauses.items →
        In d parts.now.first.clauses.items → Inside c d → ⊥ }
    requires few { slices parts.now.kept.clauses.items parts.now.first.clauses.items
        parts.now.second.clauses.items parts.now.first.clauses.items < 18446744073709551616 }
    ensures { IfOk result (λ count. count
        ≡ slices parts.now.kept.clauses.items parts.now.first.clauses.items
        parts.now.second.clauses.items parts.now.first.clauses.items) }
{
    let mut later = FamilyTree::of(alloc, &[])?;
    count_backwards(alloc, spent, parts, &mut later)
}

/// Counts the unions of each clause of the first family, the last clause first; each then goes into
/// the tree, which is empty at first.
fn count_backwards(
    alloc: Global,
    spent: u32,
    parts: &Parts,
    later: &mut FamilyTree,
) -> Result<u64, AllocError>
    requires parts { AreParts parts.now }
    requires later { TreeOf later.old [] }
    requires apart { (c : List ℕ) → In c parts.now.first.clauses.items → In spent c → ⊥ }
    requires minimal_first { (c d : List ℕ) → In c parts.now.first.clauses.items →
        In d parts.now.first.clauses.items → Inside c d → c ≡ d }
    requires minimal_second { (c d : List ℕ) → In c parts.now.second.clauses.items →
        In d parts.now.second.clauses.items → Inside c d → c ≡ d }
    requires beside { (c d : List ℕ) → In c parts.now.kept.clauses.items →
        In d parts.now.first.clauses.items → Inside c d → ⊥ }
    requires few { slices parts.now.kept.clauses.items parts.now.first.clauses.items
        parts.now.second.clauses.items parts.now.first.clauses.items < 18446744073709551616 }
    ensures { IfOk result (λ count. count
        ≡ slices parts.now.kept.clauses.items parts.now.first.clauses.items
        parts.now.second.clauses.items parts.now.first.clauses.items) }
{
    let mut count = 0u64;
    for place in (0..parts.first.clauses.len()).rev() {
        let more = count_slice(alloc, spent, parts, place, later)?;
        count += more;
        later.put(clause_in(parts.first.clauses.as_slice(), place))?;
    }
    Ok(count)
}

/// The clause at a place of a family.
fn clause_in(family: &[Clause], place: usize) -> &[u32]
    requires { place < length family.now }
    ensures { result.now ≡ get_or family.now place [] }
{
    family[place].as_slice()
}

/// How many unions count with the clause at a place of the first family.
fn count_slice(
    alloc: Global,
    spent: u32,
    parts: &Parts,
    place: usize,
    later: &FamilyTree,
) -> Result<u64, AllocError>
    requires parts { AreParts parts.now }
    requires place { place < length parts.now.first.clauses.items }
    requires later { TreeOf later.now (rest_of parts.now place) }
    requires apart { (c : List ℕ) → In c parts.now.first.clauses.items → In spent c → ⊥ }
    requires minimal_first { (c d : List ℕ) → In c parts.now.first.clauses.items →
        In d parts.now.first.clauses.items → Inside c d → c ≡ d }
    requires minimal_second { (c d : List ℕ) → In c parts.now.second.clauses.items →
        In d parts.now.second.clauses.items → Inside c d → c ≡ d }
    requires beside { (c d : List ℕ) → In c parts.now.kept.clauses.items →
        In d parts.now.first.clauses.items → Inside c d → ⊥ }
    requires few { slice_count parts.now.kept.clauses.items parts.now.first.clauses.items
        parts.now.second.clauses.items (rest_of parts.now place)
        (first_at parts.now place) parts.now.second.clauses.items < 18446744073709551616 }
    ensures { IfOk result (λ count. count ≡ slice_count parts.now.kept.clauses.items
        parts.now.first.clauses.items parts.now.second.clauses.items
        (rest_of parts.now place) (first_at parts.now place) parts.now.second.clauses.items) }
{
    let clause = clause_in(parts.first.clauses.as_slice(), place);
    if !is_apart(parts.numbers.as_slice(), clause) {
        let all = count_made(
            alloc,
            spent,
            clause,
            parts.second.clauses.as_slice(),
            parts,
            later,
        )?;
        return Ok(all);
    }
    let made = count_made(alloc, spent, clause, parts.others.as_slice(), parts, later)?;
    Ok(parts.alone.as_slice().len() as u64 + made)
}

/// Makes the unions of a clause with these of the second family, and counts those that count with
/// it.
fn count_made(
    alloc: Global,
    spent: u32,
    clause: &[u32],
    others: &[Clause],
    parts: &Parts,
    later: &FamilyTree,
) -> Result<u64, AllocError>
    requires parts { AreParts parts.now }
    requires later { HasFamily later.now }
    requires ascending { Ascending clause.now }
    requires apart { In spent clause.now → ⊥ }
    requires rising { (c : List ℕ) → In c others.now → Ascending c }
    ensures { (rest : List (List ℕ)) → TreeOf later.now rest → IfOk result (λ count. count
        ≡ slice_count parts.now.kept.clauses.items parts.now.first.clauses.items
        parts.now.second.clauses.items rest clause.now others.now) }
{
    let unions = unions_with(alloc, spent, clause, others)?;
    count_new(alloc, unions.as_slice(), parts, later)
}

/// The unions of a clause, without the spent package, with each of the others, in order.
fn unions_with(
    alloc: Global,
    spent: u32,
    clause: &[u32],
    others: &[Clause],
) -> Result<Vec<Clause>, AllocError>
    requires ascending { Ascending clause.now }
    requires rising { (c : List ℕ) → In c others.now → Ascending c }
    ensures { IfOk result (λ unions. unions.items
        ≡ in_row_order (map (union_of (clause_without spent clause.now)) others.now)) }
{
    let mut unions = Vec::with_capacity(alloc, others.len())?;
    add_unions_with(alloc, spent, clause, others, &mut unions)?;
    put_in_order(&mut unions);
    Ok(unions)
}

/// Appends the unions of a clause, without the spent package, with each of the others.
fn add_unions_with(
    alloc: Global,
    spent: u32,
    clause: &[u32],
    others: &[Clause],
    unions: &mut Vec<Clause>,
) -> Result<(), AllocError>
    requires ascending { Ascending clause.now }
    requires rising { (c : List ℕ) → In c others.now → Ascending c }
    ensures { OnOk result (unions.new.items
        ≡ unions.old.items ++ map (union_of (clause_without spent clause.now)) others.now) }
{
    for other in others {
        let union = Clause::union_without(alloc, spent, clause, other.as_slice())?;
        unions.push(union)?;
    }
    Ok(())
}

/// How many of the unions count.
fn count_new(
    alloc: Global,
    unions: &[Clause],
    parts: &Parts,
    later: &FamilyTree,
) -> Result<u64, AllocError>
    requires parts { AreParts parts.now }
    requires later { HasFamily later.now }
    requires rising { (c : List ℕ) → In c unions.now → Ascending c }
    ensures { (rest : List (List ℕ)) → TreeOf later.now rest → IfOk result (λ count. count
        ≡ length (filter (is_new parts.now.kept.clauses.items parts.now.first.clauses.items
        parts.now.second.clauses.items rest) unions.now)) }
{
    let mut count = 0u64;
    for union in unions {
        let new = is_new(alloc, union.as_slice(), parts, later)?;
        if new {
            count += 1;
        }
    }
    Ok(count)
}

/// Whether a union counts: no shorter kept clause, no later clause of the first family and no
/// shorter union is within it.
fn is_new(
    alloc: Global,
    union: &[u32],
    parts: &Parts,
    later: &FamilyTree,
) -> Result<bool, AllocError>
    requires parts { AreParts parts.now }
    requires later { HasFamily later.now }
    requires ascending { Ascending union.now }
    ensures { (rest : List (List ℕ)) → TreeOf later.now rest → IfOk result (λ new. new
        ≡ is_new parts.now.kept.clauses.items parts.now.first.clauses.items
        parts.now.second.clauses.items rest union.now) }
{
    if parts.kept.tree.has_shorter(union) {
        return Ok(false);
    }
    if later.has_inside(union) {
        return Ok(false);
    }
    let shorter = is_united_less(alloc, union, parts)?;
    Ok(!shorter)
}

/// Whether a shorter union is within the clause: then a union is within the clause less one of its
/// numbers.
fn is_united_less(alloc: Global, clause: &[u32], parts: &Parts) -> Result<bool, AllocError>
    requires parts { AreParts parts.now }
    requires ascending { Ascending clause.now }
    ensures { IfOk result (λ united. united
        ≡ unites_less parts.now.first.clauses.items parts.now.second.clauses.items clause.now) }
{
    for number in clause {
        let left = Clause::without(alloc, *number, clause)?;
        if is_united(left.as_slice(), parts) {
            return Ok(true);
        }
    }
    Ok(false)
}
