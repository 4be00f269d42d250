//! The clauses that a row may have once a package is taken out, made in scratch space before they
//! go into the pool.
ghost use Rattle.std.specs.{Prelude.{◌≡◌, ℕ, ◌<◌, ◌++◌, List, IfOk, OnOk, length}, List.{filter}};
ghost use Rattle.std.specs.Option.{ForSome};
ghost use Rattle.clause_pool.specs.Interned.{clauses_at, row_at, Kept, OfPool, IsPool};
ghost use Rattle.clause_pool.specs.Clauses.{apart_from, minimal_of, in_row_order};
ghost use Rattle.clause_pool.specs.Lists.{InOrder};
ghost use Rattle.listed.specs.Lists.{In, Ascending, Inside};
ghost use Rattle.clause_families.specs.{Inclusion.{stays}, Branches.{TreeOf}};
ghost use Rattle.clause_families.specs.Families.{all_unions, unions_of, HasUnions, SameClauses};

use crate::family_tree::FamilyTree;
use crate::needed::{is_longer, is_needed, stays, tree_beside, tree_of_many};
use crate::placing::put_in_place;
use crate::scratch::Clause;
use clause_pool::{ClauseId, Pool, RowId};
use listed::holds_ascending;
use std::alloc::{AllocError, Global};

/// The minimal clauses of the row once each clause that holds the spent package is replaced by its
/// unions, without the package, with the useful clauses.
pub fn with_unions(
    alloc: Global,
    pool: &mut Pool,
    spent: u32,
    row: &[ClauseId],
    useful: &[ClauseId],
) -> Result<Vec<ClauseId>, AllocError>
    requires pool { IsPool pool.old }
    requires row { OfPool pool.old row.now }
    requires in_order { InOrder (clauses_at pool.old row.now) }
    requires useful { OfPool pool.old useful.now }
    requires own { (c : List ℕ) → In c (clauses_at pool.old useful.now) → In spent c → ⊥ }
    requires minimal { (c d : List ℕ) → In c (clauses_at pool.old row.now) →
        In d (clauses_at pool.old row.now) → Inside c d → c ≡ d }
    ensures ok { IfOk result (λ ids. clauses_at pool.new ids.items
        ≡ minimal_of (in_row_order (apart_from spent (clauses_at pool.old row.now)
        ++ all_unions spent (clauses_at pool.old row.now) (clauses_at pool.old useful.now)))) }
    ensures of_pool { IfOk result (λ ids. OfPool pool.new ids.items) }
    ensures kept { Kept pool.old pool.new }
{
    // No clause of the row is within another one, so the row's clauses are tested against the
    // unions only.
    let unions = unions_in_order(alloc, pool, spent, row, useful)?;
    let tree = tree_of_many(alloc, unions.as_slice())?;
    let kept = tree_beside(alloc, pool, spent, row, unions.as_slice())?;
    let mut ids = ids_beside(alloc, pool, spent, row, unions.as_slice(), &tree)?;
    put_unions(pool, spent, row, &kept, unions.as_slice(), &tree, &mut ids)?;
    // There was room for all unions. Most of them may be needless, and rows stay for long.
    ids.shrink_to_fit();
    Ok(ids)
}

/// The unions of each clause of the row that holds the spent package, without it, with each useful
/// clause, in order.
fn unions_in_order(
    alloc: Global,
    pool: &Pool,
    spent: u32,
    row: &[ClauseId],
    useful: &[ClauseId],
) -> Result<Vec<Clause>, AllocError>
    requires row { OfPool pool.now row.now }
    requires useful { OfPool pool.now useful.now }
    ensures in_order { IfOk result (λ unions. InOrder unions.items) }
    ensures same { IfOk result (λ unions.
        SameClauses (all_unions spent (clauses_at pool.now row.now)
        (clauses_at pool.now useful.now)) unions.items) }
{
    let mut unions = Vec::with_capacity(alloc, useful.len())?;
    add_unions(alloc, pool, spent, row, useful, &mut unions)?;
    put_in_order(&mut unions);
    Ok(unions)
}

/// The ids of the clauses that do not hold a number and have no shorter union within them.
fn ids_beside(
    alloc: Global,
    pool: &Pool,
    number: u32,
    row: &[ClauseId],
    unions: &[Clause],
    tree: &Option<FamilyTree>,
) -> Result<Vec<ClauseId>, AllocError>
    requires row { OfPool pool.now row.now }
    requires tree { ForSome tree.now (λ t. TreeOf t unions.now) }
    ensures ok { IfOk result (λ ids. clauses_at pool.now ids.items
        ≡ filter (stays number unions.now) (clauses_at pool.now row.now)) }
    ensures of_pool { IfOk result (λ ids. OfPool pool.now ids.items) }
{
    let mut ids = Vec::with_capacity(alloc, row.len().saturating_add(unions.len()))?;
    for id in row {
        if stays(number, unions, tree, pool.slice(*id)) {
            ids.push(*id)?;
        }
    }
    Ok(ids)
}

/// Puts the unions that are needed beside the kept clauses of the row into their places among the
/// ids.
fn put_unions(
    pool: &mut Pool,
    spent: u32,
    row: &[ClauseId],
    kept: &Option<FamilyTree>,
    unions: &[Clause],
    tree: &Option<FamilyTree>,
    ids: &mut Vec<ClauseId>,
) -> Result<(), AllocError>
    requires pool { IsPool pool.old }
    requires row { OfPool pool.old row.now }
    requires ordered { InOrder (clauses_at pool.old row.now) }
    requires kept { ForSome kept.now (λ t.
        TreeOf t (apart_from spent (clauses_at pool.old row.now))) }
    requires tree { ForSome tree.now (λ t. TreeOf t unions.now) }
    requires rising { (c : List ℕ) → In c unions.now → Ascending c }
    requires apart { (c : List ℕ) → In c unions.now → In spent c → ⊥ }
    requires of_pool { OfPool pool.old ids.old.items }
    requires in_order { InOrder (clauses_at pool.old ids.old.items) }
    ensures ok { OnOk result (HasUnions (clauses_at pool.old ids.old.items) (apart_from spent
        (clauses_at pool.old row.now)) unions.now unions.now (clauses_at pool.new ids.new.items)) }
    ensures of_pool { OnOk result (OfPool pool.new ids.new.items) }
    ensures kept { Kept pool.old pool.new }
{
    for union in unions {
        if is_needed(pool, spent, row, kept, unions, tree, union.as_slice()) {
            let id = pool.intern(union.as_slice())?;
            put_in_place(pool, ids, id)?;
        }
    }
    Ok(())
}

/// Copies of the clauses that do not hold a number.
pub(crate) fn clauses_without(
    alloc: Global,
    pool: &Pool,
    number: u32,
    row: &[ClauseId],
) -> Result<Vec<Clause>, AllocError>
    requires { OfPool pool.now row.now }
    ensures { IfOk result (λ family. family.items
        ≡ apart_from number (clauses_at pool.now row.now)) }
{
    let mut family = Vec::new(alloc);
    for id in row {
        let clause = pool.slice(*id);
        if !holds_ascending(clause, number) {
            family.push(Clause::copy(alloc, clause)?)?;
        }
    }
    Ok(family)
}

/// Appends, for each clause of the row that holds the spent package, its unions without the package
/// with each of the others.
pub(crate) fn add_unions(
    alloc: Global,
    pool: &Pool,
    spent: u32,
    row: &[ClauseId],
    others: &[ClauseId],
    family: &mut Vec<Clause>,
) -> Result<(), AllocError>
    requires row { OfPool pool.now row.now }
    requires others { OfPool pool.now others.now }
    ensures { OnOk result (family.new.items ≡ family.old.items
        ++ all_unions spent (clauses_at pool.now row.now) (clauses_at pool.now others.now)) }
{
    for id in row {
        let clause = pool.slice(*id);
        if holds_ascending(clause, spent) {
            add_unions_of(alloc, pool, spent, clause, others, family)?;
        }
    }
    Ok(())
}

/// Appends the unions of one clause, without the spent package, with each of the others.
fn add_unions_of(
    alloc: Global,
    pool: &Pool,
    spent: u32,
    clause: &[u32],
    others: &[ClauseId],
    family: &mut Vec<Clause>,
) -> Result<(), AllocError>
    requires others { OfPool pool.now others.now }
    requires ascending { Ascending clause.now }
    ensures { OnOk result (family.new.items ≡ family.old.items
        ++ unions_of spent (clauses_at pool.now others.now) clause.now) }
{
    for other in others {
        let union = Clause::union_without(alloc, spent, clause, pool.slice(*other))?;
        family.push(union)?;
    }
    Ok(())
}

/// Sorts the clauses, and leaves each once.
pub fn put_in_order(family: &mut Vec<Clause>)
    ensures in_order { InOrder family.new.items }
    ensures same { SameClauses family.old.items family.new.items }
{
    family.sort_unstable();
    family.dedup();
}

/// Puts the row of the minimal clauses of the family into the pool.
pub fn intern_minimal(
    alloc: Global,
    pool: &mut Pool,
    family: &[Clause],
) -> Result<RowId, AllocError>
    requires ascending { (c : List ℕ) → In c family.now → Ascending c }
    requires in_order { InOrder family.now }
    ensures ok { IfOk result (λ id. row_at pool.new id ≡ minimal_of family.now) }
    ensures of_pool { IfOk result (λ id. id < length pool.new.rows) }
    ensures kept { Kept pool.old pool.new }
{
    let tree = tree_of_many(alloc, family)?;
    let ids = minimal_ids(alloc, pool, family, &tree)?;
    pool.intern_row(ids.as_slice())
}

/// Puts the minimal clauses of the family into the pool, and returns their ids in its order.
fn minimal_ids(
    alloc: Global,
    pool: &mut Pool,
    family: &[Clause],
    tree: &Option<FamilyTree>,
) -> Result<Vec<ClauseId>, AllocError>
    requires ascending { (c : List ℕ) → In c family.now → Ascending c }
    requires tree { ForSome tree.now (λ t. TreeOf t family.now) }
    ensures ok { IfOk result (λ ids. clauses_at pool.new ids.items ≡ minimal_of family.now) }
    ensures of_pool { IfOk result (λ ids. OfPool pool.new ids.items) }
    ensures kept { Kept pool.old pool.new }
{
    let mut ids = Vec::new(alloc);
    for clause in family {
        if !is_longer(family, tree, clause.as_slice()) {
            let id = pool.intern(clause.as_slice())?;
            ids.push(id)?;
        }
    }
    Ok(ids)
}
