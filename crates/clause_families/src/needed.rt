//! Which clauses of a row and which unions are needed: few are looked at one by one, and many are
//! put into trees.
//!
//! A union that equals a kept clause may be called needless, since that clause stays. No union
//! holds the spent package, so no clause that holds it is within a union.
ghost use Rattle.std.specs.Prelude.{◌≡◌, ℕ, ◌<◌, ◌≤◌, List, IfOk, length, false, None};
ghost use Rattle.std.specs.{Bool.{OnFalse, OnTrue}, Option.{ForSome}};
ghost use Rattle.clause_pool.specs.{Interned.{clauses_at, OfPool, IsPool}, Clauses.{apart_from}};
ghost use Rattle.clause_pool.specs.{Lists.{InOrder}, Within.{some_within}};
ghost use Rattle.listed.specs.Lists.{In, Ascending};
ghost use Rattle.clause_families.specs.Inclusion.{has_shorter, is_strictly_inside, stays};
ghost use Rattle.clause_families.specs.Branches.{TreeOf};
ghost use Rattle.clause_families.specs.Families.{IncludesOneOf, IsNeedless, IsShortest};

use crate::family_tree::FamilyTree;
use crate::scratch::Clause;
use clause_pool::{ClauseId, Pool, has_within};
use listed::{holds_ascending, is_inside_ascending};
use std::alloc::{AllocError, Global};

/// A family with no more clauses than this gets no tree: each of them is looked at.
const FEW: usize = 4;

/// A row gets no tree if it has this many clauses or more for each number of the unions.
const SHARE: usize = 8;

/// The tree of a family, if it has more than a few clauses.
pub(crate) fn tree_of_many(
    alloc: Global,
    family: &[Clause],
) -> Result<Option<FamilyTree>, AllocError>
    requires in_order { InOrder family.now }
    requires rising { (c : List ℕ) → In c family.now → Ascending c }
    ensures tree { IfOk result (λ tree. ForSome tree (λ t. TreeOf t family.now)) }
    ensures few { IfOk result (λ tree. tree ≡ None → length family.now ≤ 4) }
{
    if family.len() <= FEW {
        return Ok(None);
    }
    Ok(Some(FamilyTree::of(alloc, family)?))
}

/// The tree of the clauses of a row that do not hold a number, if the unions have enough numbers to
/// make it worth while.
pub(crate) fn tree_beside(
    alloc: Global,
    pool: &Pool,
    number: u32,
    row: &[ClauseId],
    unions: &[Clause],
) -> Result<Option<FamilyTree>, AllocError>
    requires row { OfPool pool.now row.now }
    requires in_order { InOrder (apart_from number (clauses_at pool.now row.now)) }
    requires rising { (c : List ℕ) →
        In c (apart_from number (clauses_at pool.now row.now)) → Ascending c }
    ensures { IfOk result (λ tree.
        ForSome tree (λ t. TreeOf t (apart_from number (clauses_at pool.now row.now)))) }
{
    if have_at_most(unions, row.len() / SHARE) {
        return Ok(None);
    }
    Ok(Some(FamilyTree::without(alloc, pool, number, row)?))
}

/// Whether the clauses together have no more numbers than the bound, at which counting stops.
fn have_at_most(family: &[Clause], bound: usize) -> bool {
    let mut left = bound;
    for clause in family {
        let count = clause.as_slice().len();
        if left < count {
            return false;
        }
        left -= count;
    }
    true
}

/// Whether the clause does not hold the number, and no shorter union is within it.
pub(crate) fn stays(
    number: u32,
    unions: &[Clause],
    tree: &Option<FamilyTree>,
    clause: &[u32],
) -> bool
    requires tree { ForSome tree.now (λ t. TreeOf t unions.now) }
    requires ascending { Ascending clause.now }
    ensures { result ≡ stays number unions.now clause.now }
{
    !holds_ascending(clause, number) && !is_longer(unions, tree, clause)
}

/// Whether a union is needed beside the clauses of a row that do not hold the spent package: no
/// shorter union and none of these clauses is within it.
pub(crate) fn is_needed(
    pool: &Pool,
    spent: u32,
    row: &[ClauseId],
    kept: &Option<FamilyTree>,
    unions: &[Clause],
    tree: &Option<FamilyTree>,
    union: &[u32],
) -> bool
    requires pool { IsPool pool.now }
    requires row { OfPool pool.now row.now }
    requires in_order { InOrder (clauses_at pool.now row.now) }
    requires kept { ForSome kept.now (λ t.
        TreeOf t (apart_from spent (clauses_at pool.now row.now))) }
    requires tree { ForSome tree.now (λ t. TreeOf t unions.now) }
    requires ascending { Ascending union.now }
    requires apart { In spent union.now → ⊥ }
    ensures needed { OnTrue result
        (IsShortest (apart_from spent (clauses_at pool.now row.now)) unions.now union.now) }
    ensures needless { OnFalse result
        (IsNeedless (apart_from spent (clauses_at pool.now row.now)) unions.now union.now) }
{
    if is_longer(unions, tree, union) {
        return false;
    }
    if includes_one(pool, spent, row, kept, union) {
        return false;
    }
    true
}

/// Whether a shorter clause of the family is within the clause.
pub(crate) fn is_longer(family: &[Clause], tree: &Option<FamilyTree>, clause: &[u32]) -> bool
    requires tree { ForSome tree.now (λ t. TreeOf t family.now) }
    requires ascending { Ascending clause.now }
    ensures { result ≡ has_shorter family.now clause.now }
{
    match tree {
        Some(tree) => tree.has_shorter(clause),
        None => has_shorter_among(family, clause),
    }
}

/// Whether a shorter clause of the family is within the clause, by a look at each.
fn has_shorter_among(family: &[Clause], clause: &[u32]) -> bool
    requires { Ascending clause.now }
    ensures { result ≡ has_shorter family.now clause.now }
{
    for other in family {
        if is_strictly_inside(other.as_slice(), clause) {
            return true;
        }
    }
    false
}

/// Whether the first clause is within the second, and shorter.
fn is_strictly_inside(small: &[u32], large: &[u32]) -> bool
    requires { Ascending large.now }
    ensures { result ≡ is_strictly_inside small.now large.now }
{
    small.len() < large.len() && is_inside_ascending(small, large)
}

/// Whether a clause of the row without a number is within a clause without it; an equal one may be
/// missed.
fn includes_one(
    pool: &Pool,
    number: u32,
    row: &[ClauseId],
    kept: &Option<FamilyTree>,
    clause: &[u32],
) -> bool
    requires pool { IsPool pool.now }
    requires row { OfPool pool.now row.now }
    requires in_order { InOrder (clauses_at pool.now row.now) }
    requires kept { ForSome kept.now (λ t.
        TreeOf t (apart_from number (clauses_at pool.now row.now))) }
    requires ascending { Ascending clause.now }
    requires apart { In number clause.now → ⊥ }
    ensures found { OnTrue result
        (IncludesOneOf (apart_from number (clauses_at pool.now row.now)) clause.now) }
    ensures clear { OnFalse result
        (has_shorter (apart_from number (clauses_at pool.now row.now)) clause.now ≡ false) }
{
    match kept {
        Some(tree) => tree.has_shorter(clause),
        None => row_includes_one(pool, row, clause),
    }
}

/// Whether a clause of the row is within the clause; one that holds a number which the clause lacks
/// cannot be.
fn row_includes_one(pool: &Pool, row: &[ClauseId], clause: &[u32]) -> bool
    requires pool { IsPool pool.now }
    requires row { OfPool pool.now row.now }
    requires in_order { InOrder (clauses_at pool.now row.now) }
    requires ascending { Ascending clause.now }
    ensures { result ≡ some_within None clause.now (clauses_at pool.now row.now) }
{
    has_within(pool, row, &None, clause)
}
