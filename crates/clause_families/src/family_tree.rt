//! A family of clauses as a tree, which finds a clause of the family within another clause without
//! trying each.
//!
//! Halving groups of clauses, which lie far apart in memory, took twice as long. A tree takes 16
//! bytes a number, so only a large family gets one.
ghost use Rattle.std.specs.Prelude.{◌≡◌, ◌<◌, ◌≤◌, ◌+◌, ◌-◌, ◌⊎◌, ◌&&◌, ◌++◌, ◌∷◌, ℕ, List, IfOk};
ghost use Rattle.std.specs.Prelude.{OnOk, ltb, length, take, drop};
ghost use Rattle.clause_pool.specs.{Interned.{clauses_at, OfPool}, Clauses.{apart_from}};
ghost use Rattle.clause_pool.specs.Lists.{InOrder};
ghost use Rattle.listed.specs.Lists.{In, Ascending};
ghost use Rattle.clause_families.specs.Inclusion.{has_shorter, is_within, some_inside};
ghost use Rattle.clause_families.specs.Branches.{any_of, begin_of, chain, nodes_of, shared};
ghost use Rattle.clause_families.specs.Branches.{BuiltOf, Grows, HasFamily, Leaps, Leapt, Standing};
ghost use Rattle.clause_families.specs.Branches.{Tree, TreeOf};

use crate::scratch::Clause;
use clause_pool::{ClauseId, Pool};
use listed::holds_ascending;
use std::alloc::{AllocError, Global};

/// The places of a tree are below this, so that a node holds them in 32 bits.
const MOST: usize = 4_294_967_295;

/// A number of the tree. In the list the siblings with greater numbers come first, each after its
/// descendants, then the descendants of the node, and then the node.
#[derive(Clone, Copy)]
pub(crate) struct Node {
    /// The place at which its descendants begin.
    start: u32,
    /// The place after the sibling to which a walk can leap, over all those between.
    far: u32,
    number: u32,
    /// 0 if the leap goes to the next sibling, else one more than the rank of the two leaps that it
    /// takes at once. So a walk to any of n siblings takes about log n leaps.
    rank: u8,
    /// Whether a clause ends with it.
    ends: bool,
}

/// The clauses of a family as a tree of their numbers, in which clauses that begin alike share
/// nodes.
#[derive(Drop)]
pub(crate) struct FamilyTree {
    nodes: Vec<Node>,
    holds_empty: bool,
    /// No clause has fewer numbers.
    shortest: usize,
}

impl FamilyTree {
    /// The tree of a family.
    pub(crate) fn of(alloc: Global, family: &[Clause]) -> Result<FamilyTree, AllocError>
        requires in_order { InOrder family.now }
        requires rising { (c : List ℕ) → In c family.now → Ascending c }
        ensures { IfOk result (λ tree. TreeOf tree family.now) }
    {
        let mut tree = FamilyTree {
            nodes: Vec::with_capacity(alloc, numbers_of(family))?,
            holds_empty: false,
            shortest: usize::MAX,
        };
        for place in (0..family.len()).rev() {
            tree.put(family[place].as_slice())?;
        }
        Ok(tree)
    }

    /// The tree of the clauses of a row that do not hold a number.
    pub(crate) fn without(
        alloc: Global,
        pool: &Pool,
        number: u32,
        row: &[ClauseId],
    ) -> Result<FamilyTree, AllocError>
        requires row { OfPool pool.now row.now }
        requires in_order { InOrder (apart_from number (clauses_at pool.now row.now)) }
        requires rising { (c : List ℕ) →
            In c (apart_from number (clauses_at pool.now row.now)) → Ascending c }
        ensures { IfOk result (λ tree.
            TreeOf tree (apart_from number (clauses_at pool.now row.now))) }
    {
        let mut tree = FamilyTree {
            nodes: Vec::with_capacity(alloc, numbers_in(pool, row))?,
            holds_empty: false,
            shortest: usize::MAX,
        };
        for place in (0..row.len()).rev() {
            let clause = pool.slice(row[place]);
            if !holds_ascending(clause, number) {
                tree.put(clause)?;
            }
        }
        Ok(tree)
    }

    /// Adds a clause that comes before those of the tree.
    pub(crate) fn put(&mut self, clause: &[u32]) -> Result<(), AllocError>
        ensures { OnOk result ((family : List (List ℕ)) → BuiltOf self.old family →
            BuiltOf self.new (clause.now ∷ family)) }
    {
        self.shortest = least_of(self.shortest, clause.len());
        if clause.is_empty() {
            self.holds_empty = true;
            return Ok(());
        }
        put_nodes(&mut self.nodes, clause)
    }

    /// Whether a shorter clause of the family is within the clause.
    pub(crate) fn has_shorter(&self, clause: &[u32]) -> bool
        requires tree { HasFamily self.now }
        requires ascending { Ascending clause.now }
        ensures { (family : List (List ℕ)) → TreeOf self.now family →
            result ≡ has_shorter family clause.now }
    {
        if clause.len() <= self.shortest {
            return false;
        }
        if self.holds_empty {
            return true;
        }
        has_within(self.nodes.as_slice(), 0, clause, clause.len())
    }

    /// Whether a clause of the family is within the clause.
    pub(crate) fn has_inside(&self, clause: &[u32]) -> bool
        requires tree { HasFamily self.now }
        requires ascending { Ascending clause.now }
        ensures { (family : List (List ℕ)) → TreeOf self.now family →
            result ≡ some_inside family clause.now }
    {
        if clause.len() < self.shortest {
            return false;
        }
        if self.holds_empty {
            return true;
        }
        has_within(self.nodes.as_slice(), 0, clause, clause.len() + 1)
    }
}

/// How many numbers the clauses have together: a tree has no more nodes. With room for all at once
/// no node is copied as a large tree grows, and unused room is never touched.
fn numbers_of(family: &[Clause]) -> usize {
    let mut count: usize = 0;
    for clause in family {
        count = count.saturating_add(clause.as_slice().len());
    }
    count
}

/// How many numbers the clauses of a row have together.
fn numbers_in(pool: &Pool, row: &[ClauseId]) -> usize
    requires { OfPool pool.now row.now }
{
    let mut count: usize = 0;
    for id in row {
        count = count.saturating_add(pool.slice(*id).len());
    }
    count
}

/// The lesser of two numbers.
fn least_of(first: usize, second: usize) -> usize
    ensures first { result ≤ first }
    ensures second { result ≤ second }
{
    if first < second { first } else { second }
}

/// Adds the nodes of a clause that comes before those of the tree, except the ones that it shares
/// with the first clause there.
fn put_nodes(nodes: &mut Vec<Node>, clause: &[u32]) -> Result<(), AllocError>
    requires { 0 < length clause.now }
    ensures { OnOk result ((tree : Tree) → nodes.old.items ≡ nodes_of 0 tree →
        Grows clause.now tree nodes.new.items) }
{
    let shared = shared(nodes.as_slice(), clause);
    let known = shared.0;
    let place = nodes.len() - known;
    if place >= MOST {
        return Err(AllocError);
    }
    let leap = leap_of(&nodes[..place], shared.1);
    add_chain(nodes, place, leap.0, leap.1, &clause[known..])?;
    let last = nodes[place];
    nodes[place] = Node { ends: true, ..last };
    Ok(())
}

/// How many first numbers the clause shares with the first clause of the tree, and the place at
/// which the nodes that go on after these begin.
fn shared(nodes: &[Node], clause: &[u32]) -> (usize, u32)
    ensures there { result.0 ≤ length nodes.now }
    ensures within { result.0 ≤ length clause.now }
    ensures shared { (tree : Tree) → nodes.now ≡ nodes_of 0 tree →
        result.0 ≡ shared clause.now tree }
    ensures from { (tree : Tree) → nodes.now ≡ nodes_of 0 tree →
        result.1 ≡ begin_of 0 clause.now tree }
{
    let mut left = nodes;
    let mut from = 0;
    for (count, number) in clause.iter().enumerate() {
        let Some((node, others)) = left.split_last() else {
            return (count, from);
        };
        if left.len() <= from as usize || node.number != *number {
            return (count, from);
        }
        from = node.start;
        left = others;
    }
    (clause.len(), from)
}

/// The place to which a new first sibling leaps, and the rank of its leap. If the next two leaps
/// have the same rank it takes both at once, else it goes to the next sibling.
fn leap_of(nodes: &[Node], from: u32) -> (u32, u8)
    requires { length nodes.now < 4294967295 }
    ensures { (tree : Tree) → (front : List Node) → length front ≡ from →
        nodes.now ≡ front ++ nodes_of from tree → Leaps from tree result.0 }
{
    let place = nodes.len() as u32;
    if place <= from {
        return (place, 0);
    }
    let first = nodes[(place - 1) as usize];
    if first.far <= from || place < first.far {
        return (place, 0);
    }
    let next = nodes[(first.far - 1) as usize];
    if next.rank == first.rank {
        return (next.far, first.rank.saturating_add(1));
    }
    (place, 0)
}

/// Inserts nodes of the numbers at a place, each the child of the one before; the first one gets
/// the leap.
fn add_chain(
    nodes: &mut Vec<Node>,
    place: usize,
    far: u32,
    rank: u8,
    numbers: &[u32],
) -> Result<(), AllocError>
    requires place { place ≤ length nodes.old.items }
    requires few { place < 4294967295 }
    ensures { OnOk result (nodes.new.items ≡ take place nodes.old.items
        ++ (chain place far rank numbers.now ++ drop place nodes.old.items)) }
{
    let Some((number, rest)) = numbers.split_first() else {
        return Ok(());
    };
    let moved = nodes.len() - place;
    let start = place as u32;
    push_chain(nodes, start, rest)?;
    let first = Node {
        number: *number,
        start,
        far,
        rank,
        ends: false,
    };
    nodes.push(first)?;
    turn_from(nodes, place, moved);
    Ok(())
}

/// Moves the first nodes from a place on to the end of the list.
fn turn_from(nodes: &mut [Node], place: usize, moved: usize)
    requires { place + moved ≤ length nodes.old }
    ensures turned { nodes.new ≡ take place nodes.old
        ++ (drop moved (drop place nodes.old) ++ take moved (drop place nodes.old)) }
    ensures len { length nodes.new ≡ length nodes.old }
{
    nodes[place..].rotate_left(moved);
}

/// Appends nodes of the numbers, each the child of the one before, the last number first.
fn push_chain(nodes: &mut Vec<Node>, place: u32, numbers: &[u32]) -> Result<(), AllocError>
    ensures { OnOk result (nodes.new.items ≡ nodes.old.items ++ chain place place 0 numbers.now) }
{
    for index in (0..numbers.len()).rev() {
        let number = numbers[index];
        let node = Node {
            number,
            start: place,
            far: place,
            rank: 0,
            ends: false,
        };
        nodes.push(node)?;
    }
    Ok(())
}

/// Whether a clause of the tree in the nodes from a place on is within the wanted numbers, and has
/// fewer numbers than the size. Clauses ascend, so after a node only greater wanted numbers are
/// looked at.
fn has_within(nodes: &[Node], from: u32, wanted: &[u32], size: usize) -> bool
    requires tree { Standing from nodes.now }
    requires ascending { Ascending wanted.now }
    ensures { (tree : Standing from nodes.now) →
        result ≡ any_of (is_within wanted.now size) tree.tree }
{
    let mut left = nodes;
    let mut ahead = wanted;
    let mut room = size;
    while let Some((number, rest)) = ahead.split_first() {
        let Some((node, others)) = left.split_last() else {
            return false;
        };
        if left.len() <= from as usize {
            return false;
        }
        if *number < node.number {
            ahead = rest;
        } else if node.number < *number {
            left = &left[..place_behind(left, from, node, *number) as usize];
        } else {
            if is_end(node, room) {
                return true;
            }
            // It calls itself only if siblings are left, so long clauses alone make no deep calls.
            if node.start == from {
                left = others;
                room = room.saturating_sub(1);
            } else {
                if has_within(others, node.start, rest, room.saturating_sub(1)) {
                    return true;
                }
                left = &left[..node.start as usize];
            }
            ahead = rest;
        }
    }
    false
}

/// Whether a clause ends with the node, and one number is fewer than the size.
fn is_end(node: &Node, size: usize) -> bool
    ensures { result ≡ (node.now.ends && ltb 1 size) }
{
    node.ends && 1 < size
}

/// The place from which to go on after a node with a lesser number than the wanted one. It is that
/// of the leap if the number there is no greater than the wanted one, else that of the next
/// sibling.
fn place_behind(nodes: &[Node], from: u32, node: &Node, number: u32) -> u32
    requires { node.now.far ≤ length nodes.now }
    ensures { (result ≡ node.now.start) ⊎ Leapt nodes.now from node.now number result }
{
    if node.far <= from {
        return node.start;
    }
    if nodes[(node.far - 1) as usize].number <= number {
        return node.far;
    }
    node.start
}
