//! Clauses in their order.
//!
//! All clauses are put in order once, and each has its place among them as its rank. A row is then
//! put in order by numbers.
ghost use Rattle.std.specs.Prelude.{◌≡◌, ◌<◌, ℕ, IfOk, map, length, slice_index_or};
ghost use Rattle.std.specs.Ordering.{is_lt};
ghost use Rattle.clause_pool.specs.{Interned.{clause_at, IsPool, OfPool}, Clauses.{comes_before}};
ghost use Rattle.listed.specs.Lists.{In};
ghost use Rattle.repo_model.specs.Ranks.{AreOrdered, AreRanked, EachIdOnce, HasPlaces};

use clause_pool::{ClauseId, Pool};
use std::alloc::{AllocError, Global};
use std::cmp::Ordering;

/// Distinct clauses in their order, and for each of a list of clauses its place among them.
#[derive(Drop)]
pub(crate) struct Ranks {
    pub(crate) order: Vec<ClauseId>,
    pub(crate) ranks: Vec<u32>,
}

/// The clauses of these ids in their order, and the rank of each.
pub(crate) fn rank_all(alloc: Global, pool: &Pool, ids: &[ClauseId]) -> Result<Ranks, AllocError>
    requires { OfPool pool.now ids.now }
    ensures { IfOk result (AreRanked pool.now ids.now) }
{
    let count = pool.clause_count() as usize;
    let order = in_order(alloc, pool, ids)?;
    let places = places_of(alloc, count, &order)?;
    let ranks = places_at(alloc, &places, ids)?;
    Ok(Ranks { order, ranks })
}

// The distinct ids in the order of their clauses.
fn in_order(alloc: Global, pool: &Pool, ids: &[ClauseId]) -> Result<Vec<ClauseId>, AllocError>
    requires pool { IsPool pool.now }
    requires of_pool { OfPool pool.now ids.now }
    ensures { IfOk result (λ order. AreOrdered pool.now ids.now order.items) }
{
    let mut order = Vec::from_slice(alloc, ids)?;
    order.sort_unstable_by(|one, other| order_of(pool, *one, *other));
    order.dedup();
    Ok(order)
}

// How the clauses of two ids compare in lexicographic order.
#[tactic(auto, using(clause_pool::proofs::Compared::before_compared))]
fn order_of(pool: &Pool, one: ClauseId, other: ClauseId) -> Ordering
    ensures { is_lt result ≡ comes_before (clause_at pool.now one) (clause_at pool.now other) }
{
    clause_of_id(pool, one).cmp(clause_of_id(pool, other))
}

// The clause of an id; for an id without a clause it is the empty one.
fn clause_of_id(pool: &Pool, id: ClauseId) -> &[u32]
    ensures { result.now ≡ clause_at pool.now id }
{
    if (id.place() as u64) < pool.clause_count() {
        return pool.slice(id);
    }
    &[]
}

// For each of `count` clauses its place in the order, if it has one.
fn places_of(alloc: Global, count: usize, order: &[ClauseId]) -> Result<Vec<u32>, AllocError>
    requires within { (id : ℕ) → In id order.now → id < count }
    requires once { EachIdOnce order.now }
    ensures places { IfOk result (λ places. HasPlaces order.now places.items) }
    ensures count { IfOk result (λ places. length places.items ≡ count) }
{
    let mut places = vec![in alloc; 0u32; count]?;
    for (place, id) in order.iter().enumerate() {
        let Ok(rank) = u32::try_from(place) else {
            return Err(AllocError);
        };
        places[id.place()] = rank;
    }
    Ok(places)
}

// The place of each of the ids.
fn places_at(alloc: Global, places: &[u32], ids: &[ClauseId]) -> Result<Vec<u32>, AllocError>
    requires { (id : ℕ) → In id ids.now → id < length places.now }
    ensures { IfOk result (λ ranks. ranks.items
        ≡ map (λ id. slice_index_or places.now id 0) ids.now) }
{
    let mut ranks = Vec::with_capacity(alloc, ids.len())?;
    for id in ids {
        ranks.push(place_of(places, *id))?;
    }
    Ok(ranks)
}

// The place of an id.
fn place_of(places: &[u32], id: ClauseId) -> u32
    requires { id < length places.now }
    ensures { result ≡ slice_index_or places.now id 0 }
{
    places[id.place()]
}
