//! Trimming: as few of the chosen packages as the open needs ask for.
ghost use Rattle.std.specs.Prelude.{◌≡◌, ◌<◌, ℕ, Bool, true, false, List, [], Some, None, IfOk};
ghost use Rattle.std.specs.Prelude.{OnOk, IfSome, IfNone, All, replicate, length, slice_set, take};
ghost use Rattle.std.specs.List.{list_any, find};
ghost use Rattle.clause_pool.specs.Interned.{clause_at, clauses_at, OfPool};
ghost use Rattle.row_book.specs.{Sets.{HitsAll}, Repository.{Healthy}, Book.{repository_of, Sound}};
ghost use Rattle.row_book.specs.{Flags.{flag}, Needs.{NeedsFit}};
ghost use Rattle.install_lift.specs.Waiting.{is_waiting};
ghost use Rattle.install_lift.specs.Trimming.{is_unhit, IsHealthyPart, IsTrim, IsTrimming, trim_of};

use crate::raising::is_up;
use crate::waiting::Waiting;
use clause_pool::{ClauseId, FlagList, Pool};
use listed::Listed;
use row_book::{Book, Needs};
use std::alloc::{AllocError, Global};

/// Whether the clause is hit.
pub(crate) fn hits_one(set: &[bool], clause: &[u32]) -> bool
    ensures { result ≡ list_any (flag set.now) clause.now }
{
    clause.iter().any(|n| is_up(set, *n))
}

/// A clause of a row that is not hit.
#[derive(Clone, Copy, Drop)]
pub(crate) struct Unhit {
    /// Its place in the row.
    place: usize,
    /// The clause.
    id: ClauseId,
}

/// The first clause that is not hit, with its place in the row; those before the place `from` are
/// hit.
fn first_unhit(pool: &Pool, set: &[bool], ids: &[ClauseId], from: usize) -> Option<Unhit>
    requires of_pool { OfPool pool.now ids.now }
    requires before { find (is_unhit (flag set.now)) (clauses_at pool.now (take from ids.now))
        ≡ None }
    ensures none { IfNone result (find (is_unhit (flag set.now)) (clauses_at pool.now ids.now)
        ≡ None) }
    ensures some { IfSome result (λ found. find (is_unhit (flag set.now))
        (clauses_at pool.now ids.now) ≡ Some (clause_at pool.now found.id)) }
    ensures within { IfSome result (λ found. found.id < length pool.now.clauses) }
    ensures before { IfSome result (λ found.
        find (is_unhit (flag set.now)) (clauses_at pool.now (take found.place ids.now)) ≡ None) }
{
    for k in from..ids.len() {
        let id = ids[k];
        if !hits_one(set, pool.slice(id)) {
            return Some(Unhit { place: k, id });
        }
    }
    None
}

/// The first member of the clause that is chosen.
fn first_chosen(chosen: &[bool], clause: &[u32]) -> Option<u32>
    ensures { result ≡ find (flag chosen.now) clause.now }
{
    clause.iter().copied().find(|n| is_up(chosen, *n))
}

/// Adds the first chosen member of a clause, and returns it.
fn put_first(chosen: &[bool], set: &mut [bool], clause: &[u32]) -> u32
    requires hit { list_any (flag chosen.now) clause.now ≡ true }
    requires long { length set.old ≡ length chosen.now }
    ensures first { find (flag chosen.now) clause.now ≡ Some result }
    ensures put { set.new ≡ slice_set set.old result true }
{
    match first_chosen(chosen, clause) {
        Some(n) => {
            set[n as usize] = true;
            n
        }
        None => unreachable!(),
    }
}

/// Adds what the goals ask for, to the set and to those that wait.
fn trim_goals(
    pool: &Pool,
    book: &Book,
    goals: &Needs,
    chosen: &[bool],
    set: &mut [bool],
    waiting: &mut Waiting,
) -> Result<(), AllocError>
    requires hits { HitsAll (flag chosen.now) goals.now }
    requires long { length set.old ≡ length chosen.now }
    requires waits { (q : ℕ) → is_waiting waiting.old q ≡ flag set.old q }
    requires trimming { IsTrimming (repository_of pool.now book.now) goals.now
        (flag chosen.now) (flag set.old) }
    ensures long { length set.new ≡ length set.old }
    ensures waits { OnOk result ((q : ℕ) → is_waiting waiting.new q ≡ flag set.new q) }
    ensures trimming { OnOk result
        (IsTrimming (repository_of pool.now book.now) goals.now (flag chosen.now) (flag set.new)) }
    ensures hit { OnOk result (All (λ g. list_any (flag set.new) g ≡ true) goals.now) }
{
    for place in 0..goals.count() {
        let goal = goals.at(place);
        if hits_one(set, goal) {
            continue;
        }
        let n = put_first(chosen, set, goal);
        waiting.put(n)?;
    }
    Ok(())
}

/// Adds what the clauses of those that wait ask for, and what those added ask for, until none
/// waits. The least package is looked at first. Nothing is removed, so a clause that is hit is not
/// looked at again: for each package its place is kept.
fn trim_clauses(
    pool: &Pool,
    book: &Book,
    goals: &Needs,
    chosen: &[bool],
    set: &mut [bool],
    waiting: &mut Waiting,
    places: &mut [usize],
) -> Result<(), AllocError>
    requires sound { Sound pool.now book.now }
    requires places { places.old ≡ replicate (length book.now.rows) 0 }
    requires healthy { Healthy (repository_of pool.now book.now) (flag chosen.now) }
    requires long { length set.old ≡ length chosen.now }
    requires waits { (q : ℕ) → is_waiting waiting.old q ≡ flag set.old q }
    requires hit { All (λ g. list_any (flag set.old) g ≡ true) goals.now }
    requires trimming { IsTrimming (repository_of pool.now book.now) goals.now
        (flag chosen.now) (flag set.old) }
    ensures { OnOk result
        (IsTrim (repository_of pool.now book.now) goals.now (flag chosen.now) (flag set.new)) }
{
    while let Some(number) = waiting.take_first() {
        let ids = pool.row(book.row(number));
        let from = places[number as usize];
        let Some(found) = first_unhit(pool, set, ids, from) else {
            continue;
        };
        places[number as usize] = found.place;
        let n = put_first(chosen, set, pool.slice(found.id));
        waiting.put(number)?;
        waiting.put(n)?;
    }
    Ok(())
}

/// A healthy part of the chosen packages that hits every goal. It begins empty; the first chosen
/// member of the first open need is added, until no need is open.
pub fn trim(
    alloc: Global,
    pool: &Pool,
    book: &Book,
    goals: &Needs,
    chosen: &[bool],
) -> Result<FlagList, AllocError>
    requires sound { Sound pool.now book.now }
    requires goals { NeedsFit (length book.now.rows) goals.now }
    requires healthy { Healthy (repository_of pool.now book.now) (flag chosen.now) }
    requires hits { HitsAll (flag chosen.now) goals.now }
    ensures trim { IfOk result (λ set.
        IsTrim (repository_of pool.now book.now) goals.now (flag chosen.now) (flag set)) }
    ensures is { IfOk result (λ set. flag set
        ≡ trim_of (repository_of pool.now book.now) goals.now (flag chosen.now)) }
    ensures part { IfOk result (λ set.
        IsHealthyPart (repository_of pool.now book.now) goals.now (flag chosen.now) (flag set)) }
    ensures long { IfOk result (λ set. length set ≡ length chosen.now) }
{
    let mut set = vec![in alloc; false; chosen.len()]?;
    trim_set(alloc, pool, book, goals, chosen, &mut set)?;
    Ok(Listed::of(set))
}

/// Adds what goals and clauses ask for.
fn trim_set(
    alloc: Global,
    pool: &Pool,
    book: &Book,
    goals: &Needs,
    chosen: &[bool],
    set: &mut [bool],
) -> Result<(), AllocError>
    requires sound { Sound pool.now book.now }
    requires healthy { Healthy (repository_of pool.now book.now) (flag chosen.now) }
    requires hits { HitsAll (flag chosen.now) goals.now }
    requires none { set.old ≡ replicate (length chosen.now) false }
    ensures trim { OnOk result
        (IsTrim (repository_of pool.now book.now) goals.now (flag chosen.now) (flag set.new)) }
    ensures is { OnOk result (flag set.new
        ≡ trim_of (repository_of pool.now book.now) goals.now (flag chosen.now)) }
    ensures part { OnOk result (IsHealthyPart (repository_of pool.now book.now) goals.now
        (flag chosen.now) (flag set.new)) }
{
    let mut waiting = Waiting::new(alloc);
    let mut places = vec![in alloc; 0; book.size() as usize]?;
    trim_goals(pool, book, goals, chosen, set, &mut waiting)?;
    trim_clauses(pool, book, goals, chosen, set, &mut waiting, &mut places)?;
    Ok(())
}
