//! A vector of places in which the numbers of lists are found by their hashes.
//!
//! It is linear probing (Knuth, The Art of Computer Programming, vol. 3, 6.4). A list is hashed
//! once: the index keeps the hashes, and grows by them. The hash is fixed, so lists made to collide
//! are found slowly, but never wrongly.
ghost use Rattle.std.specs.Prelude.{◌≡◌, ℕ, ◌<◌, ◌+◌, ◌^◌, ◌∷◌, ◌++◌, ◌*◌, ◌≤◌, [], List, length};
ghost use Rattle.std.specs.Prelude.{map, vec_len, IfOk, OnOk, OnErr, IfSome, IfNone};
ghost use Rattle.list_table.specs.Index.{home, free, IsFirstFree, IsIndex, IsSize, IsTable, Puts};
ghost use Rattle.list_table.specs.Lists.{StandsAt};

use crate::item::Item;
use crate::spans::Spans;
use std::alloc::{AllocError, Global};

/// A hash and the number of the entry plus one. In an empty place the latter is zero.
pub(crate) type Place = (u32, u32);

/// The place at which the walk of a hash begins.
pub(crate) fn home(hash: u32, size: usize) -> usize
    requires { 0 < size }
    ensures { result ≡ home hash size }
{
    hash as usize & (size - 1)
}

// The first empty place on the walk of a hash.
fn free_place(places: &[Place], hash: u32) -> usize
    requires { 0 < free places.now }
    ensures { IsFirstFree places.now (home hash (length places.now)) result }
{
    let size = places.len();
    let mut place = home(hash, size);
    for _ in 0..size {
        let (_, entry) = places[place];
        if entry == 0 {
            return place;
        }
        place += 1;
        if place == size {
            place = 0;
        }
    }
    place
}

/// Enters the next list at the first empty place on the walk of its hash.
pub(crate) fn put(places: &mut [Place], hash: u32, number: u32)
    requires room { 0 < free places.old }
    requires fits { number + 1 < 2 ^ 32 }
    ensures len { length places.new ≡ length places.old }
    ensures put { Puts places.old places.new hash (number + 1) }
    ensures index { (hashes : List ℕ) → length hashes ≡ number → IsIndex places.old hashes →
        IsIndex places.new (hashes ++ hash ∷ []) }
{
    let place = free_place(places, hash);
    places[place] = (hash, number + 1);
}

/// Enters the next list, as `put` does, in a vector.
pub(crate) fn put_in(places: &mut Vec<Place>, hash: u32, number: u32)
    requires room { 0 < free places.old.items }
    requires fits { number + 1 < 2 ^ 32 }
    ensures len { vec_len places.new ≡ vec_len places.old }
    ensures put { Puts places.old.items places.new.items hash (number + 1) }
    ensures index { (hashes : List ℕ) → length hashes ≡ number → IsIndex places.old.items hashes →
        IsIndex places.new.items (hashes ++ hash ∷ []) }
{
    put(places, hash, number);
}

/// The number of the list with these items, if there is one.
pub(crate) fn find_in<T: Item>(
    places: &[Place],
    lists: &Spans<T>,
    wanted: u32,
    items: &[T],
) -> Option<u32>
    requires table { IsTable places.now (map T.hash_of lists.now) }
    requires hash { wanted ≡ T.hash_of items.now }
    ensures some { IfSome result (StandsAt items.now lists.now) }
    ensures none { IfNone result ((place : ℕ) → StandsAt items.now lists.now place → ⊥) }
{
    let size = places.len();
    if size == 0 {
        return None;
    }
    let mut place = home(wanted, size);
    for _ in 0..size {
        let (kept, entry) = places[place];
        if entry == 0 {
            return None;
        }
        if kept == wanted && T::same(lists.at((entry - 1) as usize), items) {
            return Some(entry - 1);
        }
        place += 1;
        if place == size {
            place = 0;
        }
    }
    None
}

// Eight places at first, then twice as many.
fn next_size(size: usize) -> Result<usize, AllocError>
    requires { IsSize size }
    ensures power { IfOk result IsSize }
    ensures some { IfOk result (λ next. 2 ≤ next) }
    ensures twice { IfOk result (λ next. 2 * size ≤ next) }
{
    if size == 0 {
        return Ok(8);
    }
    let Some(twice) = size.checked_mul(2) else {
        return Err(AllocError);
    };
    Ok(twice)
}

/// Makes room for one more list.
pub(crate) fn make_room<T: Item>(
    places: &mut Vec<Place>,
    lists: &Spans<T>,
) -> Result<(), AllocError>
    requires { IsTable places.old.items (map T.hash_of lists.now) }
    ensures index { IsTable places.new.items (map T.hash_of lists.now) }
    ensures room { OnOk result (2 * length lists.now + 2 ≤ vec_len places.new) }
{
    let number = lists.count();
    let size = places.len();
    if number < size / 2 {
        return Ok(());
    }
    let larger = next_size(size)?;
    *places = moved_to(*places.allocator(), places.as_slice(), larger)?;
    Ok(())
}

/// An index of this size with the same entries. It uses the hashes that the places keep, and reads
/// no list.
pub(crate) fn moved_to(alloc: Global, from: &[Place], size: usize) -> Result<Vec<Place>, AllocError>
    requires { length from.now < size }
    ensures index { IfOk result (λ places. (hashes : List ℕ) → IsIndex from.now hashes →
        IsIndex places.items hashes) }
    ensures len { IfOk result (λ places. vec_len places ≡ size) }
{
    let mut places = vec![in alloc; (0, 0); size]?;
    for place in from {
        let (hash, entry) = *place;
        if entry != 0 {
            put_in(&mut places, hash, entry - 1);
        }
    }
    Ok(places)
}
