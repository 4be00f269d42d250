//! Which rows have which clauses, and which clauses hold which packages.
ghost use Rattle.std.specs.Prelude.{◌≡◌, ◌≢◌, ◌∷◌, ◌<◌, ◌≤◌, ◌&&◌, ℕ, List, [], IfOk, OnOk, OnErr};
ghost use Rattle.std.specs.{Prelude.{length, ltb, slice_set}, List.{filter, list_any}};
ghost use Rattle.clause_pool.specs.Interned.{clause_at, Interned, OfPool};
ghost use Rattle.listed.specs.Lists.{In, has};
ghost use Rattle.row_book.specs.{Book.{listed_for}, Uses.{lists_in, list_in, IsListOf}};
ghost use Rattle.row_book.specs.Holders.{holders_in, ids_hold, is_user, users_in, ArePlaced};
ghost use Rattle.row_book.specs.Holders.{GainsOnly, HasAll, ListsClauses, ListsFit, TellsRows};

use crate::IdList;
use crate::changes::gained_between;
use clause_pool::{ClauseId, Pool};
use listed::{empty_vectors, holds_ascending};
use std::alloc::{AllocError, Global};
use std::marker::Model;

/// For each clause of a pool the packages whose rows have it, and for each package the clauses that
/// hold it. A clause that many rows share is here once, so the table is no larger than what the
/// rows and their clauses hold, or held.
///
/// No list is searched and none is shifted: a package is appended, and stays when its row loses the
/// clause. Whether its row still has the clause is looked up when users are asked for.
#[derive(Drop)]
pub struct ClauseTable {
    users: Vec<Vec<u32>>,
    clauses: Vec<Vec<u32>>,
}

impl Model for ClauseTable {
    ghost use Rattle.row_book.specs.Holders.{Holders, holders_in};

    ghost Value = { Holders };

    ghost view = { λ s. holders_in s.users.items s.clauses.items };
}

impl ClauseTable {
    /// The table of the rows.
    pub fn of(alloc: Global, pool: &Pool, rows: &[IdList]) -> Result<ClauseTable, AllocError>
        requires few { length rows.now < u32.MAX }
        requires fit { ListsFit pool.now rows.now }
        ensures { IfOk result (TellsRows pool.now rows.now) }
    {
        let mut users = Vec::new(alloc);
        make_lists(&mut users, pool.clause_count())?;
        let mut clauses = empty_vectors(alloc, rows.len())?;
        enter_rows(pool, users.as_mut_slice(), clauses.as_mut_slice(), rows)?;
        Ok(ClauseTable { users, clauses })
    }

    /// The packages whose row has a clause that holds the given one, ascending, in a table of the
    /// rows.
    pub fn users(
        &self,
        alloc: Global,
        pool: &Pool,
        rows: &[IdList],
        number: u32,
    ) -> Result<Vec<u32>, AllocError>
        requires { ListsFit pool.now rows.now }
        ensures { IfOk result (λ found. TellsRows pool.now rows.now self.now →
            found.items ≡ users_in pool.now rows.now number) }
    {
        let clauses = list_at(self.clauses.as_slice(), number);
        let had = users_among(alloc, self.users.as_slice(), clauses)?;
        Ok(users_still(pool, rows, had, number, clauses))
    }

    /// Lends the places of clauses that hold a package: in a table of rows all of those that a row
    /// has.
    pub fn clauses_with(&self, number: u32) -> &[u32]
        ensures { result.now ≡ listed_for self.now.clauses number }
    {
        list_at(self.clauses.as_slice(), number)
    }

    /// Replaces the old row of a package by a new one. If the table is that of rows in which the
    /// package has the old row, it is then that of the same rows with the new one there. If memory
    /// runs out, it is still that of the rows.
    pub fn replace(
        &mut self,
        alloc: Global,
        pool: &Pool,
        number: u32,
        old: &[ClauseId],
        new: &[ClauseId],
    ) -> Result<(), AllocError>
        requires old { OfPool pool.now old.now }
        requires new { OfPool pool.now new.now }
        requires numbers { (c : ℕ) → In c new.now → (n : ℕ) → In n (clause_at pool.now c) →
            n < length self.old.clauses }
        ensures ok { OnOk result ((rows : List (List ℕ)) → number < length rows →
            listed_for rows number ≡ old.now →
            TellsRows pool.now rows self.old →
            TellsRows pool.now (slice_set rows number new.now) self.new) }
        ensures err { OnErr result ((rows : List (List ℕ)) → TellsRows pool.now rows self.old →
            TellsRows pool.now rows self.new) }
    {
        let came = gained_between(alloc, pool, old, new)?;
        make_lists(&mut self.users, pool.clause_count())?;
        let gained = came.as_slice();
        let users = self.users.as_mut_slice();
        let clauses = self.clauses.as_mut_slice();
        enter_all(pool, users, clauses, gained, number)?;
        Ok(())
    }

    /// Gives back the lists of a package and of the users of its clauses. If no clause of some rows
    /// holds the package, the table of these rows stays theirs. Otherwise each other member of a
    /// long clause would go through its users again.
    pub fn forget(&mut self, number: u32)
        ensures { (pool : Interned) (rows : List (List ℕ)) → users_in pool rows number ≡ [] →
            TellsRows pool rows self.old → TellsRows pool rows self.new }
    {
        let alloc = *self.users.allocator();
        let clauses = list_at(self.clauses.as_slice(), number);
        empty_each(alloc, self.users.as_mut_slice(), clauses);
        empty_one(alloc, self.clauses.as_mut_slice(), number);
    }
}

/// Enters the packages for the clauses of their rows.
fn enter_rows(
    pool: &Pool,
    users: &mut [Vec<u32>],
    clauses: &mut [Vec<u32>],
    rows: &[IdList],
) -> Result<(), AllocError>
    requires few { length rows.now < u32.MAX }
    requires fit { ListsFit pool.now rows.now }
    requires there { length pool.now.clauses ≤ length users.old }
    requires size { length clauses.old ≡ length rows.now }
    requires none { (c : ℕ) → list_in users.old c ≡ [] }
    requires empty { (n : ℕ) → list_in clauses.old n ≡ [] }
    ensures { OnOk result (TellsRows pool.now rows.now (holders_in users.new clauses.new)) }
{
    for (number, row) in rows.iter().enumerate() {
        enter_all(pool, users, clauses, row.as_slice(), number as u32)?;
    }
    Ok(())
}

/// Adds a package as user of each clause. A clause without users is first listed under its numbers.
/// If memory runs out, the package is a user of some of them.
fn enter_all(
    pool: &Pool,
    users: &mut [Vec<u32>],
    clauses: &mut [Vec<u32>],
    ids: &[ClauseId],
    number: u32,
) -> Result<(), AllocError>
    requires of_pool { OfPool pool.now ids.now }
    requires there { length pool.now.clauses ≤ length users.old }
    requires numbers { (c : ℕ) → In c ids.now → (n : ℕ) → In n (clause_at pool.now c) →
        n < length clauses.old }
    ensures entered { OnOk result ((c : ℕ) → In c ids.now → In number (list_in users.new c)) }
    ensures users { HasAll (lists_in users.old) (lists_in users.new) }
    ensures lists { ListsClauses pool.now (holders_in users.old clauses.old) →
        ListsClauses pool.now (holders_in users.new clauses.new) }
{
    for id in ids {
        enter(pool, users, clauses, *id, number)?;
    }
    Ok(())
}

/// Adds a package as user of a clause. If the clause has no user, it is first listed under its
/// numbers.
fn enter(
    pool: &Pool,
    users: &mut [Vec<u32>],
    clauses: &mut [Vec<u32>],
    id: ClauseId,
    number: u32,
) -> Result<(), AllocError>
    requires id { id < length pool.now.clauses }
    requires there { length pool.now.clauses ≤ length users.old }
    requires numbers { (n : ℕ) → In n (clause_at pool.now id) → n < length clauses.old }
    ensures entered { OnOk result (In number (list_in users.new id)) }
    ensures users { HasAll (lists_in users.old) (lists_in users.new) }
    ensures lists { ListsClauses pool.now (holders_in users.old clauses.old) →
        ListsClauses pool.now (holders_in users.new clauses.new) }
{
    let place = small_place(id)?;
    list_unused(pool, users, clauses, id, place)?;
    push_to(users, place, number)
}

/// Lists a clause under each of its numbers, if it has no user. If memory runs out, it is listed
/// under some of them.
fn list_unused(
    pool: &Pool,
    users: &[Vec<u32>],
    clauses: &mut [Vec<u32>],
    id: ClauseId,
    place: u32,
) -> Result<(), AllocError>
    requires id { id < length pool.now.clauses }
    requires place { place ≡ id }
    requires numbers { (n : ℕ) → In n (clause_at pool.now id) → n < length clauses.old }
    ensures there { OnOk result (list_in users.now id ≡ [] →
        (n : ℕ) → In n (clause_at pool.now id) → In id (list_in clauses.new n)) }
    ensures stays { HasAll (lists_in clauses.old) (lists_in clauses.new) }
    ensures came { GainsOnly (clause_at pool.now id) id (lists_in clauses.old)
        (lists_in clauses.new) }
{
    if !list_at(users, place).is_empty() {
        return Ok(());
    }
    push_to_each(clauses, pool.slice(id), place)
}

/// The place of a clause in its pool. If a `u32` cannot hold it, this counts as want of memory.
fn small_place(id: ClauseId) -> Result<u32, AllocError>
    ensures { IfOk result (λ place. place ≡ id) }
{
    let place = id.place();
    if place > 4294967295 {
        return Err(AllocError);
    }
    Ok(place as u32)
}

/// Appends an item to the list of each of the numbers. If memory runs out, it is in some of them.
fn push_to_each(lists: &mut [Vec<u32>], numbers: &[u32], item: u32) -> Result<(), AllocError>
    requires { (n : ℕ) → In n numbers.now → n < length lists.old }
    ensures there { OnOk result ((n : ℕ) → In n numbers.now → In item (list_in lists.new n)) }
    ensures stays { HasAll (lists_in lists.old) (lists_in lists.new) }
    ensures came { GainsOnly numbers.now item (lists_in lists.old) (lists_in lists.new) }
{
    for number in numbers {
        push_to(lists, *number, item)?;
    }
    Ok(())
}

/// Appends an item to the list of a number. If memory runs out, the list stays.
fn push_to(lists: &mut [Vec<u32>], number: u32, item: u32) -> Result<(), AllocError>
    requires { number < length lists.old }
    ensures there { OnOk result (In item (list_in lists.new number)) }
    ensures stays { HasAll (lists_in lists.old) (lists_in lists.new) }
    ensures came { GainsOnly (number ∷ []) item (lists_in lists.old) (lists_in lists.new) }
{
    lists[number as usize].push(item)?;
    Ok(())
}

/// Appends empty lists until there are `count`.
fn make_lists(lists: &mut Vec<Vec<u32>>, count: u64) -> Result<(), AllocError>
    ensures there { OnOk result (count ≤ length lists.new.items) }
    ensures same { (n : ℕ) → list_in lists.new.items n ≡ list_in lists.old.items n }
{
    let alloc = *lists.allocator();
    let missing = count.saturating_sub(lists.len() as u64);
    for _i in 0..missing {
        lists.push(Vec::new(alloc))?;
    }
    Ok(())
}

/// Gives back the lists of the numbers.
fn empty_each(alloc: Global, lists: &mut [Vec<u32>], numbers: &[u32])
    ensures empty { (n : ℕ) → In n numbers.now → list_in lists.new n ≡ [] }
    ensures others { (n : ℕ) → (In n numbers.now → ⊥) → list_in lists.new n ≡ list_in lists.old n }
{
    for number in numbers {
        empty_one(alloc, lists, *number);
    }
}

/// Gives back the list of a number, if there is one.
fn empty_one(alloc: Global, lists: &mut [Vec<u32>], number: u32)
    ensures empty { list_in lists.new number ≡ [] }
    ensures others { (n : ℕ) → n ≢ number → list_in lists.new n ≡ list_in lists.old n }
{
    if (number as usize) < lists.len() {
        lists[number as usize] = Vec::new(alloc);
    }
}

/// The users of clauses, each once and ascending.
fn users_among(alloc: Global, users: &[Vec<u32>], places: &[u32]) -> Result<Vec<u32>, AllocError>
    ensures { IfOk result (λ found.
        IsListOf (λ m. list_any (λ c. has (list_in users.now c) m) places.now) found.items) }
{
    let mut found = Vec::new(alloc);
    for place in places {
        found.extend_from_slice(list_at(users, *place))?;
    }
    found.sort_unstable();
    found.dedup();
    Ok(found)
}

/// Those of the packages whose row has a clause that holds the number. The places are those of such
/// clauses, and none that a row has is missing.
fn users_still(
    pool: &Pool,
    rows: &[IdList],
    packages: Vec<u32>,
    number: u32,
    places: &[u32],
) -> Vec<u32>
    requires { ListsFit pool.now rows.now }
    ensures { ((p : ℕ) → ArePlaced pool.now number places.now (listed_for rows.now p)) →
        result.items ≡ filter (is_user pool.now rows.now number) packages.items }
{
    let mut packages = packages;
    packages.retain(|package| is_user(pool, rows, *package, number, places));
    packages
}

/// Whether the package is one of the rows' and its row has a clause that holds the number.
fn is_user(pool: &Pool, rows: &[IdList], user: u32, number: u32, places: &[u32]) -> bool
    requires { ListsFit pool.now rows.now }
    ensures { ArePlaced pool.now number places.now (listed_for rows.now user) →
        result ≡ is_user pool.now rows.now number user }
{
    match rows.get(user as usize) {
        Some(row) => some_holds(pool, row.as_slice(), number, places),
        None => false,
    }
}

/// Whether one of the clauses holds the number.
fn some_holds(pool: &Pool, ids: &[ClauseId], number: u32, places: &[u32]) -> bool
    requires { OfPool pool.now ids.now }
    ensures { ArePlaced pool.now number places.now ids.now →
        result ≡ ids_hold pool.now number ids.now }
{
    for id in ids {
        if clause_holds(pool, *id, number, places) {
            return true;
        }
    }
    false
}

/// Up to this number of places they are looked at one by one.
const FEW: usize = 8;

/// Whether a clause holds a number, given the places of those that do.
pub fn clause_holds(pool: &Pool, id: ClauseId, number: u32, places: &[u32]) -> bool
    requires { id < length pool.now.clauses }
    ensures { has places.now id ≡ has (clause_at pool.now id) number →
        result ≡ has (clause_at pool.now id) number }
{
    if places.len() > FEW {
        return holds_ascending(pool.slice(id), number);
    }
    is_one_of(places, id)
}

/// Whether one of the places is that of the clause.
fn is_one_of(places: &[u32], id: ClauseId) -> bool
    ensures { result ≡ has places.now id }
{
    for place in places {
        if *place as usize == id.place() {
            return true;
        }
    }
    false
}

/// Lends the list at a place. It is empty if there is none.
fn list_at(lists: &[Vec<u32>], place: u32) -> &[u32]
    ensures { result.now ≡ list_in lists.now place }
{
    match lists.get(place as usize) {
        Some(list) => list.as_slice(),
        None => &[],
    }
}
