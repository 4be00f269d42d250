//! Which packages name which.
//!
//! The table holds a pair for each package and each number, so a long clause that many rows share
//! costs a square. Flattening goes by `ClauseTable`. This table serves `eliminate`, and
//! `suite_part`, which asks it who needs a package that has changed.
ghost use Rattle.std.specs.Prelude.{◌≡◌, ◌<◌, ◌-◌, ◌⊎◌, ◌&&◌, ◌||◌, ℕ, List, [], IfOk, OnOk, OnErr};
ghost use Rattle.std.specs.Prelude.{true, not, eqb, length, slice_set, vec_capacity, vec_len};
ghost use Rattle.std.specs.List.Sorted.{IsNonDecreasing, IsSearchInRange};
ghost use Rattle.clause_pool.specs.Interned.{clauses_at, ids_at, row_at, OfPool};
ghost use Rattle.listed.specs.Lists.{In, has, Ascending};
ghost use Rattle.row_book.specs.{Sets.{plus, without}, Book.{listed_for, RowsFit}};
ghost use Rattle.row_book.specs.Uses.{row_id, some_holds, uses_of, HoldsDifference, IsListOf};
ghost use Rattle.row_book.specs.Uses.{IsPlaceOf, lists_in, list_in, room_in};

use crate::changes::{Changes, changes_between};
use clause_pool::{ClauseId, Pool, RowId};
use listed::{empty_vectors, holds_sorted};
use std::alloc::{AllocError, Global};
use std::marker::Model;

/// For each number of a package the packages whose rows have a clause that holds it.
#[derive(Drop)]
pub struct UseTable {
    users: Vec<Vec<u32>>,
}

impl Model for UseTable {
    ghost use Rattle.std.specs.{Prelude.{List, ℕ}, Coded.{coded_list, coded_ℕ}};
    ghost use Rattle.row_book.specs.Uses.{lists_in};

    ghost Value = { List (List ℕ) };

    ghost coded = { coded_list (coded_list coded_ℕ) };

    ghost view = { λ s. lists_in s.users.items };
}

impl UseTable {
    /// The table of the rows.
    pub fn of(alloc: Global, pool: &Pool, rows: &[RowId]) -> Result<UseTable, AllocError>
        requires few { length rows.now < u32.MAX }
        requires fit { RowsFit pool.now rows.now }
        ensures { IfOk result (λ table. table ≡ uses_of pool.now rows.now) }
    {
        let mut users = empty_vectors(alloc, rows.len())?;
        for (number, row) in rows.iter().enumerate() {
            let numbers = numbers_in(alloc, pool, pool.row(*row))?;
            add_to_each(users.as_mut_slice(), numbers.as_slice(), number as u32)?;
        }
        Ok(UseTable { users })
    }

    /// Lends the packages that the table has for the number. In a table of rows these are,
    /// ascending, those whose row has a clause that holds it.
    pub fn packages(&self, literal: u32) -> &[u32]
        requires { literal < length self.now }
        ensures { result.now ≡ listed_for self.now literal }
    {
        self.users[literal as usize].as_slice()
    }

    /// Replaces the old row of a package by a new one. If the table is that of rows in which the
    /// package has the old row, it is then that of the same rows with the new one there. If memory
    /// runs out, the table stays as it was.
    pub fn replace(
        &mut self,
        alloc: Global,
        pool: &Pool,
        package: u32,
        old: RowId,
        new: RowId,
    ) -> Result<(), AllocError>
        requires old { old < length pool.now.rows }
        requires new { new < length pool.now.rows }
        requires numbers { (c : List ℕ) → In c (row_at pool.now new) → (n : ℕ) → In n c →
            n < length self.old }
        ensures ok { OnOk result ((rows : List ℕ) → «package» < length rows →
            row_id rows «package» ≡ old →
            self.old ≡ uses_of pool.now rows →
            self.new ≡ uses_of pool.now (slice_set rows «package» new)) }
        ensures err { OnErr result (self.new ≡ self.old) }
    {
        let changes = changes_between(alloc, pool, pool.row(old), pool.row(new))?;
        let table = self.users.as_mut_slice();
        let answer = exchange(table, alloc, pool, package, new, &changes);
        // Its one end: a proof follows each field at every end of the body that owns it.
        drop(changes);
        answer
    }
}

/// Takes a package out of the lists of the numbers that only lost clauses held, and adds it to
/// those of the gained ones. A table of rows is then that of the same rows with the new one there.
/// If memory runs out, the lists stay as they were.
fn exchange(
    table: &mut [Vec<u32>],
    alloc: Global,
    pool: &Pool,
    package: u32,
    new: RowId,
    changes: &Changes,
) -> Result<(), AllocError>
    requires new { new < length pool.now.rows }
    requires lost_of { OfPool pool.now changes.now.lost.items }
    requires gained_of { OfPool pool.now changes.now.gained.items }
    requires gained { (n : ℕ) → some_holds (clauses_at pool.now changes.now.gained.items) n ≡ true →
        n < length table.old }
    ensures ok { OnOk result ((rows : List ℕ) → «package» < length rows →
        HoldsDifference (ids_at pool.now (row_id rows «package»))
        (ids_at pool.now new) changes.now.lost.items →
        HoldsDifference (ids_at pool.now new)
        (ids_at pool.now (row_id rows «package»)) changes.now.gained.items →
        lists_in table.old ≡ uses_of pool.now rows →
        lists_in table.new ≡ uses_of pool.now (slice_set rows «package» new)) }
    ensures err { OnErr result (lists_in table.new ≡ lists_in table.old) }
{
    let before = sorted_numbers_in(alloc, pool, changes.lost.as_slice())?;
    let kept = numbers_among(alloc, pool, pool.row(new), before.as_slice())?;
    add_gained(table, alloc, pool, changes.gained.as_slice(), package)?;
    take_from_each(table, before.as_slice(), kept.as_slice(), package);
    Ok(())
}

/// Adds the package to the list of each number that the clauses hold, unless it is there already.
/// If memory runs out, the lists stay as they were.
fn add_gained(
    table: &mut [Vec<u32>],
    alloc: Global,
    pool: &Pool,
    ids: &[ClauseId],
    package: u32,
) -> Result<(), AllocError>
    requires of_pool { OfPool pool.now ids.now }
    requires within { (n : ℕ) → some_holds (clauses_at pool.now ids.now) n ≡ true →
        n < length table.old }
    ensures ok { OnOk result ((n : ℕ) → Ascending (list_in table.old n) →
        IsListOf (λ m. has (list_in table.old n) m
        || (some_holds (clauses_at pool.now ids.now) n && eqb m «package»)) (list_in table.new n)) }
    ensures err { OnErr result (lists_in table.new ≡ lists_in table.old) }
{
    let after = numbers_in(alloc, pool, ids)?;
    let answer = add_to_each(table, after.as_slice(), package);
    // Its one end: a proof follows each field at every end of the body that owns it.
    drop(after);
    answer
}

/// The numbers that clauses hold.
fn numbers_in(alloc: Global, pool: &Pool, ids: &[ClauseId]) -> Result<Vec<u32>, AllocError>
    requires { OfPool pool.now ids.now }
    ensures { IfOk result (λ found. (n : ℕ) →
        has found.items n ≡ some_holds (clauses_at pool.now ids.now) n) }
{
    let mut found = Vec::new(alloc);
    for id in ids {
        found.extend_from_slice(pool.slice(*id))?;
    }
    Ok(found)
}

/// The numbers that clauses hold, in their order.
fn sorted_numbers_in(alloc: Global, pool: &Pool, ids: &[ClauseId]) -> Result<Vec<u32>, AllocError>
    requires { OfPool pool.now ids.now }
    ensures members { IfOk result (λ found. (n : ℕ) →
        has found.items n ≡ some_holds (clauses_at pool.now ids.now) n) }
    ensures sorted { IfOk result (λ found. IsNonDecreasing found.items) }
{
    let mut found = numbers_in(alloc, pool, ids)?;
    found.sort_unstable();
    Ok(found)
}

/// The numbers that clauses hold, each once and in their order.
pub fn distinct_numbers_in(
    alloc: Global,
    pool: &Pool,
    ids: &[ClauseId],
) -> Result<Vec<u32>, AllocError>
    requires { OfPool pool.now ids.now }
    ensures held { IfOk result (λ found. (n : ℕ) → In n found.items →
        some_holds (clauses_at pool.now ids.now) n ≡ true) }
    ensures all { IfOk result (λ found. (n : ℕ) →
        some_holds (clauses_at pool.now ids.now) n ≡ true → In n found.items) }
    ensures ascending { IfOk result (λ found. Ascending found.items) }
{
    let mut found = sorted_numbers_in(alloc, pool, ids)?;
    found.dedup();
    Ok(found)
}

/// Those of the wanted numbers, which are sorted, that clauses hold, in their order.
fn numbers_among(
    alloc: Global,
    pool: &Pool,
    ids: &[ClauseId],
    wanted: &[u32],
) -> Result<Vec<u32>, AllocError>
    requires of_pool { OfPool pool.now ids.now }
    requires sorted { IsNonDecreasing wanted.now }
    ensures members { IfOk result (λ found. (n : ℕ) →
        has found.items n ≡ (some_holds (clauses_at pool.now ids.now) n && has wanted.now n)) }
    ensures sorted { IfOk result (λ found. IsNonDecreasing found.items) }
{
    let mut found = Vec::new(alloc);
    for id in ids {
        add_wanted(pool.slice(*id), wanted, &mut found)?;
    }
    found.sort_unstable();
    Ok(found)
}

/// Appends the wanted numbers of a clause. The wanted numbers are sorted.
fn add_wanted(clause: &[u32], wanted: &[u32], found: &mut Vec<u32>) -> Result<(), AllocError>
    requires { IsNonDecreasing wanted.now }
    ensures { OnOk result ((n : ℕ) →
        has found.new.items n ≡ (has found.old.items n || (has clause.now n && has wanted.now n))) }
{
    for number in clause {
        if holds_sorted(wanted, *number) {
            found.push(*number)?;
        }
    }
    Ok(())
}

/// Adds the package to the list of each of the numbers, unless it is there already. If memory runs
/// out, the lists stay as they were.
fn add_to_each(table: &mut [Vec<u32>], numbers: &[u32], package: u32) -> Result<(), AllocError>
    requires { (n : ℕ) → has numbers.now n ≡ true → n < length table.old }
    ensures ok { OnOk result ((n : ℕ) → Ascending (list_in table.old n) →
        IsListOf (λ m.
        has (list_in table.old n) m
        || (has numbers.now n && eqb m «package»)) (list_in table.new n)) }
    ensures err { OnErr result (lists_in table.new ≡ lists_in table.old) }
{
    make_room(table, numbers)?;
    put_into_each(table, numbers, package);
    Ok(())
}

/// Makes room for one more package in the list of each of the numbers.
fn make_room(table: &mut [Vec<u32>], numbers: &[u32]) -> Result<(), AllocError>
    requires { (n : ℕ) → has numbers.now n ≡ true → n < length table.old }
    ensures lists { lists_in table.new ≡ lists_in table.old }
    ensures room { OnOk result ((n : ℕ) → has numbers.now n ≡ true → 0 < room_in table.new n) }
{
    for number in numbers {
        table[*number as usize].reserve(1)?;
    }
    Ok(())
}

/// Adds the package to the list of each of the numbers, unless it is there already. All of these
/// lists have room.
fn put_into_each(table: &mut [Vec<u32>], numbers: &[u32], package: u32)
    requires within { (n : ℕ) → has numbers.now n ≡ true → n < length table.old }
    requires room { (n : ℕ) → has numbers.now n ≡ true → 0 < room_in table.old n }
    ensures { (n : ℕ) → Ascending (list_in table.old n) →
        IsListOf (λ m. has (list_in table.old n) m
        || (has numbers.now n && eqb m «package»)) (list_in table.new n) }
{
    for number in numbers {
        put(&mut table[*number as usize], package);
    }
}

/// Takes the package out of the list of each of the numbers that is not among those kept. A number
/// beyond the table has no list, so no caller has to know that there is none.
fn take_from_each(table: &mut [Vec<u32>], numbers: &[u32], kept: &[u32], package: u32)
    requires { IsNonDecreasing kept.now }
    ensures { (n : ℕ) → Ascending (list_in table.old n) →
        IsListOf (λ m. has (list_in table.old n) m
        && not (has numbers.now n && not (has kept.now n) && eqb m «package»))
        (list_in table.new n) }
{
    for number in numbers {
        if holds_sorted(kept, *number) {
            continue;
        }
        if *number as usize >= table.len() {
            continue;
        }
        take_out(&mut table[*number as usize], package);
    }
}

/// Inserts a number in its place in an ascending list with room for one more, unless it is there
/// already.
fn put(list: &mut Vec<u32>, number: u32)
    ensures { Ascending list.old.items →
        (has list.old.items number ≡ true) ⊎ (0 < vec_capacity list.old - vec_len list.old) →
        IsListOf (plus (has list.old.items) number) list.new.items }
{
    if let Err(place) = place_of(list.as_slice(), number) {
        // With room left, it is always inserted.
        let _ = list.insert(place, number);
    }
}

/// Removes a number from an ascending list, if it is there.
fn take_out(list: &mut Vec<u32>, number: u32)
    ensures { Ascending list.old.items →
        IsListOf (without (has list.old.items) number) list.new.items }
{
    if let Ok(place) = place_of(list.as_slice(), number) {
        list.remove(place);
    }
}

/// The place of a number in an ascending list, or the place at which it would be inserted. The end
/// is looked at first: tables grow there, and shrink there as the last package is taken out first.
fn place_of(list: &[u32], number: u32) -> Result<usize, usize>
    ensures bound { IsSearchInRange result (length list.now) }
    ensures place { Ascending list.now → IsPlaceOf list.now number result }
{
    let size = list.len();
    if size > 0 && list[size - 1] < number {
        return Err(size);
    }
    if size > 0 && list[size - 1] == number {
        return Ok(size - 1);
    }
    list.binary_search(&number)
}
