//! The greatest set of packages without conflicts that a set serves.
//!
//! It is a greatest fixed point, found from above by a worklist: what is not served is removed.
//! Each package is looked at once, and again only if something that it names was removed.
ghost use Rattle.std.specs.Prelude.{◌≡◌, ◌∷◌, ◌++◌, ◌<◌, ◌||◌, eqb, true, false, [], IfOk, OnOk};
ghost use Rattle.std.specs.{Prelude.{length, replicate, slice_set}, List.{list_any}};
ghost use Rattle.clause_pool.specs.Interned.{clauses_at, OfPool};
ghost use Rattle.row_book.specs.{Repository.{clauses_of}, Book.{listed_for, repository_of, Sound}};
ghost use Rattle.row_book.specs.Flags.{flag};
ghost use Rattle.clause_flatten.specs.Laws.{Lifts};
ghost use Rattle.install_lift.specs.Raising.{is_served, IsLowering, PutsUser};

use crate::user_table::UserTable;
use clause_pool::{ClauseId, Pool};
use row_book::Book;
use std::alloc::{AllocError, Global};

/// Whether the flag of a number is up.
pub(crate) fn is_up(flags: &[bool], n: u32) -> bool
    ensures { result ≡ flag flags.now n }
{
    flags.get(n as usize).copied().unwrap_or(false)
}

/// Whether the clause is hit by the two sets together.
fn hits(set: &[bool], more: &[bool], clause: &[u32]) -> bool
    ensures { result ≡ list_any (λ n. flag set.now n || flag more.now n) clause.now }
{
    clause.iter().any(|n| is_up(set, *n) || is_up(more, *n))
}

/// Whether each clause of the row is hit by the two sets together.
fn serves(pool: &Pool, set: &[bool], more: &[bool], ids: &[ClauseId]) -> bool
    requires { OfPool pool.now ids.now }
    ensures { result ≡ is_served (flag set.now) (flag more.now) (clauses_at pool.now ids.now) }
{
    for id in ids {
        if !hits(set, more, pool.slice(*id)) {
            return false;
        }
    }
    true
}

/// Whether the package has no conflict.
fn is_free(book: &Book, number: u32) -> bool
    requires { number < length book.now.rows }
    ensures { result ≡ eqb (length (listed_for book.now.conflicts number)) 0 }
{
    book.against(number).len() == 0
}

/// A flag for each package, up if it has no conflict.
fn free_packages(
    alloc: Global,
    pool: &Pool,
    book: &Book,
    set: &[bool],
) -> Result<Vec<bool>, AllocError>
    requires sound { Sound pool.now book.now }
    ensures long { IfOk result (λ more. length more.items ≡ length book.now.rows) }
    ensures lowering { IfOk result (λ more. IsLowering (repository_of pool.now book.now)
        (flag set.now) (flag more.items) 0 (replicate (length book.now.rows) []) []) }
{
    let mut more = Vec::new(alloc);
    for number in 0..book.size() {
        more.push(is_free(book, number))?;
    }
    Ok(more)
}

/// Whether each clause of the package is hit by the two sets together.
fn is_served(pool: &Pool, book: &Book, set: &[bool], more: &[bool], number: u32) -> bool
    requires sound { Sound pool.now book.now }
    requires number { number < length book.now.rows }
    ensures { result ≡ is_served (flag set.now) (flag more.now)
        (clauses_of (repository_of pool.now book.now) number) }
{
    serves(pool, set, more, pool.row(book.row(number)))
}

/// Adds a package to the users of each number of a clause that is up.
fn put_to_clause(
    more: &[bool],
    clause: &[u32],
    number: u32,
    table: &mut UserTable,
) -> Result<(), AllocError>
    requires { length more.now ≡ length table.old }
    ensures { OnOk result (PutsUser (flag more.now) (clause.now ∷ []) number table.old table.new) }
{
    for n in clause {
        if is_up(more, *n) {
            table.put(*n, number)?;
        }
    }
    Ok(())
}

/// Adds a package to the users of each number of its clauses that is up.
fn put_to_row(
    pool: &Pool,
    more: &[bool],
    ids: &[ClauseId],
    number: u32,
    table: &mut UserTable,
) -> Result<(), AllocError>
    requires of_pool { OfPool pool.now ids.now }
    requires long { length more.now ≡ length table.old }
    ensures { OnOk result
        (PutsUser (flag more.now) (clauses_at pool.now ids.now) number table.old table.new) }
{
    for id in ids {
        put_to_clause(more, pool.slice(*id), number, table)?;
    }
    Ok(())
}

/// Adds a package to the users of each package that it names and that is up.
fn put_user(
    pool: &Pool,
    book: &Book,
    more: &[bool],
    number: u32,
    table: &mut UserTable,
) -> Result<(), AllocError>
    requires sound { Sound pool.now book.now }
    requires number { number < length book.now.rows }
    requires long { length more.now ≡ length table.old }
    ensures { OnOk result (PutsUser (flag more.now)
        (clauses_of (repository_of pool.now book.now) number) number table.old table.new) }
{
    put_to_row(pool, more, pool.row(book.row(number)), number, table)
}

/// Removes a package that is not served, and appends its users to the work.
fn take_out(
    more: &mut [bool],
    table: &UserTable,
    number: u32,
    work: &mut Vec<u32>,
) -> Result<(), AllocError>
    requires up { flag more.old number ≡ true }
    requires long { length more.old ≡ length table.now }
    ensures more { more.new ≡ slice_set more.old number false }
    ensures work { OnOk result (work.new.items ≡ work.old.items ++ listed_for table.now number) }
{
    more[number as usize] = false;
    table.add_users(number, work)
}

/// Looks at each package once. Those that are not served are removed; each other one is added to
/// the users of what it names.
fn sweep(
    pool: &Pool,
    book: &Book,
    set: &[bool],
    more: &mut [bool],
    table: &mut UserTable,
    work: &mut Vec<u32>,
) -> Result<(), AllocError>
    requires sound { Sound pool.now book.now }
    requires long { length more.old ≡ length book.now.rows }
    requires lowering { IsLowering (repository_of pool.now book.now) (flag set.now)
        (flag more.old) 0 table.old work.old.items }
    ensures lowering { OnOk result (IsLowering (repository_of pool.now book.now) (flag set.now)
        (flag more.new) (length book.now.rows) table.new work.new.items) }
{
    for number in 0..book.size() {
        if !is_up(more, number) {
            continue;
        }
        if is_served(pool, book, set, more, number) {
            put_user(pool, book, more, number, table)?;
            continue;
        }
        take_out(more, table, number, work)?;
    }
    Ok(())
}

/// Removes what is not served, until all that is left is served.
fn lower(
    pool: &Pool,
    book: &Book,
    table: &UserTable,
    set: &[bool],
    more: &mut [bool],
    work: &mut Vec<u32>,
) -> Result<(), AllocError>
    requires sound { Sound pool.now book.now }
    requires long { length more.old ≡ length book.now.rows }
    requires lowering { IsLowering (repository_of pool.now book.now) (flag set.now) (flag more.old)
        (length book.now.rows) table.now work.old.items }
    ensures { OnOk result (Lifts (repository_of pool.now book.now) (flag set.now) (flag more.new)) }
{
    while let Some(number) = work.pop() {
        if !is_up(more, number) {
            continue;
        }
        if is_served(pool, book, set, more, number) {
            continue;
        }
        take_out(more, table, number, work)?;
    }
    Ok(())
}

/// The greatest set of packages without conflicts that is served: each clause of its members is hit
/// by the set and them together.
pub(crate) fn greatest_support(
    alloc: Global,
    pool: &Pool,
    book: &Book,
    set: &[bool],
) -> Result<Vec<bool>, AllocError>
    requires sound { Sound pool.now book.now }
    ensures { IfOk result (λ more.
        Lifts (repository_of pool.now book.now) (flag set.now) (flag more.items)) }
{
    let mut more = free_packages(alloc, pool, book, set)?;
    let mut table = UserTable::new(alloc, book.size())?;
    let mut work = Vec::new(alloc);
    sweep(pool, book, set, &mut more, &mut table, &mut work)?;
    lower(pool, book, &table, set, &mut more, &mut work)?;
    Ok(more)
}
