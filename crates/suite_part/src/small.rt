//! The small book of packages of a mix that have changed. It has these and all that they need in
//! the mix. If one of all those has conflicts in the mix, the book has a rival of it too: a package
//! with which it conflicts.
//!
//! Elimination is local, and asks of the conflicts of a package only whether there is one. A rival
//! has no clauses in the small book. So this passes the limit exactly if the mix does.
ghost use Rattle.std.specs.Prelude.{◌≡◌, ◌<◌, ◌+◌, ◌&&◌, ◌⊎◌, ℕ, List, cond, count_by, false};
ghost use Rattle.std.specs.Prelude.{filter, length, map, not, true, IfNone, IfOk, OnOk};
ghost use Rattle.std.specs.{List.{list_any}, Option.{ForSome}};
ghost use Rattle.clause_pool.specs.Interned.{clauses_at, OfPool};
ghost use Rattle.listed.specs.Lists.{In};
ghost use Rattle.row_book.specs.{Book.{repository_of, AreConflicts, Sound}, Flags.{flag}};
ghost use Rattle.row_book.specs.{Numbers.{numbers}, Parts.{number_in}, Uses.{row_id}};
ghost use Rattle.suite_part.specs.Bases.{Flags};
ghost use Rattle.suite_part.specs.Small.{members_in, AreNeeded, HasRivals, IsSmallBook};

use crate::changed::{none_flagged, put_changed};
use crate::part::part_of;
use crate::subset::Subset;
use clause_pool::{ClauseId, Pool, RowId};
use listed::{Listed, true_numbers};
use row_book::Book;
use std::alloc::{AllocError, Global};

/// A small book over a pool of its own, and which packages of the whole it has.
#[derive(Drop)]
pub(crate) struct SmallBook {
    pub(crate) pool: Pool,
    pub(crate) book: Book,
    pub(crate) apart: Subset,
}

/// The small book of those packages of a mix that have changed.
pub(crate) fn small_book(
    alloc: Global,
    from: &Pool,
    book: &Book,
    flags: &[bool],
    changed: &[bool],
) -> Result<SmallBook, AllocError>
    requires book { Sound from.now book.now }
    requires flags { length flags.now ≡ length book.now.rows }
    requires changed { length changed.now ≡ length book.now.rows }
    ensures { IfOk result (IsSmallBook from.now book.now flags.now changed.now) }
{
    let needed = needed_in(alloc, from, book, flags, changed)?;
    let rivals = with_rivals(alloc, book, flags, &needed)?;
    let apart = Subset::of(alloc, rivals)?;
    let numbers = true_numbers(alloc, &apart.flags)?;
    let mut pool = Pool::new(alloc)?;
    let part = part_of(alloc, &mut pool, from, book, &apart)?;
    let empty = pool.intern_row(&[])?;
    let rows = rows_or(
        alloc,
        part.rows.as_slice(),
        numbers.as_slice(),
        &needed,
        empty,
    )?;
    let small = part.with_rows(alloc, Listed::of(rows))?;
    Ok(SmallBook {
        pool,
        book: small,
        apart,
    })
}

// The packages of a mix that have changed, and all that these need there.
fn needed_in(
    alloc: Global,
    from: &Pool,
    book: &Book,
    flags: &[bool],
    changed: &[bool],
) -> Result<Vec<bool>, AllocError>
    requires book { Sound from.now book.now }
    requires flags { length flags.now ≡ length book.now.rows }
    requires changed { length changed.now ≡ length book.now.rows }
    ensures { IfOk result (λ needed.
        AreNeeded (repository_of from.now book.now) flags.now changed.now needed.items) }
{
    let mut needed = none_flagged(alloc, flags.len())?;
    let mut work = Vec::new(alloc);
    for number in 0..book.size() {
        if are_both(changed, flags, number) {
            put_changed(&[number], &mut needed, &mut work)?;
        }
    }
    while let Some(number) = work.pop() {
        need_members(
            from,
            from.row(book.row(number)),
            flags,
            &mut needed,
            &mut work,
        )?;
    }
    Ok(needed)
}

// Whether a package has both flags.
fn are_both(first: &[bool], second: &[bool], number: u32) -> bool
    requires first { number < length first.now }
    requires second { number < length second.now }
    ensures { result ≡ (flag first.now number && flag second.now number) }
{
    if !first[number as usize] {
        return false;
    }
    second[number as usize]
}

// Flags the members of the clauses of a row that are in the mix. Those that were not flagged are
// appended to the work, so that their needs are looked at.
fn need_members(
    from: &Pool,
    row: &[ClauseId],
    flags: &[bool],
    needed: &mut [bool],
    work: &mut Vec<u32>,
) -> Result<(), AllocError>
    requires row { OfPool from.now row.now }
    requires numbers { (c : List ℕ) → In c (clauses_at from.now row.now) → (n : ℕ) → In n c →
        n < length needed.old }
    requires size { length flags.now ≡ length needed.old }
    ensures flags { OnOk result (Flags (members_in flags.now (clauses_at from.now row.now))
        needed.old work.old.items needed.new work.new.items) }
    ensures count { OnOk result (count_by not needed.new + length work.new.items
        ≡ count_by not needed.old + length work.old.items) }
{
    for id in row {
        need_each(from.slice(*id), flags, needed, work)?;
    }
    Ok(())
}

// Flags the members of one clause that are in the mix, and appends those that were not flagged to
// the work.
fn need_each(
    clause: &[u32],
    flags: &[bool],
    needed: &mut [bool],
    work: &mut Vec<u32>,
) -> Result<(), AllocError>
    requires numbers { (n : ℕ) → In n clause.now → n < length needed.old }
    requires size { length flags.now ≡ length needed.old }
    ensures flags { OnOk result (Flags
        (filter (flag flags.now) clause.now) needed.old work.old.items needed.new work.new.items) }
    ensures count { OnOk result (count_by not needed.new + length work.new.items
        ≡ count_by not needed.old + length work.old.items) }
{
    for member in clause {
        if flags[*member as usize] {
            put_changed(&[*member], needed, work)?;
        }
    }
    Ok(())
}

// The flags, with a rival flagged for each package with a flag that has conflicts in the mix.
fn with_rivals(
    alloc: Global,
    book: &Book,
    flags: &[bool],
    needed: &[bool],
) -> Result<Vec<bool>, AllocError>
    requires flags { length flags.now ≡ length book.now.rows }
    requires count { length needed.now ≡ length book.now.rows }
    requires mix { (n : ℕ) → flag needed.now n ≡ true → flag flags.now n ≡ true }
    requires conflicts { AreConflicts book.now.conflicts }
    ensures { IfOk result (λ apart. HasRivals book.now.conflicts flags.now needed.now apart.items) }
{
    let mut apart = Vec::from_slice(alloc, needed)?;
    for number in 0..book.size() {
        if needed[number as usize] {
            put_rival(&mut apart, flags, book.against(number));
        }
    }
    Ok(apart)
}

// Flags the first of the packages that is in the mix, if there is one.
fn put_rival(apart: &mut [bool], flags: &[bool], packages: &[u32])
    requires size { length flags.now ≡ length apart.old }
    requires numbers { (n : ℕ) → In n packages.now → n < length apart.old }
    ensures size { length apart.new ≡ length apart.old }
    ensures stays { (n : ℕ) → flag apart.old n ≡ true → flag apart.new n ≡ true }
    ensures mix { (n : ℕ) → flag apart.new n ≡ true →
        (flag apart.old n ≡ true) ⊎ (flag flags.now n ≡ true) }
    ensures one { (n : ℕ) → In n packages.now → flag flags.now n ≡ true →
        list_any (flag apart.new) packages.now ≡ true }
{
    if let Some(rival) = first_in(flags, packages) {
        apart[rival as usize] = true;
    }
}

// The first of the packages that is in the mix.
fn first_in(flags: &[bool], packages: &[u32]) -> Option<u32>
    requires { (n : ℕ) → In n packages.now → n < length flags.now }
    ensures some { ForSome result (λ n. In n packages.now × (flag flags.now n ≡ true)) }
    ensures none { IfNone result ((n : ℕ) → In n packages.now → flag flags.now n ≡ false) }
{
    for number in packages {
        if flags[*number as usize] {
            return Some(*number);
        }
    }
    None
}

// The rows of the packages that are needed, and another row for the others.
fn rows_or(
    alloc: Global,
    rows: &[RowId],
    packages: &[u32],
    needed: &[bool],
    other: RowId,
) -> Result<Vec<RowId>, AllocError>
    requires count { length packages.now ≡ length rows.now }
    requires within { (n : ℕ) → In n packages.now → n < length needed.now }
    ensures { IfOk result (λ made. made.items ≡ map (λ k. cond (flag needed.now
        (number_in packages.now k)) (row_id rows.now k) other) (numbers (length rows.now) 0)) }
{
    let mut made = Vec::with_capacity(alloc, rows.len())?;
    for (place, row) in rows.iter().enumerate() {
        let is_needed = needed[packages[place] as usize];
        made.push(if is_needed { *row } else { other })?;
    }
    Ok(made)
}
