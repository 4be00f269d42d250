//! Which packages see to it that a clause is hit.
//!
//! As in tests of one clause against many for inclusion (forward subsumption), each clause of a
//! member is kept under its first number with the package that has it. A question about a clause
//! then looks at the clauses that begin with one of its numbers, and at no whole row. Most of those
//! lie within it, so a filter before the test would not pay.
ghost use Rattle.std.specs.Prelude.{◌≡◌, ◌<◌, ◌≤◌, ◌∷◌, ◌%◌, ◌||◌, [], ℕ, IfOk, List, OnOk, length};
ghost use Rattle.std.specs.{Prelude.{slice_index_or}, Bool.{OnFalse}};
ghost use Rattle.clause_pool.specs.{Interned.{clause_at, clauses_at, OfPool}, Lists.{InOrder}};
ghost use Rattle.listed.specs.Lists.{has, In, Ascending};
ghost use Rattle.row_book.specs.Repository.{clauses_of};
ghost use Rattle.clause_prune.specs.Filing.{entries_at, entries_in, filed_in, filed_within};
ghost use Rattle.clause_prune.specs.Filing.{tell_within, under, AreOfPool, AsksServing, FiledFor};
ghost use Rattle.clause_prune.specs.Filing.{Gains, IsFiled, Takes};
ghost use Rattle.clause_prune.specs.PrunedPackages.{bare_with, IsPrunable};

use crate::pruned_package::PrunedPackage;
use clause_pool::{ClauseId, Pool};
use listed::{empty_vectors, holds_ascending, is_inside_ascending};
use row_book::distinct_numbers_in;
use std::alloc::{AllocError, Global};
use std::marker::Model;

/// For a row of at most this many clauses no member is filed: each is asked about each clause.
const SHORT: usize = 8;

/// A package and a clause that it has.
#[derive(Clone, Copy)]
pub(crate) struct Entry {
    holder: u32,
    clause: ClauseId,
}

/// The packages that have clauses, with these clauses, by their first numbers.
///
/// A package can only see to it that a clause is hit if it is a member, or if a clause of its own
/// lies within. Such a clause begins with a member. Several numbers share a list. Three kinds of
/// packages are asked about every clause: one with an empty clause, one with a long row, and the
/// pruned one, which loses clauses.
#[derive(Drop)]
pub(crate) struct Filed {
    always: Vec<u32>,
    lists: Vec<Vec<Entry>>,
}

impl Model for Filed {
    ghost use Rattle.clause_prune.specs.Filing.{Filed, filed_in};

    ghost Value = { Filed };

    ghost view = { λ s. filed_in s.always.items s.lists.items };
}

impl Filed {
    /// The members of the clauses of the package, filed for their clauses.
    pub(crate) fn of(
        alloc: Global,
        pruned: &PrunedPackage,
        ids: &[ClauseId],
    ) -> Result<Filed, AllocError>
        requires fits { IsPrunable pruned.now }
        requires ids { OfPool pruned.now.pool.now ids.now }
        requires order { InOrder (clauses_at pruned.now.pool.now ids.now) }
        requires members { (c : List ℕ) → In c (clauses_at pruned.now.pool.now ids.now) →
            (n : ℕ) → In n c → n < length pruned.now.rows.now }
        ensures asks { IfOk result (λ filed. (d : List ℕ) →
            In d (clauses_at pruned.now.pool.now ids.now) →
            AsksServing pruned.now.pool.now (bare_with pruned.now ids.now)
            (clauses_at pruned.now.pool.now ids.now) filed d) }
        ensures sound { IfOk result
            (FiledFor pruned.now.pool.now pruned.now.rows.now pruned.now.number) }
    {
        let mut always = Vec::new(alloc);
        let mut lists = empty_vectors(alloc, list_count(ids.len()))?;
        let table = lists.as_mut_slice();
        file_members(alloc, pruned, ids, &mut always, table)?;
        Ok(Filed { always, lists })
    }

    /// Lends the packages that are asked about every clause.
    pub(crate) fn always(&self) -> &[u32]
        ensures { result.now ≡ self.now.always }
    {
        self.always.as_slice()
    }

    /// Appends the packages that are filed with a clause within the given one.
    pub(crate) fn push_within(
        &self,
        pool: &Pool,
        clause: &[u32],
        found: &mut Vec<u32>,
    ) -> Result<(), AllocError>
        requires of_pool { AreOfPool pool.now self.now.lists }
        requires clause { Ascending clause.now }
        ensures { OnOk result ((n : ℕ) → has found.new.items n ≡ (has found.old.items n
            || filed_within pool.now self.now.lists clause.now n)) }
    {
        push_each_within(pool, self.lists.as_slice(), clause, found)
    }
}

// Files the members of the clauses of the package; nobody is filed yet.
fn file_members(
    alloc: Global,
    pruned: &PrunedPackage,
    ids: &[ClauseId],
    always: &mut Vec<u32>,
    lists: &mut [Vec<Entry>],
) -> Result<(), AllocError>
    requires fits { IsPrunable pruned.now }
    requires ids { OfPool pruned.now.pool.now ids.now }
    requires order { InOrder (clauses_at pruned.now.pool.now ids.now) }
    requires members { (c : List ℕ) → In c (clauses_at pruned.now.pool.now ids.now) →
        (n : ℕ) → In n c → n < length pruned.now.rows.now }
    requires none { always.old.items ≡ [] }
    requires empty { (n : ℕ) → slice_index_or (entries_in lists.old) n [] ≡ [] }
    ensures asks { OnOk result ((d : List ℕ) → In d (clauses_at pruned.now.pool.now ids.now) →
        AsksServing pruned.now.pool.now (bare_with pruned.now ids.now)
        (clauses_at pruned.now.pool.now ids.now) (filed_in always.new.items lists.new) d) }
    ensures sound { OnOk result (FiledFor pruned.now.pool.now pruned.now.rows.now pruned.now.number
        (filed_in always.new.items lists.new)) }
{
    let members = distinct_numbers_in(alloc, pruned.pool, ids)?;
    file_each(pruned, ids, members.as_slice(), always, lists)?;
    Ok(())
}

// How many lists there are for a row with this many clauses.
fn list_count(clauses: usize) -> usize {
    if clauses > SHORT { clauses } else { 0 }
}

// Files each of the packages for its clauses; the pruned one for those that are left.
fn file_each<'a>(
    pruned: &'a PrunedPackage,
    left: &'a [ClauseId],
    members: &[u32],
    always: &mut Vec<u32>,
    lists: &mut [Vec<Entry>],
) -> Result<(), AllocError>
    requires fits { IsPrunable pruned.now }
    requires left { OfPool pruned.now.pool.now left.now }
    requires order { InOrder (clauses_at pruned.now.pool.now left.now) }
    requires members { (n : ℕ) → In n members.now → n < length pruned.now.rows.now }
    requires ascending { Ascending members.now }
    ensures filed { OnOk result ((n : ℕ) → In n members.now →
        (e : List ℕ) → In e (clauses_of (bare_with pruned.now left.now) n) →
        IsFiled pruned.now.pool.now members.now (filed_in always.new.items lists.new) e n) }
    ensures sound { OnOk result (FiledFor pruned.now.pool.now pruned.now.rows.now pruned.now.number
        (filed_in always.old.items lists.old)
        → FiledFor pruned.now.pool.now pruned.now.rows.now pruned.now.number
        (filed_in always.new.items lists.new)) }
{
    for member in members {
        let row = pruned.clauses_of(left, *member);
        file_row(pruned, row, members, always, lists, *member)?;
    }
    Ok(())
}

// Whether a member with this many clauses is asked about every clause: it is the pruned package, or
// its row is longer than there are lists. To go over such a row costs more than to ask the member
// each time.
fn is_always_asked(number: u32, member: u32, clauses: usize, lists: usize) -> bool
    ensures other { OnFalse result (member ≡ number → ⊥) }
    ensures short { OnFalse result (clauses ≤ lists) }
{
    member == number || clauses > lists
}

// Files the member for each clause of its row.
fn file_row(
    pruned: &PrunedPackage,
    row: &[ClauseId],
    members: &[u32],
    always: &mut Vec<u32>,
    lists: &mut [Vec<Entry>],
    member: u32,
) -> Result<(), AllocError>
    requires row { OfPool pruned.now.pool.now row.now }
    requires ascending { Ascending members.now }
    ensures filed { OnOk result ((e : List ℕ) → In e (clauses_at pruned.now.pool.now row.now) →
        IsFiled pruned.now.pool.now members.now (filed_in always.new.items lists.new) e member) }
    ensures takes { OnOk result (Takes pruned.now.number member row.now
        (filed_in always.old.items lists.old) (filed_in always.new.items lists.new)) }
{
    if is_always_asked(pruned.number, member, row.len(), lists.len()) {
        always.push(member)?;
        return Ok(());
    }
    for id in row {
        file_clause(pruned.pool, *id, members, always, lists, member)?;
    }
    Ok(())
}

// Files the member for a clause that it has.
fn file_clause(
    pool: &Pool,
    clause: ClauseId,
    members: &[u32],
    always: &mut Vec<u32>,
    lists: &mut [Vec<Entry>],
    member: u32,
) -> Result<(), AllocError>
    requires clause { clause < length pool.now.clauses }
    requires some { 0 < length lists.old }
    requires ascending { Ascending members.now }
    ensures filed { OnOk result (IsFiled pool.now members.now (filed_in always.new.items lists.new)
        (clause_at pool.now clause) member) }
    ensures takes { OnOk result ((number : ℕ) → (member ≡ number → ⊥) → Takes number member
        (clause ∷ []) (filed_in always.old.items lists.old) (filed_in always.new.items lists.new)) }
{
    match pool.slice(clause).split_first() {
        None => {
            always.push(member)?;
            Ok(())
        }
        Some((first, _)) => {
            let entry = Entry {
                holder: member,
                clause,
            };
            file_under(*first, members, lists, entry)
        }
    }
}

// Appends the entry to the list of the number, if that is one of the members.
fn file_under(
    number: u32,
    members: &[u32],
    lists: &mut [Vec<Entry>],
    entry: Entry,
) -> Result<(), AllocError>
    requires some { 0 < length lists.old }
    requires ascending { Ascending members.now }
    ensures filed { OnOk result (In number members.now →
        In entry (under (entries_in lists.new) number)) }
    ensures gains { OnOk result (Gains entry (entries_in lists.old) (entries_in lists.new)) }
{
    if !holds_ascending(members, number) {
        return Ok(());
    }
    push_entry(lists, place_in(number, lists.len()), entry)
}

// The place, among `size` lists, of the list of a number.
fn place_in(number: u32, size: usize) -> usize
    requires { 0 < size }
    ensures is { result ≡ number % size }
    ensures within { result < size }
{
    number as usize % size
}

// Appends an entry to a list.
fn push_entry(lists: &mut [Vec<Entry>], place: usize, entry: Entry) -> Result<(), AllocError>
    requires { place < length lists.old }
    ensures there { OnOk result (In entry (entries_at (entries_in lists.new) place)) }
    ensures gains { OnOk result (Gains entry (entries_in lists.old) (entries_in lists.new)) }
{
    lists[place].push(entry)?;
    Ok(())
}

// Lends the list of a number; it is empty if there are no lists.
fn list_under(lists: &[Vec<Entry>], number: u32) -> &[Entry]
    ensures { result.now ≡ under (entries_in lists.now) number }
{
    if lists.is_empty() {
        return &[];
    }
    lists[place_in(number, lists.len())].as_slice()
}

// Appends the packages of those entries whose clauses lie within the given one.
fn push_packages(
    pool: &Pool,
    list: &[Entry],
    clause: &[u32],
    found: &mut Vec<u32>,
) -> Result<(), AllocError>
    requires of_pool { (e : Entry) → In e list.now → e.clause < length pool.now.clauses }
    requires clause { Ascending clause.now }
    ensures { OnOk result ((n : ℕ) → has found.new.items n ≡ (has found.old.items n
        || tell_within pool.now list.now clause.now n)) }
{
    for entry in list {
        if is_inside_ascending(pool.slice(entry.clause), clause) {
            found.push(entry.holder)?;
        }
    }
    Ok(())
}

// Appends such packages from the lists of all members of the clause.
fn push_each_within(
    pool: &Pool,
    lists: &[Vec<Entry>],
    clause: &[u32],
    found: &mut Vec<u32>,
) -> Result<(), AllocError>
    requires of_pool { AreOfPool pool.now (entries_in lists.now) }
    requires clause { Ascending clause.now }
    ensures { OnOk result ((n : ℕ) → has found.new.items n ≡ (has found.old.items n
        || filed_within pool.now (entries_in lists.now) clause.now n)) }
{
    for number in clause {
        push_packages(pool, list_under(lists, *number), clause, found)?;
    }
    Ok(())
}
