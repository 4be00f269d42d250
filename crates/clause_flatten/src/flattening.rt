//! Flattens a book.
//!
//! Until the end a row is a list of the ids of its clauses, outside the pool: one that is rewritten
//! many times would leave each of its versions there.
ghost use Rattle.std.specs.Prelude.{◌≡◌, ◌<◌, ◌≤◌, ℕ, ◌&&◌, ltb, false, None, Some, IfOk, IfErr};
ghost use Rattle.std.specs.{Prelude.{OnOk, length, map, replicate, slice_set}, List.{filter}};
ghost use Rattle.clause_pool.specs.Interned.{clauses_at, row_at, Interned, Kept, OfPool};
ghost use Rattle.clause_pool.specs.Lists.{InOrder};
ghost use Rattle.row_book.specs.Book.{repository_of, AreConflicts, RowsFit, Sound};
ghost use Rattle.row_book.specs.{Numbers.{numbers}, Flags.{flag}};
ghost use Rattle.row_book.specs.{Flattening.{flat, held_of, passes}, Holders.{ListsFit}};
ghost use Rattle.row_book.specs.{Keeping.{KeepsSets}, Repository.{Repository}};
ghost use Rattle.clause_flatten.specs.{Ready.{table_of, AreReady, ListsTidy}, Refusals.{OnLimit}};
ghost use Rattle.clause_flatten.specs.{Substitution.{length_in}, TakingOut.{is_free}};
ghost use Rattle.clause_flatten.specs.{TidyRows.{tidied_table}, Waiting.{Filed}};

use crate::error::FlatError;
use crate::taking_out::{Elimination, clauses_in, least_over, take_out_or_hold};
use crate::tidy_rows::tidy_rows;
use crate::waiting::Waiting;
use clause_pool::{ClauseId, Pool, RowId};
use listed::{Listed, true_numbers};
use row_book::{Book, ClauseTable, IdList, NumList};
use std::alloc::{AllocError, Global};

/// The packages without conflicts, each filed under the number of clauses of its row.
fn waiting_in(alloc: Global, rows: &[IdList], book: &Book) -> Result<Waiting, AllocError>
    requires { length rows.now ≡ length book.now.rows }
    ensures { IfOk result (λ waiting. (pool : Interned) →
        Filed waiting (λ q. ltb q (length book.now.rows) && is_free book.now.conflicts q)
        (length_in (table_of pool rows.now))) }
{
    let mut waiting = Waiting::with_room(alloc, book.size())?;
    for number in 0..book.size() {
        if book.against(number).is_empty() {
            waiting.put(number, clauses_in(rows, number));
        }
    }
    Ok(waiting)
}

/// How many clauses a row may have, and whether a package stays if taking it out would make a row
/// pass that.
#[derive(Clone, Copy)]
struct Rule {
    limit: u32,
    hold: bool,
}

/// Takes the packages that wait out of the rows, one after another, until none waits, and returns
/// which of them are held.
fn take_all_out(
    alloc: Global,
    pool: &mut Pool,
    rows: &mut [IdList],
    uses: &mut ClauseTable,
    waiting: &mut Waiting,
    book: &Book,
    rule: Rule,
) -> Result<Vec<bool>, FlatError>
    requires sound { Sound pool.old book.now }
    requires first { table_of pool.old rows.old
        ≡ tidied_table (map (row_at pool.old) book.now.rows) }
    requires ready { AreReady pool.old rows.old uses.old }
    requires waiting { Filed waiting.old (λ q.
        ltb q (length book.now.rows) && is_free book.now.conflicts q)
        (length_in (table_of pool.old rows.old)) }
    requires within { (p : ℕ) → p < length rows.old →
        length_in (table_of pool.old rows.old) p ≤ rule.limit }
    ensures flat { OnOk result (◌≡◌ {A = Repository} (record {
      clauses = table_of pool.new rows.new;
      conflicts = book.now.conflicts;
    })
        (flat rule.limit rule.hold (repository_of pool.old book.now))) }
    ensures held { IfOk result (λ held. filter (flag held.items) (numbers (length held.items) 0)
        ≡ held_of rule.limit rule.hold (repository_of pool.old book.now)) }
    ensures few { IfOk result (λ held. length held.items ≡ length book.now.rows) }
    ensures fit { OnOk result (ListsFit pool.new rows.new) }
    ensures within { OnOk result (passes rule.limit rule.hold (repository_of pool.old book.now)
        ≡ None) }
    ensures passed { IfErr result (OnLimit (λ passed.
        passes rule.limit rule.hold (repository_of pool.old book.now) ≡ Some passed)) }
    ensures kept { Kept pool.old pool.new }
{
    let mut held = none_held(alloc, book.size())?;
    for turn in 0..book.size() {
        let Some(next) = waiting.take_first() else {
            return Ok(held);
        };
        let step = Elimination {
            next,
            gone: turn + 1,
            limit: rule.limit,
            hold: rule.hold,
        };
        let stays = take_out_or_hold(alloc, pool, rows, uses, waiting, step)?;
        held = with_flag(held, next, stays);
    }
    Ok(held)
}

/// A flag for each package, none of them up.
fn none_held(alloc: Global, size: u32) -> Result<Vec<bool>, AllocError>
    ensures { IfOk result (λ flags. flags.items ≡ replicate size false) }
{
    vec![in alloc; false; size as usize]
}

/// The flags with another one for a number.
fn with_flag(flags: Vec<bool>, number: u32, is_up: bool) -> Vec<bool>
    requires { number < length flags.items }
    ensures { result.items ≡ slice_set flags.items number is_up }
{
    let mut flags = flags;
    flags[number as usize] = is_up;
    flags
}

/// Puts the row of these clauses into the pool.
fn put_row(pool: &mut Pool, clauses: &[ClauseId]) -> Result<RowId, AllocError>
    requires of_pool { OfPool pool.old clauses.now }
    requires in_order { InOrder (clauses_at pool.old clauses.now) }
    ensures ok { IfOk result (λ id. row_at pool.new id ≡ clauses_at pool.old clauses.now) }
    ensures of_pool { IfOk result (λ id. id < length pool.new.rows) }
    ensures kept { Kept pool.old pool.new }
{
    pool.intern_row(clauses)
}

/// Puts the rows of these clauses into the pool.
fn put_rows(alloc: Global, pool: &mut Pool, lists: &[IdList]) -> Result<Vec<RowId>, AllocError>
    requires { ListsFit pool.old lists.now }
    ensures rows { IfOk result (λ rows. map (row_at pool.new) rows.items
        ≡ table_of pool.old lists.now) }
    ensures fit { IfOk result (λ rows. RowsFit pool.new rows.items) }
    ensures kept { Kept pool.old pool.new }
{
    let mut rows = Vec::with_capacity(alloc, lists.len())?;
    for list in lists {
        let row = put_row(pool, list.as_slice())?;
        rows.push(row)?;
    }
    Ok(rows)
}

/// A flattened book, and the packages that were held.
#[derive(Drop)]
pub struct Flattened {
    /// The flattened book.
    pub book: Book,
    /// The packages without conflicts that stay in it, ascending.
    pub held: NumList,
}

/// Takes the packages without conflicts out of the first rows of a book, and returns which are
/// held. It fails if a row passes the limit before any step.
fn eliminate_all(
    alloc: Global,
    pool: &mut Pool,
    rows: &mut [IdList],
    book: &Book,
    rule: Rule,
) -> Result<Vec<bool>, FlatError>
    requires sound { Sound pool.old book.now }
    requires first { table_of pool.old rows.old
        ≡ tidied_table (map (row_at pool.old) book.now.rows) }
    requires fit { ListsFit pool.old rows.old }
    requires tidy { ListsTidy pool.old rows.old }
    requires count { length rows.old ≡ length book.now.rows }
    ensures flat { OnOk result (◌≡◌ {A = Repository} (record {
      clauses = table_of pool.new rows.new;
      conflicts = book.now.conflicts;
    })
        (flat rule.limit rule.hold (repository_of pool.old book.now))) }
    ensures held { IfOk result (λ held. filter (flag held.items) (numbers (length held.items) 0)
        ≡ held_of rule.limit rule.hold (repository_of pool.old book.now)) }
    ensures few { IfOk result (λ held. length held.items ≡ length book.now.rows) }
    ensures fit { OnOk result (ListsFit pool.new rows.new) }
    ensures within { OnOk result (passes rule.limit rule.hold (repository_of pool.old book.now)
        ≡ None) }
    ensures passed { IfErr result (OnLimit (λ passed.
        passes rule.limit rule.hold (repository_of pool.old book.now) ≡ Some passed)) }
    ensures kept { Kept pool.old pool.new }
{
    if let Some(number) = least_over(rows, rule.limit) {
        return Err(FlatError::Limit {
            gone: 0,
            package: number,
            count: clauses_in(rows, number),
        });
    }
    let mut uses = ClauseTable::of(alloc, pool, rows)?;
    let mut waiting = waiting_in(alloc, rows, book)?;
    let answer = take_all_out(alloc, pool, rows, &mut uses, &mut waiting, book, rule);
    // Their one end: a proof follows each field at every end of the body that owns it.
    drop(waiting);
    drop(uses);
    answer
}

/// The book of these rows and the conflicts of another one, with the packages whose flags are up.
fn put_together(
    alloc: Global,
    pool: &mut Pool,
    lists: &[IdList],
    book: &Book,
    flags: &[bool],
) -> Result<Flattened, AllocError>
    requires fit { ListsFit pool.old lists.now }
    requires count { length lists.now ≡ length book.now.rows }
    requires few { length flags.now ≡ length book.now.rows }
    ensures rows { IfOk result (λ made. map (row_at pool.new) made.book.rows
        ≡ table_of pool.old lists.now) }
    ensures conflicts { IfOk result (λ made. made.book.conflicts ≡ book.now.conflicts) }
    ensures held { IfOk result (λ made. made.held
        ≡ filter (flag flags.now) (numbers (length flags.now) 0)) }
    ensures fit { IfOk result (λ made. RowsFit pool.new made.book.rows) }
    ensures kept { Kept pool.old pool.new }
{
    let held = true_numbers(alloc, flags)?;
    let rows = put_rows(alloc, pool, lists)?;
    let made = book.with_rows(alloc, Listed::of(rows))?;
    Ok(Flattened { book: made, held })
}

/// Takes the packages without conflicts out one after another, the one with the fewest clauses
/// first; with hold a package stays if a row would otherwise pass the limit. A book is refused if a
/// row passes the limit at any stage, or with hold before any step; the error has the first such
/// stage and its least package.
pub fn flatten(
    alloc: Global,
    pool: &mut Pool,
    book: &Book,
    limit: u32,
    hold: bool,
) -> Result<Flattened, FlatError>
    requires sound { Sound pool.old book.now }
    requires limit { 0 < limit }
    ensures flat { IfOk result (λ made. repository_of pool.new made.book
        ≡ flat limit hold (repository_of pool.old book.now)) }
    ensures held { IfOk result (λ made. made.held
        ≡ held_of limit hold (repository_of pool.old book.now)) }
    ensures keeps { IfOk result (λ made.
        KeepsSets (repository_of pool.old book.now) (repository_of pool.new made.book)) }
    ensures sound { IfOk result (λ made. Sound pool.new made.book) }
    ensures within { OnOk result (passes limit hold (repository_of pool.old book.now) ≡ None) }
    ensures passed { IfErr result (OnLimit (λ passed.
        passes limit hold (repository_of pool.old book.now) ≡ Some passed)) }
    ensures kept { Kept pool.old pool.new }
{
    let mut lists = tidy_rows(alloc, pool, book.rows.as_slice())?;
    let rule = Rule { limit, hold };
    let flags = eliminate_all(alloc, pool, lists.as_mut_slice(), book, rule)?;
    let made = put_together(alloc, pool, lists.as_slice(), book, flags.as_slice())?;
    Ok(made)
}
