//! What is left of the rows of a book.
//!
//! What is left of a clause is made once, and its id is kept for the other rows with the clause.
//! The same holds of a row, which many packages share. A row whose clauses all stay whole stays in
//! order, and so do most others; the rest are put in order.
ghost use Rattle.std.specs.Prelude.{◌≡◌, ◌<◌, ℕ, Bool, List, None, length, map, slice_index_or};
ghost use Rattle.std.specs.{Prelude.{IfOk, OnOk}, Bool.{OnTrue}, List.{list_all}};
ghost use Rattle.clause_pool.specs.Clauses.{in_row_order};
ghost use Rattle.clause_pool.specs.Interned.{clause_at, clauses_at, row_at, Interned, IsPool, Kept};
ghost use Rattle.clause_pool.specs.{Interned.{OfPool}, Lists.{InOrder}};
ghost use Rattle.listed.specs.Lists.{Ascending, In};
ghost use Rattle.row_book.specs.{Flags.{flag}, Parts.{chosen_in, row_in}};
ghost use Rattle.suite_part.specs.Left.{AreAllLeft, AreLeft, IsLeft, IsRowLeft};

use crate::changed::none_flagged;
use crate::subset::Subset;
use clause_families::{Clause, put_in_order};
use clause_pool::{ClauseId, Pool, RowId, is_before};
use std::alloc::{AllocError, Global};

// What is left of the clauses of a pool, from one row to the next.
#[derive(Drop)]
struct LeftClauses {
    // For each clause of that pool the id of what is left of it, if it is known.
    known: Vec<Option<ClauseId>>,
    // For each clause of that pool whether it is known to lose no package.
    whole: Vec<bool>,
    // Room for the ids of a row.
    ids: Vec<ClauseId>,
    // Room for the numbers of a clause.
    clause: Vec<u32>,
}

impl LeftClauses {
    // The clauses of a pool; nothing is known of them yet.
    fn new(alloc: Global, from: &Pool) -> Result<LeftClauses, AllocError>
        ensures { IfOk result (λ left. (flags : List Bool) (pool : Interned) →
            AreLeft from.now flags pool left.known.items left.whole.items) }
    {
        let count = from.clause_count() as usize;
        let known = none_known(alloc, count)?;
        let whole = none_flagged(alloc, count)?;
        Ok(LeftClauses {
            known,
            whole,
            ids: Vec::new(alloc),
            clause: Vec::new(alloc),
        })
    }
}

/// What is left of the rows of a pool, from one package to the next.
#[derive(Drop)]
pub(crate) struct LeftRows {
    // For each row of that pool the id of what is left of it, if it is known.
    known: Vec<Option<RowId>>,
    // What is left of its clauses.
    clauses: LeftClauses,
}

impl LeftRows {
    /// The rows of a pool; nothing is known of them yet.
    pub(crate) fn new(alloc: Global, from: &Pool) -> Result<LeftRows, AllocError>
        ensures { IfOk result (λ left. (flags : List Bool) (pool : Interned) →
            AreAllLeft from.now flags pool left) }
    {
        let known = none_known(alloc, from.row_count())?;
        let clauses = LeftClauses::new(alloc, from)?;
        Ok(LeftRows { known, clauses })
    }
}

/// What is left of a row.
pub(crate) fn row_left(
    alloc: Global,
    pool: &mut Pool,
    from: &Pool,
    id: RowId,
    chosen: &Subset,
    left: &mut LeftRows,
) -> Result<RowId, AllocError>
    requires pool { IsPool pool.old }
    requires id { id < length from.now.rows }
    requires numbers { (c : List ℕ) → In c (row_at from.now id) → (n : ℕ) → In n c →
        n < length chosen.now.flags.items }
    requires left { AreAllLeft from.now chosen.now.flags.items pool.old left.old }
    ensures row { IfOk result (IsRowLeft from.now chosen.now.flags.items pool.new id) }
    ensures left { OnOk result (AreAllLeft from.now chosen.now.flags.items pool.new left.new) }
    ensures kept { Kept pool.old pool.new }
{
    if let Some(new) = left.known[id.place()] {
        return Ok(new);
    }
    let made = row_in(alloc, pool, from, from.row(id), chosen, &mut left.clauses)?;
    left.known[id.place()] = Some(made);
    Ok(made)
}

// What is left of a row with these clauses.
fn row_in(
    alloc: Global,
    pool: &mut Pool,
    from: &Pool,
    row: &[ClauseId],
    chosen: &Subset,
    left: &mut LeftClauses,
) -> Result<RowId, AllocError>
    requires pool { IsPool pool.old }
    requires row { OfPool from.now row.now }
    requires order { InOrder (clauses_at from.now row.now) }
    requires numbers { (c : List ℕ) → In c (clauses_at from.now row.now) → (n : ℕ) → In n c →
        n < length chosen.now.flags.items }
    requires known { AreLeft from.now chosen.now.flags.items pool.old left.old.known.items
        left.old.whole.items }
    ensures row { IfOk result (λ id. row_at pool.new id
        ≡ row_in chosen.now.flags.items (clauses_at from.now row.now)) }
    ensures of_pool { IfOk result (λ id. id < length pool.new.rows) }
    ensures known { OnOk result (AreLeft from.now chosen.now.flags.items pool.new
        left.new.known.items left.new.whole.items) }
    ensures kept { Kept pool.old pool.new }
{
    left_ids(pool, from, row, chosen, left)?;
    let ids = left.ids.as_slice();
    if are_whole(left.whole.as_slice(), row) {
        return pool.intern_row(ids);
    }
    intern_in_order(alloc, pool, ids)
}

/// A place for each id, with none known.
pub(crate) fn none_known<T: Drop>(alloc: Global, count: usize) -> Result<Vec<Option<T>>, AllocError>
    ensures size { IfOk result (λ known. length known.items ≡ count) }
    ensures none { IfOk result (λ known. (id : ℕ) → slice_index_or known.items id None ≡ None) }
{
    let mut known = Vec::with_capacity(alloc, count)?;
    for _i in 0..count {
        known.push(None)?;
    }
    Ok(known)
}

// Fills the room for ids with those of what is left of each clause of a row.
fn left_ids(
    pool: &mut Pool,
    from: &Pool,
    row: &[ClauseId],
    chosen: &Subset,
    left: &mut LeftClauses,
) -> Result<(), AllocError>
    requires row { OfPool from.now row.now }
    requires numbers { (c : List ℕ) → In c (clauses_at from.now row.now) → (n : ℕ) → In n c →
        n < length chosen.now.flags.items }
    requires known { AreLeft from.now chosen.now.flags.items pool.old left.old.known.items
        left.old.whole.items }
    ensures ids { OnOk result (clauses_at pool.new left.new.ids.items
        ≡ map (chosen_in chosen.now.flags.items) (clauses_at from.now row.now)) }
    ensures of_pool { OnOk result (OfPool pool.new left.new.ids.items) }
    ensures known { OnOk result (AreLeft from.now chosen.now.flags.items pool.new
        left.new.known.items left.new.whole.items) }
    ensures kept { Kept pool.old pool.new }
{
    left.ids.clear();
    for id in row {
        let new = left_id(pool, from, chosen, left, *id)?;
        left.ids.push(new)?;
    }
    Ok(())
}

// The id of what is left of a clause. It is made if none is known yet.
fn left_id(
    pool: &mut Pool,
    from: &Pool,
    chosen: &Subset,
    left: &mut LeftClauses,
    id: ClauseId,
) -> Result<ClauseId, AllocError>
    requires id { id < length from.now.clauses }
    requires numbers { (n : ℕ) → In n (clause_at from.now id) → n < length chosen.now.flags.items }
    requires known { AreLeft from.now chosen.now.flags.items pool.old left.old.known.items
        left.old.whole.items }
    ensures is { IfOk result (IsLeft from.now chosen.now.flags.items pool.new id) }
    ensures ids { left.new.ids ≡ left.old.ids }
    ensures known { OnOk result (AreLeft from.now chosen.now.flags.items pool.new
        left.new.known.items left.new.whole.items) }
    ensures kept { Kept pool.old pool.new }
{
    if let Some(new) = left.known[id.place()] {
        return Ok(new);
    }
    let clause = from.slice(id);
    chosen.put_among(&mut left.clause, clause)?;
    let made = pool.intern(left.clause.as_slice())?;
    left.known[id.place()] = Some(made);
    left.whole[id.place()] = left.clause.as_slice().len() == clause.len();
    Ok(made)
}

// Whether the flags of all these clauses are up.
fn are_whole(whole: &[bool], row: &[ClauseId]) -> bool
    requires { (id : ℕ) → In id row.now → id < length whole.now }
    ensures { result ≡ list_all (flag whole.now) row.now }
{
    for id in row {
        if !whole[id.place()] {
            return false;
        }
    }
    true
}

// The row of these clauses, in order and each once.
fn intern_in_order(alloc: Global, pool: &mut Pool, ids: &[ClauseId]) -> Result<RowId, AllocError>
    requires pool { IsPool pool.old }
    requires of_pool { OfPool pool.old ids.now }
    ensures row { IfOk result (λ id. row_at pool.new id
        ≡ in_row_order (clauses_at pool.old ids.now)) }
    ensures of_pool { IfOk result (λ id. id < length pool.new.rows) }
    ensures kept { Kept pool.old pool.new }
{
    if are_in_order(pool, ids) {
        return pool.intern_row(ids);
    }
    let mut family = family_of(alloc, pool, ids)?;
    put_in_order(&mut family);
    let ordered = ids_of(alloc, pool, family.as_slice())?;
    pool.intern_row(ordered.as_slice())
}

// Whether each clause comes before the next one.
#[tactic(auto, using(clause_pool::proofs::Order::before_test))]
fn are_in_order(pool: &Pool, ids: &[ClauseId]) -> bool
    requires { OfPool pool.now ids.now }
    ensures { OnTrue result (InOrder (clauses_at pool.now ids.now)) }
{
    for place in 1..ids.len() {
        if !is_before(pool.slice(ids[place - 1]), pool.slice(ids[place])) {
            return false;
        }
    }
    true
}

// The clauses of the ids.
fn family_of(alloc: Global, pool: &Pool, ids: &[ClauseId]) -> Result<Vec<Clause>, AllocError>
    requires { OfPool pool.now ids.now }
    ensures { IfOk result (λ family. family.items ≡ clauses_at pool.now ids.now) }
{
    let mut family = Vec::with_capacity(alloc, ids.len())?;
    for id in ids {
        family.push(Clause::copy(alloc, pool.slice(*id))?)?;
    }
    Ok(family)
}

// The ids of the clauses, which are added to the pool.
fn ids_of(alloc: Global, pool: &mut Pool, family: &[Clause]) -> Result<Vec<ClauseId>, AllocError>
    requires { (c : List ℕ) → In c family.now → Ascending c }
    ensures ids { IfOk result (λ ids. clauses_at pool.new ids.items ≡ family.now) }
    ensures of_pool { IfOk result (λ ids. OfPool pool.new ids.items) }
    ensures kept { Kept pool.old pool.new }
{
    let mut ids = Vec::with_capacity(alloc, family.len())?;
    for clause in family {
        ids.push(pool.intern(clause.as_slice())?)?;
    }
    Ok(ids)
}
