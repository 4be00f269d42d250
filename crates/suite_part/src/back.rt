//! Rows of a part in the numbers of the book.
ghost use Rattle.std.specs.Prelude.{◌≡◌, ◌<◌, ℕ, List, IfOk, OnOk, length};
ghost use Rattle.clause_pool.specs.Interned.{clause_at, clauses_at, row_at, IsPool, Kept, OfPool};
ghost use Rattle.clause_pool.specs.Lists.{InOrder};
ghost use Rattle.listed.specs.Lists.{Ascending, In};
ghost use Rattle.row_book.specs.Parts.{clause_in, clauses_in};
ghost use Rattle.suite_part.specs.Back.{AreBack, IsBack};

use clause_pool::{ClauseId, Pool, RowId};
use std::alloc::{AllocError, Global};

/// The row of a part in the numbers of the book.
pub(crate) fn row_back(
    alloc: Global,
    pool: &mut Pool,
    from: &Pool,
    row: &[ClauseId],
    numbers: &[u32],
    seen: &mut Vec<Option<ClauseId>>,
) -> Result<RowId, AllocError>
    requires row { OfPool from.now row.now }
    requires order { InOrder (clauses_at from.now row.now) }
    requires within { (c : List ℕ) → In c (clauses_at from.now row.now) → (n : ℕ) → In n c →
        n < length numbers.now }
    requires ascending { Ascending numbers.now }
    requires seen { AreBack from.now numbers.now pool.old seen.old.items }
    ensures row { IfOk result (λ id. row_at pool.new id
        ≡ clauses_in numbers.now (clauses_at from.now row.now)) }
    ensures of_pool { IfOk result (λ id. id < length pool.new.rows) }
    ensures seen { OnOk result (AreBack from.now numbers.now pool.new seen.new.items) }
    ensures kept { Kept pool.old pool.new }
    ensures sound { OnOk result (IsPool pool.new) }
{
    let ids = ids_back(alloc, pool, from, row, numbers, seen)?;
    pool.intern_row(ids.as_slice())
}

// The ids of the clauses of a row in the numbers of the book.
fn ids_back(
    alloc: Global,
    pool: &mut Pool,
    from: &Pool,
    row: &[ClauseId],
    numbers: &[u32],
    seen: &mut Vec<Option<ClauseId>>,
) -> Result<Vec<ClauseId>, AllocError>
    requires row { OfPool from.now row.now }
    requires within { (c : List ℕ) → In c (clauses_at from.now row.now) → (n : ℕ) → In n c →
        n < length numbers.now }
    requires ascending { Ascending numbers.now }
    requires seen { AreBack from.now numbers.now pool.old seen.old.items }
    ensures ids { IfOk result (λ ids. clauses_at pool.new ids.items
        ≡ clauses_in numbers.now (clauses_at from.now row.now)) }
    ensures of_pool { IfOk result (λ ids. OfPool pool.new ids.items) }
    ensures seen { OnOk result (AreBack from.now numbers.now pool.new seen.new.items) }
    ensures kept { Kept pool.old pool.new }
{
    let mut ids = Vec::with_capacity(alloc, row.len())?;
    for id in row {
        let new = clause_back(alloc, pool, from, *id, numbers, seen)?;
        ids.push(new)?;
    }
    Ok(ids)
}

// The id of a clause of a part in the numbers of the book. It is made if none is known yet.
fn clause_back(
    alloc: Global,
    pool: &mut Pool,
    from: &Pool,
    id: ClauseId,
    numbers: &[u32],
    seen: &mut Vec<Option<ClauseId>>,
) -> Result<ClauseId, AllocError>
    requires id { id < length from.now.clauses }
    requires within { (n : ℕ) → In n (clause_at from.now id) → n < length numbers.now }
    requires ascending { Ascending numbers.now }
    requires seen { AreBack from.now numbers.now pool.old seen.old.items }
    ensures is { IfOk result (IsBack from.now numbers.now pool.new id) }
    ensures seen { OnOk result (AreBack from.now numbers.now pool.new seen.new.items) }
    ensures kept { Kept pool.old pool.new }
{
    if let Some(new) = seen[id.place()] {
        return Ok(new);
    }
    let clause = numbers_of(alloc, from.slice(id), numbers)?;
    let made = pool.intern(clause.as_slice())?;
    seen[id.place()] = Some(made);
    Ok(made)
}

// The numbers at the places.
fn numbers_of(alloc: Global, places: &[u32], numbers: &[u32]) -> Result<Vec<u32>, AllocError>
    requires { (k : ℕ) → In k places.now → k < length numbers.now }
    ensures { IfOk result (λ made. made.items ≡ clause_in numbers.now places.now) }
{
    let mut made = Vec::with_capacity(alloc, places.len())?;
    for place in places {
        made.push(numbers[*place as usize])?;
    }
    Ok(made)
}
