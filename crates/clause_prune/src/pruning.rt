//! Pruning of a book.
ghost use Rattle.std.specs.Prelude.{◌≡◌, ◌<◌, ◌++◌, ◌∷◌, [], ℕ, IfOk, OnOk, length, map};
ghost use Rattle.clause_pool.specs.Interned.{row_at, Kept, IsPool};
ghost use Rattle.listed.specs.Lists.{In, Ascending};
ghost use Rattle.row_book.specs.Book.{listed_for, repository_of, RowsFit, RowsTidy, Sound};
ghost use Rattle.row_book.specs.{Repository.{Repository}, Keeping.{KeepsSets}};
ghost use Rattle.row_book.specs.Sound.{TidyRepository};
ghost use Rattle.row_book.specs.Pruning.{idle_steps, prune_package, prune, with_clauses};
ghost use Rattle.row_book.specs.{Rounds.{IdleStep}, Trail.{trail_meaning}};
ghost use Rattle.clause_prune.specs.Tests.{repository_in};

use crate::pruned_package::PrunedPackage;
use clause_pool::{NumList, Pool, RowId};
use listed::Listed;
use row_book::{Book, StepList};
use std::alloc::{AllocError, Global};

/// A pruned book, with a step for each clause that was dropped as idle.
#[derive(Drop)]
pub struct Pruned {
    /// The book.
    pub book: Book,
    /// The steps, in order.
    pub idle: StepList,
}

// The row with only the empty clause.
fn empty_row(pool: &mut Pool) -> Result<RowId, AllocError>
    ensures row { IfOk result (λ id. row_at pool.new id ≡ [] ∷ []) }
    ensures of_pool { IfOk result (λ id. id < length pool.new.rows) }
    ensures kept { Kept pool.old pool.new }
{
    let empty = pool.intern(&[])?;
    pool.intern_row(&[empty])
}

// The row of the package after pruning, among the rows of the others.
fn pruned_row(
    alloc: Global,
    pool: &mut Pool,
    rows: &[RowId],
    table: &[NumList],
    number: u32,
    idle: &mut StepList,
) -> Result<RowId, AllocError>
    requires fit { RowsFit pool.old rows.now }
    requires conflicts { (p n : ℕ) → In n (listed_for table.now p) → n < length rows.now }
    requires table { (p : ℕ) → Ascending (listed_for table.now p) }
    requires inside { number < length rows.now }
    ensures row { IfOk result (λ id.
        ◌≡◌ {A = Repository} (prune_package (repository_in pool.old rows.now table.now) number).left
        (with_clauses (repository_in pool.old rows.now table.now) number (row_at pool.new id))) }
    ensures of_pool { IfOk result (λ id. id < length pool.new.rows) }
    ensures idle { OnOk result (trail_meaning pool.old idle.new ≡ trail_meaning pool.old idle.old
        ++ map IdleStep (prune_package (repository_in pool.old rows.now table.now) number).steps) }
    ensures kept { Kept pool.old pool.new }
{
    let ids = Vec::from_slice(alloc, pool.row(rows[number as usize]))?;
    let pruned = PrunedPackage {
        pool,
        rows,
        table,
        number,
    };
    let dead = pruned.is_dead(alloc, ids.as_slice())?;
    if dead {
        return empty_row(pool);
    }
    let left = pruned.prune_each(alloc, ids.as_slice(), idle)?;
    pool.intern_row(left.as_slice())
}

// Prunes the rows of one package after another.
fn prune_rows(
    alloc: Global,
    pool: &mut Pool,
    rows: &mut [RowId],
    table: &[NumList],
    idle: &mut StepList,
) -> Result<(), AllocError>
    requires pool { IsPool pool.old }
    requires few { length rows.old < u32.MAX }
    requires tidy { TidyRepository (repository_in pool.old rows.old table.now) }
    requires of_pool { (id : ℕ) → In id rows.old → id < length pool.old.rows }
    requires none { trail_meaning pool.old idle.old ≡ [] }
    ensures rows { OnOk result (◌≡◌ {A = Repository} (repository_in pool.new rows.new table.now)
        (prune (repository_in pool.old rows.old table.now))) }
    ensures of_pool { OnOk result ((id : ℕ) → In id rows.new → id < length pool.new.rows) }
    ensures idle { OnOk result (trail_meaning pool.new idle.new
        ≡ map IdleStep (idle_steps (repository_in pool.old rows.old table.now))) }
    ensures kept { Kept pool.old pool.new }
{
    for number in 0..rows.len() {
        let row = pruned_row(alloc, pool, rows, table, number as u32, idle)?;
        rows[number] = row;
    }
    Ok(())
}

/// The pruned book. A dead package gets only the empty clause. Of the others each clause is dropped
/// in turn that is forced or idle among those that are left. What the pool held stays.
pub fn prune(alloc: Global, pool: &mut Pool, book: &Book) -> Result<Pruned, AllocError>
    requires sound { Sound pool.old book.now }
    requires tidy { RowsTidy pool.old book.now.rows }
    ensures pruned { IfOk result (λ made. repository_of pool.new made.book
        ≡ prune (repository_of pool.old book.now)) }
    ensures idle { IfOk result (λ made. trail_meaning pool.new made.idle
        ≡ map IdleStep (idle_steps (repository_of pool.old book.now))) }
    ensures keeps { IfOk result (λ made.
        KeepsSets (repository_of pool.old book.now) (repository_of pool.new made.book)) }
    ensures sound { IfOk result (λ made. Sound pool.new made.book) }
    ensures kept { Kept pool.old pool.new }
{
    let mut rows = Vec::from_slice(alloc, book.rows.as_slice())?;
    let mut idle = StepList::new(alloc);
    let table = book.conflicts.as_slice();
    prune_rows(alloc, pool, rows.as_mut_slice(), table, &mut idle)?;
    let Book { rows: _, conflicts } = book.copy(alloc)?;
    let pruned = Book {
        rows: Listed::of(rows),
        conflicts,
    };
    Ok(Pruned { book: pruned, idle })
}
