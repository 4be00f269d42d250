//! The rows of packages: their clauses, interned in a pool.
//!
//! The clause of each distinct element is made once, and all clauses are put in order once
//! (ranks.rt).
ghost use Rattle.std.specs.Prelude.{◌≡◌, ◌<◌, ◌∷◌, ◌↔◌, ℕ, [], IfOk, OnOk, map, length};
ghost use Rattle.std.specs.Prelude.{slice_index_or};
ghost use Rattle.clause_pool.specs.{Interned.{Kept}, Clauses.{in_row_order}};
ghost use Rattle.listed.specs.Lists.{Ascending, In};
ghost use Rattle.relation_fields.specs.Elements.{elements_of};
ghost use Rattle.virtual_provides.specs.Bearers.{IsBuiltFrom};
ghost use Rattle.repo_model.specs.{Interning.{HasIds, HasRows}, Needs.{needs_of_all}};
ghost use Rattle.repo_model.specs.Ranks.{clauses_marked, ids_of_ranks, IsRanking};
ghost use Rattle.repo_model.specs.Repository.{clause_of, row_of};

use crate::clauses::element_clause;
use crate::ranks::{Ranks, rank_all};
use clause_pool::{ClauseId, Pool, RowId};
use listed::sort_once;
use relation_fields::{AtomList, Home, PackageFacts, SharedElements};
use std::alloc::{AllocError, Global};
use virtual_provides::NameTable;

/// The rows of the packages, given their elements. The pool gains only these rows and their
/// clauses.
pub(crate) fn intern_rows(
    alloc: Global,
    pool: &mut Pool,
    names: &NameTable,
    packages: &[PackageFacts],
    home: &Home,
    elements: &SharedElements,
) -> Result<Vec<RowId>, AllocError>
    requires built { IsBuiltFrom packages.now names.now }
    requires elements { elements_of elements.now ≡ needs_of_all packages.now }
    ensures rows { IfOk result (λ rows.
        HasRows pool.old pool.new (map (row_of home.now packages.now) packages.now) rows.items) }
    ensures kept { Kept pool.old pool.new }
{
    let distinct = elements.distinct.as_slice();
    let ids = clause_ids(alloc, pool, names, packages, home, distinct)?;
    let ranks = rank_all(alloc, pool, &ids)?;
    let mut rows = Vec::with_capacity(alloc, packages.len())?;
    let mut room = RowRoom::new(alloc);
    let mut left = elements.marks.as_slice();
    for facts in packages {
        let (own, behind) = left.split_at(facts.needs.as_slice().len());
        rows.push(intern_row(pool, &mut room, &ranks, own)?)?;
        left = behind;
    }
    Ok(rows)
}

// The ids of the clauses of elements.
fn clause_ids(
    alloc: Global,
    pool: &mut Pool,
    names: &NameTable,
    packages: &[PackageFacts],
    home: &Home,
    elements: &[AtomList],
) -> Result<Vec<ClauseId>, AllocError>
    requires { IsBuiltFrom packages.now names.now }
    ensures ids { IfOk result (λ ids.
        HasIds pool.old pool.new (map (clause_of home.now packages.now) elements.now) ids.items) }
    ensures kept { Kept pool.old pool.new }
{
    let mut ids = Vec::with_capacity(alloc, elements.len())?;
    for element in elements {
        let clause = element_clause(alloc, names, packages, home, element.as_slice())?;
        ids.push(pool.intern(&clause)?)?;
    }
    Ok(ids)
}

// Room for the ranks of a row, and for the ids of its clauses.
#[derive(Drop)]
struct RowRoom {
    ranks: Vec<u32>,
    ids: Vec<ClauseId>,
}

impl RowRoom {
    // Room for an empty row.
    fn new(alloc: Global) -> Self {
        RowRoom {
            ranks: Vec::new(alloc),
            ids: Vec::new(alloc),
        }
    }
}

// The row of the clauses with these marks.
fn intern_row(
    pool: &mut Pool,
    room: &mut RowRoom,
    ranks: &Ranks,
    marks: &[u32],
) -> Result<RowId, AllocError>
    requires ranked { IsRanking pool.old ranks.now }
    requires marks { (mark : ℕ) → In mark marks.now → mark < length ranks.now.ranks.items }
    ensures row { IfOk result (λ row. HasRows pool.old pool.new
        (in_row_order (clauses_marked pool.old ranks.now marks.now) ∷ []) (row ∷ [])) }
    ensures clauses { pool.new.clauses ≡ pool.old.clauses }
    ensures kept { Kept pool.old pool.new }
{
    note_ranks(&mut room.ranks, &ranks.ranks, marks)?;
    note_ids(&mut room.ids, &ranks.order, &room.ranks)?;
    let row = pool.intern_row(&room.ids)?;
    Ok(row)
}

// Fills the list with the distinct ranks of the marks, in their order.
fn note_ranks(made: &mut Vec<u32>, ranks: &[u32], marks: &[u32]) -> Result<(), AllocError>
    requires { (mark : ℕ) → In mark marks.now → mark < length ranks.now }
    ensures ascending { OnOk result (Ascending made.new.items) }
    ensures same { OnOk result ((rank : ℕ) → In rank made.new.items
        ↔ In rank (map (λ mark. slice_index_or ranks.now mark 0) marks.now)) }
{
    made.clear();
    for mark in marks {
        made.push(ranks[*mark as usize])?;
    }
    sort_once(made);
    Ok(())
}

// Fills the list with the ids of the ranks.
fn note_ids(made: &mut Vec<ClauseId>, order: &[ClauseId], ranks: &[u32]) -> Result<(), AllocError>
    requires { (rank : ℕ) → In rank ranks.now → rank < length order.now }
    ensures { OnOk result (made.new.items ≡ ids_of_ranks order.now ranks.now) }
{
    made.clear();
    for rank in ranks {
        made.push(order[*rank as usize])?;
    }
    Ok(())
}
