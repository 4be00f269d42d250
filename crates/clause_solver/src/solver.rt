//! What a book says without goals: its sentences with their table, propagated once for all
//! searches.
ghost use Rattle.std.specs.Prelude.{◌≡◌, [], IfOk, OnOk};
ghost use Rattle.clause_solver.specs.Engine.{whole_form, sentences_in, IsEngine, IsFormula};
ghost use Rattle.clause_solver.specs.{Levels.{CalmAt, IsAt}, Nodes.{ArePositive, HaveNegative}};
ghost use Rattle.clause_solver.specs.Solvers.{AreApart};

use crate::formula::Formula;
use crate::propagation::propagate;
use crate::steps::propagate_all;
use crate::table::{Use, table_of};
use crate::trail::Trail;
use clause_pool::NumList;
use listed::Listed;
use row_book::LentBook;
use search_terms::{LiteralList, clause_sentences};
use std::alloc::{AllocError, Global};

/// What many searches over one book share: the sentences of its clauses with their table, and the
/// closure of its own formula, taken once.
#[derive(Drop)]
pub(crate) struct Solver {
    // The number of classes.
    pub(crate) classes: u32,
    // The sentences of the clauses.
    pub(crate) own: Vec<LiteralList>,
    // For each literal the sentences that have it.
    pub(crate) uses: Vec<Listed<Use>>,
    // What follows without goals.
    pub(crate) base: Trail,
    // Whether that is a contradiction.
    pub(crate) dead: bool,
}

/// Propagates over the sentences alone. Returns whether there is a contradiction.
fn first_pass(
    classes: u32,
    trail: &mut Trail,
    own: &[LiteralList],
    uses: &[Listed<Use>],
    conflicts: &[NumList],
) -> Result<bool, AllocError>
    requires engine { IsEngine trail.old.0 [] own.now uses.now conflicts.now }
    requires negative { HaveNegative own.now }
    requires apart { AreApart conflicts.now }
    requires none { trail.old.1 ≡ [] }
    ensures classes { OnOk result (trail.new.0 ≡ trail.old.0) }
    ensures at { IfOk result (λ contradiction.
        IsAt contradiction (whole_form [] own.now conflicts.now) [] [] trail.new.1) }
{
    if propagate_all(trail, own)? {
        return Ok(true);
    }
    let formula = Formula {
        classes,
        goals: &[],
        own,
        uses,
        conflicts,
    };
    if propagate(trail, 0, &formula)? {
        return Ok(true);
    }
    Ok(false)
}

/// Propagates over the goals besides. Returns whether there is a contradiction.
fn root(trail: &mut Trail, formula: &Formula) -> Result<bool, AllocError>
    requires engine { IsFormula trail.old.0 formula.now }
    requires positive { ArePositive formula.now.goals.now }
    requires base { CalmAt
        (whole_form [] formula.now.own.now formula.now.conflicts.now) [] trail.old.1 }
    ensures classes { OnOk result (trail.new.0 ≡ trail.old.0) }
    ensures at { IfOk result (λ contradiction.
        IsAt contradiction (sentences_in formula.now) [] [] trail.new.1) }
{
    let from = trail.as_slice().len();
    if propagate_all(trail, formula.goals)? {
        return Ok(true);
    }
    if propagate(trail, from, formula)? {
        return Ok(true);
    }
    Ok(false)
}

impl Solver {
    ghost use Rattle.std.specs.Prelude.{IfOk};
    ghost use Rattle.row_book.specs.Lent.{repository_in};
    ghost use Rattle.clause_solver.specs.Solvers.{IsReady};

    /// The solver of a book.
    pub(crate) fn new(alloc: Global, book: &LentBook) -> Result<Solver, AllocError>
        ensures { IfOk result (IsReady (repository_in book.now)) }
    {
        let classes = book.book.size();
        let own = clause_sentences(alloc, book.pool, book.book.rows.as_slice())?;
        let uses = table_of(alloc, classes, &own)?;
        let mut base = Trail::new(alloc, classes)?;
        let dead = first_pass(
            classes,
            &mut base,
            &own,
            &uses,
            book.book.conflicts.as_slice(),
        )?;
        Ok(Solver {
            classes,
            own,
            uses,
            base,
            dead,
        })
    }
}

/// Propagates at the root, unless the book's own formula is contradicted already.
pub(crate) fn start(dead: bool, trail: &mut Trail, formula: &Formula) -> Result<bool, AllocError>
    requires engine { IsFormula trail.old.0 formula.now }
    requires positive { ArePositive formula.now.goals.now }
    requires base { IsAt dead
        (whole_form [] formula.now.own.now formula.now.conflicts.now) [] [] trail.old.1 }
    ensures classes { OnOk result (trail.new.0 ≡ trail.old.0) }
    ensures at { IfOk result (λ contradiction.
        IsAt contradiction (sentences_in formula.now) [] [] trail.new.1) }
{
    if dead {
        return Ok(true);
    }
    root(trail, formula)
}
