//! A decision, with what follows from it.
ghost use Rattle.std.specs.Prelude.{◌≡◌, ◌<◌, ◌≤◌, ◌∷◌, ◌++◌, [], true, false, List, OnOk, IfOk};
ghost use Rattle.std.specs.{Prelude.{length, take}, Bool.{OnTrue, OnFalse}};
ghost use Rattle.search_terms.specs.{declared.literals.Literal.{Literal}, Closure.{Clashes}};
ghost use Rattle.search_terms.specs.Tree.{is_undecided};
ghost use Rattle.clause_solver.specs.{Marking.{set_of_trail}, Engine.{sentences_in, IsFormula}};
ghost use Rattle.clause_solver.specs.{Levels.{CalmAt}, Nodes.{ArePositive}};

use crate::formula::Formula;
use crate::propagation::propagate;
use crate::trail::Trail;
use search_terms::Literal;
use std::alloc::AllocError;

/// Marks a decision and what follows from it. Returns whether there is a contradiction.
pub(crate) fn decide(trail: &mut Trail, l: Literal, formula: &Formula) -> Result<bool, AllocError>
    requires engine { IsFormula trail.old.0 formula.now }
    requires positive { ArePositive formula.now.goals.now }
    requires class { l.class < trail.old.0 }
    requires undecided { is_undecided (set_of_trail trail.old.1) l ≡ true }
    requires calm { (decisions : List Literal)
        × CalmAt (sentences_in formula.now) decisions trail.old.1 }
    ensures classes { OnOk result (trail.new.0 ≡ trail.old.0) }
    ensures front { OnOk result ((take (length trail.old.1) trail.new.1 ≡ trail.old.1)
        × (length trail.old.1 ≤ length trail.new.1)) }
    ensures calm { IfOk result (λ contradiction. OnFalse contradiction ((decisions : List Literal) →
        CalmAt (sentences_in formula.now) decisions trail.old.1 →
        CalmAt (sentences_in formula.now) (decisions ++ l ∷ []) trail.new.1)) }
    ensures contradiction { IfOk result (λ contradiction. OnTrue contradiction
        ((decisions : List Literal) → CalmAt (sentences_in formula.now) decisions trail.old.1 →
        Clashes (sentences_in formula.now) (decisions ++ l ∷ []))) }
{
    let from = trail.as_slice().len();
    trail.put(l)?;
    if propagate(trail, from, formula)? {
        return Ok(true);
    }
    Ok(false)
}
