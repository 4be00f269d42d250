//! Unit propagation, up to the first contradiction.
ghost use Rattle.std.specs.Prelude.{◌≡◌, ◌<◌, ◌≤◌, true, false, List, All, Contains, OnOk, IfOk};
ghost use Rattle.std.specs.{Prelude.{length}, Bool.{OnTrue, OnFalse}};
ghost use Rattle.search_terms.specs.declared.literals.Literal.{Literal};
ghost use Rattle.search_terms.specs.Closure.{negation, InRange, IsUnitClosed};
ghost use Rattle.search_terms.specs.Marks.{IsConsistent};
ghost use Rattle.clause_solver.specs.{Marking.{set_of_trail}, Running.{HasRefuted, Runs, Waits}};
ghost use Rattle.clause_solver.specs.{Engine.{sentences_in, IsFormula}, Nodes.{ArePositive}};

use crate::formula::Formula;
use crate::steps::{propagate_all, propagate_conflicts, propagate_row};
use crate::trail::Trail;
use search_terms::{Literal, LiteralList};
use std::alloc::AllocError;

/// Propagates over the goals, unless the literal is positive: a goal has only positive literals,
/// and a positive literal contradicts none of these.
fn propagate_goals(trail: &mut Trail, l: Literal, goals: &[LiteralList]) -> Result<bool, AllocError>
    requires ranged { InRange trail.old.0 goals.now }
    requires consistent { IsConsistent (set_of_trail trail.old.1) }
    requires positive { ArePositive goals.now }
    ensures classes { OnOk result (trail.new.0 ≡ trail.old.0) }
    ensures runs { OnOk result (Runs goals.now trail.old.1 trail.new.1) }
    ensures waits { IfOk result (λ contradiction.
        OnFalse contradiction ((s : List Literal) → Contains goals.now s → Contains s (negation l) →
        Waits (length trail.old.1) trail.new.1 s)) }
    ensures refuted { IfOk result (λ contradiction.
        OnTrue contradiction (HasRefuted goals.now (set_of_trail trail.new.1))) }
{
    if l.positive {
        return Ok(false);
    }
    if propagate_all(trail, goals)? {
        return Ok(true);
    }
    Ok(false)
}

/// Propagates over the sentences with a literal that the given one contradicts. Returns whether
/// there is a contradiction.
fn propagate_literal(trail: &mut Trail, l: Literal, formula: &Formula) -> Result<bool, AllocError>
    requires engine { IsFormula trail.old.0 formula.now }
    requires positive { ArePositive formula.now.goals.now }
    requires consistent { IsConsistent (set_of_trail trail.old.1) }
    requires class { l.class < trail.old.0 }
    requires there { set_of_trail trail.old.1 l ≡ true }
    ensures classes { OnOk result (trail.new.0 ≡ trail.old.0) }
    ensures runs { OnOk result (Runs (sentences_in formula.now) trail.old.1 trail.new.1) }
    ensures waits { IfOk result (λ contradiction.
        OnFalse contradiction ((s : List Literal) → Contains (sentences_in formula.now) s →
        Contains s (negation l) → Waits (length trail.old.1) trail.new.1 s)) }
    ensures refuted { IfOk result (λ contradiction.
        OnTrue contradiction (HasRefuted (sentences_in formula.now) (set_of_trail trail.new.1))) }
{
    let uses = formula.uses;
    let conflicts = formula.conflicts;
    if propagate_goals(trail, l, formula.goals)? {
        return Ok(true);
    }
    if propagate_row(trail, formula.own, uses[l.place()].as_slice())? {
        return Ok(true);
    }
    if !l.positive {
        return Ok(false);
    }
    if propagate_conflicts(trail, l.class, conflicts[l.class as usize].as_slice())? {
        return Ok(true);
    }
    Ok(false)
}

/// Propagates all literals of the trail from a place on, and those that are appended meanwhile.
/// Returns whether there is a contradiction.
pub(crate) fn propagate(
    trail: &mut Trail,
    from: usize,
    formula: &Formula,
) -> Result<bool, AllocError>
    requires engine { IsFormula trail.old.0 formula.now }
    requires positive { ArePositive formula.now.goals.now }
    requires consistent { IsConsistent (set_of_trail trail.old.1) }
    requires from { from ≤ length trail.old.1 }
    requires waits { All (Waits from trail.old.1) (sentences_in formula.now) }
    ensures classes { OnOk result (trail.new.0 ≡ trail.old.0) }
    ensures runs { OnOk result (Runs (sentences_in formula.now) trail.old.1 trail.new.1) }
    ensures closed { IfOk result (λ contradiction. OnFalse contradiction
        (IsUnitClosed (sentences_in formula.now) (set_of_trail trail.new.1))) }
    ensures refuted { IfOk result (λ contradiction.
        OnTrue contradiction (HasRefuted (sentences_in formula.now) (set_of_trail trail.new.1))) }
{
    let mut next = from;
    while next < trail.as_slice().len() {
        let l = trail.as_slice()[next];
        next += 1;
        if propagate_literal(trail, l, formula)? {
            return Ok(true);
        }
    }
    Ok(false)
}
