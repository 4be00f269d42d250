//! Unit steps of sentences. Each call returns whether there is a contradiction.
ghost use Rattle.std.specs.Prelude.{◌≡◌, ◌<◌, ◌∷◌, [], true, false, All, OnOk, IfOk, length, map};
ghost use Rattle.std.specs.{Prelude.{slice_index_or}, Bool.{OnTrue, OnFalse}};
ghost use Rattle.search_terms.specs.Closure.{literal, InRange, IsClosedUnder, is_refuted};
ghost use Rattle.search_terms.specs.{Marks.{IsConsistent}, Form.{conflict_sentence}};
ghost use Rattle.clause_solver.specs.{Marking.{set_of_trail}, Engine.{IsUse}};
ghost use Rattle.clause_solver.specs.Running.{HasRefuted, Runs, Waits};

use crate::reading::{first_free, has_two_free, is_forced};
use crate::table::Use;
use crate::trail::Trail;
use search_terms::{Literal, LiteralList};
use std::alloc::AllocError;

/// Marks the literal that the sentence forces, if there is one.
pub(crate) fn unit_step(trail: &mut Trail, sentence: &[Literal]) -> Result<bool, AllocError>
    requires ranged { All (λ l. l.class < trail.old.0) sentence.now }
    requires consistent { IsConsistent (set_of_trail trail.old.1) }
    ensures classes { OnOk result (trail.new.0 ≡ trail.old.0) }
    ensures runs { OnOk result (Runs (sentence.now ∷ []) trail.old.1 trail.new.1) }
    ensures met { IfOk result (λ contradiction.
        OnFalse contradiction (IsClosedUnder (set_of_trail trail.new.1) sentence.now)) }
    ensures refuted { IfOk result (λ contradiction.
        OnTrue contradiction (is_refuted (set_of_trail trail.new.1) sentence.now ≡ true)) }
{
    let Some(l) = first_free(trail, sentence) else {
        return Ok(true);
    };
    if trail.has(l) {
        return Ok(false);
    }
    if !is_forced(trail, l, sentence) {
        return Ok(false);
    }
    trail.put(l)?;
    Ok(false)
}

/// Propagates each sentence.
pub(crate) fn propagate_all(
    trail: &mut Trail,
    sentences: &[LiteralList],
) -> Result<bool, AllocError>
    requires ranged { InRange trail.old.0 sentences.now }
    requires consistent { IsConsistent (set_of_trail trail.old.1) }
    ensures classes { OnOk result (trail.new.0 ≡ trail.old.0) }
    ensures runs { OnOk result (Runs sentences.now trail.old.1 trail.new.1) }
    ensures waits { IfOk result (λ contradiction.
        OnFalse contradiction (All (Waits (length trail.old.1) trail.new.1) sentences.now)) }
    ensures refuted { IfOk result (λ contradiction.
        OnTrue contradiction (HasRefuted sentences.now (set_of_trail trail.new.1))) }
{
    for sentence in sentences {
        if unit_step(trail, sentence.as_slice())? {
            return Ok(true);
        }
    }
    Ok(false)
}

/// Propagates the sentence of a use. It is not read if two of its literals are known to be not
/// contradicted.
fn propagate_use(
    trail: &mut Trail,
    sentences: &[LiteralList],
    entry: Use,
) -> Result<bool, AllocError>
    requires ranged { InRange trail.old.0 sentences.now }
    requires consistent { IsConsistent (set_of_trail trail.old.1) }
    requires used { IsUse sentences.now entry }
    ensures classes { OnOk result (trail.new.0 ≡ trail.old.0) }
    ensures runs { OnOk result
        (Runs (slice_index_or sentences.now entry.sentence [] ∷ []) trail.old.1 trail.new.1) }
    ensures met { IfOk result (λ contradiction. OnFalse contradiction
        (IsClosedUnder (set_of_trail trail.new.1)
        (slice_index_or sentences.now entry.sentence []))) }
    ensures refuted { IfOk result (λ contradiction. OnTrue contradiction
        (is_refuted (set_of_trail trail.new.1)
        (slice_index_or sentences.now entry.sentence []) ≡ true)) }
{
    if has_two_free(trail, entry) {
        return Ok(false);
    }
    let contradiction = unit_step(trail, sentences[entry.sentence].as_slice())?;
    Ok(contradiction)
}

/// Propagates the sentences of the row's uses.
pub(crate) fn propagate_row(
    trail: &mut Trail,
    sentences: &[LiteralList],
    row: &[Use],
) -> Result<bool, AllocError>
    requires ranged { InRange trail.old.0 sentences.now }
    requires consistent { IsConsistent (set_of_trail trail.old.1) }
    requires row { All (IsUse sentences.now) row.now }
    ensures classes { OnOk result (trail.new.0 ≡ trail.old.0) }
    ensures runs { OnOk result (Runs sentences.now trail.old.1 trail.new.1) }
    ensures waits { IfOk result (λ contradiction. OnFalse contradiction (All (λ u. Waits
        (length trail.old.1) trail.new.1 (slice_index_or sentences.now u.sentence [])) row.now)) }
    ensures refuted { IfOk result (λ contradiction.
        OnTrue contradiction (HasRefuted sentences.now (set_of_trail trail.new.1))) }
{
    for entry in row {
        if propagate_use(trail, sentences, *entry)? {
            return Ok(true);
        }
    }
    Ok(false)
}

/// Excludes the classes that conflict with a true one.
pub(crate) fn propagate_conflicts(
    trail: &mut Trail,
    class: u32,
    others: &[u32],
) -> Result<bool, AllocError>
    requires class { set_of_trail trail.old.1 (literal class true) ≡ true }
    requires own { class < trail.old.0 }
    requires others { All (λ q. q < trail.old.0) others.now }
    requires consistent { IsConsistent (set_of_trail trail.old.1) }
    ensures classes { OnOk result (trail.new.0 ≡ trail.old.0) }
    ensures runs { OnOk result
        (Runs (map (conflict_sentence class) others.now) trail.old.1 trail.new.1) }
    ensures excluded { IfOk result (λ contradiction. OnFalse contradiction (All (λ q.
        set_of_trail trail.new.1 (literal q false) ≡ true) others.now)) }
    ensures refuted { IfOk result (λ contradiction. OnTrue contradiction
        (HasRefuted (map (conflict_sentence class) others.now) (set_of_trail trail.new.1))) }
{
    for q in others {
        let sentence = [
            Literal {
                class,
                positive: false,
            },
            Literal {
                class: *q,
                positive: false,
            },
        ];
        if unit_step(trail, &sentence)? {
            return Ok(true);
        }
    }
    Ok(false)
}
