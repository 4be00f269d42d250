//! What the trail says of sentences.
ghost use Rattle.std.specs.{Prelude.{◌≡◌, true, not}, List.{find}};
ghost use Rattle.search_terms.specs.{Closure.{negation, forces}, Tree.{is_open_need, is_undecided}};
ghost use Rattle.clause_solver.specs.{Marking.{set_of_trail}, Engine.{HasTwoFree}};

use crate::table::Use;
use crate::trail::Trail;
use search_terms::Literal;

/// The first literal that is not contradicted.
pub(crate) fn first_free(trail: &Trail, sentence: &[Literal]) -> Option<Literal>
    ensures { result ≡ find (λ m. not (set_of_trail trail.now.1 (negation m))) sentence.now }
{
    sentence.iter().copied().find(|m| !trail.has(m.negation()))
}

/// Whether all the others are contradicted.
pub(crate) fn is_forced(trail: &Trail, l: Literal, sentence: &[Literal]) -> bool
    ensures { result ≡ forces (set_of_trail trail.now.1) l sentence.now }
{
    sentence
        .iter()
        .all(|m| m.is_same(l) || trail.has(m.negation()))
}

/// Whether the use keeps two flags and neither is up: then the sentence has two literals that are
/// not contradicted.
pub(crate) fn has_two_free(trail: &Trail, entry: Use) -> bool
    ensures { result ≡ true → HasTwoFree (set_of_trail trail.now.1) entry }
{
    entry.one != entry.other && !trail.is_up(entry.one) && !trail.is_up(entry.other)
}

pub(crate) fn is_open_need(trail: &Trail, sentence: &[Literal]) -> bool
    ensures { result ≡ is_open_need (set_of_trail trail.now.1) sentence.now }
{
    sentence.iter().all(|l| {
        if l.positive {
            !trail.has(*l)
        } else {
            trail.has(l.negation())
        }
    })
}

pub(crate) fn undecided(trail: &Trail, sentence: &[Literal]) -> Option<Literal>
    ensures { result ≡ find (is_undecided (set_of_trail trail.now.1)) sentence.now }
{
    sentence
        .iter()
        .copied()
        .find(|l| !trail.has(*l) && !trail.has(l.negation()))
}
