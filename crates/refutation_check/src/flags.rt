//! Marks as flags, and unit steps by scanning the formula.
ghost use Rattle.std.specs.Prelude.{◌≡◌, ◌+◌, ◌*◌, ℕ, not, ◌&&◌, find, true, Bool, IfNone, IfSome};
ghost use Rattle.std.specs.{Prelude.{Any, Contains, All, ◌++◌, length}, List.{list_any}};
ghost use Rattle.search_terms.specs.declared.literals.Literal.{Literal};
ghost use Rattle.search_terms.specs.Closure.{negation, is_same, forces, is_refuted, IsUnitClosed};
ghost use Rattle.search_terms.specs.Closure.{InRange};
ghost use Rattle.search_terms.specs.Marks.{flag_place, is_marked, IsForced, IsWithin};

use search_terms::{Literal, LiteralList};

/// Whether the literal is marked.
pub(crate) fn is_marked(flags: &[bool], l: Literal) -> bool
    ensures { result ≡ is_marked flags.now l }
{
    flags.get(l.place()).copied().unwrap_or(false)
}

/// Whether the marks contradict each literal of the sentence but this one.
fn is_forced(flags: &[bool], l: Literal, sentence: &[Literal]) -> bool
    ensures { result ≡ forces (is_marked flags.now) l sentence.now }
{
    sentence
        .iter()
        .all(|m| m.is_same(l) || is_marked(flags, m.negation()))
}

/// Whether the marks contradict each literal of the sentence.
fn is_all_contradicted(flags: &[bool], sentence: &[Literal]) -> bool
    ensures { result ≡ is_refuted (is_marked flags.now) sentence.now }
{
    sentence.iter().all(|m| is_marked(flags, m.negation()))
}

/// Whether the marks contradict each literal of some sentence.
pub(crate) fn is_some_refuted(flags: &[bool], formula: &[LiteralList]) -> bool
    ensures { result ≡ list_any (is_refuted (is_marked flags.now)) formula.now }
{
    formula
        .iter()
        .any(|sentence| is_all_contradicted(flags, sentence.as_slice()))
}

/// A literal that the sentence forces and that is not marked.
fn forced_in(flags: &[bool], sentence: &[Literal]) -> Option<Literal>
    ensures { result ≡ find (λ l.
        not (is_marked flags.now l) && forces (is_marked flags.now) l sentence.now) sentence.now }
{
    sentence.iter().copied().find(|l| !is_marked(flags, *l) && is_forced(flags, *l, sentence))
}

/// A literal that some sentence forces and that is not marked.
fn forced(flags: &[bool], formula: &[LiteralList]) -> Option<Literal>
    ensures some { IfSome result (λ l. IsForced formula.now (is_marked flags.now) l) }
    ensures none { IfNone result (IsUnitClosed formula.now (is_marked flags.now)) }
{
    for sentence in formula {
        if let Some(l) = forced_in(flags, sentence.as_slice()) {
            return Some(l);
        }
    }
    None
}

/// As `forced`, but over two lists of sentences.
fn forced_by_either(
    flags: &[bool],
    first: &[LiteralList],
    second: &[LiteralList],
) -> Option<Literal>
    ensures some { IfSome result (λ l. IsForced (first.now ++ second.now) (is_marked flags.now) l) }
    ensures none { IfNone result (IsUnitClosed (first.now ++ second.now) (is_marked flags.now)) }
{
    match forced(flags, first) {
        Some(l) => Some(l),
        None => forced(flags, second),
    }
}

/// Marks what follows by unit steps.
pub(crate) fn close(flags: &mut [bool], classes: u32, first: &[LiteralList], second: &[LiteralList])
    requires long { length flags.old ≡ classes * 2 }
    requires first { InRange classes first.now }
    requires second { InRange classes second.now }
    ensures kept { IsWithin (is_marked flags.old) (is_marked flags.new) }
    ensures sound { (s : Literal → Bool) → IsWithin (is_marked flags.old) s →
        IsUnitClosed (first.now ++ second.now) s → IsWithin (is_marked flags.new) s }
    ensures closed { IsUnitClosed (first.now ++ second.now) (is_marked flags.new) }
{
    while let Some(l) = forced_by_either(flags, first, second) {
        flags[l.place()] = true;
    }
}
