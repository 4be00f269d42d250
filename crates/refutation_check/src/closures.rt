//! The closure of signed classes, and whether it clashes.
ghost use Rattle.std.specs.Prelude.{◌≡◌, ◌+◌, ◌*◌, ◌<◌, ℕ, true, Bool, IfOk, IsTrue, ◌↔◌, All};
ghost use Rattle.std.specs.Prelude.{◌++◌, length, map};
ghost use Rattle.search_terms.specs.declared.literals.Literal.{Literal};
ghost use Rattle.search_terms.specs.Closure.{negation, IsUnitClosed, InRange, HasGiven, IsClosure};
ghost use Rattle.search_terms.specs.Closure.{Clashes};
ghost use Rattle.search_terms.specs.Marks.{is_marked, IsWithin, HasBoth, HasClash};

use crate::flags::{close, is_marked, is_some_refuted};
use search_terms::{Literal, LiteralList, negated};
use std::alloc::{AllocError, Global};

/// Marks these literals.
fn mark_all(flags: &mut [bool], classes: u32, given: &[Literal])
    requires long { length flags.old ≡ classes * 2 }
    requires given { All (λ l. l.class < classes) given.now }
    ensures all { HasGiven (is_marked flags.new) given.now }
    ensures only { (s : Literal → Bool) → HasGiven s given.now → IsWithin (is_marked flags.old) s →
        IsWithin (is_marked flags.new) s }
{
    for l in given {
        flags[l.place()] = true;
    }
}

/// Marks the closure.
fn fill(
    flags: &mut [bool],
    classes: u32,
    first: &[LiteralList],
    second: &[LiteralList],
    given: &[Literal],
)
    requires long { length flags.old ≡ classes * 2 }
    requires clear { (l : Literal) → is_marked flags.old l ≡ true → ⊥ }
    requires first { InRange classes first.now }
    requires second { InRange classes second.now }
    requires given { All (λ l. l.class < classes) given.now }
    ensures { IsClosure (first.now ++ second.now) given.now (is_marked flags.new) }
{
    mark_all(flags, classes, given);
    close(flags, classes, first, second);
}

/// The closure of the given literals over two lists of sentences, as flags.
fn closure(
    alloc: Global,
    classes: u32,
    first: &[LiteralList],
    second: &[LiteralList],
    given: &[Literal],
) -> Result<Vec<bool>, AllocError>
    requires first { InRange classes first.now }
    requires second { InRange classes second.now }
    requires given { All (λ l. l.class < classes) given.now }
    ensures closure { IfOk result (λ flags.
        IsClosure (first.now ++ second.now) given.now (is_marked flags.items)) }
    ensures long { IfOk result (λ flags. length flags.items ≡ classes * 2) }
{
    let mut flags = vec![in alloc; false; classes as usize * 2]?;
    fill(&mut flags, classes, first, second, given);
    Ok(flags)
}

/// Whether some class has both signs.
fn has_both(flags: &[bool], classes: u32) -> bool
    requires { length flags.now ≡ classes * 2 }
    ensures { IsTrue result ↔ HasBoth (is_marked flags.now) }
{
    for class in 0..classes {
        let l = Literal {
            class,
            positive: true,
        };
        if is_marked(flags, l) && is_marked(flags, l.negation()) {
            return true;
        }
    }
    false
}

/// Whether the marks clash.
fn is_clash(flags: &[bool], classes: u32, first: &[LiteralList], second: &[LiteralList]) -> bool
    requires { length flags.now ≡ classes * 2 }
    ensures { IsTrue result ↔ HasClash (first.now ++ second.now) (is_marked flags.now) }
{
    has_both(flags, classes) || is_some_refuted(flags, first) || is_some_refuted(flags, second)
}

/// Whether the closure of the given literals clashes.
fn clashes(
    alloc: Global,
    classes: u32,
    first: &[LiteralList],
    second: &[LiteralList],
    given: &[Literal],
) -> Result<bool, AllocError>
    requires first { InRange classes first.now }
    requires second { InRange classes second.now }
    requires given { All (λ l. l.class < classes) given.now }
    ensures { IfOk result (λ r. IsTrue r ↔ Clashes (first.now ++ second.now) given.now) }
{
    let flags = closure(alloc, classes, first, second, given)?;
    Ok(is_clash(&flags, classes, first, second))
}

/// Whether the closure of an entry's negated literals clashes, over two lists of sentences.
pub(crate) fn follows(
    alloc: Global,
    classes: u32,
    first: &[LiteralList],
    second: &[LiteralList],
    entry: &[Literal],
) -> Result<bool, AllocError>
    requires first { InRange classes first.now }
    requires second { InRange classes second.now }
    requires entry { All (λ l. l.class < classes) entry.now }
    ensures { IfOk result (λ r. IsTrue r
        ↔ Clashes (first.now ++ second.now) (map negation entry.now)) }
{
    let given = negated(alloc, entry)?;
    clashes(alloc, classes, first, second, &given)
}
