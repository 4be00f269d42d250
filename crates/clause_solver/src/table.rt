//! The table of the sentences that a literal concerns.
ghost use Rattle.std.specs.Prelude.{◌≡◌, ◌<◌, ◌+◌, ◌*◌, [], IfOk, OnOk, All, Contains, length};
ghost use Rattle.search_terms.specs.Closure.{InRange};
ghost use Rattle.clause_solver.specs.Engine.{Enters, IsTable, IsUseOf};

use listed::{Listed, empty_lists};
use search_terms::{Literal, LiteralList};
use std::alloc::{AllocError, Global};

/// A sentence with a literal that another one contradicts, and the flags that contradict two others
/// of its literals, if it has two. As long as these are two flags and neither is up, the sentence
/// forces nothing, and is not read.
#[derive(Clone, Copy, Drop)]
pub(crate) struct Use {
    /// The place of the sentence.
    pub(crate) sentence: usize,
    /// The flag that contradicts one of its literals.
    pub(crate) one: usize,
    /// The flag that contradicts another one.
    pub(crate) other: usize,
}

/// The first literal of the sentence besides two given ones, or the first of these.
fn besides(sentence: &[Literal], l: Literal, m: Literal) -> Literal
    requires { Contains sentence.now l }
    ensures { Contains sentence.now result }
{
    sentence
        .iter()
        .copied()
        .find(|n| !n.is_same(l) && !n.is_same(m))
        .unwrap_or(l)
}

/// The use of a sentence when one of its literals is contradicted.
fn use_of(sentence: &[Literal], l: Literal, k: usize) -> Use
    requires { Contains sentence.now l }
    ensures { IsUseOf sentence.now k result }
{
    let one = besides(sentence, l, l);
    let other = besides(sentence, l, one);
    Use {
        sentence: k,
        one: one.negation().place(),
        other: other.negation().place(),
    }
}

/// Enters a sentence under the other sign of each of its literals.
fn enter(uses: &mut [Listed<Use>], sentence: &[Literal], k: usize) -> Result<(), AllocError>
    requires { All (λ l. l.class * 2 + 1 < length uses.old) sentence.now }
    ensures { OnOk result (Enters uses.old uses.new sentence.now k) }
{
    for l in sentence {
        let entry = use_of(sentence, *l, k);
        uses[l.negation().place()].push(entry)?;
    }
    Ok(())
}

/// Enters each sentence.
fn enter_all(uses: &mut [Listed<Use>], classes: u32, own: &[LiteralList]) -> Result<(), AllocError>
    requires long { length uses.old ≡ classes * 2 }
    requires empty { All (λ row. row ≡ []) uses.old }
    requires ranged { InRange classes own.now }
    ensures { OnOk result (IsTable classes uses.new own.now) }
{
    for (k, sentence) in own.iter().enumerate() {
        enter(uses, sentence.as_slice(), k)?;
    }
    Ok(())
}

/// The table of the sentences: for each literal the uses of those that have a literal which it
/// contradicts.
pub(crate) fn table_of(
    alloc: Global,
    classes: u32,
    own: &[LiteralList],
) -> Result<Vec<Listed<Use>>, AllocError>
    requires { InRange classes own.now }
    ensures { IfOk result (λ uses. IsTable classes uses.items own.now) }
{
    let mut uses = empty_lists(alloc, classes as usize * 2)?;
    enter_all(&mut uses, classes, own)?;
    Ok(uses)
}
