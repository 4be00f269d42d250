//! Reading the elements of a relation field.
ghost use Rattle.std.specs.Prelude.{◌≡◌, ◌++◌, [], IfOk, List, ℕ, Option};
ghost use Rattle.std.specs.Option.{option_to_list};
ghost use Rattle.relation_fields.specs.Grammar.{atom_of, alternatives_of, provide_at, provide_of};

use crate::atom_lists::AtomList;
use crate::atoms::read_atom;
use crate::relations::{Atom, Bound, Op, Provide};
use crate::texts::cut;
use listed::Listed;
use std::alloc::{AllocError, Global};

/// A way to read the elements of a relation field.
pub trait ElementReader {
    /// What an element says.
    type Said: Drop;

    /// What a text says, or nothing if it is outside the grammar.
    ghost reading: { List ℕ → Option Self.Said };

    /// From the first reader to the second, elements that say this were read.
    ghost reads: { Self → List Self.Said → Self → Type 0 };

    /// Reads the text of an element.
    fn read(&mut self, alloc: Global, element: &[u8]) -> Result<Option<Self::Said>, AllocError>
        ensures said { IfOk result (λ said. said ≡ reading element.now) }
        ensures reads { IfOk result (λ said. reads self.old (option_to_list said) self.new) };

    ghost reads_none: { (reader : Self) → reads reader [] reader };

    ghost reads_on: { (first second third : Self) (said more : List Self.Said) →
        reads first said second → reads second more third → reads first (said ++ more) third };
}

/// Each element is an atom, as in `Conflicts` and `Breaks`.
#[derive(Drop)]
pub struct AtomReader;

impl ElementReader for AtomReader {
    type Said = Atom;

    ghost reading = { atom_of };

    ghost reads = { λ before said after. Unit {0} };

    ghost reads_none = { λ reader. tt };

    ghost reads_on = { λ first second third said more one other. tt };

    fn read(&mut self, alloc: Global, element: &[u8]) -> Result<Option<Atom>, AllocError> {
        read_atom(alloc, element)
    }
}

/// Each element is a list of alternatives, as in `Pre-Depends` and `Depends`.
#[derive(Drop)]
pub struct NeedReader;

impl ElementReader for NeedReader {
    type Said = AtomList;

    ghost reading = { alternatives_of };

    ghost reads = { λ before said after. Unit {0} };

    ghost reads_none = { λ reader. tt };

    ghost reads_on = { λ first second third said more one other. tt };

    fn read(&mut self, alloc: Global, element: &[u8]) -> Result<Option<AtomList>, AllocError> {
        read_alternatives(alloc, element)
    }
}

/// Each element is a provide, as in `Provides`.
#[derive(Drop)]
pub struct ProvideReader;

impl ElementReader for ProvideReader {
    type Said = Provide;

    ghost reading = { provide_of };

    ghost reads = { λ before said after. Unit {0} };

    ghost reads_none = { λ reader. tt };

    ghost reads_on = { λ first second third said more one other. tt };

    fn read(&mut self, alloc: Global, element: &[u8]) -> Result<Option<Provide>, AllocError> {
        read_provide(alloc, element)
    }
}

/// The alternatives between the bars.
#[tactic(auto, unfolding(crate::specs::Grammar::alternatives_of))]
pub(crate) fn read_alternatives(alloc: Global, text: &[u8]) -> Result<Option<AtomList>, AllocError>
    ensures { IfOk result (λ atoms. atoms ≡ alternatives_of text.now) }
{
    // Most elements have one alternative, so the list begins with room for one.
    let mut atoms = Listed::of(Vec::with_capacity(alloc, 1)?);
    let mut left = Some(text);
    while let Some(rest) = left {
        let (piece, behind) = cut(rest, b'|');
        let Some(atom) = read_atom(alloc, piece)? else {
            return Ok(None);
        };
        atoms.push(atom)?;
        left = behind;
    }
    Ok(Some(AtomList::of(alloc, atoms)?))
}

// An atom whose operator, if it has one, is `=`.
#[tactic(auto, unfolding(crate::specs::Grammar::provide_of))]
fn read_provide(alloc: Global, text: &[u8]) -> Result<Option<Provide>, AllocError>
    ensures { IfOk result (λ said. said ≡ provide_of text.now) }
{
    match read_atom(alloc, text)? {
        Some(atom) => Ok(provide_from(atom)),
        None => Ok(None),
    }
}

// The provide that is written as the atom is, if that is one.
fn provide_from(atom: Atom) -> Option<Provide>
    ensures { result ≡ provide_at atom atom.bound }
{
    let Atom {
        name,
        qualifier,
        bound,
    } = atom;
    match bound {
        None => Some(Provide {
            name,
            qualifier,
            version: None,
        }),
        Some(
            Bound {
                op: Op::Exactly,
                version,
            },
        ) => Some(Provide {
            name,
            qualifier,
            version: Some(version),
        }),
        Some(_) => None,
    }
}
