//! Reading relation fields.
ghost use Rattle.std.specs.Prelude.{◌≡◌, ◌<◌, length, None, Some, IfOk, IfErr, OnOk};
ghost use Rattle.relation_fields.specs.Grammar.{atom_of, alternatives_of, provide_of};
ghost use Rattle.relation_fields.specs.Fields.{first_outside, said_in};
ghost use Rattle.relation_fields.specs.Spelling.{SpellsEach, SpellsAlternatives, SpellsAtom};
ghost use Rattle.relation_fields.specs.Spelling.{SpellsProvide, IsFirstFaultyElement};
ghost use Rattle.relation_fields.specs.Refusals.{OnFaultyElement};

use crate::atom_lists::AtomList;
use crate::elements::{AtomReader, ElementReader, NeedReader, ProvideReader};
use crate::relations::{ElementList, ProvideList};
use crate::texts::{cut, is_white};
use listed::Listed;
use memchr::memchr_iter;
use std::alloc::{AllocError, Global};

/// At most this many elements get their room at once; for more of them the list grows as they come.
const MOST_AT_ONCE: usize = 1024;

/// Why a relation field was not read.
#[derive(Clone, Copy, Debug, PartialEq, Eq)]
pub enum RelationError {
    /// An element is outside the grammar, and is the first such element.
    Shape {
        /// The number of the element, from 1; elements of white space alone count.
        element: u32,
    },
    /// No memory was found.
    Memory,
}

impl From<AllocError> for RelationError {
    ghost use Rattle.std.specs.Prelude.{◌≡◌};
    ghost use Rattle.relation_fields.specs.declared.fields.RelationError.TheVariants.{Memory};

    ghost from_gives = { λ _ e. e ≡ Memory };

    fn from(_error: AllocError) -> Self {
        RelationError::Memory
    }
}

/// Reads the value of `Pre-Depends` or `Depends`: elements between commas, each a list of
/// alternatives.
///
/// Time is linear in the value.
pub fn parse_needs(alloc: Global, value: &[u8]) -> Result<ElementList, RelationError>
    requires { length value.now < u32.MAX }
    ensures said { IfOk result (λ elements. elements ≡ said_in alternatives_of value.now) }
    ensures accepted { OnOk result (first_outside alternatives_of value.now ≡ None) }
    ensures shape { IfErr result (OnFaultyElement (λ element.
        first_outside alternatives_of value.now ≡ Some element)) }

    // Here by how relations are written.
    ensures spelled { IfOk result (SpellsEach SpellsAlternatives value.now) }
    ensures fault { IfErr result
        (OnFaultyElement (IsFirstFaultyElement SpellsAlternatives value.now)) }
{
    read_elements(alloc, &mut NeedReader, value)
}

/// Reads the value of `Conflicts` or `Breaks`: elements between commas, each one atom.
///
/// Time is linear in the value.
pub fn parse_against(alloc: Global, value: &[u8]) -> Result<AtomList, RelationError>
    requires { length value.now < u32.MAX }
    ensures said { IfOk result (λ atoms. atoms ≡ said_in atom_of value.now) }
    ensures accepted { OnOk result (first_outside atom_of value.now ≡ None) }
    ensures shape { IfErr result (OnFaultyElement (λ element. first_outside atom_of value.now
        ≡ Some element)) }

    // Here by how relations are written.
    ensures spelled { IfOk result (SpellsEach SpellsAtom value.now) }
    ensures fault { IfErr result (OnFaultyElement (IsFirstFaultyElement SpellsAtom value.now)) }
{
    let atoms = read_elements(alloc, &mut AtomReader, value)?;
    Ok(AtomList::of(alloc, atoms)?)
}

/// Reads the value of `Provides`: elements between commas, each one provide.
///
/// Time is linear in the value.
pub fn parse_provides(alloc: Global, value: &[u8]) -> Result<ProvideList, RelationError>
    requires { length value.now < u32.MAX }
    ensures said { IfOk result (λ provides. provides ≡ said_in provide_of value.now) }
    ensures accepted { OnOk result (first_outside provide_of value.now ≡ None) }
    ensures shape { IfErr result (OnFaultyElement (λ element. first_outside provide_of value.now
        ≡ Some element)) }

    // Here by how relations are written.
    ensures spelled { IfOk result (SpellsEach SpellsProvide value.now) }
    ensures fault { IfErr result (OnFaultyElement (IsFirstFaultyElement SpellsProvide value.now)) }
{
    read_elements(alloc, &mut ProvideReader, value)
}

/// Reads the value of a relation field: what the elements between its commas say, or the number of
/// the first that is outside the grammar.
///
/// Time is linear in the value, if the reader's time is linear in an element.
#[tactic(auto, unfolding(crate::specs::Fields::first_outside, crate::specs::Fields::said_in))]
pub fn read_elements<T: ElementReader>(
    alloc: Global,
    reader: &mut T,
    value: &[u8],
) -> Result<Listed<T::Said>, RelationError>
    requires { length value.now < u32.MAX }
    ensures said { IfOk result (λ said. said ≡ said_in T.reading value.now) }
    ensures accepted { OnOk result (first_outside T.reading value.now ≡ None) }
    ensures shape { IfErr result (OnFaultyElement (λ element. first_outside T.reading value.now
        ≡ Some element)) }
    ensures reads { IfOk result (λ said. T.reads reader.old said reader.new) }
{
    let mut said = Listed::of(Vec::with_capacity(alloc, room_for(value))?);
    let mut element = 0u32;
    let mut left = Some(value);
    while let Some(rest) = left {
        let (text, behind) = cut(rest, b',');
        element += 1;
        if !is_white(text) {
            let Some(one) = reader.read(alloc, text)? else {
                return Err(RelationError::Shape { element });
            };
            said.push(one)?;
        }
        left = behind;
    }
    Ok(said)
}

// Room for the elements of a value. Commas are counted by groups of bytes, which is faster than a
// list that grows.
fn room_for(value: &[u8]) -> usize {
    memchr_iter(b',', value).count().min(MOST_AT_ONCE - 1) + 1
}
