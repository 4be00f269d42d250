//! The grammar of relations: the names of architectures, and laws.
ghost use Rattle.std.specs.{Prelude.{◌≡◌}, List.{list_all}};
ghost use Rattle.relation_fields.specs.Texts.{is_architecture_byte};
ghost use Rattle.relation_fields.specs.Grammar.{alternatives_of, atom_of, provide_of};
ghost use Rattle.relation_fields.specs.Grammar.{begins_architecture, is_architecture};
ghost use Rattle.relation_fields.specs.Spelling.{Reads, SpellsAlternatives, SpellsAtom};
ghost use Rattle.relation_fields.specs.Spelling.{SpellsProvide};

use crate::texts::{ByteKind, has_kind};

/// Whether the text is the name of an architecture: lower-case letters, digits and hyphens, and the
/// first is no hyphen.
pub fn is_architecture(text: &[u8]) -> bool
    ensures { result ≡ is_architecture text.now }
{
    begins_well(text) && has_architecture_bytes(text)
}

// Whether there is a first byte, and it is a lower-case letter or a digit.
fn begins_well(text: &[u8]) -> bool
    ensures { result ≡ begins_architecture text.now }
{
    match text {
        [first, ..] => first.is_ascii_lowercase() || first.is_ascii_digit(),
        [] => false,
    }
}

// Whether each byte may stand in the name of an architecture.
fn has_architecture_bytes(text: &[u8]) -> bool
    ensures { result ≡ list_all is_architecture_byte text.now }
{
    text.iter().all(|byte| has_kind(*byte, ByteKind::Qualifier))
}

/// An element is read as what it is one way of writing, and each way of writing it is read.
pub fn readings_are_spellings()
    ensures atoms { Reads atom_of SpellsAtom }
    ensures alternatives { Reads alternatives_of SpellsAlternatives }
    ensures provides { Reads provide_of SpellsProvide }
{}
