//! Reading an atom.
ghost use Rattle.std.specs.{Prelude.{◌≡◌, true, IfOk}, Option.{option_copied, option_map_or}};
ghost use Rattle.relation_fields.specs.Grammar.{op_of, bound_at, bound_of, in_parentheses};
ghost use Rattle.relation_fields.specs.Grammar.{restriction_of, is_architecture, name_at};
ghost use Rattle.relation_fields.specs.Grammar.{behind_name, qualifier_at, behind_qualifier};
ghost use Rattle.relation_fields.specs.Grammar.{atom_of};

use crate::grammar::is_architecture;
use crate::relations::{Atom, Bound, Op};
use crate::texts::{ByteKind, split_front, strip_first, strip_last};
use deb_version::{Bytes, Version, VersionError, is_package_name};
use listed::{trim, trim_front};
use std::alloc::{AllocError, Global};

/// The atom that the text says, or nothing if the text is outside the grammar.
#[tactic(auto, unfolding(crate::specs::Grammar::atom_of))]
pub(crate) fn read_atom(alloc: Global, text: &[u8]) -> Result<Option<Atom>, AllocError>
    ensures { IfOk result (λ atom. atom ≡ atom_of text.now) }
{
    let (name, behind) = split_name(trim_front(text));
    let (qualifier, behind) = split_qualifier(behind);
    if !is_package_name(name) {
        return Ok(None);
    }
    if !fits_qualifier(qualifier) {
        return Ok(None);
    }
    let Some(bound) = read_restriction(alloc, trim(behind))? else {
        return Ok(None);
    };
    Ok(Some(Atom {
        name: Bytes::copy(alloc, name)?,
        qualifier: copy_written(alloc, qualifier)?,
        bound,
    }))
}

// The name at the front, and what follows it.
#[tactic(auto, unfolding(crate::specs::Grammar::name_at, crate::specs::Grammar::behind_name))]
fn split_name(text: &[u8]) -> (&[u8], &[u8])
    ensures name { result.0.now ≡ name_at text.now }
    ensures behind { result.1.now ≡ behind_name text.now }
{
    split_front(text, ByteKind::Name)
}

// The qualifier, if there is a colon at the front, and what follows it.
#[tactic(auto, unfolding(crate::specs::Grammar::qualifier_at, crate::specs::behind_qualifier))]
fn split_qualifier(text: &[u8]) -> (Option<&[u8]>, &[u8])
    ensures qualifier { option_copied result.0 ≡ qualifier_at text.now }
    ensures behind { result.1.now ≡ behind_qualifier text.now }
{
    match strip_first(text, b':') {
        Some(behind) => {
            let (qualifier, rest) = split_front(behind, ByteKind::Qualifier);
            (Some(qualifier), rest)
        }
        None => (None, text),
    }
}

// Whether the qualifier, if there is one, has the shape of an architecture's name.
fn fits_qualifier(qualifier: Option<&[u8]>) -> bool
    ensures { result ≡ option_map_or is_architecture (option_copied qualifier.entry) true }
{
    match qualifier {
        Some(text) => is_architecture(text),
        None => true,
    }
}

// A copy of the text, if it is written.
fn copy_written(alloc: Global, text: Option<&[u8]>) -> Result<Option<Bytes>, AllocError>
    ensures { IfOk result (λ copy. copy ≡ option_copied text.entry) }
{
    match text {
        Some(written) => Ok(Some(Bytes::copy(alloc, written)?)),
        None => Ok(None),
    }
}

// What follows a name: nothing, or a restriction in parentheses.
#[tactic(auto, unfolding(crate::specs::Grammar::restriction_of))]
fn read_restriction(alloc: Global, text: &[u8]) -> Result<Option<Option<Bound>>, AllocError>
    ensures { IfOk result (λ bound. bound ≡ restriction_of text.now) }
{
    if text.is_empty() {
        return Ok(Some(None));
    }
    let Some(inside) = strip_parentheses(text) else {
        return Ok(None);
    };
    match read_bound(alloc, inside)? {
        Some(bound) => Ok(Some(Some(bound))),
        None => Ok(None),
    }
}

// What is between an opening parenthesis at the front and a closing one at the end.
fn strip_parentheses(text: &[u8]) -> Option<&[u8]>
    ensures { option_copied result ≡ in_parentheses text.now }
{
    strip_last(strip_first(text, b'(')?, b')')
}

// An operator and a version, with white space around each.
#[tactic(auto, unfolding(crate::specs::Grammar::bound_of))]
fn read_bound(alloc: Global, text: &[u8]) -> Result<Option<Bound>, AllocError>
    ensures { IfOk result (λ bound. bound ≡ bound_of text.now) }
{
    let (operator, behind) = split_front(trim_front(text), ByteKind::Operator);
    match read_op(operator) {
        Some(op) => read_version(alloc, op, trim(behind)),
        None => Ok(None),
    }
}

// The restriction to a version, if the text is one.
fn read_version(alloc: Global, op: Op, text: &[u8]) -> Result<Option<Bound>, AllocError>
    ensures { IfOk result (λ bound. bound ≡ bound_at text.now op) }
{
    match Version::parse(alloc, text) {
        Ok(version) => Ok(Some(Bound { op, version })),
        Err(VersionError::Shape) => Ok(None),
        Err(VersionError::Memory) => Err(AllocError),
    }
}

// The operator that the text writes; the old `<` and `>` are read as `<=` and `>=`.
#[tactic(auto, unfolding(crate::specs::Grammar::op_of))]
fn read_op(text: &[u8]) -> Option<Op>
    ensures { result ≡ op_of text.now }
{
    if text == b"<<".as_slice() {
        Some(Op::Earlier)
    } else if text == b"<=".as_slice() {
        Some(Op::EarlierEqual)
    } else if text == b"=".as_slice() {
        Some(Op::Exactly)
    } else if text == b">=".as_slice() {
        Some(Op::LaterEqual)
    } else if text == b">>".as_slice() {
        Some(Op::Later)
    } else if text == b"<".as_slice() {
        Some(Op::EarlierEqual)
    } else if text == b">".as_slice() {
        Some(Op::LaterEqual)
    } else {
        None
    }
}
