//! The relation fields of a stanza.
ghost use Rattle.std.specs.{Prelude.{◌++◌, IfOk}, List.{AllByRecursion}};
ghost use Rattle.std.specs.Option.{option_and_then, option_or};
ghost use Rattle.relation_fields.specs.Fields.{said_in};
ghost use Rattle.repo_model.specs.Fields.{field_among, value_among, IsShort};
ghost use Rattle.repo_model.specs.{FirstFault.{unless_said}, Refusals.{Answers}};

use crate::fault::IndexFault;
use crate::fields::find_field;
use listed::Listed;
use relation_fields::{ElementReader, RelationError, read_elements};
use stanza_reader::{FieldKind, RawField};
use std::alloc::Global;

/// What a relation field says; a missing one says nothing.
pub(crate) fn read_field<T: ElementReader>(
    alloc: Global,
    reader: &mut T,
    fields: &[RawField],
    kind: FieldKind,
) -> Result<Listed<T::Said>, IndexFault>
    requires { AllByRecursion IsShort fields.now }
    ensures said { Answers result (option_and_then (unless_said T.reading)
        (field_among kind fields.now)) (said_in T.reading (value_among kind fields.now)) }
    ensures reads { IfOk result (λ said. T.reads reader.old said reader.new) }
{
    let Some(field) = find_field(fields, kind) else {
        return Ok(Listed::new(alloc));
    };
    let line = field.line;
    match read_elements(alloc, reader, field.value.as_slice()) {
        Ok(said) => Ok(said),
        Err(RelationError::Shape { element }) => Err(IndexFault::BadRelation { line, element }),
        Err(RelationError::Memory) => Err(IndexFault::Memory),
    }
}

/// What one relation field says, followed by what another says.
pub(crate) fn read_both<T: ElementReader>(
    alloc: Global,
    reader: &mut T,
    fields: &[RawField],
    first: FieldKind,
    second: FieldKind,
) -> Result<Listed<T::Said>, IndexFault>
    requires { AllByRecursion IsShort fields.now }
    ensures said { Answers result (option_or (option_and_then (unless_said T.reading)
        (field_among first fields.now)) (option_and_then (unless_said T.reading)
        (field_among second fields.now))) (said_in T.reading (value_among first fields.now)
        ++ said_in T.reading (value_among second fields.now)) }
    ensures reads { IfOk result (λ said. T.reads reader.old said reader.new) }
{
    let mut said = read_field(alloc, reader, fields, first)?;
    let more = read_field(alloc, reader, fields, second)?;
    if said.as_slice().is_empty() {
        return Ok(more);
    }
    said.append(more)?;
    Ok(said)
}
