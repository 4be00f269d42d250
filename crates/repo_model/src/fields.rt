//! The fields of a stanza by their kinds.
ghost use Rattle.std.specs.{Prelude.{◌≡◌, IfSome}, List.{AllByRecursion, position}};
ghost use Rattle.std.specs.Option.{option_copied};
ghost use Rattle.repo_model.specs.Fields.{field_among, is_kind, IsShort};

use stanza_reader::{FieldKind, RawField};

/// The first field of a kind, if there is one.
pub fn find_field(fields: &[RawField], kind: FieldKind) -> Option<&RawField>
    ensures value { option_copied result ≡ field_among kind fields.now }
    ensures short { AllByRecursion IsShort fields.now → IfSome result (λ field. IsShort field.now) }
{
    fields.iter().find(|field| has_kind(field, kind))
}

/// The place of the first field of a kind, if there is one.
pub(crate) fn place_of(fields: &[RawField], kind: FieldKind) -> Option<usize>
    ensures { result ≡ position (λ field. is_kind kind field.kind) fields.now }
{
    fields.iter().position(|field| has_kind(field, kind))
}

fn has_kind(field: &RawField, kind: FieldKind) -> bool
    ensures { result ≡ is_kind kind field.now.kind }
{
    field.kind == kind
}
