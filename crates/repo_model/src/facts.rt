//! The package that a stanza describes, or the fault of its fields.
//!
//! The name comes last, so that the owner of the stanza gives it away without a copy.
ghost use Rattle.std.specs.{Prelude.{◌≡◌, ◌++◌, None, Some, IfOk, is_some}, List.{AllByRecursion}};
ghost use Rattle.std.specs.Option.{option_and_then, option_copied, option_or};
ghost use Rattle.deb_version.specs.{Names.{is_name}, Grammar.{is_version}};
ghost use Rattle.relation_fields.specs.{Grammar.{is_architecture, atom_of}, Fields.{said_in}};
ghost use Rattle.repo_model.specs.declared.fault.IndexFault.TheVariants.{BadPackage, BadVersion};
ghost use Rattle.repo_model.specs.declared.fault.IndexFault.TheVariants.{BadArchitecture};
ghost use Rattle.repo_model.specs.Fields.{field_among, field_of, value_among, value_of, IsShort};
ghost use Rattle.repo_model.specs.Fields.{HasShortValues};
ghost use Rattle.repo_model.specs.Facts.{architecture_of, facts_of, is_all};
ghost use Rattle.repo_model.specs.Nameless.{named, nameless};
ghost use Rattle.repo_model.specs.FirstFault.{own_fault, unless_good, unless_said};
ghost use Rattle.repo_model.specs.Refusals.{Answers};

use crate::fault::IndexFault;
use crate::fields::{find_field, place_of};
use crate::relations::{read_both, read_field};
use deb_version::{Bytes, Version, VersionError, is_package_name};
use relation_fields::{
    AtomList, AtomReader, ElementList, ElementTable, PackageFacts, ProvideList, ProvideReader,
    is_architecture,
};
use stanza_reader::{FieldKind, RawField, RawStanza};
use std::alloc::Global;

/// The package that a stanza describes, without its name.
#[derive(Drop)]
pub(crate) struct NamelessFacts {
    pub(crate) line: u64,
    pub(crate) version: Version,
    pub(crate) is_arch_dependent: bool,
    pub(crate) needs: ElementList,
    pub(crate) against: AtomList,
    pub(crate) provides: ProvideList,
}

impl NamelessFacts {
    /// The package with that name.
    pub(crate) fn named(self, name: Bytes) -> PackageFacts
        ensures { result ≡ named self name }
    {
        let NamelessFacts {
            line,
            version,
            is_arch_dependent,
            needs,
            against,
            provides,
        } = self;
        PackageFacts {
            line,
            name,
            version,
            is_arch_dependent,
            needs,
            against,
            provides,
        }
    }
}

/// The package that a stanza describes, without its name, or the first fault of its fields.
#[tactic(auto, unfolding(crate::specs::FirstFault::presence_fault, crate::specs::value_fault))]
pub(crate) fn read_facts(
    alloc: Global,
    elements: &mut ElementTable,
    stanza: &RawStanza,
    architecture: Option<&RawField>,
) -> Result<NamelessFacts, IndexFault>
    requires short { HasShortValues stanza.now }
    requires architecture { option_copied architecture
        ≡ field_of FieldKind.Architecture stanza.now }
    ensures facts { Answers result (own_fault stanza.now) (nameless (facts_of stanza.now)) }
    ensures noted { IfOk result (λ facts. elements.new ≡ elements.old ++ facts.needs) }
{
    let line = stanza.line;
    let fields = stanza.fields.as_slice();
    let Some(name) = find_field(fields, FieldKind::Package) else {
        return Err(IndexFault::MissingPackage { line });
    };
    let Some(version) = find_field(fields, FieldKind::Version) else {
        return Err(IndexFault::MissingVersion { line });
    };
    check_name(name)?;
    let version = read_version(alloc, version)?;
    check_architecture(architecture)?;
    let is_arch_dependent = is_arch_dependent(architecture);
    let needs = read_both(
        alloc,
        elements,
        fields,
        FieldKind::PreDepends,
        FieldKind::Depends,
    )?;
    let against = read_against(alloc, fields)?;
    let provides = read_field(alloc, &mut ProvideReader, fields, FieldKind::Provides)?;
    Ok(NamelessFacts {
        line,
        version,
        is_arch_dependent,
        needs,
        against,
        provides,
    })
}

// The atoms of `Conflicts`, and then those of `Breaks`.
fn read_against(alloc: Global, fields: &[RawField]) -> Result<AtomList, IndexFault>
    requires { AllByRecursion IsShort fields.now }
    ensures { Answers result (option_or (option_and_then (unless_said atom_of) (field_among
        FieldKind.Conflicts fields.now)) (option_and_then (unless_said atom_of) (field_among
        FieldKind.Breaks fields.now))) (said_in atom_of (value_among FieldKind.Conflicts fields.now)
        ++ said_in atom_of (value_among FieldKind.Breaks fields.now)) }
{
    let atoms = read_both(
        alloc,
        &mut AtomReader,
        fields,
        FieldKind::Conflicts,
        FieldKind::Breaks,
    )?;
    Ok(AtomList::of(alloc, atoms)?)
}

/// The value of the field `Package`, taken out of its stanza; that of a missing field is empty.
pub(crate) fn name_of(alloc: Global, stanza: RawStanza) -> Bytes
    ensures { result ≡ value_of FieldKind.Package stanza }
{
    let RawStanza { fields, .. } = stanza;
    let mut fields = fields.into_vec();
    match place_of(fields.as_slice(), FieldKind::Package) {
        Some(place) => value_in(fields.swap_remove(place)),
        None => Bytes::of(Vec::new(alloc)),
    }
}

// The value of a field, taken out of it.
fn value_in(field: RawField) -> Bytes
    ensures { result ≡ field.value }
{
    let RawField { value, .. } = field;
    value
}

/// Lends the value of the field `Package`; that of a missing field is empty.
pub(crate) fn name_in(stanza: &RawStanza) -> &[u8]
    ensures { result.now ≡ value_of FieldKind.Package stanza.now }
{
    match find_field(stanza.fields.as_slice(), FieldKind::Package) {
        Some(field) => field.value.as_slice(),
        None => &[],
    }
}

/// Lends the field `Architecture`, if there is one.
pub(crate) fn architecture_in(stanza: &RawStanza) -> Option<&RawField>
    ensures { option_copied result ≡ field_of FieldKind.Architecture stanza.now }
{
    find_field(stanza.fields.as_slice(), FieldKind::Architecture)
}

// Checks that the value of `Package` is a package name.
fn check_name(field: &RawField) -> Result<(), IndexFault>
    ensures { Answers result (unless_good is_name BadPackage field.now) tt }
{
    let line = field.line;
    if !is_package_name(field.value.as_slice()) {
        return Err(IndexFault::BadPackage { line });
    }
    Ok(())
}

// The value of `Version`, if it is a version.
fn read_version(alloc: Global, field: &RawField) -> Result<Version, IndexFault>
    ensures { Answers result (unless_good is_version BadVersion field.now) field.now.value }
{
    let line = field.line;
    match Version::parse(alloc, field.value.as_slice()) {
        Ok(version) => Ok(version),
        Err(VersionError::Shape) => Err(IndexFault::BadVersion { line }),
        Err(VersionError::Memory) => Err(IndexFault::Memory),
    }
}

// Checks that the value of the field `Architecture`, if there is one, is the name of an
// architecture.
fn check_architecture(field: Option<&RawField>) -> Result<(), IndexFault>
    ensures { Answers result (option_and_then (unless_good is_architecture BadArchitecture)
        (option_copied field.entry)) tt }
{
    let Some(field) = field else {
        return Ok(());
    };
    let line = field.line;
    if !is_architecture(field.value.as_slice()) {
        return Err(IndexFault::BadArchitecture { line });
    }
    Ok(())
}

/// Whether the architecture is `all`.
pub fn is_all(architecture: &[u8]) -> bool
    ensures { result ≡ is_all architecture.now }
{
    architecture == b"all".as_slice()
}

// Whether a stanza with this field `Architecture` has an architecture other than `all`.
#[tactic(auto, unfolding(crate::specs::Facts::architecture_of))]
fn is_arch_dependent(architecture: Option<&RawField>) -> bool
    ensures { (stanza : RawStanza) → option_copied architecture.entry
        ≡ field_of FieldKind.Architecture stanza → result ≡ is_some (architecture_of stanza) }
{
    match architecture {
        Some(field) => !is_all(field.value.as_slice()),
        None => false,
    }
}
