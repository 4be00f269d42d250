//! A suite that is being read, stanza by stanza.
ghost use Rattle.std.specs.Prelude.{◌≡◌, ◌<◌, ◌≤◌, ◌++◌, ◌∷◌, [], None, length, IfOk, OnOk, find};
ghost use Rattle.std.specs.Prelude.{slice_get};
ghost use Rattle.std.specs.Option.{option_and_then, option_map, option_or, option_copied};
ghost use Rattle.repo_model.specs.Fields.{field_of, HasShortValues};
ghost use Rattle.repo_model.specs.Facts.{facts_of, is_all, is_same_package, architecture_of};
ghost use Rattle.repo_model.specs.FirstFault.{stanza_fault, duplicate_fault, mixed_fault};
ghost use Rattle.repo_model.specs.{FirstFault.{is_at_home}, Refusals.{Answers}, Building.{IsBuilt}};
ghost use Rattle.repo_model.specs.{Nameless.{named, nameless}, Needs.{needs_of_all}};
ghost use Rattle.repo_model.specs.Limits.{most_packages};
ghost use Rattle.stanza_reader.specs.declared.stanza.FieldKind.{FieldKind};
ghost use Rattle.stanza_reader.specs.declared.stanza.RawStanza.{RawStanza};
ghost use Rattle.virtual_provides.specs.Bearers.{IsBuiltFrom};
ghost use Rattle.relation_fields.specs.declared.packages.PackageFacts.{PackageFacts};

use crate::facts::{NamelessFacts, architecture_in, is_all, name_in, name_of, read_facts};
use crate::fault::IndexFault;
use crate::suite::{PackageList, Suite};
use deb_version::Bytes;
use relation_fields::{ElementTable, Home, PackageFacts};
use stanza_reader::{RawField, RawStanza};
use std::alloc::{AllocError, Global};
use virtual_provides::NameTable;

/// The packages of the stanzas that were read so far, with a table of their names and their common
/// architecture.
#[derive(Drop)]
pub(crate) struct Building {
    pub(crate) packages: PackageList,
    pub(crate) home: Home,
    pub(crate) names: NameTable,
    // The elements of needs that were read; packages share equal ones.
    pub(crate) elements: ElementTable,
}

impl Building {
    /// No stanza was read yet.
    pub(crate) fn new(alloc: Global) -> Self
        ensures packages { result.packages ≡ [] }
        ensures home { result.home.name ≡ None }
        ensures built { IsBuilt result }
    {
        Building {
            packages: PackageList::new(alloc),
            home: Home { name: None },
            names: NameTable::new(alloc),
            elements: ElementTable::new(alloc),
        }
    }

    /// The suite of the packages.
    pub(crate) fn into_suite(self) -> Suite
        requires few { length self.packages ≤ most_packages }
        requires built { IsBuilt self }
        ensures packages { result.packages ≡ self.packages }
        ensures home { result.home ≡ self.home }
    {
        let Building {
            packages,
            home,
            names,
            elements,
        } = self;
        Suite {
            packages,
            home,
            elements: elements.into_elements(),
            names,
        }
    }

    /// Appends the package of a stanza, or finds the first fault of that stanza among the others.
    pub(crate) fn add(&mut self, alloc: Global, stanza: RawStanza) -> Result<(), IndexFault>
        requires short { HasShortValues stanza }
        requires room { length self.old.packages < most_packages }
        requires built { IsBuilt self.old }
        ensures fault { Answers result
            (stanza_fault self.old.packages self.old.home.name stanza) tt }
        ensures packages { OnOk result (self.new.packages
            ≡ self.old.packages ++ facts_of stanza ∷ []) }
        ensures home { OnOk result (self.new.home.name
            ≡ option_or self.old.home.name (architecture_of stanza)) }
        ensures built { OnOk result (IsBuilt self.new) }
    {
        let facts = self.read(alloc, &stanza)?;
        let name = name_of(alloc, stanza);
        self.put(facts.named(name))?;
        Ok(())
    }

    /// As `add`, for a stanza that is lent: the name is copied.
    pub(crate) fn add_lent(&mut self, alloc: Global, stanza: &RawStanza) -> Result<(), IndexFault>
        requires short { HasShortValues stanza.now }
        requires room { length self.old.packages < most_packages }
        requires built { IsBuilt self.old }
        ensures fault { Answers result
            (stanza_fault self.old.packages self.old.home.name stanza.now) tt }
        ensures packages { OnOk result (self.new.packages
            ≡ self.old.packages ++ facts_of stanza.now ∷ []) }
        ensures home { OnOk result (self.new.home.name
            ≡ option_or self.old.home.name (architecture_of stanza.now)) }
        ensures built { OnOk result (IsBuilt self.new) }
    {
        let facts = self.read(alloc, stanza)?;
        let name = Bytes::copy(alloc, name_in(stanza))?;
        self.put(facts.named(name))?;
        Ok(())
    }

    /// The package of a stanza without its name, or the first fault of that stanza among the
    /// others. Its needs are noted, and the home is settled.
    fn read(&mut self, alloc: Global, stanza: &RawStanza) -> Result<NamelessFacts, IndexFault>
        requires short { HasShortValues stanza.now }
        requires built { IsBuilt self.old }
        ensures fault { Answers result (stanza_fault self.old.packages self.old.home.name
            stanza.now) (nameless (facts_of stanza.now)) }
        ensures packages { IfOk result (λ facts. self.new.packages ≡ self.old.packages) }
        ensures home { IfOk result (λ facts. self.new.home.name
            ≡ option_or self.old.home.name (architecture_of stanza.now)) }
        ensures built { IfOk result (λ facts. IsBuiltFrom self.new.packages self.new.names) }
        ensures noted { IfOk result (λ facts. self.new.elements
            ≡ needs_of_all self.new.packages ++ facts.needs) }
    {
        let architecture = architecture_in(stanza);
        let facts = read_facts(alloc, &mut self.elements, stanza, architecture)?;
        let name = name_in(stanza);
        check_new(alloc, self.packages.as_slice(), &self.names, name, &facts)?;
        settle_home(alloc, &mut self.home, architecture)?;
        Ok(facts)
    }

    /// Appends a package whose needs are noted.
    fn put(&mut self, facts: PackageFacts) -> Result<(), AllocError>
        requires room { length self.old.packages < most_packages }
        requires built { IsBuiltFrom self.old.packages self.old.names }
        requires noted { self.old.elements ≡ needs_of_all self.old.packages ++ facts.needs }
        ensures packages { OnOk result (self.new.packages ≡ self.old.packages ++ facts ∷ []) }
        ensures home { OnOk result (self.new.home ≡ self.old.home) }
        ensures built { OnOk result (IsBuilt self.new) }
    {
        let number = self.packages.as_slice().len() as u32;
        self.names.put(number, &facts)?;
        self.packages.push(facts)?;
        Ok(())
    }
}

// Checks that no earlier package has the name and an equal version.
fn check_new(
    alloc: Global,
    packages: &[PackageFacts],
    names: &NameTable,
    name: &[u8],
    facts: &NamelessFacts,
) -> Result<(), IndexFault>
    requires { IsBuiltFrom packages.now names.now }
    ensures { Answers result (option_map (λ first. IndexFault.Duplicate first.line facts.now.line)
        (find (is_same_package (named facts.now name.now)) packages.now)) tt }
{
    let same = names.versioned(alloc, packages, name, &facts.version)?;
    match first_of(packages, &same) {
        Some(first) => Err(IndexFault::Duplicate {
            first_line: first.line,
            line: facts.line,
        }),
        None => Ok(()),
    }
}

// The package of the first of the numbers, if there is one.
fn first_of<'a>(packages: &'a [PackageFacts], numbers: &[u32]) -> Option<&'a PackageFacts>
    ensures { option_copied result
        ≡ option_and_then (slice_get packages.now) (slice_get numbers.now 0) }
{
    match numbers.first() {
        Some(number) => packages.get(*number as usize),
        None => None,
    }
}

fn is_at_home(home: &Home, architecture: &[u8]) -> bool
    ensures { result ≡ is_at_home home.now.name architecture.now }
{
    match &home.name {
        Some(name) => architecture == name.as_slice(),
        None => true,
    }
}

// Checks that a stanza with this field `Architecture` is of the home, unless its architecture is
// `all` or missing. If there is no home yet, the architecture becomes the home.
#[tactic(auto, unfolding(crate::specs::FirstFault::mixed_fault, crate::specs::architecture_of))]
fn settle_home(
    alloc: Global,
    home: &mut Home,
    architecture: Option<&RawField>,
) -> Result<(), IndexFault>
    ensures fault { (stanza : RawStanza) →
        option_copied architecture.entry ≡ field_of FieldKind.Architecture stanza →
        Answers result (mixed_fault home.old.name stanza) tt }
    ensures home { (stanza : RawStanza) →
        option_copied architecture.entry ≡ field_of FieldKind.Architecture stanza →
        OnOk result (home.new.name ≡ option_or home.old.name (architecture_of stanza)) }
{
    let Some(field) = architecture else {
        return Ok(());
    };
    let line = field.line;
    let architecture = field.value.as_slice();
    if is_all(architecture) {
        return Ok(());
    }
    if home.name.is_none() {
        home.name = Some(Bytes::copy(alloc, architecture)?);
        return Ok(());
    }
    if is_at_home(home, architecture) {
        return Ok(());
    }
    Err(IndexFault::Mixed { line })
}
