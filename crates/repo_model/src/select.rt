//! The suite of some packages of a suite.
ghost use Rattle.std.specs.Prelude.{◌≡◌, ◌∷◌, ◌++◌, ◌+◌, ◌<◌, ◌≤◌, ℕ, [], None, length};
ghost use Rattle.std.specs.{Prelude.{slice_index_or, IfOk, OnOk}, List.{items_where_true}};
ghost use Rattle.relation_fields.specs.{Elements.{elements_of}, Shared.{marked}};
ghost use Rattle.listed.specs.Lists.{In};
ghost use Rattle.repo_model.specs.{Limits.{most_packages}, Needs.{needs_of_all}};
ghost use Rattle.repo_model.specs.Select.{AreRenamed};

use crate::copying::{copy_of_facts, copy_of_home};
use crate::suite::{PackageList, Suite};
use relation_fields::{AtomList, Home, PackageFacts, SharedElements};
use std::alloc::{AllocError, Global};
use virtual_provides::NameTable;

impl Suite {
    /// The suite of the packages whose flags are up, in their order and with the same common
    /// architecture.
    pub fn select(&self, alloc: Global, flags: &[bool]) -> Result<Suite, AllocError>
        requires { length flags.now ≡ length self.now.packages }
        ensures packages { IfOk result (λ suite. suite.packages
            ≡ items_where_true flags.now self.now.packages) }
        ensures home { IfOk result (λ suite. suite.home ≡ self.now.home) }
    {
        let all = self.packages.as_slice();
        let packages = flagged_packages(alloc, all, flags)?;
        let elements = flagged_elements(alloc, all, &self.elements, flags)?;
        let home = copy_of_home(alloc, &self.home)?;
        let names = NameTable::build(alloc, packages.as_slice())?;
        Ok(Suite {
            packages,
            home,
            elements,
            names,
        })
    }

    /// The suite of the packages whose flags are up, followed by those of another suite whose flags
    /// are up. Each are in their order, and they have a common architecture.
    pub fn join(
        &self,
        alloc: Global,
        flags: &[bool],
        other: &Suite,
        others: &[bool],
        home: Home,
    ) -> Result<Suite, AllocError>
        requires flags { length flags.now ≡ length self.now.packages }
        requires others { length others.now ≡ length other.now.packages }
        requires few { length (items_where_true flags.now self.now.packages)
            + length (items_where_true others.now other.now.packages) ≤ most_packages }
        ensures packages { IfOk result (λ suite. suite.packages ≡ items_where_true flags.now
            self.now.packages ++ items_where_true others.now other.now.packages) }
        ensures home { IfOk result (λ suite. suite.home ≡ home) }
    {
        let all = self.packages.as_slice();
        let more = other.packages.as_slice();
        let mut packages = flagged_packages(alloc, all, flags)?;
        let rest = flagged_packages(alloc, more, others)?;
        packages.append(rest)?;
        let mut elements = flagged_elements(alloc, all, &self.elements, flags)?;
        let behind = flagged_elements(alloc, more, &other.elements, others)?;
        put_elements(alloc, &mut elements, &behind)?;
        let names = NameTable::build(alloc, packages.as_slice())?;
        Ok(Suite {
            packages,
            home,
            elements,
            names,
        })
    }
}

// The packages whose flags are up.
fn flagged_packages(
    alloc: Global,
    packages: &[PackageFacts],
    flags: &[bool],
) -> Result<PackageList, AllocError>
    requires { length flags.now ≡ length packages.now }
    ensures { IfOk result (λ made. made ≡ items_where_true flags.now packages.now) }
{
    let mut made = PackageList::new(alloc);
    for (place, facts) in packages.iter().enumerate() {
        let is_chosen = flags[place];
        if !is_chosen {
            continue;
        }
        made.push(copy_of_facts(alloc, facts)?)?;
    }
    Ok(made)
}

// The elements of the packages whose flags are up.
fn flagged_elements(
    alloc: Global,
    packages: &[PackageFacts],
    elements: &SharedElements,
    flags: &[bool],
) -> Result<SharedElements, AllocError>
    requires flags { length flags.now ≡ length packages.now }
    requires elements { elements_of elements.now ≡ needs_of_all packages.now }
    ensures { IfOk result (λ made. elements_of made
        ≡ needs_of_all (items_where_true flags.now packages.now)) }
{
    let distinct = elements.distinct.as_slice();
    let mut places = no_places(alloc, distinct.len())?;
    let mut made = SharedElements::new(alloc);
    let mut left = elements.marks.as_slice();
    for (place, facts) in packages.iter().enumerate() {
        let (own, behind) = left.split_at(facts.needs.as_slice().len());
        left = behind;
        let are_chosen = flags[place];
        if !are_chosen {
            continue;
        }
        add_elements(&mut made, &mut places, distinct, own)?;
    }
    Ok(made)
}

// Appends the elements of others.
fn put_elements(
    alloc: Global,
    made: &mut SharedElements,
    others: &SharedElements,
) -> Result<(), AllocError>
    ensures { OnOk result (elements_of made.new ≡ elements_of made.old ++ elements_of others.now) }
{
    let distinct = others.distinct.as_slice();
    let mut places = no_places(alloc, distinct.len())?;
    add_elements(made, &mut places, distinct, others.marks.as_slice())?;
    Ok(())
}

// For each list of a number of lists a place, with none known.
fn no_places(alloc: Global, count: usize) -> Result<Vec<Option<u32>>, AllocError>
    ensures size { IfOk result (λ made. length made.items ≡ count) }
    ensures none { IfOk result (λ made. (mark : ℕ) → slice_index_or made.items mark None ≡ None) }
{
    let mut made = Vec::with_capacity(alloc, count)?;
    for _i in 0..count {
        made.push(None)?;
    }
    Ok(made)
}

// Appends the elements with these marks.
fn add_elements(
    made: &mut SharedElements,
    places: &mut [Option<u32>],
    distinct: &[AtomList],
    marks: &[u32],
) -> Result<(), AllocError>
    requires marks { (mark : ℕ) → In mark marks.now → mark < length distinct.now }
    requires renamed { AreRenamed distinct.now places.old made.old.distinct.items }
    ensures elements { OnOk result (elements_of made.new
        ≡ elements_of made.old ++ marked distinct.now marks.now) }
    ensures renamed { OnOk result (AreRenamed distinct.now places.new made.new.distinct.items) }
{
    for mark in marks {
        add_element(made, places, distinct, *mark as usize)?;
    }
    Ok(())
}

// Appends the element with a mark. Its list is kept once.
fn add_element(
    made: &mut SharedElements,
    places: &mut [Option<u32>],
    distinct: &[AtomList],
    mark: usize,
) -> Result<(), AllocError>
    requires mark { mark < length distinct.now }
    requires renamed { AreRenamed distinct.now places.old made.old.distinct.items }
    ensures elements { OnOk result (elements_of made.new
        ≡ elements_of made.old ++ slice_index_or distinct.now mark [] ∷ []) }
    ensures renamed { OnOk result (AreRenamed distinct.now places.new made.new.distinct.items) }
{
    if let Some(place) = places[mark] {
        made.push_again(place as usize)?;
        return Ok(());
    }
    let Ok(place) = u32::try_from(made.distinct.len()) else {
        return Err(AllocError);
    };
    made.push(distinct[mark].share()?)?;
    places[mark] = Some(place);
    Ok(())
}
