//! Items of a list, found by their names and versions.
ghost use Rattle.std.specs.Prelude.{◌≡◌, ◌<◌, ◌++◌, ◌∷◌, [], ℕ, List, length, filter, IfOk, OnOk};
ghost use Rattle.std.specs.List.{list_any};
ghost use Rattle.package_register.specs.Numbers.{numbers_where, passes_at};
ghost use Rattle.package_register.specs.Registers.{has_name, is_version_of, IsRegisterOf};

use crate::register::{Candidates, Register};
use deb_version::{Named, Version};
use listed::sort_once;
use std::alloc::{AllocError, Global};

impl Register {
    /// The register of a list, by the places in it.
    pub fn of<T: Named>(alloc: Global, items: &[T]) -> Result<Register, AllocError>
        requires { length items.now < 4294967296 }
        ensures { IfOk result (IsRegisterOf T.name_of T.version_of items.now) }
    {
        let mut register = Register::new(alloc);
        for (place, item) in items.iter().enumerate() {
            register.add(item, place as u32)?;
        }
        Ok(register)
    }

    /// Adds the next item of a list.
    pub fn add<T: Named>(&mut self, item: &T, number: u32) -> Result<(), AllocError>
        ensures { OnOk result ((items : List T) →
            IsRegisterOf T.name_of T.version_of items self.old → number ≡ length items →
            IsRegisterOf T.name_of T.version_of (items ++ item.now ∷ []) self.new) }
    {
        let name = item.name();
        let version = item.version();
        self.put(name, Some(version), number)?;
        Ok(())
    }

    /// The places of the items with the name, ascending.
    pub fn named<T: Named>(
        &self,
        alloc: Global,
        items: &[T],
        name: &[u8],
    ) -> Result<Vec<u32>, AllocError>
        requires { IsRegisterOf T.name_of T.version_of items.now self.now }
        ensures { IfOk result (λ found. found.items
            ≡ numbers_where (has_name T.name_of name.now) items.now) }
    {
        let numbers = self.bearers(name);
        let mut found = named_among(alloc, items, numbers, name)?;
        sort_once(&mut found);
        Ok(found)
    }

    /// The places of the items with the name and an equal version, ascending.
    pub fn versioned<T: Named>(
        &self,
        alloc: Global,
        items: &[T],
        name: &[u8],
        version: &Version,
    ) -> Result<Vec<u32>, AllocError>
        requires { IsRegisterOf T.name_of T.version_of items.now self.now }
        ensures { IfOk result (λ found. found.items
            ≡ numbers_where (is_version_of T.name_of T.version_of name.now version.now) items.now) }
    {
        // As an index is read, most names are new.
        if self.bearers(name).is_empty() {
            return Ok(Vec::new(alloc));
        }
        let candidates = self.candidates(alloc, name, version)?;
        let mut found = equal_among(alloc, items, candidates, name, version)?;
        sort_once(&mut found);
        Ok(found)
    }

    /// Whether an item has the name.
    pub fn has_name<T: Named>(&self, items: &[T], name: &[u8]) -> bool
        requires { IsRegisterOf T.name_of T.version_of items.now self.now }
        ensures { result ≡ list_any (has_name T.name_of name.now) items.now }
    {
        let numbers = self.bearers(name);
        is_any_named(items, numbers, name)
    }
}

// Those of the numbers whose items have the name.
fn named_among<T: Named>(
    alloc: Global,
    items: &[T],
    numbers: &[u32],
    name: &[u8],
) -> Result<Vec<u32>, AllocError>
    ensures { IfOk result (λ found. found.items
        ≡ filter (passes_at (has_name T.name_of name.now) items.now) numbers.now) }
{
    let mut found = Vec::new(alloc);
    for number in numbers {
        if is_named_at(items, *number, name) {
            found.push(*number)?;
        }
    }
    Ok(found)
}

// Those of the candidates whose items have the name and an equal version.
fn equal_among<T: Named>(
    alloc: Global,
    items: &[T],
    candidates: Candidates,
    name: &[u8],
    version: &Version,
) -> Result<Vec<u32>, AllocError>
    ensures { IfOk result (λ found. found.items
        ≡ filter (passes_at (is_version_of T.name_of T.version_of name.now version.now) items.now)
        (candidates.entry.first.now ++ candidates.entry.others.now)) }
{
    let mut found = equal_in(alloc, items, candidates.first, name, version)?;
    let more = equal_in(alloc, items, candidates.others, name, version)?;
    found.extend_from_slice(more.as_slice())?;
    Ok(found)
}

// Those of the numbers whose items have the name and an equal version.
fn equal_in<T: Named>(
    alloc: Global,
    items: &[T],
    numbers: &[u32],
    name: &[u8],
    version: &Version,
) -> Result<Vec<u32>, AllocError>
    ensures { IfOk result (λ found. found.items ≡ filter (passes_at
        (is_version_of T.name_of T.version_of name.now version.now) items.now) numbers.now) }
{
    let mut found = Vec::new(alloc);
    for number in numbers {
        if is_equal_at(items, *number, name, version) {
            found.push(*number)?;
        }
    }
    Ok(found)
}

// Whether the item of one of the numbers has the name.
fn is_any_named<T: Named>(items: &[T], numbers: &[u32], name: &[u8]) -> bool
    ensures { result ≡ list_any (passes_at (has_name T.name_of name.now) items.now) numbers.now }
{
    for number in numbers {
        if is_named_at(items, *number, name) {
            return true;
        }
    }
    false
}

// Whether there is an item with that number, and it has the name.
fn is_named_at<T: Named>(items: &[T], number: u32, name: &[u8]) -> bool
    ensures { result ≡ passes_at (has_name T.name_of name.now) items.now number }
{
    match items.get(number as usize) {
        Some(item) => is_named(item, name),
        None => false,
    }
}

fn is_named<T: Named>(item: &T, name: &[u8]) -> bool
    ensures { result ≡ has_name T.name_of name.now item.now }
{
    name == item.name()
}

// Whether there is an item with that number, and it has the name and an equal version.
fn is_equal_at<T: Named>(items: &[T], number: u32, name: &[u8], version: &Version) -> bool
    ensures { result
        ≡ passes_at (is_version_of T.name_of T.version_of name.now version.now) items.now number }
{
    match items.get(number as usize) {
        Some(item) => is_equal(item, name, version),
        None => false,
    }
}

fn is_equal<T: Named>(item: &T, name: &[u8], version: &Version) -> bool
    ensures { result ≡ is_version_of T.name_of T.version_of name.now version.now item.now }
{
    name == item.name() && item.version().order(version).is_eq()
}
