//! The names of a suite's packages.
ghost use Rattle.std.specs.Prelude.{◌≡◌, ◌<◌, length, map, IfOk};
ghost use Rattle.clause_pool.specs.Clauses.{in_row_order};
ghost use Rattle.repo_model.specs.{Goals.{names_in}, NameOrder.{is_repeated, name_at, Rising}};

use crate::suite::Suite;
use deb_version::Bytes;
use listed::Listed;
use relation_fields::PackageFacts;
use std::alloc::{AllocError, Global};
use std::marker::Model;

/// Names in their order.
pub type NameList = Listed<Bytes>;

/// A name that is lent, as from the facts of a package.
#[derive(Drop)]
pub struct LentName<'a> {
    text: &'a [u8],
}

impl<'a> Model for LentName<'a> {
    ghost use Rattle.std.specs.{Prelude.{List, ℕ}, Coded.{coded_list, coded_ℕ}};

    ghost Value = { List ℕ };

    ghost coded = { coded_list coded_ℕ };

    ghost view = { λ s. s.text.now };
}

impl<'a> LentName<'a> {
    /// The text as a name.
    pub fn of(text: &'a [u8]) -> Self
        ensures { result ≡ text.now }
    {
        LentName { text }
    }

    /// The text, for as long as it is lent.
    pub fn as_slice(&self) -> &'a [u8]
        ensures { result.now ≡ self.now }
    {
        self.text
    }
}

/// Lent names in their order.
pub type LentNames<'a> = Listed<LentName<'a>>;

impl Suite {
    /// The distinct names of the packages, ascending by bytes.
    pub fn names(&self, alloc: Global) -> Result<NameList, AllocError>
        ensures { IfOk result (λ names. names ≡ names_in self.now.packages) }
    {
        let names = self.lent_names(alloc)?;
        copied(alloc, names.as_slice())
    }

    /// The distinct names, ascending by bytes, lent from the facts of the packages.
    pub fn lent_names(&self, alloc: Global) -> Result<LentNames<'_>, AllocError>
        ensures { IfOk result (λ names. names ≡ names_in self.now.packages) }
    {
        let names = texts_of(alloc, self.packages.as_slice())?;
        in_order(alloc, names)
    }
}

/// The names, each once and ascending by bytes.
pub fn distinct_names(alloc: Global, names: Vec<&[u8]>) -> Result<NameList, AllocError>
    ensures { IfOk result (λ distinct. distinct
        ≡ in_row_order (map (λ name. name.now) names.entry.items)) }
{
    let names = in_order(alloc, names)?;
    copied(alloc, names.as_slice())
}

// The names, each once and ascending by bytes, lent.
fn in_order<'a>(alloc: Global, names: Vec<&'a [u8]>) -> Result<LentNames<'a>, AllocError>
    ensures { IfOk result (λ distinct. distinct
        ≡ in_row_order (map (λ name. name.now) names.entry.items)) }
{
    let mut names = names;
    names.sort_unstable();
    let distinct = each_once(alloc, &names)?;
    Ok(distinct)
}

// Copies of the names.
fn copied(alloc: Global, names: &[LentName]) -> Result<NameList, AllocError>
    ensures { IfOk result (λ copies. copies ≡ names.now) }
{
    let mut copies = NameList::new(alloc);
    for name in names {
        let copy = Bytes::copy(alloc, name.as_slice())?;
        copies.push(copy)?;
    }
    Ok(copies)
}

// The names of the packages in the order of the packages.
fn texts_of<'a>(alloc: Global, packages: &'a [PackageFacts]) -> Result<Vec<&'a [u8]>, AllocError>
    ensures { IfOk result (λ names. map (λ name. name.now) names.items
        ≡ map (λ facts. facts.name) packages.now) }
{
    let mut names = Vec::new(alloc);
    for facts in packages {
        names.push(facts.name.as_slice())?;
    }
    Ok(names)
}

// The names, each once.
fn each_once<'a>(alloc: Global, sorted: &[&'a [u8]]) -> Result<LentNames<'a>, AllocError>
    requires { Rising (map (λ name. name.now) sorted.now) }
    ensures { IfOk result (λ names. names ≡ in_row_order (map (λ name. name.now) sorted.now)) }
{
    let mut names = Listed::new(alloc);
    for place in 0..sorted.len() {
        if !is_repeated(sorted, place) {
            names.push(LentName::of(name_at(sorted, place)))?;
        }
    }
    Ok(names)
}

// Whether the name at a place is also at the place before it.
fn is_repeated(sorted: &[&[u8]], place: usize) -> bool
    requires { place < length sorted.now }
    ensures { result ≡ is_repeated (map (λ name. name.now) sorted.now) place }
{
    place > 0 && name_at(sorted, place - 1) == name_at(sorted, place)
}

// The name at a place.
fn name_at<'a>(sorted: &[&'a [u8]], place: usize) -> &'a [u8]
    requires { place < length sorted.now }
    ensures { result.now ≡ name_at (map (λ name. name.now) sorted.now) place }
{
    sorted[place]
}
