//! Which kinds may fail to go together. Two kinds do go together if their first choices are at
//! peace: no class of one of these conflicts with a class of the other.
ghost use Rattle.std.specs.Prelude.{◌≡◌, ◌<◌, ◌++◌, [], ℕ, IfOk, OnOk, length, slice_index_or};
ghost use Rattle.std.specs.List.{flat_map, range_with_len};
ghost use Rattle.row_book.specs.{Book.{listed_for}, Lent.{repository_in}, Needs.{NeedsFit}};
ghost use Rattle.suite_compare.specs.Suspects.{without_choice, AreAllChosen, AreChoices, AreHeld};
ghost use Rattle.suite_compare.specs.Suspects.{AreHolders, AreSuspects};

use crate::choose::first_choice;
use crate::class_set::ClassSet;
use crate::places::{PlaceList, classes_at, enter, places_at, sort_once};
use clause_pool::NumList;
use listed::empty_lists;
use row_book::LentBook;
use std::alloc::{AllocError, Global};

/// The first choices of kinds, with tables to find those that may not go together.
#[derive(Drop)]
pub(crate) struct Choices {
    /// The first choice of each kind; empty if it has none.
    firsts: Vec<NumList>,
    /// For each class the kinds whose first choice has it.
    holders: Vec<PlaceList>,
    /// The kinds without a first choice.
    without: Vec<usize>,
}

/// The most members that a first choice has.
const MOST_MEMBERS: usize = 4096;

/// The most members that a first choice has once there are many in all. Those of real suites have
/// two or three.
const FEW_MEMBERS: usize = 64;

/// From this number of members in all there are many.
const MANY_IN_ALL: usize = 4000000;

/// The most members up to which the next first choice is followed. It is bounded, so that a hostile
/// index makes no table as large as the square of its size.
fn most_members(in_all: usize) -> usize {
    if in_all < MANY_IN_ALL {
        MOST_MEMBERS
    } else {
        FEW_MEMBERS
    }
}

/// The first choice of each kind.
fn choices_of(
    alloc: Global,
    kernel: &LentBook,
    kinds: &[NumList],
) -> Result<Vec<NumList>, AllocError>
    requires { NeedsFit (length kernel.now.book.now.rows) kinds.now }
    ensures chosen { IfOk result (λ choices.
        AreAllChosen (repository_in kernel.now) kinds.now (length kinds.now) choices.items) }
    ensures below { IfOk result (λ choices.
        NeedsFit (length kernel.now.book.now.rows) choices.items) }
{
    let mut chosen = ClassSet::new(alloc, kernel.book.size())?;
    let mut choices = Vec::new(alloc);
    let mut in_all: usize = 0;
    for kind in kinds {
        let most = most_members(in_all);
        let choice = first_choice(alloc, kernel, kind.as_slice(), most, &mut chosen)?;
        in_all = in_all.saturating_add(choice.as_slice().len());
        choices.push(choice)?;
    }
    Ok(choices)
}

/// Enters a kind under each of the classes.
fn enter_each(table: &mut [PlaceList], classes: &[u32], kind: usize) -> Result<(), AllocError>
    requires { (i : ℕ) → i < length classes.now →
        slice_index_or classes.now i 0 < length table.old }
    ensures { OnOk result (AreHeld table.old table.new classes.now kind) }
{
    for class in classes {
        enter(table, *class as usize, kind)?;
    }
    Ok(())
}

/// Enters each kind under the classes of its first choice.
fn enter_choices(table: &mut [PlaceList], choices: &[NumList]) -> Result<(), AllocError>
    requires below { NeedsFit (length table.old) choices.now }
    requires empty { (k : ℕ) → listed_for table.old k ≡ [] }
    ensures { OnOk result (AreHolders (length choices.now) choices.now table.new) }
{
    for (kind, choice) in choices.iter().enumerate() {
        enter_each(table, choice.as_slice(), kind)?;
    }
    Ok(())
}

/// The kinds without a first choice.
fn without_choice(alloc: Global, choices: &[NumList]) -> Result<Vec<usize>, AllocError>
    ensures { IfOk result (λ without. without.items
        ≡ without_choice choices.now (length choices.now)) }
{
    let mut without = Vec::new(alloc);
    for (kind, choice) in choices.iter().enumerate() {
        if choice.as_slice().is_empty() {
            without.push(kind)?;
        }
    }
    Ok(without)
}

impl Choices {
    /// The first choices of the kinds of a book, with their tables.
    pub(crate) fn new(
        alloc: Global,
        kernel: &LentBook,
        kinds: &[NumList],
    ) -> Result<Choices, AllocError>
        requires { NeedsFit (length kernel.now.book.now.rows) kinds.now }
        ensures { IfOk result (AreChoices (repository_in kernel.now) kinds.now) }
    {
        let firsts = choices_of(alloc, kernel, kinds)?;
        let mut holders = empty_lists(alloc, kernel.book.rows.as_slice().len())?;
        enter_choices(&mut holders, &firsts)?;
        let without = without_choice(alloc, &firsts)?;
        Ok(Choices {
            firsts,
            holders,
            without,
        })
    }

    /// The kinds that are not known to go together with a kind, ascending.
    pub(crate) fn suspects(
        &self,
        alloc: Global,
        kernel: &LentBook,
        kinds: &[NumList],
        kind: usize,
    ) -> Result<Vec<usize>, AllocError>
        requires choices { AreChoices (repository_in kernel.now) kinds.now self.now }
        requires kind { kind < length kinds.now }
        ensures { IfOk result (λ suspects.
            AreSuspects kernel.now.book.now.conflicts self.now.firsts.items kind suspects.items) }
    {
        let choices = self.firsts.as_slice();
        let choice = classes_at(choices, kind);
        if choice.is_empty() {
            let all = all_places(alloc, choices.len())?;
            return Ok(all);
        }
        let free = self.without.as_slice();
        let holders = self.holders.as_slice();
        let mut found = Vec::from_slice(alloc, free)?;
        for class in choice {
            let conflicts = kernel.book.against(*class);
            add_holders(conflicts, holders, &mut found)?;
        }
        sort_once(&mut found);
        Ok(found)
    }
}

/// The places from 0 on.
fn all_places(alloc: Global, count: usize) -> Result<Vec<usize>, AllocError>
    ensures { IfOk result (λ made. made.items ≡ range_with_len 0 count) }
{
    let mut made = Vec::new(alloc);
    for place in 0..count {
        made.push(place)?;
    }
    Ok(made)
}

/// Appends the kinds whose first choice has one of the classes.
fn add_holders(
    classes: &[u32],
    holders: &[PlaceList],
    found: &mut Vec<usize>,
) -> Result<(), AllocError>
    requires { (i : ℕ) → i < length classes.now →
        slice_index_or classes.now i 0 < length holders.now }
    ensures { OnOk result (found.new.items
        ≡ found.old.items ++ flat_map (listed_for holders.now) classes.now) }
{
    for class in classes {
        found.extend_from_slice(places_at(holders, *class as usize))?;
    }
    Ok(())
}
