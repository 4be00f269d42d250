//! The partners of a name: the names that share a line of the report with it.
//!
//! A name has a kind in the old suite and one in the new suite: its pair of kinds. A kind is bad
//! with another one if the two do not go together, or are not known to.
ghost use Rattle.std.specs.Prelude.{◌≡◌, ◌<◌, ◌++◌, ℕ, IfOk, OnOk, is_some, length, slice_index_or};
ghost use Rattle.std.specs.List.{flat_map};
ghost use Rattle.listed.specs.Lists.{In};
ghost use Rattle.row_book.specs.Book.{listed_for};
ghost use Rattle.suite_compare.specs.{Kinds.{together_in, ArePaired}, Report.{finding}};
ghost use Rattle.suite_compare.specs.declared.verdicts.Bad.{Bad};
ghost use Rattle.suite_compare.specs.Partners.{beside, beside_all, is_open, new_kind, old_kind};
ghost use Rattle.suite_compare.specs.Partners.{picked, ArePartners, IsKindPairTable};

use crate::judge::Judge;
use crate::kinds::{KindPairs, kind_pairs_of};
use crate::new_side::NewSide;
use crate::places::{PlaceList, place_at, places_at, places_by, sort_once};
use crate::report::{Finding, finding_of};
use crate::verdicts::{Bad, verdict_together};
use clause_solver::Verdict;
use listed::Listed;
use std::alloc::{AllocError, Global};

/// The pairs of kinds with what is asked of them.
#[derive(Drop)]
pub(crate) struct KindPairTable {
    /// The pairs.
    pub(crate) kind_pairs: KindPairs,
    /// The names of each pair.
    pub(crate) members: Vec<PlaceList>,
    /// For each kind of the new suite the pairs that have it.
    pub(crate) by_new: Vec<PlaceList>,
}

/// The names that share a line with the names of a pair of kinds, both lists ascending.
#[derive(Drop)]
pub(crate) struct Partners {
    /// All of them.
    pub(crate) told: PlaceList,
    /// Those of them whose line is open.
    pub(crate) undecided: PlaceList,
}

/// Names as they are found: those that share a line, and those whose line is open.
#[derive(Drop)]
struct Found {
    told: Vec<usize>,
    undecided: Vec<usize>,
}

/// The pairs of the kinds of each name in the old and in the new suite.
pub(crate) fn kind_pair_table(alloc: Global, sides: &NewSide) -> Result<KindPairTable, AllocError>
    ensures paired { IfOk result (λ table.
        ArePaired sides.now.common.kind_of.items sides.now.side.kind_of.items
        table.kind_pairs.old.items table.kind_pairs.new.items table.kind_pairs.pair_of.items) }
    ensures fits { IfOk result IsKindPairTable }
    ensures count { IfOk result (λ table. length table.by_new.items
        ≡ length sides.now.side.judge.kinds.items) }
{
    let kind_pairs = kind_pairs_of(alloc, &sides.common.kind_of, &sides.side.kind_of)?;
    let members = places_by(alloc, kind_pairs.new.len(), &kind_pairs.pair_of)?;
    let by_new = places_by(alloc, sides.side.judge.kinds.len(), &kind_pairs.new)?;
    Ok(KindPairTable {
        kind_pairs,
        members,
        by_new,
    })
}

/// The kind of a pair in the old suite.
pub(crate) fn old_kind(table: &KindPairTable, kind_pair: usize) -> usize
    requires { kind_pair < length table.now.kind_pairs.old.items }
    ensures { result ≡ old_kind table.now kind_pair }
{
    place_at(&table.kind_pairs.old, kind_pair)
}

/// The kind of a pair in the new suite.
pub(crate) fn new_kind(table: &KindPairTable, kind_pair: usize) -> usize
    requires { kind_pair < length table.now.kind_pairs.new.items }
    ensures { result ≡ new_kind table.now kind_pair }
{
    place_at(&table.kind_pairs.new, kind_pair)
}

/// The names of a pair.
fn names_of(table: &KindPairTable, kind_pair: usize) -> &[usize]
    requires { kind_pair < length table.now.members.items }
    ensures { result.now ≡ listed_for table.now.members.items kind_pair }
{
    places_at(&table.members, kind_pair)
}

/// The pairs that have a kind in the new suite.
fn kind_pairs_with(table: &KindPairTable, kind: usize) -> &[usize]
    requires { kind < length table.now.by_new.items }
    ensures { result.now ≡ listed_for table.now.by_new.items kind }
{
    places_at(&table.by_new, kind)
}

/// The finding on two kinds, by the verdict on them together in the new suite. The old suite is
/// asked only if that is no.
fn finding_with(
    alloc: Global,
    old: &Judge,
    first: usize,
    second: usize,
    verdict: Verdict,
) -> Result<Option<Finding>, AllocError>
    requires first { first < length old.now.kinds.items }
    requires second { second < length old.now.kinds.items }
    ensures { IfOk result (λ told. told ≡ finding (together_in old.now first second) verdict) }
{
    match verdict {
        Verdict::Yes => Ok(None),
        Verdict::Spent => Ok(Some(Finding::Open)),
        Verdict::No => {
            let before = verdict_together(alloc, old, first, second)?;
            Ok(finding_of(before, Verdict::No))
        }
    }
}

/// Appends the names, if there is a finding.
fn add_names(names: &[usize], finding: Option<Finding>, found: &mut Found) -> Result<(), AllocError>
    ensures told { OnOk result (found.new.told.items
        ≡ found.old.told.items ++ picked is_some finding names.now) }
    ensures undecided { OnOk result (found.new.undecided.items
        ≡ found.old.undecided.items ++ picked is_open finding names.now) }
{
    match finding {
        None => Ok(()),
        Some(Finding::Broken) => {
            found.told.extend_from_slice(names)?;
            Ok(())
        }
        Some(Finding::Open) => {
            found.told.extend_from_slice(names)?;
            found.undecided.extend_from_slice(names)?;
            Ok(())
        }
    }
}

/// Appends the names of all pairs of kinds with this new kind, if there is a finding.
fn add_kind_pairs(
    alloc: Global,
    old: &Judge,
    table: &KindPairTable,
    kind_pairs: &[usize],
    first: usize,
    verdict: Verdict,
    found: &mut Found,
) -> Result<(), AllocError>
    requires first { first < length old.now.kinds.items }
    requires olds { (a : ℕ) → a < length table.now.kind_pairs.old.items →
        old_kind table.now a < length old.now.kinds.items }
    requires fits { IsKindPairTable table.now }
    requires kind_pairs { (i : ℕ) → i < length kind_pairs.now →
        slice_index_or kind_pairs.now i 0 < length table.now.kind_pairs.old.items }
    ensures told { OnOk result (found.new.told.items ≡ found.old.told.items
        ++ flat_map (beside is_some old.now table.now first verdict) kind_pairs.now) }
    ensures undecided { OnOk result (found.new.undecided.items ≡ found.old.undecided.items
        ++ flat_map (beside is_open old.now table.now first verdict) kind_pairs.now) }
{
    for kind_pair in kind_pairs {
        let second = old_kind(table, *kind_pair);
        let finding = finding_with(alloc, old, first, second, verdict)?;
        let names = names_of(table, *kind_pair);
        add_names(names, finding, found)?;
    }
    Ok(())
}

/// Appends the names that share a line, by the bad kinds.
fn add_bad(
    alloc: Global,
    old: &Judge,
    table: &KindPairTable,
    bad: &[Bad],
    first: usize,
    found: &mut Found,
) -> Result<(), AllocError>
    requires first { first < length old.now.kinds.items }
    requires olds { (a : ℕ) → a < length table.now.kind_pairs.old.items →
        old_kind table.now a < length old.now.kinds.items }
    requires fits { IsKindPairTable table.now }
    requires bad { (b : Bad) → In b bad.now → b.kind < length table.now.by_new.items }
    ensures told { OnOk result (found.new.told.items
        ≡ found.old.told.items ++ flat_map (beside_all is_some old.now table.now first) bad.now) }
    ensures undecided { OnOk result (found.new.undecided.items ≡ found.old.undecided.items
        ++ flat_map (beside_all is_open old.now table.now first) bad.now) }
{
    for entry in bad {
        let kind_pairs = kind_pairs_with(table, entry.kind);
        add_kind_pairs(alloc, old, table, kind_pairs, first, entry.verdict, found)?;
    }
    Ok(())
}

/// The names that share a line with those of a pair of kinds, by the bad kinds.
pub(crate) fn partners_of(
    alloc: Global,
    old: &Judge,
    table: &KindPairTable,
    bad: &[Bad],
    first: usize,
) -> Result<Partners, AllocError>
    requires first { first < length old.now.kinds.items }
    requires olds { (a : ℕ) → a < length table.now.kind_pairs.old.items →
        old_kind table.now a < length old.now.kinds.items }
    requires fits { IsKindPairTable table.now }
    requires bad { (b : Bad) → In b bad.now → b.kind < length table.now.by_new.items }
    ensures { IfOk result (ArePartners old.now table.now first bad.now) }
{
    let mut found = Found {
        told: Vec::new(alloc),
        undecided: Vec::new(alloc),
    };
    add_bad(alloc, old, table, bad, first, &mut found)?;
    sort_once(&mut found.told);
    sort_once(&mut found.undecided);
    Ok(Partners {
        told: Listed::of(found.told),
        undecided: Listed::of(found.undecided),
    })
}
