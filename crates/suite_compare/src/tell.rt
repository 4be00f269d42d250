//! The lines of a report.
ghost use Rattle.std.specs.Prelude.{◌≡◌, ◌<◌, ◌++◌, ℕ, OnOk, Some, filter, length, ltb};
ghost use Rattle.std.specs.{Prelude.{slice_index_or}, List.{flat_map, range_with_len}};
ghost use Rattle.listed.specs.Lists.{In, Ascending};
ghost use Rattle.suite_compare.specs.{Comparing.{goes_alone}, Report.{pair_line, single_line}};
ghost use Rattle.suite_compare.specs.Telling.{found_beside, partners_at, told_after, told_pair};

use crate::gather::{KindPairTable, Partners};
use crate::new_side::NewSide;
use crate::places::{holds, name_at, place_at};
use crate::report::{Finding, LineList, ReportLine, is_yes};
use crate::sides::verdict_of;
use deb_version::Bytes;
use repo_model::LentName;
use std::alloc::{AllocError, Global};

/// The partners of a pair of kinds.
fn partners_at(table: &[Partners], kind_pair: usize) -> &Partners
    requires { kind_pair < length table.now }
    ensures { result.now ≡ partners_at table.now kind_pair }
{
    &table[kind_pair]
}

/// Appends the line of a name, if there is a finding.
pub(crate) fn push_single(
    alloc: Global,
    name: &[u8],
    finding: Option<Finding>,
    lines: &mut LineList,
) -> Result<(), AllocError>
    ensures { OnOk result (lines.new ≡ lines.old ++ single_line name.now finding) }
{
    match finding {
        None => Ok(()),
        Some(Finding::Broken) => {
            let name = Bytes::copy(alloc, name)?;
            lines.push(ReportLine::Broken1 { name })?;
            Ok(())
        }
        Some(Finding::Open) => {
            let name = Bytes::copy(alloc, name)?;
            lines.push(ReportLine::Open1 { name })?;
            Ok(())
        }
    }
}

/// Appends the line of two names.
fn push_pair(
    alloc: Global,
    first: &[u8],
    second: &[u8],
    finding: Finding,
    lines: &mut LineList,
) -> Result<(), AllocError>
    ensures { OnOk result (lines.new ≡ lines.old ++ pair_line first.now second.now (Some finding)) }
{
    let first = Bytes::copy(alloc, first)?;
    let second = Bytes::copy(alloc, second)?;
    match finding {
        Finding::Broken => {
            lines.push(ReportLine::Broken2 { first, second })?;
            Ok(())
        }
        Finding::Open => {
            lines.push(ReportLine::Open2 { first, second })?;
            Ok(())
        }
    }
}

/// The finding on a partner.
fn finding_beside(partners: &Partners, other: usize) -> Finding
    requires { Ascending partners.now.undecided }
    ensures { result ≡ found_beside partners.now other }
{
    if holds(partners.undecided.as_slice(), other) {
        Finding::Open
    } else {
        Finding::Broken
    }
}

/// Appends the lines of a name with its partners that come later.
fn tell_later(
    alloc: Global,
    names: &[LentName],
    place: usize,
    partners: &Partners,
    lines: &mut LineList,
) -> Result<(), AllocError>
    requires place { place < length names.now }
    requires within { (j : ℕ) → In j partners.now.told → j < length names.now }
    requires ascending { Ascending partners.now.undecided }
    ensures { OnOk result (lines.new ≡ lines.old ++ flat_map
        (told_pair names.now partners.now place) (filter (ltb place) partners.now.told)) }
{
    let others = partners.told.as_slice();
    for other in others {
        if *other <= place {
            continue;
        }
        let finding = finding_beside(partners, *other);
        let first = name_at(names, place);
        let second = name_at(names, *other);
        push_pair(alloc, first, second, finding, lines)?;
    }
    Ok(())
}

/// Appends the lines of the pairs of names that are each found by itself.
pub(crate) fn tell_pairs(
    alloc: Global,
    sides: &NewSide,
    table: &KindPairTable,
    partners: &[Partners],
    lines: &mut LineList,
) -> Result<(), AllocError>
    requires kind_pairs { length table.now.kind_pairs.pair_of.items
        ≡ length sides.now.common.names.items }
    requires within { (i : ℕ) → i < length sides.now.common.names.items →
        slice_index_or table.now.kind_pairs.pair_of.items i 0 < length partners.now }
    requires told { (a j : ℕ) → a < length partners.now → In j (partners_at partners.now a).told →
        j < length sides.now.common.names.items }
    requires undecided { (a : ℕ) → a < length partners.now →
        Ascending (partners_at partners.now a).undecided }
    ensures { let names = sides.now.common.names.items in OnOk result (lines.new
        ≡ lines.old ++ flat_map (told_after names table.now.kind_pairs.pair_of.items partners.now)
        (filter (goes_alone sides.now.side) (range_with_len 0 (length names)))) }
{
    let names = sides.common.names.as_slice();
    for place in 0..names.len() {
        if !is_yes(verdict_of(&sides.side, &sides.side.kind_of, place)) {
            continue;
        }
        let kind_pair = place_at(&table.kind_pairs.pair_of, place);
        tell_later(alloc, names, place, partners_at(partners, kind_pair), lines)?;
    }
    Ok(())
}
