//! Stanzas that are read one after the other.
//!
//! The count comes first, so one stanza too many is found before its lines are looked at.
ghost use Rattle.std.specs.Prelude.{◌≡◌, ◌≤◌, ◌+◌, ◌++◌, List, ℕ, length, drop, count_by, nat_le};
ghost use Rattle.std.specs.{Prelude.{IfOk, IfErr}, Option.{option_and_then}};
ghost use Rattle.stanza_reader.specs.{Lines.{is_line_feed}, Places.{IsPlace}};
ghost use Rattle.stanza_reader.specs.Reading.{first_reading, readings_at};
ghost use Rattle.stanza_reader.specs.declared.place.Place.{Place};
ghost use Rattle.repo_model.specs.{Building.{IsBuilt}, Feeding.{IsFront, IsSuiteOf}};
ghost use Rattle.repo_model.specs.{FirstFault.{first_fault}, Refusals.{Refuses}};
ghost use Rattle.repo_model.specs.{Reading.{shape_fault, Goes}, Limits.{most_bytes, most_packages}};

use crate::blank::count_feeds;
use crate::building::Building;
use crate::fault::IndexFault;
use stanza_reader::{Next, Place, StanzaFault, next_stanza};
use std::alloc::Global;

/// What was read with a part of an index, and the number of the line after this part.
#[derive(Drop)]
pub(crate) struct ReadPart {
    pub(crate) building: Building,
    pub(crate) line: u64,
}

/// Reads the stanzas of a part of an index, after the front that was read. The first line of the
/// part has the number.
pub(crate) fn read_behind(
    alloc: Global,
    front: Building,
    part: &[u8],
    line: u64,
) -> Result<ReadPart, IndexFault>
    requires short { length part.now ≤ most_bytes }
    requires place { IsPlace part.now (record { offset = 0; line = line }) }
    requires few { length front.packages ≤ most_packages }
    requires built { IsBuilt front }
    ensures refused { IfErr result (λ fault. (text : List ℕ) → IsFront front line text →
        Refuses fault (first_fault (text ++ part.now))) }
    ensures suite { IfOk result (λ read. (text : List ℕ) → IsFront front line text →
        IsSuiteOf (text ++ part.now) read.building.packages read.building.home.name) }
    ensures few { IfOk result (λ read. length read.building.packages ≤ most_packages) }
    ensures built { IfOk result (λ read. IsBuilt read.building) }
    ensures counted { IfOk result (λ read. read.line ≡ line + count_by is_line_feed part.now) }
{
    let mut building = front;
    let mut at = Place { offset: 0, line };
    loop {
        let before = building.packages.as_slice().len();
        match read_next(alloc, part, at, before)? {
            Next::End => {
                let line = line_behind(part, at);
                return Ok(ReadPart { building, line });
            }
            Next::Stanza { stanza, after } => {
                building.add(alloc, stanza)?;
                at = after;
            }
        }
    }
}

// The line number after a text, counted from a known place.
fn line_behind(bytes: &[u8], at: Place) -> u64
    requires { IsPlace bytes.now at }
    ensures { result ≡ at.line + count_by is_line_feed (drop at.offset bytes.now) }
{
    at.line + count_feeds(&bytes[at.offset as usize..])
}

// The stanza at a place after `before` others. It may be one too many, or its lines may have a
// fault.
fn read_next(alloc: Global, bytes: &[u8], at: Place, before: usize) -> Result<Next, IndexFault>
    requires { IsPlace bytes.now at }
    ensures next { IfOk result (Goes bytes.now at before) }
    ensures refused { IfErr result (λ fault. Refuses fault
        (option_and_then (shape_fault before) (first_reading (readings_at bytes.now at)))) }
{
    match next_stanza(alloc, bytes, at) {
        Ok(Next::End) => Ok(Next::End),
        Err(StanzaFault::Memory) => Err(IndexFault::Memory),
        Ok(Next::Stanza { stanza, after }) => {
            if is_full(before) {
                return Err(IndexFault::TooMany);
            }
            Ok(Next::Stanza { stanza, after })
        }
        Err(fault) => {
            if is_full(before) {
                return Err(IndexFault::TooMany);
            }
            Err(IndexFault::Stanza(fault))
        }
    }
}

/// Whether an index with this number of packages has room for no more.
pub(crate) fn is_full(packages: usize) -> bool
    ensures { result ≡ nat_le most_packages packages }
{
    packages >= 200_000
}
