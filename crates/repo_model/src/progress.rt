//! How far an index that comes in pieces is read.
//!
//! A piece is read in place, without a copy, except for the stanzas at both of its ends.
ghost use Rattle.std.specs.Prelude.{◌≡◌, ◌≤◌, drop, length};
ghost use Rattle.repo_model.specs.{Building.{IsBuilt, IsBuilt-prop}, Limits.{most_packages}};

use crate::blank::{closed_length, first_closed};
use crate::building::Building;
use crate::fault::IndexFault;
use crate::reading::{ReadPart, read_behind};
use crate::suite::Suite;
use std::alloc::Global;

/// The packages of the stanzas that are closed, the number of the line after them, and the bytes
/// from there on.
#[derive(Drop)]
pub(crate) struct Progress {
    pub(crate) building: Building,
    pub(crate) line: u64,
    pub(crate) pending: Vec<u8>,
    ghost counted: { 1 ≤ line },
    ghost few: { length building.packages ≤ most_packages },
    ghost built: { IsBuilt building } by { IsBuilt-prop building },
}

impl Progress {
    ghost use Rattle.std.specs.Prelude.{◌≡◌, ◌+◌, ◌++◌, List, ℕ, [], take, drop, IfOk, IfErr};
    ghost use Rattle.stanza_reader.specs.Close.{IsClosed};
    ghost use Rattle.repo_model.specs.Feeding.{IsOpen, IsProgress, IsSuiteOf, StandsUnlessMemory};
    ghost use Rattle.repo_model.specs.{FirstFault.{first_fault}, Refusals.{Refuses}};

    /// Nothing was read.
    pub(crate) fn new(alloc: Global) -> Self
        ensures stands { IsProgress result [] }
        ensures line { result.line ≡ 1 }
        ensures pending { result.pending.items ≡ [] }
        ensures unclosed { IsOpen result.pending.items }
    {
        Progress {
            building: Building::new(alloc),
            line: 1,
            pending: Vec::new(alloc),
        }
    }

    /// Takes a piece after the pending bytes, and reads the stanzas that it closes.
    pub(crate) fn add(self, alloc: Global, piece: &[u8]) -> Result<Self, IndexFault>
        requires room { self.line + length self.pending.items + length piece.now ≤ 1073741825 }
        requires unclosed { IsOpen self.pending.items }
        ensures stands { (text : List ℕ) → IsProgress self text →
            StandsUnlessMemory result (text ++ piece.now) }
        ensures fits { IfOk result (λ new. new.line + length new.pending.items
            ≤ self.line + length self.pending.items + length piece.now) }
        ensures unclosed { IfOk result (λ new. IsOpen new.pending.items) }
    {
        let count = first_closed(piece);
        let (first, more) = piece.split_at(count);
        let begun = self.hold(alloc, first)?;
        begun.go_on(alloc, more)
    }

    /// Takes a piece. If nothing is pending, it is read in place.
    fn go_on(self, alloc: Global, piece: &[u8]) -> Result<Self, IndexFault>
        requires room { self.line + length self.pending.items + length piece.now ≤ 1073741825 }
        requires unclosed { IsOpen self.pending.items }
        ensures stands { (text : List ℕ) → IsProgress self text →
            StandsUnlessMemory result (text ++ piece.now) }
        ensures fits { IfOk result (λ new. new.line + length new.pending.items
            ≤ self.line + length self.pending.items + length piece.now) }
        ensures unclosed { IfOk result (λ new. IsOpen new.pending.items) }
    {
        if self.pending.as_slice().is_empty() {
            return self.pass(alloc, piece);
        }
        self.hold(alloc, piece)
    }

    /// Takes a piece when nothing is pending: the stanzas that it closes are read in place.
    fn pass(self, alloc: Global, piece: &[u8]) -> Result<Self, IndexFault>
        requires room { self.line + length piece.now ≤ 1073741825 }
        requires nothing { self.pending.items ≡ [] }
        ensures stands { (text : List ℕ) → IsProgress self text →
            StandsUnlessMemory result (text ++ piece.now) }
        ensures fits { IfOk result (λ new. new.line + length new.pending.items
            ≤ self.line + length piece.now) }
        ensures unclosed { IfOk result (λ new. IsOpen new.pending.items) }
    {
        let closed = closed_length(piece, 0);
        let (part, last) = piece.split_at(closed);
        let read = self.read(alloc, part)?;
        read.hold(alloc, last)
    }

    /// Reads, in place, a part after which no stanza goes on. Nothing is pending, before or after.
    fn read(self, alloc: Global, part: &[u8]) -> Result<Self, IndexFault>
        requires room { self.line + length part.now ≤ 1073741825 }
        requires nothing { self.pending.items ≡ [] }
        requires closed { IsClosed part.now }
        ensures stands { (text : List ℕ) → IsProgress self text →
            StandsUnlessMemory result (text ++ part.now) }
        ensures fits { IfOk result (λ new. new.line ≤ self.line + length part.now) }
        ensures nothing { IfOk result (λ new. new.pending.items ≡ []) }
    {
        let Progress {
            building,
            line,
            pending,
        } = self;
        let read = read_behind(alloc, building, part, line)?;
        let ReadPart { building, line } = read;
        Ok(Progress {
            building,
            line,
            pending,
        })
    }

    /// Appends bytes to the pending ones, and reads the stanzas that they close from there.
    fn hold(self, alloc: Global, piece: &[u8]) -> Result<Self, IndexFault>
        requires room { self.line + length self.pending.items + length piece.now ≤ 1073741825 }
        requires unclosed { IsOpen self.pending.items }
        ensures stands { (text : List ℕ) → IsProgress self text →
            StandsUnlessMemory result (text ++ piece.now) }
        ensures fits { IfOk result (λ new. new.line + length new.pending.items
            ≤ self.line + length self.pending.items + length piece.now) }
        ensures unclosed { IfOk result (λ new. IsOpen new.pending.items) }
    {
        let Progress {
            building,
            line,
            mut pending,
        } = self;
        let before = pending.len();
        pending.extend_from_slice(piece)?;
        let closed = closed_length(&pending, before);
        let grown = Progress {
            building,
            line,
            pending,
        };
        if closed == 0 {
            return Ok(grown);
        }
        grown.close(alloc, closed)
    }

    /// Reads the first `closed` pending bytes, after which no stanza goes on.
    fn close(self, alloc: Global, closed: usize) -> Result<Self, IndexFault>
        requires room { self.line + length self.pending.items ≤ 1073741825 }
        requires within { closed ≤ length self.pending.items }
        requires closed { IsClosed (take closed self.pending.items) }
        requires unclosed { IsOpen (drop closed self.pending.items) }
        ensures stands { (text : List ℕ) → IsProgress self text → StandsUnlessMemory result text }
        ensures fits { IfOk result (λ new. new.line + length new.pending.items
            ≤ self.line + length self.pending.items) }
        ensures unclosed { IfOk result (λ new. IsOpen new.pending.items) }
    {
        let Progress {
            building,
            line,
            mut pending,
        } = self;
        let (part, _rest) = pending.split_at(closed);
        let read = read_behind(alloc, building, part, line)?;
        let ReadPart { building, line } = read;
        drop_front(&mut pending, closed);
        Ok(Progress {
            building,
            line,
            pending,
        })
    }

    /// The suite of all bytes, or their first fault.
    pub(crate) fn finish(self, alloc: Global) -> Result<Suite, IndexFault>
        requires { self.line + length self.pending.items ≤ 1073741825 }
        ensures refused { IfErr result (λ fault. (text : List ℕ) → IsProgress self text →
            Refuses fault (first_fault text)) }
        ensures suite { IfOk result (λ suite. (text : List ℕ) → IsProgress self text →
            IsSuiteOf text suite.packages suite.home.name) }
    {
        let Progress {
            building,
            line,
            pending,
        } = self;
        let read = read_behind(alloc, building, &pending, line)?;
        Ok(read.building.into_suite())
    }
}

/// Removes the first bytes. The list keeps its room: to give back a large block for each piece
/// makes the C library join all small blocks that are free.
fn drop_front(bytes: &mut Vec<u8>, count: usize)
    requires { count ≤ length bytes.old.items }
    ensures { bytes.new.items ≡ drop count bytes.old.items }
{
    let len = bytes.len();
    bytes.as_mut_slice().copy_within(count..len, 0);
    bytes.truncate(len - count);
}
