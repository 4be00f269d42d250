// A shelf over files in memory, for tests.
ghost use Rattle.std.specs.Prelude.{◌≡◌, ◌≤◌, ◌<◌, [], ◌∷◌, ◌++◌, OnOk, OnErr, min, length, take};

use crate::count::Count;
use crate::file_table::FileTable;
use crate::schedule::Schedule;
use crate::{Failed, Shelf};
use std::alloc::{AllocError, Global};

/// A shelf in memory, on which chosen calls fail and reads give few bytes at a time.
#[derive(Drop)]
pub struct MemShelf {
    table: FileTable,
    schedule: Schedule,
    faults: Count,
    moved: u64,
    step: u32,
    ghost has_step: { 0 < step },
}

impl MemShelf {
    ghost use Rattle.byte_flow.specs.Flow.{no_files, with_file};
    ghost use Rattle.byte_flow.specs.MemShelf.{KeepsCalls, KeepsCounts, KeepsFiles, calls_of};
    ghost use Rattle.byte_flow.specs.MemShelf.{faults_of, files_of, listed_of, moved_of, rest_of};
    ghost use Rattle.byte_flow.specs.MemShelf.{step_of};

    /// A shelf without files whose reads give at most `step` bytes.
    pub fn new(alloc: Global, step: u32) -> Self
        requires { 1 ≤ step }
        ensures files { files_of result ≡ no_files }
        ensures rest { rest_of result ≡ [] }
        ensures calls { calls_of result ≡ 0 }
        ensures listed { listed_of result ≡ [] }
        ensures step { step_of result ≡ step }
        ensures faults { faults_of result ≡ 0 }
        ensures moved { moved_of result ≡ 0 }
    {
        MemShelf {
            table: FileTable::new(alloc),
            schedule: Schedule::new(alloc),
            faults: Count::zero(),
            moved: 0,
            step,
        }
    }

    /// Gives a path these bytes. No file is started then.
    pub fn add(&mut self, path: &str, bytes: &[u8]) -> Result<(), AllocError>
        ensures files { OnOk result (files_of self.new
            ≡ with_file path.now bytes.now (files_of self.old)) }
        ensures rest { OnOk result (rest_of self.new ≡ []) }
        ensures err { OnErr result (KeepsFiles self.old self.new) }
        ensures counts { KeepsCounts self.old self.new }
        ensures calls { KeepsCalls self.old self.new }
    {
        self.table.add(path, bytes)
    }

    /// Lets the call with this number fail. Starts and reads are counted together, from 1.
    pub fn fail_at(&mut self, call: u64) -> Result<(), AllocError>
        ensures ok { OnOk result (listed_of self.new ≡ listed_of self.old ++ call ∷ []) }
        ensures err { OnErr result (listed_of self.new ≡ listed_of self.old) }
        ensures calls { calls_of self.new ≡ calls_of self.old }
        ensures step { step_of self.new ≡ step_of self.old }
        ensures files { KeepsFiles self.old self.new }
        ensures counts { KeepsCounts self.old self.new }
    {
        self.schedule.list(call)
    }

    /// Copies a front of the unread rest, and returns its length.
    fn give(&self, into: &mut [u8]) -> usize
        ensures count { result
            ≡ min self.now.step (min (length into.old) (length (rest_of self.now))) }
        ensures bytes { take result into.new ≡ take result (rest_of self.now) }
    {
        let rest = self.table.unread();
        let count = (self.step as usize).min(into.len().min(rest.len()));
        into[..count].copy_from_slice(&rest[..count]);
        count
    }
}

impl Shelf for MemShelf {
    ghost use Rattle.std.specs.Prelude.{◌≡◌, Some, false};
    ghost use Rattle.std.proofs.Common.{rules};
    ghost use Rattle.byte_flow.specs.MemShelf.{Read, Started, faults_of, files_of, is_waiting};
    ghost use Rattle.byte_flow.specs.MemShelf.{moved_of, rest_of};

    ghost model = { record {
      contents = λ s. Some (files_of s);
      rest = λ s. Some (rest_of s);
      faults = faults_of;
      moved = moved_of;
      is_quiet = λ s. is_waiting s ≡ false;
      start_gives = Started;
      read_gives = Read;
    } };

    ghost quiet_tells = { λ s _. Prim.search rules };

    ghost counted = { λ s. s.faults.fits };

    fn start(&mut self, path: &str) -> Result<(), Failed> {
        self.moved = 0;
        if self.schedule.next() {
            self.table.close();
            self.faults.raise();
            return Err(Failed);
        }
        if !self.table.open(path) {
            self.faults.raise();
            return Err(Failed);
        }
        Ok(())
    }

    fn read(&mut self, into: &mut [u8]) -> Result<usize, Failed> {
        let moved = self.moved;
        if self.schedule.next() {
            self.faults.raise();
            return Err(Failed);
        }
        let count = self.give(into);
        self.table.advance(count);
        self.moved = moved.saturating_add(count as u64);
        Ok(count)
    }
}
