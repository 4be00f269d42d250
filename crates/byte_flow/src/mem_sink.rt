// A sink into memory, for tests.
ghost use Rattle.std.specs.Prelude.{◌≡◌, ◌≤◌, ◌<◌, [], ◌∷◌, ◌++◌, IsOk, OnOk, OnErr, max};
ghost use Rattle.std.specs.Prelude.{vec_capacity, vec_len};

use crate::count::Count;
use crate::schedule::Schedule;
use crate::{Failed, Sink};
use std::alloc::{AllocError, Global};

/// A sink in memory. Each write takes at most `step` bytes, and chosen writes fail.
#[derive(Drop)]
pub struct MemSink {
    // What was taken.
    bytes: Vec<u8>,
    // How many bytes it takes in all; memory for them was reserved.
    made: u64,
    // Which of its writes fail.
    schedule: Schedule,
    faults: Count,
    // The most bytes that a write takes.
    step: u32,
    ghost has_step: { 0 < step },
    ghost within: { vec_len bytes ≤ made },
    ghost reserved: { made ≤ vec_capacity bytes },
}

impl MemSink {
    ghost use Rattle.byte_flow.specs.MemSink.{KeepsCalls, calls_of, faults_of, listed_of, made_of};
    ghost use Rattle.byte_flow.specs.MemSink.{step_of, taken_of};

    /// A sink without room whose writes take at most `step` bytes.
    pub fn new(alloc: Global, step: u32) -> Self
        requires { 1 ≤ step }
        ensures taken { taken_of result ≡ [] }
        ensures made { made_of result ≡ 0 }
        ensures calls { calls_of result ≡ 0 }
        ensures listed { listed_of result ≡ [] }
        ensures step { step_of result ≡ step }
        ensures faults { faults_of result ≡ 0 }
    {
        MemSink {
            bytes: Vec::new(alloc),
            made: 0,
            schedule: Schedule::new(alloc),
            faults: Count::zero(),
            step,
        }
    }

    /// Makes room for this number of bytes in all, with those already taken. A smaller number
    /// changes nothing.
    pub fn make_room(&mut self, bytes: u64) -> Result<(), AllocError>
        ensures ok { OnOk result (made_of self.new ≡ max bytes (made_of self.old)) }
        ensures err { OnErr result (made_of self.new ≡ made_of self.old) }
        ensures enough { bytes ≤ made_of self.old → IsOk result }
        ensures taken { taken_of self.new ≡ taken_of self.old }
        ensures faults { faults_of self.new ≡ faults_of self.old }
        ensures calls { KeepsCalls self.old self.new }
    {
        if bytes <= self.made {
            return Ok(());
        }
        self.bytes.reserve(bytes as usize - self.bytes.len())?;
        self.made = bytes;
        Ok(())
    }

    /// Lets the write with this number fail. Writes are counted from 1.
    pub fn fail_at(&mut self, call: u64) -> Result<(), AllocError>
        ensures ok { OnOk result (listed_of self.new ≡ listed_of self.old ++ call ∷ []) }
        ensures err { OnErr result (listed_of self.new ≡ listed_of self.old) }
        ensures calls { calls_of self.new ≡ calls_of self.old }
        ensures step { step_of self.new ≡ step_of self.old }
        ensures taken { taken_of self.new ≡ taken_of self.old }
        ensures made { made_of self.new ≡ made_of self.old }
        ensures faults { faults_of self.new ≡ faults_of self.old }
    {
        self.schedule.list(call)
    }

    /// Lends the bytes taken.
    pub fn taken(&self) -> &[u8]
        ensures { result.now ≡ taken_of self.now }
    {
        self.bytes.as_slice()
    }
}

impl Sink for MemSink {
    ghost use Rattle.std.specs.Prelude.{Some};
    ghost use Rattle.byte_flow.specs.MemSink.{Written, faults_of, room_of, taken_of};

    ghost model = { record {
      taken = λ s. Some (taken_of s);
      faults = faults_of;
      room = room_of;
      write_gives = Written;
    } };

    ghost counted = { λ s. s.faults.fits };

    fn write(&mut self, piece: &[u8]) -> Result<usize, Failed> {
        if self.schedule.next() {
            self.faults.raise();
            return Err(Failed);
        }
        let count = piece.len().min(self.step as usize);
        if count as u64 > self.made - self.bytes.len() as u64 {
            self.faults.raise();
            return Err(Failed);
        }
        // `make_room` reserved memory for these bytes.
        self.bytes.extend_from_slice(&piece[..count]).unwrap();
        Ok(count)
    }
}
