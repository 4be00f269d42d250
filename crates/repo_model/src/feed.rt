//! An index that is read piece by piece.
ghost use Rattle.std.specs.Prelude.{◌≡◌, ◌+◌, ◌≤◌, ◌++◌, List, ℕ, true, length};
ghost use Rattle.repo_model.specs.Feeding.{is_spent, FitsWithin, FitsWithin-prop, HoldsOpen};
ghost use Rattle.repo_model.specs.Feeding.{HoldsOpen-prop, StandsFor, StandsUnlessMemory};
ghost use Rattle.repo_model.specs.Limits.{most_bytes};

use crate::fault::IndexFault;
use crate::progress::Progress;
use crate::suite::Suite;
use byte_flow::Taker;
use std::alloc::{AllocError, Global};
use std::mem;

/// An index that is taken in pieces. It keeps the packages of the stanzas that are closed and the
/// bytes of the open one. From the first fault on it keeps only that fault.
#[derive(Drop)]
pub struct SuiteFeed {
    alloc: Global,
    taken: u64,
    reading: Result<Progress, IndexFault>,
    ghost within: { taken ≤ most_bytes },
    ghost fits: { FitsWithin taken reading } by { FitsWithin-prop taken reading },
    ghost unclosed: { HoldsOpen reading } by { HoldsOpen-prop reading },
}

impl SuiteFeed {
    ghost use Rattle.std.specs.Prelude.{◌≡◌, List, ℕ, [], true, map, None, IfOk, IfErr, IsErrAnd};
    ghost use Rattle.std.specs.Prelude.{OnOk};
    ghost use Rattle.repo_model.specs.Facts.{facts_of, AreNamedPackages};
    ghost use Rattle.repo_model.specs.Feed.{taken_of, was_refused, FeedStandsFor};
    ghost use Rattle.repo_model.specs.FirstFault.{first_fault, home_of, stanzas_of};
    ghost use Rattle.repo_model.specs.Refusals.{is_memory, Refuses};

    /// A feed that has taken no byte.
    pub fn new(alloc: Global) -> Result<SuiteFeed, AllocError>
        ensures taken { IfOk result (λ feed. taken_of feed ≡ 0) }
        ensures stands { IfOk result (λ feed. FeedStandsFor feed []) }
    {
        let reading = Ok(Progress::new(alloc));
        Ok(SuiteFeed {
            alloc,
            taken: 0,
            reading,
        })
    }

    /// How many bytes were taken.
    pub fn taken(&self) -> u64
        ensures { result ≡ taken_of self.now }
    {
        self.taken
    }

    /// The suite of the bytes that were taken, or their first fault, as if they were read at once.
    /// If a piece was refused, the answer is want of memory.
    pub fn finish(self) -> Result<Suite, IndexFault>
        ensures refused { IfErr result (λ fault. (text : List ℕ) → FeedStandsFor self text →
            Refuses fault (first_fault text)) }
        ensures accepted { OnOk result ((text : List ℕ) → FeedStandsFor self text →
            first_fault text ≡ None) }
        ensures packages { IfOk result (λ suite. (text : List ℕ) → FeedStandsFor self text →
            suite.packages ≡ map facts_of (stanzas_of text)) }
        ensures home { IfOk result (λ suite. (text : List ℕ) → FeedStandsFor self text →
            suite.home.name ≡ home_of (stanzas_of text)) }
        ensures named { IfOk result (λ suite. (text : List ℕ) → FeedStandsFor self text →
            AreNamedPackages suite.packages) }
        ensures spent { was_refused self ≡ true →
            IsErrAnd result (λ fault. is_memory fault ≡ true) }
    {
        let SuiteFeed { alloc, reading, .. } = self;
        match reading {
            Ok(progress) => progress.finish(alloc),
            Err(fault) => Err(fault),
        }
    }
}

impl Taker for SuiteFeed {
    ghost use Rattle.std.specs.Prelude.{◌≡◌, ◌+◌, ◌≤◌, ◌++◌, List, ℕ, true, length, OnOk, OnErr};
    ghost use Rattle.std.specs.Prelude.{IsErr};
    ghost use Rattle.repo_model.specs.Feed.{taken_of, was_refused, FeedStandsFor};

    ghost stands_for = { λ feed text. FeedStandsFor feed text };

    ghost taken = { λ feed. taken_of feed };

    ghost limit = { λ _. most_bytes };

    /// Takes the next piece. After a refusal each further piece is refused too.
    fn take(&mut self, piece: &[u8]) -> Result<(), AllocError>
        requires { taken_of self.old + length piece.now ≤ most_bytes }
        ensures grows { OnOk result (taken_of self.new ≡ taken_of self.old + length piece.now) }
        ensures stands { OnOk result ((text : List ℕ) → FeedStandsFor self.old text →
            FeedStandsFor self.new (text ++ piece.now)) }
        ensures keeps { OnErr result (taken_of self.new ≡ taken_of self.old) }
        ensures spends { OnErr result (was_refused self.new ≡ true) }
        ensures stays_spent { was_refused self.old ≡ true → IsErr result }
    {
        let alloc = self.alloc;
        let before = mem::replace(&mut self.reading, Err(IndexFault::Memory));
        let reading = read_piece(alloc, before, piece);
        if is_spent(&reading) {
            return Err(AllocError);
        }
        self.reading = reading;
        self.taken += piece.len() as u64;
        Ok(())
    }
}

// Reads a piece after what was read; after a fault pieces are not looked at.
fn read_piece(
    alloc: Global,
    before: Result<Progress, IndexFault>,
    piece: &[u8],
) -> Result<Progress, IndexFault>
    requires room { (taken : ℕ) × FitsWithin taken before
        × (taken + length piece.now ≤ most_bytes) }
    requires unclosed { HoldsOpen before }
    ensures stands { (text : List ℕ) → StandsFor before text →
        StandsUnlessMemory result (text ++ piece.now) }
    ensures fits { (taken : ℕ) → FitsWithin taken before →
        FitsWithin (taken + length piece.now) result }
    ensures unclosed { HoldsOpen result }
    ensures spent { is_spent before ≡ true → is_spent result ≡ true }
{
    match before {
        Ok(progress) => progress.add(alloc, piece),
        Err(fault) => Err(fault),
    }
}

// Whether memory ran out.
fn is_spent(reading: &Result<Progress, IndexFault>) -> bool
    ensures { result ≡ is_spent reading.now }
{
    matches!(reading, Err(IndexFault::Memory))
}
