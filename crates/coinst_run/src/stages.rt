//! The parts of commands: a file read whole, an index checked as it is read.
ghost use Rattle.std.specs.Prelude.{◌≡◌, ◌≤◌, ℕ, List, length, Option, Ok, IfOk, IfErr, IfSome};
ghost use Rattle.repo_model.specs.{Facts.{AreNamedPackages}, Feed.{FeedStandsFor}};
ghost use Rattle.repo_model.specs.declared.fault.IndexFault.{IndexFault};
ghost use Rattle.repo_model.specs.{Refusals.{is_memory, Refuses}, Limits.{most_bytes}};
ghost use Rattle.coinst_run.specs.Ending.{IsReadEnding, Settles, StopsAt, stop_ending};
ghost use Rattle.coinst_run.specs.{Course.{Course, reads}, Faults.{fault_cause}, Feeding.{WasFed}};
ghost use Rattle.coinst_run.specs.{Held.{WasMeasured}, Follows.{Follows, ReachesIndex, WasRead}};
ghost use Rattle.coinst_run.specs.Index.{Index, by_fault, checked_index, index_of, reads_index};

use crate::answer::{Cause, Stop};
use crate::lines::{fault_line, too_long_line};
use byte_flow::{ReadError, Shelf, feed_file, read_file};
use coinst_words::PathText;
use repo_model::{IndexFault, Suite, SuiteFeed, read_suite};
use std::alloc::Global;

/// The most bytes that a file may have.
const FILE_LIMIT: u64 = 1_073_741_824;

// What a fault of an index is refused as.
fn fault_cause(fault: IndexFault) -> Cause
    ensures { result ≡ fault_cause fault }
{
    match fault {
        IndexFault::TooMany => Cause::TooLarge,
        IndexFault::Stanza(_)
        | IndexFault::MissingPackage { .. }
        | IndexFault::MissingVersion { .. }
        | IndexFault::BadPackage { .. }
        | IndexFault::BadVersion { .. }
        | IndexFault::BadArchitecture { .. }
        | IndexFault::BadRelation { .. }
        | IndexFault::Duplicate { .. }
        | IndexFault::Mixed { .. }
        | IndexFault::Memory => Cause::Content,
    }
}

// The stop of a file that was not read whole.
fn unread(alloc: Global, path: &str, error: ReadError) -> Stop
    ensures { IfSome (stop_ending result) (IsReadEnding path.now error) }
{
    match error {
        ReadError::Failed => match PathText::copy(alloc, path) {
            Ok(path) => Stop::Unread { path },
            Err(_) => Stop::Memory,
        },
        ReadError::TooLong => Stop::refused(Cause::TooLarge, too_long_line(alloc, path)),
        ReadError::Memory => Stop::Memory,
    }
}

/// Reads the file at a path whole.
pub(crate) fn text_at<F: Shelf>(alloc: Global, shelf: &mut F, path: &str) -> Result<Vec<u8>, Stop>
    ensures text { IfOk result (λ text. WasRead F.model shelf.old path.now text.items shelf.new) }
    ensures stop { IfErr result (λ stop. (next : List ℕ → Course) →
        Follows F.model (reads path.now next) shelf.old (stop_ending stop) shelf.new) }
{
    match read_file(alloc, shelf, path, FILE_LIMIT) {
        Ok(text) => Ok(text),
        Err(error) => Err(unread(alloc, path, error)),
    }
}

// Whether a fault is want of memory.
fn is_memory(fault: IndexFault) -> bool
    ensures { result ≡ is_memory fault }
{
    matches!(fault, IndexFault::Memory)
}

/// The stop of the file at a path with this fault.
pub(crate) fn faulty(alloc: Global, path: &str, fault: IndexFault) -> Stop
    ensures { (text : List ℕ) (there : Option IndexFault) → Refuses fault there →
        StopsAt (by_fault path.now text there) (stop_ending result) }
{
    if is_memory(fault) {
        return Stop::Memory;
    }
    Stop::refused(fault_cause(fault), fault_line(alloc, path, fault))
}

/// Reads the packages of an index, or refuses its first fault.
pub fn checked_index(alloc: Global, path: &str, text: &[u8]) -> Result<Suite, Stop>
    requires { length text.now ≤ most_bytes }
    ensures suite { IfOk result (λ suite. checked_index path.now text.now ≡ Ok (index_of suite)) }
    ensures named { IfOk result (λ suite. AreNamedPackages suite.packages) }
    ensures stop { IfErr result (λ stop.
        StopsAt (checked_index path.now text.now) (stop_ending stop)) }
{
    match read_suite(alloc, text) {
        Ok(suite) => Ok(suite),
        Err(fault) => Err(faulty(alloc, path, fault)),
    }
}

// Gives the file at a path whole to a feed, piece by piece.
fn feed_at<F: Shelf>(alloc: Global, shelf: &mut F, path: &str) -> Result<SuiteFeed, Stop>
    ensures fed { IfOk result (λ feed. WasFed F.model shelf.old path.now feed shelf.new) }
    ensures stop { IfErr result (λ stop. (next : List ℕ → Course) →
        Follows F.model (reads path.now next) shelf.old (stop_ending stop) shelf.new) }
{
    let mut feed = SuiteFeed::new(alloc)?;
    match feed_file(alloc, shelf, path, FILE_LIMIT, &mut feed) {
        Ok(_) => Ok(feed),
        Err(error) => Err(unread(alloc, path, error)),
    }
}

// The packages of the index that a feed stands for, or the refusal of its first fault.
fn finished_index(alloc: Global, path: &str, feed: SuiteFeed) -> Result<Suite, Stop>
    ensures suite { IfOk result (λ suite. (text : List ℕ) → FeedStandsFor feed text →
        checked_index path.now text ≡ Ok (index_of suite)) }
    ensures named { IfOk result (λ suite. (text : List ℕ) → FeedStandsFor feed text →
        AreNamedPackages suite.packages) }
    ensures stop { IfErr result (λ stop. (text : List ℕ) → FeedStandsFor feed text →
        StopsAt (checked_index path.now text) (stop_ending stop)) }
{
    match feed.finish() {
        Ok(suite) => Ok(suite),
        Err(fault) => Err(faulty(alloc, path, fault)),
    }
}

/// Reads the index at a path whole, piece by piece, and checks it as it is read, or says why it
/// cannot be used. Of its text only the stanza that is open is held.
pub fn suite_at<F: Shelf>(alloc: Global, shelf: &mut F, path: &str) -> Result<Suite, Stop>
    ensures suite { IfOk result (λ suite.
        ReachesIndex F.model shelf.old path.now (index_of suite) shelf.new) }
    ensures named { IfOk result (λ suite. AreNamedPackages suite.packages) }
    ensures stop { IfErr result (λ stop. (next : Index → Course) →
        Follows F.model (reads_index path.now next) shelf.old (stop_ending stop) shelf.new) }
{
    let feed = feed_at(alloc, shelf, path)?;
    finished_index(alloc, path, feed)
}

/// The packages of an index, and how many bytes its text has.
#[derive(Drop)]
pub(crate) struct MeasuredIndex {
    pub(crate) suite: Suite,
    pub(crate) length: u64,
}

/// Reads the index at a path as `suite_at` does, and counts its bytes.
pub(crate) fn measured_at<F: Shelf>(
    alloc: Global,
    shelf: &mut F,
    path: &str,
) -> Result<MeasuredIndex, Stop>
    ensures index { IfOk result (λ made. WasMeasured F.model shelf.old path.now made shelf.new) }
    ensures stop { IfErr result (λ stop. (next : List ℕ → Course) → ((text : List ℕ) → StopsAt
        (checked_index path.now text) (stop_ending stop) → Settles (next text) (stop_ending stop))
        → Follows F.model (reads path.now next) shelf.old (stop_ending stop) shelf.new) }
{
    let feed = feed_at(alloc, shelf, path)?;
    let length = feed.taken();
    let suite = finished_index(alloc, path, feed)?;
    Ok(MeasuredIndex { suite, length })
}
