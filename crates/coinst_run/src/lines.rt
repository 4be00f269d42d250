//! The lines of reports and the lines about a file, put together in memory.
ghost use Rattle.std.specs.{Prelude.{◌≡◌, ◌++◌, IfOk, OnOk}, Fmt.{decimal}};
ghost use Rattle.coinst_run.specs.Lines.{about, at_line, counted_line, end_text, fault_line};
ghost use Rattle.coinst_run.specs.Lines.{fault_text, pair_text, row_text, shape_text, single_text};
ghost use Rattle.coinst_run.specs.Lines.{size_line, stage_text, too_long_line, versioned_text};

use itoa::Buffer;
use repo_model::IndexFault;
use stanza_reader::StanzaFault;
use std::alloc::{AllocError, Global};

/// What appending bytes to a text returns.
pub(crate) type Put = Result<(), AllocError>;

/// What making a text returns.
pub(crate) type Made = Result<Vec<u8>, AllocError>;

// Appends a number in decimal digits.
fn push_number(out: &mut Vec<u8>, number: u64) -> Put
    ensures { OnOk result (out.new.items ≡ out.old.items ++ decimal number) }
{
    let mut buffer = Buffer::new();
    out.extend_from_slice(buffer.format(number).as_bytes())
}

/// Appends words and a number.
#[tactic(auto, using(std::proofs::Common::append_assoc))]
pub(crate) fn push_counted(out: &mut Vec<u8>, words: &[u8], number: u64) -> Put
    ensures { OnOk result (out.new.items ≡ out.old.items ++ (words.now ++ decimal number)) }
{
    out.extend_from_slice(words)?;
    push_number(out, number)
}

/// Appends a line of words and a number.
#[tactic(auto, using(std::proofs::Common::append_assoc))]
pub(crate) fn push_count(out: &mut Vec<u8>, words: &[u8], number: u64) -> Put
    ensures { OnOk result (out.new.items ≡ out.old.items ++ counted_line words.now number) }
{
    push_counted(out, words, number)?;
    out.extend_from_slice(b"\n")
}

/// Appends the line of a word and a name.
#[tactic(auto, using(std::proofs::Common::append_assoc))]
pub(crate) fn push_single(out: &mut Vec<u8>, word: &[u8], name: &[u8]) -> Put
    ensures { OnOk result (out.new.items ≡ out.old.items ++ single_text word.now name.now) }
{
    out.extend_from_slice(word)?;
    out.extend_from_slice(b" ")?;
    out.extend_from_slice(name)?;
    out.extend_from_slice(b"\n")
}

/// Appends the line of a word and two names, or a name and a version.
#[tactic(auto, using(std::proofs::Common::append_assoc))]
pub(crate) fn push_pair(out: &mut Vec<u8>, word: &[u8], first: &[u8], second: &[u8]) -> Put
    ensures { OnOk result (out.new.items
        ≡ out.old.items ++ pair_text word.now first.now second.now) }
{
    out.extend_from_slice(word)?;
    out.extend_from_slice(b" ")?;
    push_versioned(out, first, second)?;
    out.extend_from_slice(b"\n")
}

/// Appends the name and the version of a package.
#[tactic(auto, using(std::proofs::Common::append_assoc))]
pub(crate) fn push_versioned(out: &mut Vec<u8>, name: &[u8], version: &[u8]) -> Put
    ensures { OnOk result (out.new.items ≡ out.old.items ++ versioned_text name.now version.now) }
{
    out.extend_from_slice(name)?;
    out.extend_from_slice(b" ")?;
    out.extend_from_slice(version)
}

/// Appends the last line of a report, with two numbers.
#[tactic(auto, using(std::proofs::Common::append_assoc))]
pub(crate) fn push_end(out: &mut Vec<u8>, first: usize, second: usize) -> Put
    ensures { OnOk result (out.new.items ≡ out.old.items ++ end_text first second) }
{
    push_counted(out, b"end ", first as u64)?;
    push_count(out, b" ", second as u64)
}

/// Appends what is wrong at a line of a file.
#[tactic(auto, using(std::proofs::Common::append_assoc))]
pub(crate) fn push_at_line(out: &mut Vec<u8>, line: u64, words: &[u8]) -> Put
    ensures { OnOk result (out.new.items ≡ out.old.items ++ at_line line words.now) }
{
    push_counted(out, b"line ", line)?;
    out.extend_from_slice(b": ")?;
    out.extend_from_slice(words)
}

// Appends what is wrong at a line of a file, followed by a number.
#[tactic(auto, using(std::proofs::Common::append_assoc))]
fn push_numbered(out: &mut Vec<u8>, line: u64, words: &[u8], behind: u64) -> Put
    ensures { OnOk result (out.new.items
        ≡ out.old.items ++ (at_line line words.now ++ decimal behind)) }
{
    push_at_line(out, line, words)?;
    push_number(out, behind)
}

// Appends what is wrong with the lines of a stanza.
fn push_shape(out: &mut Vec<u8>, fault: StanzaFault) -> Put
    ensures { OnOk result (out.new.items ≡ out.old.items ++ shape_text fault) }
{
    match fault {
        StanzaFault::NoColon { line } => push_at_line(out, line, b"no colon"),
        StanzaFault::BadName { line } => push_at_line(out, line, b"bad field name"),
        StanzaFault::LoneContinuation { line } => {
            push_at_line(out, line, b"continuation before any field")
        }
        StanzaFault::Repeated { line } => push_at_line(out, line, b"field repeated"),
        StanzaFault::Memory => out.extend_from_slice(b"out of memory"),
    }
}

// Appends what is wrong with an index.
fn push_fault(out: &mut Vec<u8>, fault: IndexFault) -> Put
    ensures { OnOk result (out.new.items ≡ out.old.items ++ fault_text fault) }
{
    match fault {
        IndexFault::Stanza(fault) => push_shape(out, fault),
        IndexFault::MissingPackage { line } => push_at_line(out, line, b"no Package field"),
        IndexFault::MissingVersion { line } => push_at_line(out, line, b"no Version field"),
        IndexFault::BadPackage { line } => push_at_line(out, line, b"bad Package value"),
        IndexFault::BadVersion { line } => push_at_line(out, line, b"bad Version value"),
        IndexFault::BadArchitecture { line } => push_at_line(out, line, b"bad Architecture value"),
        IndexFault::BadRelation { line, element } => {
            push_numbered(out, line, b"bad relation, element ", u64::from(element))
        }
        IndexFault::Duplicate { first_line, line } => {
            push_numbered(out, line, b"same package as line ", first_line)
        }
        IndexFault::Mixed { line } => push_at_line(out, line, b"second architecture"),
        IndexFault::TooMany => out.extend_from_slice(b"more than 200000 packages"),
        IndexFault::Memory => out.extend_from_slice(b"out of memory"),
    }
}

/// The line of words about the file at a path.
#[tactic(auto, using(std::proofs::Common::append_assoc))]
pub(crate) fn line_about(alloc: Global, path: &str, words: &[u8]) -> Made
    ensures { IfOk result (λ line. line.items ≡ about path.now words.now) }
{
    let mut line = Vec::from_slice(alloc, path.as_bytes())?;
    line.extend_from_slice(b": ")?;
    line.extend_from_slice(words)?;
    line.extend_from_slice(b"\n")?;
    Ok(line)
}

/// The line of the first fault of the file at a path.
#[tactic(auto, unfolding(crate::specs::Lines::fault_line))]
pub(crate) fn fault_line(alloc: Global, path: &str, fault: IndexFault) -> Made
    ensures { IfOk result (λ line. line.items ≡ fault_line path.now fault) }
{
    let mut words = Vec::new(alloc);
    push_fault(&mut words, fault)?;
    line_about(alloc, path, words.as_slice())
}

/// The line of a file that is longer than the limit.
#[tactic(auto, unfolding(crate::specs::Lines::too_long_line))]
pub(crate) fn too_long_line(alloc: Global, path: &str) -> Made
    ensures { IfOk result (λ line. line.items ≡ too_long_line path.now) }
{
    line_about(alloc, path, b"longer than 1073741824 bytes")
}

/// Appends which clause limit was passed, and when.
#[tactic(auto, using(std::proofs::Common::append_assoc))]
pub(crate) fn push_stage(out: &mut Vec<u8>, limit: u64, round: u64, gone: u64) -> Put
    ensures { OnOk result (out.new.items ≡ out.old.items ++ stage_text limit round gone) }
{
    out.extend_from_slice(b"clause limit ")?;
    push_number(out, limit)?;
    out.extend_from_slice(b" passed: round ")?;
    push_number(out, round)?;
    out.extend_from_slice(b", gone ")?;
    push_number(out, gone)
}

/// Appends which package passed it, and by how many clauses.
#[tactic(auto, using(std::proofs::Common::append_assoc))]
pub(crate) fn push_row(out: &mut Vec<u8>, name: &[u8], version: &[u8], count: u64) -> Put
    ensures { OnOk result (out.new.items ≡ out.old.items ++ row_text name.now version.now count) }
{
    out.extend_from_slice(b", package ")?;
    push_versioned(out, name, version)?;
    push_counted(out, b", clauses ", count)
}

/// The line on the size of a kernel.
#[tactic(auto, using(std::proofs::Common::append_assoc), unfolding(crate::specs::Lines::size_line))]
pub(crate) fn size_line(
    alloc: Global,
    packages: u64,
    classes: u64,
    clauses: u64,
    conflicts: u64,
) -> Made
    ensures { IfOk result (λ line. line.items ≡ size_line packages classes clauses conflicts) }
{
    let mut line = Vec::new(alloc);
    push_counted(&mut line, b"packages ", packages)?;
    push_counted(&mut line, b" classes ", classes)?;
    push_counted(&mut line, b" clauses ", clauses)?;
    push_count(&mut line, b" conflicts ", conflicts)?;
    Ok(line)
}
