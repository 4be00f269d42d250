//! The report of a comparison, made whole in memory.
ghost use Rattle.std.specs.{Prelude.{◌≡◌, ◌++◌, IfOk, OnOk, filter, length}, List.{list_any}};
ghost use Rattle.coinst_run.specs.CompareText.{comparison_line, comparison_text};
ghost use Rattle.coinst_run.specs.CompareText.{comparison_verdict};
ghost use Rattle.suite_compare.specs.Listing.{is_broken, says_open};

use crate::answer::ReportVerdict;
use crate::lines::{Made, Put, push_end, push_pair, push_single};
use std::alloc::Global;
use suite_compare::ReportLine;

/// Appends a line of a comparison.
pub(crate) fn push_line(out: &mut Vec<u8>, line: &ReportLine) -> Put
    ensures { OnOk result (out.new.items ≡ out.old.items ++ comparison_line line.now) }
{
    match line {
        ReportLine::Broken1 { name } => push_single(out, b"broken", name.as_slice()),
        ReportLine::Broken2 { first, second } => {
            push_pair(out, b"broken", first.as_slice(), second.as_slice())
        }
        ReportLine::Open1 { name } => push_single(out, b"open", name.as_slice()),
        ReportLine::Open2 { first, second } => {
            push_pair(out, b"open", first.as_slice(), second.as_slice())
        }
    }
}

/// Whether the line says that something is broken.
pub(crate) fn is_broken(line: &ReportLine) -> bool
    ensures { result ≡ is_broken line.now }
{
    match line {
        ReportLine::Broken1 { .. } | ReportLine::Broken2 { .. } => true,
        ReportLine::Open1 { .. } | ReportLine::Open2 { .. } => false,
    }
}

// How many lines say that something is broken.
fn count_broken(lines: &[ReportLine]) -> usize
    ensures { result ≡ length (filter is_broken lines.now) }
{
    let mut count = 0;
    for line in lines {
        if is_broken(line) {
            count += 1;
        }
    }
    count
}

// Whether the line says that something is open.
fn is_open(line: &ReportLine) -> bool
    ensures { result ≡ says_open line.now }
{
    match line {
        ReportLine::Open1 { .. } | ReportLine::Open2 { .. } => true,
        ReportLine::Broken1 { .. } | ReportLine::Broken2 { .. } => false,
    }
}

// How many lines say that something is open.
fn count_open(lines: &[ReportLine]) -> usize
    ensures { result ≡ length (filter says_open lines.now) }
{
    let mut count = 0;
    for line in lines {
        if is_open(line) {
            count += 1;
        }
    }
    count
}

/// The text of the lines of a comparison.
#[tactic(auto, unfolding(crate::specs::CompareText::comparison_text, crate::specs::end_text))]
pub(crate) fn comparison_text(alloc: Global, lines: &[ReportLine]) -> Made
    ensures { IfOk result (λ text. text.items ≡ comparison_text lines.now) }
{
    let mut text = Vec::new(alloc);
    for line in lines {
        push_line(&mut text, line)?;
    }
    push_end(&mut text, count_broken(lines), count_open(lines))?;
    Ok(text)
}

// Whether some line says that something is broken.
fn has_broken(lines: &[ReportLine]) -> bool
    ensures { result ≡ list_any is_broken lines.now }
{
    lines.iter().any(|line| is_broken(line))
}

// Whether some line says that something is open.
fn has_open(lines: &[ReportLine]) -> bool
    ensures { result ≡ list_any says_open lines.now }
{
    lines.iter().any(|line| is_open(line))
}

/// What the lines of a comparison say as a whole.
pub(crate) fn comparison_verdict(lines: &[ReportLine]) -> ReportVerdict
    ensures { result ≡ comparison_verdict lines.now }
{
    if has_broken(lines) {
        return ReportVerdict::Negative;
    }
    if has_open(lines) {
        return ReportVerdict::Undecided;
    }
    ReportVerdict::Done
}
