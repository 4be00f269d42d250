//! The report on an installed system, made whole in memory.
ghost use Rattle.std.specs.Prelude.{◌≡◌, ◌++◌, ◌<◌, IfOk, OnOk, filter, length};
ghost use Rattle.coinst_run.specs.SystemText.{clash_text, have_text, is_had, is_lacking, own_text};
ghost use Rattle.coinst_run.specs.SystemText.{suite_text, system_text, system_verdict, unhit_text};
ghost use Rattle.coinst_run.specs.SystemText.{AreOfLines};

use crate::answer::ReportVerdict;
use crate::lines::{Made, Put, push_count, push_end, push_pair, push_versioned};
use status_check::{HaveLine, OwnState, StatusReport, SuiteState};
use std::alloc::Global;

// Appends the line of an own package.
fn push_have(out: &mut Vec<u8>, line: &HaveLine) -> Put
    ensures { OnOk result (out.new.items ≡ out.old.items ++ have_text line.now) }
{
    let word = if line.had { b"have" } else { b"lack" };
    push_pair(out, word, line.name.as_slice(), line.version.as_slice())
}

// Appends the own package with a need that none of them meets.
fn push_unhit(out: &mut Vec<u8>, line: &HaveLine) -> Put
    ensures { OnOk result (out.new.items ≡ out.old.items ++ unhit_text line.now) }
{
    push_pair(
        out,
        b"self unhit",
        line.name.as_slice(),
        line.version.as_slice(),
    )
}

// Appends the two own packages that conflict.
#[tactic(auto, using(crate::proofs::append_assoc))]
fn push_clash(out: &mut Vec<u8>, first: &HaveLine, second: &HaveLine) -> Put
    ensures { OnOk result (out.new.items ≡ out.old.items ++ clash_text first.now second.now) }
{
    out.extend_from_slice(b"self clash ")?;
    push_versioned(out, first.name.as_slice(), first.version.as_slice())?;
    out.extend_from_slice(b" ")?;
    push_versioned(out, second.name.as_slice(), second.version.as_slice())?;
    out.extend_from_slice(b"\n")
}

// Appends whether the own packages are healthy.
fn push_own(out: &mut Vec<u8>, lines: &[HaveLine], own: OwnState) -> Put
    requires { AreOfLines lines.now own }
    ensures { OnOk result (out.new.items ≡ out.old.items ++ own_text lines.now own) }
{
    match own {
        OwnState::Healthy => out.extend_from_slice(b"self healthy\n"),
        OwnState::Unhit { package } => push_unhit(out, &lines[package as usize]),
        OwnState::Clash { first, second } => {
            push_clash(out, &lines[first as usize], &lines[second as usize])
        }
    }
}

// Appends whether what the index has can be installed from it together.
fn push_suite(out: &mut Vec<u8>, state: SuiteState, budget: u64) -> Put
    ensures { OnOk result (out.new.items ≡ out.old.items ++ suite_text budget state) }
{
    match state {
        SuiteState::Yes => out.extend_from_slice(b"suite yes\n"),
        SuiteState::No => out.extend_from_slice(b"suite no\n"),
        SuiteState::Spent { .. } => push_count(out, b"suite undecided ", budget),
    }
}

// How many own packages the index has.
fn count_had(lines: &[HaveLine]) -> usize
    ensures { result ≡ length (filter is_had lines.now) }
{
    lines.iter().filter(|line| line.had).count()
}

// How many it lacks.
fn count_lacking(lines: &[HaveLine]) -> usize
    ensures { result ≡ length (filter is_lacking lines.now) }
{
    lines.iter().filter(|line| !line.had).count()
}

/// The text of a report within a budget.
#[tactic(auto, using(crate::proofs::append_assoc), unfolding(crate::specs::system_text))]
pub(crate) fn system_text(alloc: Global, report: &StatusReport, budget: u64) -> Made
    requires { AreOfLines report.now.lines report.now.own }
    ensures { IfOk result (λ text. text.items ≡ system_text budget report.now) }
{
    let lines = report.lines.as_slice();
    let mut text = Vec::new(alloc);
    for line in lines {
        push_have(&mut text, line)?;
    }
    push_count(&mut text, b"foreign ", report.foreign)?;
    push_own(&mut text, lines, report.own)?;
    push_suite(&mut text, report.verdict, budget)?;
    push_end(&mut text, count_had(lines), count_lacking(lines))?;
    Ok(text)
}

/// What a report says as a whole.
pub(crate) fn system_verdict(own: OwnState, state: SuiteState) -> ReportVerdict
    ensures { result ≡ system_verdict own state }
{
    match own {
        OwnState::Healthy => match state {
            SuiteState::Yes => ReportVerdict::Done,
            SuiteState::No => ReportVerdict::Negative,
            SuiteState::Spent { .. } => ReportVerdict::Undecided,
        },
        OwnState::Unhit { .. } | OwnState::Clash { .. } => ReportVerdict::Negative,
    }
}
