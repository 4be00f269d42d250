//! The report on a plan, made whole in memory.
ghost use Rattle.std.specs.Prelude.{◌≡◌, ◌++◌, IfOk, OnOk, codes, filter, length};
ghost use Rattle.std.specs.List.{list_any};
ghost use Rattle.coinst_run.specs.CompareText.{comparison_line};
ghost use Rattle.coinst_run.specs.MigrateText.{is_not_taken, is_take, plan_line, plan_text};
ghost use Rattle.coinst_run.specs.MigrateText.{plan_verdict, would_break};

use crate::answer::ReportVerdict;
use crate::compare_text::{is_broken, push_line};
use crate::lines::{Made, Put, push_end, push_pair, push_single};
use migrate_plan::PlanLine;
use std::alloc::Global;
use suite_compare::ReportLine;

// Appends a name that is left, with a line of a comparison.
#[tactic(auto, using(std::proofs::Common::append_assoc))]
fn push_left(out: &mut Vec<u8>, name: &[u8], line: &ReportLine) -> Put
    ensures { OnOk result (out.new.items
        ≡ out.old.items ++ (codes "left " ++ name.now ++ codes " " ++ comparison_line line.now)) }
{
    out.extend_from_slice(b"left ")?;
    out.extend_from_slice(name)?;
    out.extend_from_slice(b" ")?;
    push_line(out, line)
}

// Appends what becomes of a name.
fn push_plan_line(out: &mut Vec<u8>, line: &PlanLine) -> Put
    ensures { OnOk result (out.new.items ≡ out.old.items ++ plan_line line.now) }
{
    match line {
        PlanLine::Take { name } => push_single(out, b"take", name.as_slice()),
        PlanLine::LeftLimit { name } => push_pair(out, b"left", name.as_slice(), b"limit"),
        PlanLine::LeftLine { name, line } => push_left(out, name.as_slice(), line),
    }
}

// Whether the line takes its name.
fn is_take(line: &PlanLine) -> bool
    ensures { result ≡ is_take line.now }
{
    matches!(line, PlanLine::Take { .. })
}

// Whether the name is left since something would be broken.
fn would_break(line: &PlanLine) -> bool
    ensures { result ≡ would_break line.now }
{
    match line {
        PlanLine::Take { .. } | PlanLine::LeftLimit { .. } => false,
        PlanLine::LeftLine { line, .. } => is_broken(line),
    }
}

// How many names are taken.
fn count_taken(lines: &[PlanLine]) -> usize
    ensures { result ≡ length (filter is_take lines.now) }
{
    let mut count = 0;
    for line in lines {
        if is_take(line) {
            count += 1;
        }
    }
    count
}

// How many names are left.
fn count_left(lines: &[PlanLine]) -> usize
    ensures { result ≡ length (filter is_not_taken lines.now) }
{
    let mut count = 0;
    for line in lines {
        if !is_take(line) {
            count += 1;
        }
    }
    count
}

/// The text of the lines of a plan.
#[tactic(auto, unfolding(crate::specs::MigrateText::plan_text))]
pub(crate) fn plan_text(alloc: Global, lines: &[PlanLine]) -> Made
    ensures { IfOk result (λ text. text.items ≡ plan_text lines.now) }
{
    let mut text = Vec::new(alloc);
    for line in lines {
        push_plan_line(&mut text, line)?;
    }
    push_end(&mut text, count_taken(lines), count_left(lines))?;
    Ok(text)
}

// Whether some name is left since something would be broken.
fn has_break(lines: &[PlanLine]) -> bool
    ensures { result ≡ list_any would_break lines.now }
{
    lines.iter().any(|line| would_break(line))
}

// Whether some name is left.
fn has_left(lines: &[PlanLine]) -> bool
    ensures { result ≡ list_any is_not_taken lines.now }
{
    lines.iter().any(|line| !is_take(line))
}

/// What the lines of a plan say as a whole.
pub(crate) fn plan_verdict(lines: &[PlanLine]) -> ReportVerdict
    ensures { result ≡ plan_verdict lines.now }
{
    if has_break(lines) {
        return ReportVerdict::Negative;
    }
    if has_left(lines) {
        return ReportVerdict::Undecided;
    }
    ReportVerdict::Done
}
