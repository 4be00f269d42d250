//! The report of an explanation, made whole in memory.
ghost use Rattle.std.specs.{Prelude.{◌≡◌, ◌++◌, IfOk, IfSome, OnOk, length}, List.{flat_map}};
ghost use Rattle.explain_core.specs.{Picking.{ArePlacesFrom1}, OnStanzas.{AreClashesOf}};
ghost use Rattle.coinst_run.specs.ExplainText.{clash_count, clash_line, clash_text, clashes_text};
ghost use Rattle.coinst_run.specs.ExplainText.{core_text, goal_line, goal_text};

use crate::lines::{Made, Put, push_end, push_versioned};
use crate::query::goal_of_number;
use crate::query_text::push_goal_word;
use explain_core::{Clash, ClashList, Mark};
use relation_fields::PackageFacts;
use repo_model::Goal;
use std::alloc::Global;

// Appends the line of a goal that matters, or may matter.
#[tactic(auto, using(crate::proofs::append_assoc))]
fn push_goal(out: &mut Vec<u8>, goal: &Goal, unsettled: bool) -> Put
    ensures { OnOk result (out.new.items ≡ out.old.items ++ goal_text unsettled goal.now) }
{
    if unsettled {
        out.extend_from_slice(b"goal-open ")?;
    } else {
        out.extend_from_slice(b"goal ")?;
    }
    push_goal_word(out, goal)?;
    out.extend_from_slice(b"\n")
}

// Appends the lines of the goals that are marked.
fn push_goals(out: &mut Vec<u8>, goals: &[Goal], marks: &[Mark]) -> Put
    requires { ArePlacesFrom1 (length goals.now) marks.now }
    ensures { OnOk result (out.new.items
        ≡ out.old.items ++ flat_map (goal_line goals.now) marks.now) }
{
    for mark in marks {
        push_goal(out, goal_of_number(goals, mark.goal), mark.unsettled)?;
    }
    Ok(())
}

// Appends the line of two packages whose conflict matters, or may matter.
#[tactic(auto, using(crate::proofs::append_assoc))]
fn push_clash(
    out: &mut Vec<u8>,
    first: &PackageFacts,
    second: &PackageFacts,
    unsettled: bool,
) -> Put
    ensures { OnOk result (out.new.items
        ≡ out.old.items ++ clash_text unsettled first.now second.now) }
{
    if unsettled {
        out.extend_from_slice(b"clash-open ")?;
    } else {
        out.extend_from_slice(b"clash ")?;
    }
    push_versioned(out, first.name.as_slice(), first.version.text())?;
    out.extend_from_slice(b" ")?;
    push_versioned(out, second.name.as_slice(), second.version.text())?;
    out.extend_from_slice(b"\n")
}

// Appends the lines of conflicts.
fn push_clashes(out: &mut Vec<u8>, packages: &[PackageFacts], clashes: &[Clash]) -> Put
    requires { AreClashesOf (length packages.now) clashes.now }
    ensures { OnOk result (out.new.items
        ≡ out.old.items ++ flat_map (clash_line packages.now) clashes.now) }
{
    for clash in clashes {
        push_clash(
            out,
            &packages[clash.first as usize],
            &packages[clash.second as usize],
            clash.unsettled,
        )?;
    }
    Ok(())
}

// Appends the lines of conflicts, or the line that they are open as a whole.
fn push_reasons(out: &mut Vec<u8>, packages: &[PackageFacts], clashes: &Option<ClashList>) -> Put
    requires { IfSome clashes.now (AreClashesOf (length packages.now)) }
    ensures { OnOk result (out.new.items ≡ out.old.items ++ clashes_text packages.now clashes.now) }
{
    match clashes {
        None => out.extend_from_slice(b"clashes-open\n"),
        Some(clashes) => push_clashes(out, packages, clashes.as_slice()),
    }
}

// How many conflicts are printed; none if they are open as a whole.
fn clash_count(clashes: &Option<ClashList>) -> usize
    ensures { result ≡ clash_count clashes.now }
{
    match clashes {
        None => 0,
        Some(clashes) => clashes.as_slice().len(),
    }
}

/// The goals that matter and the conflicts that do.
#[tactic(auto, using(crate::proofs::append_assoc), unfolding(crate::specs::ExplainText::core_text))]
pub(crate) fn core_text(
    alloc: Global,
    packages: &[PackageFacts],
    goals: &[Goal],
    marks: &[Mark],
    clashes: &Option<ClashList>,
) -> Made
    requires marks { ArePlacesFrom1 (length goals.now) marks.now }
    requires clashes { IfSome clashes.now (AreClashesOf (length packages.now)) }
    ensures { IfOk result (λ text. text.items
        ≡ core_text packages.now goals.now marks.now clashes.now) }
{
    let mut text = Vec::new(alloc);
    push_goals(&mut text, goals, marks)?;
    push_reasons(&mut text, packages, clashes)?;
    push_end(&mut text, marks.len(), clash_count(clashes))?;
    Ok(text)
}
