//! The texts of a query, each made whole in memory.
ghost use Rattle.std.specs.{Prelude.{◌≡◌, ◌++◌, ◌<◌, ℕ, IfOk, OnOk, length}, List.{flat_map}};
ghost use Rattle.repo_model.specs.Stanzas.{stanza_at};
ghost use Rattle.listed.specs.Lists.{In};
ghost use Rattle.coinst_run.specs.QueryText.{goal_word, install_line, literal_text, log_line};
ghost use Rattle.coinst_run.specs.QueryText.{no_text, undecided_text, unknown_line, version_word};
ghost use Rattle.coinst_run.specs.QueryText.{yes_text};

use crate::lines::{Made, Put, push_count, push_counted, push_pair};
use deb_version::Version;
use relation_fields::PackageFacts;
use repo_model::Goal;
use search_terms::{Literal, Log};
use std::alloc::Global;

// Appends the line of a package that is installed.
fn push_install(out: &mut Vec<u8>, facts: &PackageFacts) -> Put
    ensures { OnOk result (out.new.items ≡ out.old.items ++ install_line facts.now) }
{
    push_pair(out, b"install", facts.name.as_slice(), facts.version.text())
}

// Appends the lines of the packages with these numbers.
fn push_installs(out: &mut Vec<u8>, packages: &[PackageFacts], numbers: &[u32]) -> Put
    requires { (n : ℕ) → In n numbers.now → n < length packages.now }
    ensures { OnOk result (out.new.items
        ≡ out.old.items ++ flat_map (λ n. install_line (stanza_at packages.now n)) numbers.now) }
{
    for number in numbers {
        push_install(out, &packages[*number as usize])?;
    }
    Ok(())
}

/// Yes, and the packages with these numbers.
#[tactic(auto, using(crate::proofs::append_assoc), unfolding(crate::specs::QueryText::yes_text))]
pub(crate) fn yes_text(alloc: Global, packages: &[PackageFacts], numbers: &[u32]) -> Made
    requires { (n : ℕ) → In n numbers.now → n < length packages.now }
    ensures { IfOk result (λ text. text.items ≡ yes_text packages.now numbers.now) }
{
    let mut text = Vec::from_slice(alloc, b"yes\n")?;
    push_installs(&mut text, packages, numbers)?;
    Ok(text)
}

// Appends a class that holds, or one that does not.
fn push_literal(out: &mut Vec<u8>, literal: Literal) -> Put
    ensures { OnOk result (out.new.items ≡ out.old.items ++ literal_text literal) }
{
    let sign = if literal.positive { b" +" } else { b" -" };
    push_counted(out, sign, u64::from(literal.class))
}

// Appends the line of an entry.
#[tactic(auto, using(crate::proofs::append_assoc))]
fn push_log_line(out: &mut Vec<u8>, entry: &[Literal]) -> Put
    ensures { OnOk result (out.new.items ≡ out.old.items ++ log_line entry.now) }
{
    out.extend_from_slice(b"log")?;
    for literal in entry {
        push_literal(out, *literal)?;
    }
    out.extend_from_slice(b"\n")
}

/// No, and the log that shows it.
#[tactic(auto, using(crate::proofs::append_assoc), unfolding(crate::specs::QueryText::no_text))]
pub(crate) fn no_text(alloc: Global, log: &Log) -> Made
    ensures { IfOk result (λ text. text.items ≡ no_text log.now.entries) }
{
    let entries = log.entries.as_slice();
    let mut text = Vec::from_slice(alloc, b"no\n")?;
    for entry in entries {
        push_log_line(&mut text, entry.as_slice())?;
    }
    Ok(text)
}

/// Undecided within the budget.
#[tactic(auto, using(crate::proofs::append_assoc), unfolding(crate::specs::undecided_text))]
pub(crate) fn undecided_text(alloc: Global, budget: u64) -> Made
    ensures { IfOk result (λ text. text.items ≡ undecided_text budget) }
{
    let mut text = Vec::new(alloc);
    push_count(&mut text, b"undecided ", budget)?;
    Ok(text)
}

// Appends the version that a goal asks for to its name.
fn push_version(out: &mut Vec<u8>, version: &Option<Version>) -> Put
    ensures { OnOk result (out.new.items ≡ out.old.items ++ version_word version.now) }
{
    match version {
        None => Ok(()),
        Some(version) => {
            out.extend_from_slice(b"=")?;
            out.extend_from_slice(version.text())
        }
    }
}

/// Appends the word of a goal.
#[tactic(auto, using(crate::proofs::append_assoc))]
pub(crate) fn push_goal_word(out: &mut Vec<u8>, goal: &Goal) -> Put
    ensures { OnOk result (out.new.items ≡ out.old.items ++ goal_word goal.now) }
{
    out.extend_from_slice(goal.name.as_slice())?;
    push_version(out, &goal.version)
}

/// The line of the goal of a number, counted from 1, that names no package.
#[tactic(auto, using(crate::proofs::append_assoc), unfolding(crate::specs::unknown_line))]
pub(crate) fn unknown_line(alloc: Global, number: u64, goal: &Goal) -> Made
    ensures { IfOk result (λ line. line.items ≡ unknown_line number goal.now) }
{
    let mut line = Vec::new(alloc);
    push_counted(&mut line, b"goal ", number)?;
    line.extend_from_slice(b" is unknown: ")?;
    push_goal_word(&mut line, goal)?;
    line.extend_from_slice(b"\n")?;
    Ok(line)
}
