//! The walk of the tree, by a stack of decisions with the levels at which they were taken.
//!
//! Depth first, true before false, and nothing is learnt: the tree is specified, and its failed
//! leaves are the budget. So no other order may be taken, and a backtrack goes only to the last
//! decision.
ghost use Rattle.std.specs.Prelude.{◌≡◌, ◌+◌, ◌-◌, ◌<◌, ◌≤◌, ◌^◌, ◌∷◌, ◌++◌, [], ℕ, true, false};
ghost use Rattle.std.specs.Prelude.{List, All, OnOk, IfOk, IfSome, IfNone, length, map};
ghost use Rattle.search_terms.specs.{declared.literals.Literal.{Literal}, Closure.{negation}};
ghost use Rattle.search_terms.specs.Tree.{Tree, IsTree};
ghost use Rattle.clause_solver.specs.Engine.{sentences_in, IsFormula};
ghost use Rattle.clause_solver.specs.Levels.{IsFallen, IsAt, IsToAssume};
ghost use Rattle.clause_solver.specs.Nodes.{AreFull, ArePositive, HaveNegative};
ghost use Rattle.clause_solver.specs.{Standing.{WalksIn, WalksPast}, Starts.{AreStarts, IsStarted}};
ghost use Rattle.clause_solver.specs.Verdicts.{Ends};

use crate::decision::decide;
use crate::formula::Formula;
use crate::nodes::{Node, Start, node_at};
use crate::outcomes::Verdict;
use crate::trail::Trail;
use listed::Listed;
use search_terms::{EntryList, Literal, negated};
use std::alloc::{AllocError, Global};

/// The decisions that lead to a node. For each there is the level below it, that is how long the
/// trail was before it, and the start of the search for an open need there.
#[derive(Drop)]
pub(crate) struct Decisions {
    literals: Vec<Literal>,
    levels: Vec<usize>,
    starts: Vec<Start>,
    start: Start,
}

/// Adds the entry of a node to the log, if one is kept.
fn add_entry(
    alloc: Global,
    keeps: bool,
    log: &mut EntryList,
    decisions: &Decisions,
) -> Result<(), AllocError>
    ensures { OnOk result (keeps ≡ true →
        log.new ≡ log.old ++ map negation decisions.now.literals.items ∷ []) }
{
    if !keeps {
        return Ok(());
    }
    let entry = Listed::of(negated(alloc, &decisions.literals)?);
    log.push(entry)
}

/// Goes back from a refuted part of the tree to the last decision whose other sign is open, and
/// returns that one.
fn backtrack(
    alloc: Global,
    formula: &Formula,
    failed: u64,
    keeps: bool,
    decisions: &mut Decisions,
    trail: &mut Trail,
    log: &mut EntryList,
) -> Result<Option<Literal>, AllocError>
    requires range { All (λ l. l.class < formula.now.classes) decisions.old.literals.items }
    requires past { WalksPast keeps formula.now.classes
        (sentences_in formula.now) decisions.old.literals.items failed log.old }
    requires fallen { IsFallen (sentences_in formula.now) decisions.old.literals.items
        decisions.old.levels.items trail.old.1 }
    requires starts { AreStarts formula.now.own.now decisions.old.levels.items
        decisions.old.starts.items trail.old.1 }
    ensures classes { OnOk result (trail.new.0 ≡ trail.old.0) }
    ensures range { OnOk result
        (All (λ l. l.class < formula.now.classes) decisions.new.literals.items) }
    ensures next { IfOk result (λ next. IfSome next (λ l. WalksIn keeps formula.now.classes
        (sentences_in formula.now) decisions.new.literals.items failed log.new)) }
    ensures ready { IfOk result (λ next. IfSome next (λ l. IsToAssume (sentences_in formula.now)
        decisions.new.literals.items decisions.new.levels.items trail.new.1 l)) }
    ensures class { IfOk result (λ next. IfSome next (λ l. l.class < formula.now.classes)) }
    ensures started { IfOk result (λ next. IfSome next (λ l. IsStarted formula.now.own.now
        decisions.new.levels.items decisions.new.starts.items trail.new.1 decisions.new.start)) }
    ensures end { IfOk result (λ next. IfNone next
        (WalksPast keeps formula.now.classes (sentences_in formula.now) [] failed log.new)) }
{
    while let Some(l) = decisions.literals.pop() {
        let Some(level) = decisions.levels.pop() else {
            unreachable!();
        };
        let Some(start) = decisions.starts.pop() else {
            unreachable!();
        };
        trail.undo(level);
        if l.positive {
            let other = Literal {
                class: l.class,
                positive: false,
            };
            decisions.levels.push(level)?;
            decisions.starts.push(start)?;
            decisions.start = start;
            decisions.literals.push(other)?;
            return Ok(Some(other));
        }
        add_entry(alloc, keeps, log, decisions)?;
    }
    Ok(None)
}

/// The verdict of the formula's tree within the budget, from the closure at its root. If it is yes,
/// the trail is that of the first found leaf. If it is no, the log is that of the tree, if one is
/// kept.
pub(crate) fn walk(
    alloc: Global,
    formula: &Formula,
    budget: u64,
    contradicted: bool,
    keeps: bool,
    trail: &mut Trail,
    log: &mut EntryList,
) -> Result<Verdict, AllocError>
    requires classes { trail.old.0 ≡ formula.now.classes }
    requires engine { IsFormula formula.now.classes formula.now }
    requires positive { ArePositive formula.now.goals.now }
    requires negative { HaveNegative formula.now.own.now }
    requires full { AreFull formula.now.goals.now }
    requires room { budget < 2 ^ 64 - 1 }
    requires empty { log.old ≡ [] }
    requires root { IsAt contradicted (sentences_in formula.now) [] [] trail.old.1 }
    ensures { IfOk result (λ verdict. (tree : Tree) →
        IsTree formula.now.classes (sentences_in formula.now) [] tree →
        Ends keeps formula.now.classes budget tree verdict trail.new.1 log.new) }
{
    let mut decisions = Decisions {
        literals: Vec::new(alloc),
        levels: Vec::new(alloc),
        starts: Vec::new(alloc),
        start: Start {
            height: 0,
            place: 0,
        },
    };
    let mut failed: u64 = 0;
    let mut contradiction = contradicted;
    loop {
        if contradiction {
            if failed == budget {
                return Ok(Verdict::Spent);
            }
            failed += 1;
            add_entry(alloc, keeps, log, &decisions)?;
            match backtrack(alloc, formula, failed, keeps, &mut decisions, trail, log)? {
                None => return Ok(Verdict::No),
                Some(l) => {
                    contradiction = decide(trail, l, formula)?;
                    continue;
                }
            }
        }
        match node_at(trail, formula, &mut decisions.start) {
            Node::Met => return Ok(Verdict::Yes),
            Node::Splits(class) => {
                let l = Literal {
                    class,
                    positive: true,
                };
                decisions.levels.push(trail.as_slice().len())?;
                decisions.starts.push(decisions.start)?;
                decisions.literals.push(l)?;
                contradiction = decide(trail, l, formula)?;
            }
        }
    }
}
