//! What a node of the tree is.
ghost use Rattle.std.specs.Prelude.{◌≡◌, ◌<◌, ◌≤◌, ◌++◌, [], ℕ, true, false, List, All, Contains};
ghost use Rattle.std.specs.{Prelude.{IfOk, length, slice_index_or}, Option.{option_copied}};
ghost use Rattle.std.specs.List.{find};
ghost use Rattle.search_terms.specs.{declared.literals.Literal.{Literal}, Tree.{is_open_need}};
ghost use Rattle.search_terms.specs.Marks.{true_classes};
ghost use Rattle.clause_solver.specs.Marking.{set_of_trail};
ghost use Rattle.clause_solver.specs.Engine.{sentences_in, IsFormula, IsTable, IsUse};
ghost use Rattle.clause_solver.specs.Levels.{CalmAt};
ghost use Rattle.clause_solver.specs.Nodes.{AreFull, HaveNegative, IsLeastOpen, IsNode};
ghost use Rattle.clause_solver.specs.Nodes.{IsUndecidedAt};
ghost use Rattle.clause_solver.specs.Starts.{IsFirstOpen, IsNextOpen, IsStart, IsSwept, NoneBefore};

use crate::formula::Formula;
use crate::reading::{is_open_need, undecided};
use crate::table::Use;
use crate::trail::Trail;
use listed::Listed;
use search_terms::{Literal, LiteralList};
use std::alloc::{AllocError, Global};

/// A node whose closure has no contradiction.
#[derive(Clone, Copy)]
pub(crate) enum Node {
    /// No need is open.
    Met,
    /// The class on which it splits.
    Splits(u32),
}

/// The start of the search for the first open sentence: the front of the trail of this height
/// leaves no sentence before the place open.
#[derive(Clone, Copy, Drop)]
pub(crate) struct Start {
    /// The length of the front.
    pub(crate) height: usize,
    /// The place among the clauses' sentences.
    pub(crate) place: usize,
}

/// The least place below another one of a sentence of the row that is open, or else the other one.
fn lesser_open(trail: &Trail, own: &[LiteralList], row: &[Use], before: usize) -> usize
    requires { All (IsUse own.now) row.now }
    ensures { IsLeastOpen (set_of_trail trail.now.1) own.now row.now before result }
{
    let mut least = before;
    for entry in row {
        let k = entry.sentence;
        if k >= least {
            continue;
        }
        if !is_open_need(trail, own[k].as_slice()) {
            continue;
        }
        least = k;
    }
    least
}

/// The least place below another one of an open sentence in the rows of some literals, or else the
/// other one.
fn least_open(
    trail: &Trail,
    literals: &[Literal],
    own: &[LiteralList],
    uses: &[Listed<Use>],
    before: usize,
) -> usize
    requires table { IsTable trail.now.0 uses.now own.now }
    requires ranged { All (λ l. l.class < trail.now.0) literals.now }
    ensures { IsSwept (set_of_trail trail.now.1) own.now uses.now literals.now before result }
{
    let mut least = before;
    for l in literals {
        if !l.positive {
            continue;
        }
        least = lesser_open(trail, own, uses[l.place()].as_slice(), least);
    }
    least
}

/// The first place of an open sentence from one place on and before another, or else the other one.
fn next_open(trail: &Trail, own: &[LiteralList], from: usize, end: usize) -> usize
    requires within { (from ≤ end) × (end ≤ length own.now) }
    ensures { IsNextOpen (set_of_trail trail.now.1) own.now from end result }
{
    for k in from..end {
        if is_open_need(trail, own[k].as_slice()) {
            return k;
        }
    }
    end
}

/// The place of the first open sentence, or the number of sentences. None is open before `from`.
///
/// It first looks at as many sentences from there on as the trail is long, and only then at those
/// that have a literal of the trail. So a package with many alternatives costs a step for each, and
/// the sentences of other packages are not read for a small trail.
fn open_from(trail: &Trail, own: &[LiteralList], uses: &[Listed<Use>], from: usize) -> usize
    requires table { IsTable trail.now.0 uses.now own.now }
    requires negative { HaveNegative own.now }
    requires none { NoneBefore own.now trail.now.1 from }
    requires within { from ≤ length own.now }
    ensures { IsFirstOpen own.now trail.now.1 result }
{
    let steps = trail.as_slice().len();
    let end = if steps < own.len() - from {
        from + steps
    } else {
        own.len()
    };
    let place = next_open(trail, own, from, end);
    if place < end || end == own.len() {
        return place;
    }
    least_open(trail, trail.as_slice(), own, uses, own.len())
}

/// The place of the first open sentence, or the number of sentences. It becomes the start of the
/// next search.
fn first_open(trail: &Trail, own: &[LiteralList], uses: &[Listed<Use>], start: &mut Start) -> usize
    requires table { IsTable trail.now.0 uses.now own.now }
    requires negative { HaveNegative own.now }
    requires start { IsStart own.now trail.now.1 start.old }
    ensures start { IsStart own.now trail.now.1 start.new }
    ensures first { IsFirstOpen own.now trail.now.1 result }
{
    let new = &trail.as_slice()[start.height..];
    let least = least_open(trail, new, own, uses, start.place);
    if least < start.place {
        return least;
    }
    let place = open_from(trail, own, uses, start.place);
    *start = Start {
        height: trail.as_slice().len(),
        place,
    };
    place
}

/// The first goal that is open.
fn open_goal<'a>(trail: &Trail, goals: &'a [LiteralList]) -> Option<&'a LiteralList>
    ensures { option_copied result ≡ find (is_open_need (set_of_trail trail.now.1)) goals.now }
{
    goals
        .iter()
        .find(|sentence| is_open_need(trail, sentence.as_slice()))
}

/// The first clause that is open.
fn open_own<'a>(
    trail: &Trail,
    own: &'a [LiteralList],
    uses: &[Listed<Use>],
    start: &mut Start,
) -> Option<&'a LiteralList>
    requires table { IsTable trail.now.0 uses.now own.now }
    requires negative { HaveNegative own.now }
    requires start { IsStart own.now trail.now.1 start.old }
    ensures start { IsStart own.now trail.now.1 start.new }
    ensures first { option_copied result ≡ find (is_open_need (set_of_trail trail.now.1)) own.now }
{
    let place = first_open(trail, own, uses, start);
    if place == own.len() {
        return None;
    }
    Some(&own[place])
}

/// The first open need.
fn open_need<'a>(
    trail: &Trail,
    goals: &'a [LiteralList],
    own: &'a [LiteralList],
    uses: &[Listed<Use>],
    start: &mut Start,
) -> Option<&'a LiteralList>
    requires table { IsTable trail.now.0 uses.now own.now }
    requires negative { HaveNegative own.now }
    requires start { IsStart own.now trail.now.1 start.old }
    ensures start { IsStart own.now trail.now.1 start.new }
    ensures first { option_copied result
        ≡ find (is_open_need (set_of_trail trail.now.1)) (goals.now ++ own.now) }
{
    match open_goal(trail, goals) {
        Some(goal) => Some(goal),
        None => open_own(trail, own, uses, start),
    }
}

/// A flag for each class, up if the class is true.
pub(crate) fn chosen(alloc: Global, classes: u32, trail: &Trail) -> Result<Vec<bool>, AllocError>
    ensures { IfOk result (λ v. v.items ≡ true_classes classes (set_of_trail trail.now.1)) }
{
    (0..classes)
        .map(|class| {
            trail.has(Literal {
                class,
                positive: true,
            })
        })
        .collect(alloc)
}

/// What the node is whose closure is the trail.
pub(crate) fn node_at(trail: &Trail, formula: &Formula, start: &mut Start) -> Node
    requires classes { trail.now.0 ≡ formula.now.classes }
    requires engine { IsFormula trail.now.0 formula.now }
    requires negative { HaveNegative formula.now.own.now }
    requires full { AreFull formula.now.goals.now }
    requires calm { (decisions : List Literal)
        × CalmAt (sentences_in formula.now) decisions trail.now.1 }
    requires start { IsStart formula.now.own.now trail.now.1 start.old }
    ensures node { (decisions : List Literal) →
        CalmAt (sentences_in formula.now) decisions trail.now.1 →
        IsNode formula.now.classes (sentences_in formula.now) decisions trail.now.1 result }
    ensures start { IsStart formula.now.own.now trail.now.1 start.new }
    ensures undecided { IsUndecidedAt trail.now.1 result }
{
    match open_need(trail, formula.goals, formula.own, formula.uses, start) {
        None => Node::Met,
        Some(need) => match undecided(trail, need.as_slice()) {
            Some(member) => Node::Splits(member.class),
            None => unreachable!(),
        },
    }
}
