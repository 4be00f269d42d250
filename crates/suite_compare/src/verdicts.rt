//! Verdicts on kinds.
//!
//! A search of two kinds is made only once if one of them is a single class. Such a goal is met at
//! the root, so both orders have one tree.
ghost use Rattle.std.specs.Prelude.{◌≡◌, ◌<◌, ◌==◌, ◌⊎◌, ◌∷◌, [], ℕ, true, IfOk, length};
ghost use Rattle.std.specs.{Prelude.{slice_index_or}, List.{find, flat_map}};
ghost use Rattle.std.specs.Option.{option_copied};
ghost use Rattle.row_book.specs.{Book.{listed_for}, Needs.{IsNeed, NeedsFit}};
ghost use Rattle.suite_compare.specs.Kinds.{alone_in, kernel_in, kernel_verdict, together_in};
ghost use Rattle.suite_compare.specs.Kinds.{AreRivals, IsOneClass};
ghost use Rattle.suite_compare.specs.Bad.{bad_entry, entered_verdict, AreAllBad, AreAllBadTo};
ghost use Rattle.suite_compare.specs.{Bad.{AreBad, AreSingles}, Report.{is_yes}};
ghost use Rattle.suite_compare.specs.Suspects.{AreChoices};

use crate::judge::Judge;
use crate::places::{classes_at, verdict_at};
use crate::report::is_yes;
use crate::suspect::Choices;
use clause_pool::NumList;
use clause_solver::Verdict;
use listed::Listed;
use row_book::{Book, Needs};
use std::alloc::{AllocError, Global};

/// A kind that does not go together with another, or is not known to.
#[derive(Clone, Copy, Drop)]
pub(crate) struct Bad {
    /// The kind.
    pub(crate) kind: usize,
    /// The verdict on both together.
    pub(crate) verdict: Verdict,
}

/// The kinds that are bad with a kind.
pub(crate) type BadList = Listed<Bad>;

/// The classes of a kind.
fn classes_of<'a>(judge: &'a Judge, kind: usize) -> &'a [u32]
    requires { kind < length judge.now.kinds.items }
    ensures is { result.now ≡ listed_for judge.now.kinds.items kind }
    ensures need { IsNeed result.now }
    ensures below { (i : ℕ) → i < length result.now →
        slice_index_or result.now i 0 < length judge.now.kernel.book.now.rows }
{
    classes_at(&judge.kinds, kind)
}

/// The verdict of a search.
fn verdict_on(alloc: Global, judge: &Judge, goals: &Needs) -> Result<Verdict, AllocError>
    requires { NeedsFit (length judge.now.kernel.book.now.rows) goals.now }
    ensures { IfOk result (λ verdict. verdict
        ≡ kernel_verdict (kernel_in judge.now) judge.now.budget goals.now) }
{
    let verdict = judge.solver.verdict(alloc, goals, judge.budget)?;
    Ok(verdict)
}

/// A goal alone.
fn one_goal(alloc: Global, goal: &[u32]) -> Result<Needs, AllocError>
    requires { IsNeed goal.now }
    ensures { IfOk result (λ goals. goals ≡ goal.now ∷ []) }
{
    let mut goals = Needs::new(alloc);
    goals.push(goal)?;
    Ok(goals)
}

/// Two goals.
fn two_goals(alloc: Global, first: &[u32], second: &[u32]) -> Result<Needs, AllocError>
    requires first { IsNeed first.now }
    requires second { IsNeed second.now }
    ensures { IfOk result (λ goals. goals ≡ first.now ∷ (second.now ∷ [])) }
{
    let mut goals = one_goal(alloc, first)?;
    goals.push(second)?;
    Ok(goals)
}

/// The verdict on a kind by itself.
fn verdict_alone(alloc: Global, judge: &Judge, kind: usize) -> Result<Verdict, AllocError>
    requires { kind < length judge.now.kinds.items }
    ensures { IfOk result (λ verdict. verdict ≡ alone_in judge.now kind) }
{
    let goals = one_goal(alloc, classes_of(judge, kind))?;
    let verdict = verdict_on(alloc, judge, &goals)?;
    Ok(verdict)
}

/// Whether both goals are one class each, and these two conflict: then the root of their search
/// clashes.
fn are_rivals(book: &Book, first: &[u32], second: &[u32]) -> bool
    requires first { (i : ℕ) → i < length first.now →
        slice_index_or first.now i 0 < length book.now.rows }
    requires second { (i : ℕ) → i < length second.now →
        slice_index_or second.now i 0 < length book.now.rows }
    ensures { result ≡ true → AreRivals book.now.conflicts first.now second.now }
{
    if first.len() != 1 || second.len() != 1 {
        return false;
    }
    book.conflicts_with(first[0], second[0])
}

/// The verdict on two kinds together, in this order. No search is made if their classes conflict.
pub(crate) fn verdict_together(
    alloc: Global,
    judge: &Judge,
    first: usize,
    second: usize,
) -> Result<Verdict, AllocError>
    requires first { first < length judge.now.kinds.items }
    requires second { second < length judge.now.kinds.items }
    ensures { IfOk result (λ verdict. verdict ≡ together_in judge.now first second) }
{
    let one = classes_of(judge, first);
    let other = classes_of(judge, second);
    if are_rivals(judge.kernel.book, one, other) {
        return Ok(Verdict::No);
    }
    let goals = two_goals(alloc, one, other)?;
    let verdict = verdict_on(alloc, judge, &goals)?;
    Ok(verdict)
}

/// The verdict on each kind by itself.
pub(crate) fn verdicts_alone(alloc: Global, judge: &Judge) -> Result<Vec<Verdict>, AllocError>
    ensures { IfOk result (λ verdicts. AreSingles judge.now verdicts.items) }
{
    let mut verdicts = Vec::new(alloc);
    for kind in 0..judge.kinds.len() {
        let verdict = verdict_alone(alloc, judge, kind)?;
        verdicts.push(verdict)?;
    }
    Ok(verdicts)
}

/// Whether the goal is a single class.
#[tactic(auto, using(crate::proofs::Saved::one_class))]
fn is_single(goal: &[u32]) -> bool
    ensures { result ≡ true → IsOneClass goal.now }
{
    goal.len() == 1
}

/// Whether a list has the verdict with the second goal. That kind must be one of the first `count`,
/// and one of both goals a single class, so that their search is the same in both orders. Two
/// single classes in conflict need no search at all, and no list is asked for them.
fn is_told(book: &Book, first: &[u32], second: &[u32], kind: usize, count: usize) -> bool
    requires first { (i : ℕ) → i < length first.now →
        slice_index_or first.now i 0 < length book.now.rows }
    requires second { (i : ℕ) → i < length second.now →
        slice_index_or second.now i 0 < length book.now.rows }
    ensures kind { result ≡ true → kind < count }
    ensures single { result ≡ true → IsOneClass first.now ⊎ IsOneClass second.now }
{
    if kind >= count {
        return false;
    }
    if are_rivals(book, first, second) {
        return false;
    }
    if is_single(first) {
        return true;
    }
    is_single(second)
}

/// The entry of a kind in a list of bad kinds.
fn entry_of(list: &[Bad], kind: usize) -> Option<&Bad>
    ensures { option_copied result ≡ find (λ b. b.kind == kind) list.now }
{
    list.iter().find(|entry| entry.kind == kind)
}

/// The verdict with a kind by a list of bad kinds.
fn entered(list: &[Bad], kind: usize) -> Verdict
    ensures { result ≡ entered_verdict list.now kind }
{
    match entry_of(list, kind) {
        Some(entry) => entry.verdict,
        None => Verdict::Yes,
    }
}

/// The verdict, in this order, on two kinds together that each go by themselves. No search is made
/// if the second is an earlier one and its list has the verdict.
fn verdict_beside(
    alloc: Global,
    judge: &Judge,
    lists: &[BadList],
    first: usize,
    second: usize,
) -> Result<Verdict, AllocError>
    requires lists { AreAllBadTo judge.now lists.now (length lists.now) }
    requires first { first < length judge.now.kinds.items }
    requires second { second < length judge.now.kinds.items }
    requires first_alone { is_yes (alone_in judge.now first) ≡ true }
    requires second_alone { is_yes (alone_in judge.now second) ≡ true }
    ensures { IfOk result (λ verdict. verdict ≡ together_in judge.now first second) }
{
    let one = classes_of(judge, first);
    let other = classes_of(judge, second);
    if is_told(judge.kernel.book, one, other, second, lists.len()) {
        return Ok(entered(bads_at(lists, second), first));
    }
    let verdict = verdict_together(alloc, judge, first, second)?;
    Ok(verdict)
}

/// The suspects that do not go together with a kind, or are not known to, with the verdicts; each
/// goes by itself.
fn bad_among(
    alloc: Global,
    judge: &Judge,
    singles: &[Verdict],
    lists: &[BadList],
    suspects: &[usize],
    kind: usize,
) -> Result<BadList, AllocError>
    requires singles { AreSingles judge.now singles.now }
    requires lists { AreAllBadTo judge.now lists.now (length lists.now) }
    requires suspects { (i : ℕ) → i < length suspects.now →
        slice_index_or suspects.now i 0 < length judge.now.kinds.items }
    requires kind { kind < length judge.now.kinds.items }
    requires alone { is_yes (alone_in judge.now kind) ≡ true }
    ensures { IfOk result (λ bad. bad
        ≡ flat_map (bad_entry judge.now singles.now kind) suspects.now) }
{
    let mut bad = Listed::new(alloc);
    for other in suspects {
        if !is_yes(verdict_at(singles, *other)) {
            continue;
        }
        let verdict = verdict_beside(alloc, judge, lists, kind, *other)?;
        if is_yes(verdict) {
            continue;
        }
        bad.push(Bad {
            kind: *other,
            verdict,
        })?;
    }
    Ok(bad)
}

/// The kinds that are bad with a kind, if that goes by itself.
fn bad_with(
    alloc: Global,
    judge: &Judge,
    singles: &[Verdict],
    choices: &Choices,
    lists: &[BadList],
    kind: usize,
) -> Result<BadList, AllocError>
    requires singles { AreSingles judge.now singles.now }
    requires choices { AreChoices (kernel_in judge.now) judge.now.kinds.items choices.now }
    requires lists { AreAllBadTo judge.now lists.now (length lists.now) }
    requires kind { kind < length judge.now.kinds.items }
    ensures { IfOk result (AreBad judge.now kind) }
{
    if !is_yes(verdict_at(singles, kind)) {
        return Ok(Listed::new(alloc));
    }
    let suspects = choices.suspects(alloc, &judge.kernel, &judge.kinds, kind)?;
    let bad = bad_among(alloc, judge, singles, lists, suspects.as_slice(), kind)?;
    Ok(bad)
}

/// For each kind that goes by itself the kinds that are bad with it.
pub(crate) fn bad_lists(
    alloc: Global,
    judge: &Judge,
    singles: &[Verdict],
) -> Result<Vec<BadList>, AllocError>
    requires { AreSingles judge.now singles.now }
    ensures { IfOk result (λ lists. AreAllBad judge.now lists.items) }
{
    let choices = Choices::new(alloc, &judge.kernel, &judge.kinds)?;
    let mut lists = Vec::new(alloc);
    for kind in 0..judge.kinds.len() {
        let bad = bad_with(alloc, judge, singles, &choices, &lists, kind)?;
        lists.push(bad)?;
    }
    Ok(lists)
}

/// The bad kinds at a place of a list.
pub(crate) fn bads_at(lists: &[BadList], place: usize) -> &[Bad]
    requires { place < length lists.now }
    ensures { result.now ≡ slice_index_or lists.now place [] }
{
    lists[place].as_slice()
}
