//! The core of the goals: one goal after another is left out, as long as the others cannot be
//! installed together.
ghost use Rattle.std.specs.Prelude.{◌≡◌, ◌-◌, ◌≤◌, ◌<◌, ◌++◌, IfOk, OnOk, drop, length};
ghost use Rattle.clause_solver.specs.Outcomes.{IsBudget};
ghost use Rattle.row_book.specs.{Book.{repository_of}, Needs.{NeedsFit}};
ghost use Rattle.suite_compare.specs.Asking.{images_of, tree_of, verdict_of};
ghost use Rattle.explain_core.specs.{Core.{goal_core, marks_of}, Deletion.{is_no, kept_by}};
ghost use Rattle.explain_core.specs.Picking.{picked, ArePlacesFrom1};

use crate::blocks::{block_behind, count_of, half, is_no, twice};
use crate::explanation::{Mark, MarkList};
use clause_solver::{BookSolver, Verdict};
use repo_model::Goal;
use row_book::Needs;
use std::alloc::{AllocError, Global};
use suite_compare::SuiteView;

/// Appends the goals that are marked.
fn add_marked(needs: &Needs, marks: &[Mark], out: &mut Needs) -> Result<(), AllocError>
    requires { ArePlacesFrom1 (length needs.now) marks.now }
    ensures { OnOk result (out.new ≡ out.old ++ picked needs.now marks.now) }
{
    for mark in marks {
        out.push(needs.at(mark.goal - 1))?;
    }
    Ok(())
}

/// Appends the goals from an index on.
fn add_behind(needs: &Needs, from: u64, out: &mut Needs) -> Result<(), AllocError>
    requires { from ≤ length needs.now }
    ensures { OnOk result (out.new ≡ out.old ++ drop from needs.now) }
{
    for place in from..needs.count() {
        out.push(needs.at(place))?;
    }
    Ok(())
}

/// The goals that are marked.
pub(crate) fn marked(alloc: Global, needs: &Needs, marks: &[Mark]) -> Result<Needs, AllocError>
    requires { ArePlacesFrom1 (length needs.now) marks.now }
    ensures { IfOk result (λ made. made ≡ picked needs.now marks.now) }
{
    let mut made = Needs::new(alloc);
    add_marked(needs, marks, &mut made)?;
    Ok(made)
}

/// The others of a goal: the marked ones before it, and all from a place on.
fn others(alloc: Global, needs: &Needs, marks: &[Mark], from: u64) -> Result<Needs, AllocError>
    requires marks { ArePlacesFrom1 (length needs.now) marks.now }
    requires from { from ≤ length needs.now }
    ensures { IfOk result (λ made. made ≡ picked needs.now marks.now ++ drop from needs.now) }
{
    let mut made = Needs::new(alloc);
    add_marked(needs, marks, &mut made)?;
    add_behind(needs, from, &mut made)?;
    Ok(made)
}

/// Marks a goal, unless the verdict on the others is no.
fn mark_by(marks: &mut MarkList, goal: u64, verdict: Verdict) -> Result<(), AllocError>
    ensures { OnOk result (marks.new ≡ marks.old ++ marks_of (kept_by goal verdict)) }
{
    match verdict {
        Verdict::No => Ok(()),
        Verdict::Yes => marks.push(Mark {
            goal,
            unsettled: false,
        }),
        Verdict::Spent => marks.push(Mark {
            goal,
            unsettled: true,
        }),
    }
}

/// Whether these classes clash at once: the whole tree is one failed leaf.
fn clash_at_once(
    alloc: Global,
    view: &SuiteView,
    solver: &BookSolver,
    classes: &Needs,
) -> Result<bool, AllocError>
    requires solver { solver.now ≡ repository_of view.now.pool view.now.kernel.book }
    requires fit { NeedsFit (length view.now.kernel.book.rows) classes.now }
    ensures { IfOk result (λ clash. clash ≡ is_no
        (verdict_of 1 (tree_of (repository_of view.now.pool view.now.kernel.book) classes.now))) }
{
    let verdict = solver.verdict(alloc, classes, 1)?;
    Ok(is_no(verdict))
}

/// The core of the goals, whose classes are given with a solver of the kernel.
pub(crate) fn core_of(
    alloc: Global,
    view: &SuiteView,
    solver: &BookSolver,
    goals: &[Goal],
    classes: &Needs,
    budget: u64,
) -> Result<MarkList, AllocError>
    requires solver { solver.now ≡ repository_of view.now.pool view.now.kernel.book }
    requires classes { classes.now ≡ images_of view.now.limit view.now.kernel.hold
        view.now.suite.home view.now.suite.packages goals.now }
    requires budget { IsBudget budget }
    ensures { IfOk result (λ marks. marks ≡ marks_of (goal_core view.now.limit view.now.kernel.hold
        view.now.suite.home view.now.suite.packages budget goals.now)) }
{
    let mut marks = MarkList::new(alloc);
    let all = classes.count();
    let mut at_once = clash_at_once(alloc, view, solver, classes)?;
    let mut block: u64 = 1;
    let mut place: u64 = 0;
    while place < all {
        let count = count_of(block, all - place);
        let rest = others(alloc, classes, marks.as_slice(), place + count)?;
        if count > 1 {
            // If the others of the whole block clash at once, more goals do too, and no goal of the
            // block matters.
            if clash_at_once(alloc, view, solver, &rest)? {
                place += count;
                block = twice(count);
                continue;
            }
            block = half(count);
            continue;
        }
        let verdict = solver.verdict(alloc, &rest, budget)?;
        if at_once && is_no(verdict) {
            at_once = clash_at_once(alloc, view, solver, &rest)?;
        }
        block = block_behind(at_once, verdict);
        mark_by(&mut marks, place + 1, verdict)?;
        place += 1;
    }
    Ok(marks)
}
