//! What the index has of the own packages, and whether these can be installed from it together.
ghost use Rattle.std.specs.Prelude.{◌≡◌, List, length, map, IfOk};
ghost use Rattle.relation_fields.specs.declared.packages.PackageFacts.{PackageFacts};
ghost use Rattle.repo_model.specs.Goals.{packages_named};
ghost use Rattle.row_book.specs.{Book.{repository_of}, Needs.{NeedsFit}};
ghost use Rattle.clause_solver.specs.Outcomes.{IsBudget};
ghost use Rattle.suite_compare.specs.{Asking.{images_of}, Kinds.{kernel_verdict}};
ghost use Rattle.status_check.specs.Report.{goal_for, had_goals, index_has, line_for, state_of};

use crate::report::{HaveLine, HaveList, SuiteState};
use clause_solver::{BookSolver, Verdict};
use deb_version::Bytes;
use relation_fields::PackageFacts;
use repo_model::Suite;
use row_book::{LentBook, Needs};
use std::alloc::{AllocError, Global};
use suite_compare::{SuiteView, image_of};

/// What the index has of some packages. There is the line of each, and for each that it has the
/// classes of those of the same name and an equal version.
#[derive(Drop)]
pub(crate) struct Had {
    pub(crate) lines: HaveList,
    pub(crate) classes: Needs,
}

/// Looks each of the packages up, once.
pub(crate) fn look_up(
    alloc: Global,
    view: &SuiteView,
    packages: &[PackageFacts],
) -> Result<Had, AllocError>
    ensures lines { IfOk result (λ had. had.lines
        ≡ map (line_for view.now.suite.packages) packages.now) }
    ensures classes { IfOk result (λ had. had.classes
        ≡ images_of view.now.limit view.now.kernel.hold view.now.suite.home view.now.suite.packages
        (had_goals view.now.suite.packages packages.now)) }
{
    let mut lines = HaveList::new(alloc);
    let mut classes = Needs::new(alloc);
    for facts in packages {
        let found = numbers_of(alloc, &view.suite, facts)?;
        let numbers = found.as_slice();
        let line = line_of(alloc, facts, !numbers.is_empty())?;
        lines.push(line)?;
        if numbers.is_empty() {
            continue;
        }
        let image = image_of(alloc, view, numbers)?;
        classes.push(&image)?;
    }
    Ok(Had { lines, classes })
}

// The packages of the index that have the name of a package and an equal version, ascending.
fn numbers_of(alloc: Global, suite: &Suite, facts: &PackageFacts) -> Result<Vec<u32>, AllocError>
    ensures { IfOk result (λ numbers. numbers.items
        ≡ packages_named suite.now.packages (goal_for facts.now)) }
{
    suite.versioned(alloc, facts.name.as_slice(), &facts.version)
}

// The line of an own package.
fn line_of(alloc: Global, facts: &PackageFacts, had: bool) -> Result<HaveLine, AllocError>
    ensures { (index : List PackageFacts) → had ≡ index_has index facts.now →
        IfOk result (λ line. line ≡ line_for index facts.now) }
{
    let name = Bytes::copy(alloc, facts.name.as_slice())?;
    let version = Bytes::copy(alloc, facts.version.text())?;
    Ok(HaveLine { name, version, had })
}

/// What the search for a healthy set with one of each of these classes finds, within a budget of
/// failed leaves.
pub(crate) fn suite_state(
    alloc: Global,
    view: &SuiteView,
    classes: &Needs,
    budget: u64,
) -> Result<SuiteState, AllocError>
    requires fit { NeedsFit (length view.now.kernel.book.rows) classes.now }
    requires budget { IsBudget budget }
    ensures { IfOk result (λ state. state ≡ state_of budget
        (kernel_verdict (repository_of view.now.pool view.now.kernel.book) budget classes.now)) }
{
    let kernel = LentBook {
        pool: &view.pool,
        book: &view.kernel.book,
    };
    let solver = BookSolver::new(alloc, &kernel)?;
    let verdict = solver.verdict(alloc, classes, budget)?;
    Ok(state_of(budget, verdict))
}

// The state by a verdict.
fn state_of(budget: u64, verdict: Verdict) -> SuiteState
    requires { IsBudget budget }
    ensures { result ≡ state_of budget verdict }
{
    match verdict {
        Verdict::Yes => SuiteState::Yes,
        Verdict::No => SuiteState::No,
        Verdict::Spent => SuiteState::Spent { failed: budget + 1 },
    }
}
