//! Explains a no: the core of the goals, and the conflicts that matter for it.
ghost use Rattle.std.specs.Prelude.{◌≡◌, None, Some, IfOk, IfErr, OnOk};
ghost use Rattle.clause_solver.specs.Outcomes.{IsBudget};
ghost use Rattle.suite_compare.specs.Answering.{unknown_goal};
ghost use Rattle.explain_core.specs.Explaining.{explanation_of, OnUnknownGoal};
ghost use Rattle.explain_core.specs.Meaning.{MeansExplanation};

use crate::asking::{classes_of, wanted_by};
use crate::clashes::clashes_for;
use crate::explanation::{ExplainError, Explanation};
use crate::goals::{core_of, marked};
use clause_solver::{BookSolver, Verdict};
use repo_model::Goal;
use row_book::LentBook;
use std::alloc::Global;
use suite_compare::SuiteView;

/// Why one package for each goal cannot be installed together, if that is so. Each search has a
/// budget of failed leaves, from 1 to 1,000,000. The answer has the goals that matter, and of the
/// conflicts within their reach those that matter.
pub fn explain(
    alloc: Global,
    view: &SuiteView,
    goals: &[Goal],
    budget: u64,
) -> Result<Explanation, ExplainError>
    requires { IsBudget budget }
    ensures explanation { IfOk result (λ explanation. explanation ≡ explanation_of view.now.limit
        view.now.kernel.hold view.now.suite.home view.now.suite.packages budget goals.now) }
    ensures meaning { IfOk result
        (MeansExplanation view.now.suite.home view.now.suite.packages goals.now) }
    ensures known { OnOk result (unknown_goal view.now.suite.packages goals.now ≡ None) }
    ensures unknown { IfErr result (OnUnknownGoal (λ goal.
        unknown_goal view.now.suite.packages goals.now ≡ Some goal)) }
{
    let wanted = wanted_by(alloc, view, goals)?;
    let classes = classes_of(alloc, view, goals, &wanted)?;
    let kernel = LentBook {
        pool: &view.pool,
        book: &view.kernel.book,
    };
    let solver = BookSolver::new(alloc, &kernel)?;
    let verdict = solver.verdict(alloc, &classes, budget)?;
    match verdict {
        Verdict::Yes => Ok(Explanation::Yes),
        Verdict::Spent => Ok(Explanation::Spent { failed: budget + 1 }),
        Verdict::No => {
            let marks = core_of(alloc, view, &solver, goals, &classes, budget)?;
            let core = marked(alloc, &wanted, marks.as_slice())?;
            let clashes = clashes_for(alloc, view, &core, budget)?;
            Ok(Explanation::Core {
                goals: marks,
                clashes,
            })
        }
    }
}
