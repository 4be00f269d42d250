//! What verdicts on kinds are asked of.
ghost use Rattle.std.specs.Prelude.{◌≡◌, length};
ghost use Rattle.row_book.specs.{Lent.{repository_in}, Needs.{AreNeeds, NeedsFit}};
ghost use Rattle.row_book.specs.Props.{AreNeeds-prop, Same-prop};
ghost use Rattle.clause_solver.specs.Outcomes.{IsBudget};

use clause_pool::NumList;
use clause_solver::BookSolver;
use row_book::LentBook;

/// What verdicts on kinds are asked of: the book of a kernel with its solver, the kinds, and the
/// budget of each search.
#[derive(Drop)]
pub(crate) struct Judge<'a> {
    /// The book of the kernel.
    pub(crate) kernel: LentBook<'a>,
    /// The solver of the book.
    pub(crate) solver: BookSolver<'a>,
    /// The kinds.
    pub(crate) kinds: Vec<NumList>,
    /// The most failed leaves of a search.
    pub(crate) budget: u64,
    ghost of_kernel: { solver ≡ repository_in kernel } by { Same-prop solver
        (repository_in kernel) },
    ghost needs: { AreNeeds kinds.items } by { AreNeeds-prop kinds.items },
    ghost fit: { NeedsFit (length kernel.book.now.rows) kinds.items },
    ghost allowed: { IsBudget budget },
}
