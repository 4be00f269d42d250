//! Books with their solvers.
ghost use Rattle.std.specs.Prelude.{◌≡◌};
ghost use Rattle.row_book.specs.{Lent.{repository_in}, Props.{Same-prop}};

use clause_solver::BookSolver;
use row_book::LentBook;

/// A book with a solver of it, which is asked whichever packages conflict.
#[derive(Drop)]
pub(crate) struct SolvedBook<'a> {
    /// The book.
    pub(crate) book: LentBook<'a>,
    /// The solver of the book.
    pub(crate) solver: BookSolver<'a>,
    ghost of_book: { solver ≡ repository_in book } by { Same-prop solver (repository_in book) },
}
