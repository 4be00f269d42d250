//! Views of suites: a suite with its repository and the kernel of that, at a clause limit, with
//! hold or without.
ghost use Rattle.suite_compare.specs.Views.{IsViewOf, IsViewOf-prop};

use clause_pool::Pool;
use kernel_rounds::Kernel;
use repo_model::Suite;
use row_book::Book;

/// A suite with its repository, as a book over a pool, and the kernel of that, which says whether
/// it was made with hold.
#[derive(Drop)]
pub struct SuiteView {
    /// The pool of the rows of the book, of the kernel and of its steps.
    pub pool: Pool,
    /// The packages and their common architecture.
    pub suite: Suite,
    /// The repository of the packages.
    pub book: Book,
    /// The kernel of the book.
    pub kernel: Kernel,
    /// The clause limit at which the kernel was made.
    pub limit: u32,
    ghost of_suite: { IsViewOf pool suite.home suite.packages book kernel limit } by { IsViewOf-prop
        pool suite.home suite.packages book kernel limit },
}
