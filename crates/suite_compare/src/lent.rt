//! Kernels that are lent to comparisons, without the steps by which they came.
ghost use Rattle.repo_model.specs.Repository.{suite_repository};
ghost use Rattle.suite_compare.specs.Lent.{IsLentKernel};

use crate::view::SuiteView;
use row_book::LentBook;

/// The kernel of a view.
pub(crate) fn kernel_of(view: &SuiteView) -> LentBook<'_>
    ensures { IsLentKernel result view.now.limit view.now.kernel.hold
        (suite_repository view.now.suite.home view.now.suite.packages) }
{
    LentBook {
        pool: &view.pool,
        book: &view.kernel.book,
    }
}
