//! The kernels of mixes.
ghost use Rattle.std.specs.Prelude.{◌≡◌};
ghost use Rattle.row_book.specs.Book.{Sound};
ghost use Rattle.migrate_plan.specs.BothSuites.{book_made, classes_made, pool_made};

use clause_pool::{Pool, RowId};
use kernel_rounds::{Classified, Kernel};
use row_book::LentBook;

/// A kernel that was made of a mix, with the class of each package in the numbers of both suites.
#[derive(Drop)]
pub(crate) enum MadeKernel {
    /// It was made by itself, over a pool of its own.
    Own {
        pool: Pool,
        kernel: Kernel,
        class_of: Vec<u32>,
    },
    /// It was made by the rows of the base and those that have changed.
    Beside {
        classified: Classified,
        rows: Vec<RowId>,
    },
}

/// The kernel as a comparison asks it.
pub(crate) fn lent_kernel(made: &MadeKernel) -> LentBook<'_>
    requires { Sound (pool_made made.now) (book_made made.now) }
    ensures pool { result.pool.now ≡ pool_made made.now }
    ensures book { result.book.now ≡ book_made made.now }
{
    match made {
        MadeKernel::Own { pool, kernel, .. } => LentBook {
            pool,
            book: &kernel.book,
        },
        MadeKernel::Beside { classified, .. } => LentBook {
            pool: &classified.rounds.pool,
            book: &classified.rounds.kernel,
        },
    }
}

/// The class of each package.
pub(crate) fn classes_in(made: &MadeKernel) -> &[u32]
    ensures { result.now ≡ classes_made made.now }
{
    match made {
        MadeKernel::Own { class_of, .. } => class_of.as_slice(),
        MadeKernel::Beside { classified, .. } => classified.class_of.as_slice(),
    }
}
