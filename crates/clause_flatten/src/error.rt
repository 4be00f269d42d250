//! Why a book was not flattened.
ghost use Rattle.std.specs.Prelude.{◌≡◌};
ghost use Rattle.clause_flatten.specs.declared.error.FlatError.TheVariants.{Memory};

use std::alloc::AllocError;
use thiserror::Error;

/// Why a book was not flattened.
#[derive(Clone, Copy, Debug, PartialEq, Eq, Error)]
pub enum FlatError {
    /// A row had more clauses than the limit allows.
    #[error("gone {gone}, package {package}, clauses {count}")]
    Limit {
        /// How many packages were taken out by then.
        gone: u32,
        /// The package of the row.
        package: u32,
        /// The number of clauses of the row.
        count: u64,
    },
    /// No memory was found.
    #[error("out of memory")]
    Memory,
}

impl From<AllocError> for FlatError {
    ghost from_gives = { λ _ e. e ≡ Memory };

    fn from(_e: AllocError) -> FlatError {
        FlatError::Memory
    }
}
