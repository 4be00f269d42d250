//! Why no view of a suite was made.
ghost use Rattle.std.specs.Prelude.{◌≡◌};

use deb_version::Bytes;
use repo_model::IndexFault;
use std::alloc::AllocError;

/// Why no view was made of a suite that was read.
#[derive(Drop)]
pub enum LimitError {
    /// A row had more clauses than the limit allows.
    Limit {
        /// The round, counted from 1; it stays at 4,294,967,295.
        round: u32,
        /// How many packages were gone in it.
        gone: u32,
        /// The least package of the class of the row.
        package: u32,
        /// The number of clauses of the row.
        count: u64,
        /// The name of that package.
        name: Bytes,
        /// The version of that package, as it is written.
        version: Bytes,
    },
    /// No memory was found.
    Memory,
}

impl From<AllocError> for LimitError {
    ghost use Rattle.suite_compare.specs.declared.refusals.LimitError.TheVariants.{Memory};

    ghost from_gives = { λ _ e. e ≡ Memory };

    fn from(_error: AllocError) -> Self {
        LimitError::Memory
    }
}

/// Why no view was made of an index.
#[derive(Drop)]
pub enum ViewError {
    /// The index has a fault, which is never want of memory.
    Index(IndexFault),
    /// A row had more clauses than the limit allows.
    Limit {
        /// The round, counted from 1; it stays at 4,294,967,295.
        round: u32,
        /// How many packages were gone in it.
        gone: u32,
        /// The least package of the class of the row.
        package: u32,
        /// The number of clauses of the row.
        count: u64,
        /// The name of that package.
        name: Bytes,
        /// The version of that package, as it is written.
        version: Bytes,
    },
    /// No memory was found.
    Memory,
}
