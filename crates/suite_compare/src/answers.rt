//! Answers on goals.
ghost use Rattle.std.specs.Prelude.{◌≡◌};

use clause_pool::NumList;
use search_terms::Log;
use std::alloc::AllocError;

/// Whether one package for each goal can be installed together.
#[derive(Drop)]
pub enum Answer {
    /// They can.
    Yes {
        /// The numbers of the packages of an installation, ascending.
        install: NumList,
        /// The numbers of the true classes of the kernel, ascending.
        classes: NumList,
    },
    /// They cannot.
    No {
        /// The log of the whole search tree.
        log: Log,
    },
    /// The search tree has more failed leaves than the budget allows.
    Spent {
        /// The failed leaves that were met: one more than the budget.
        failed: u64,
    },
}

/// Why goals were not decided.
#[derive(Clone, Copy, Debug, PartialEq, Eq)]
pub enum DecideError {
    /// A goal names no package.
    Unknown {
        /// The number of the first such goal, counted from 1.
        goal: u64,
    },
    /// No memory was found.
    Memory,
}

impl From<AllocError> for DecideError {
    ghost use Rattle.suite_compare.specs.declared.answers.DecideError.TheVariants.{Memory};

    ghost from_gives = { λ _ e. e ≡ Memory };

    fn from(_error: AllocError) -> Self {
        DecideError::Memory
    }
}
