//! Why no plan was made.
ghost use Rattle.std.specs.Prelude.{◌≡◌};
ghost use Rattle.migrate_plan.specs.declared.refusals.PlanError.TheVariants.{Memory};

use std::alloc::AllocError;

/// Why no plan was made of two indexes.
#[derive(Clone, Copy, Debug, PartialEq, Eq)]
pub enum PlanError {
    /// Both have a common architecture, and these differ.
    Homes,
    /// More than 256 names differ.
    Names {
        /// How many differ.
        count: u64,
    },
    /// The packages of the old index and those of the new one whose names differ are more than
    /// 200,000.
    Packages {
        /// How many they are.
        count: u64,
    },
    /// The two texts and two line feeds have more than 1,073,741,824 bytes.
    TooLong {
        /// How many they have.
        count: u64,
    },
    /// No memory was found.
    Memory,
}

impl From<AllocError> for PlanError {
    ghost from_gives = { λ _ e. e ≡ Memory };

    fn from(_error: AllocError) -> Self {
        PlanError::Memory
    }
}
