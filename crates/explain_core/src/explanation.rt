//! Explanations.
use listed::Listed;
use std::alloc::AllocError;

/// A goal that matters for it that the goals cannot be installed together.
#[derive(Clone, Copy, Debug, PartialEq, Eq)]
pub struct Mark {
    /// The number of the goal, counted from 1.
    pub goal: u64,
    /// Whether the search without this goal was spent, so that it is open if the goal matters.
    pub unsettled: bool,
}

/// Goals that matter, in their order.
pub type MarkList = Listed<Mark>;

/// Two packages whose conflict matters for it.
#[derive(Clone, Copy, Debug, PartialEq, Eq)]
pub struct Clash {
    /// The lesser number of the two packages.
    pub first: u32,
    /// The greater number of the two packages.
    pub second: u32,
    /// Whether the search without this conflict was spent, so that it is open if the conflict
    /// matters.
    pub unsettled: bool,
}

/// Conflicts that matter, ascending.
pub type ClashList = Listed<Clash>;

/// Why one package for each goal cannot be installed together, if that is so.
#[derive(Drop)]
pub enum Explanation {
    /// It can.
    Yes,
    /// The search tree has more failed leaves than the budget allows.
    Spent {
        /// The failed leaves that were met: one more than the budget.
        failed: u64,
    },
    /// It cannot.
    Core {
        /// The goals that matter: these alone cannot be met together either, and without one of
        /// them that is settled the others can.
        goals: MarkList,
        /// The conflicts that matter for these goals. None if the search with all conflicts within
        /// reach was spent.
        clashes: Option<ClashList>,
    },
}

/// Why nothing was explained.
#[derive(Clone, Copy, Debug, PartialEq, Eq)]
pub enum ExplainError {
    /// A goal names no package.
    Unknown {
        /// The number of the first such goal, counted from 1.
        goal: u64,
    },
    /// No memory was found.
    Memory,
}

impl From<AllocError> for ExplainError {
    ghost use Rattle.std.specs.Prelude.{◌≡◌};
    ghost use Rattle.explain_core.specs.declared.explanation.ExplainError.TheVariants.{Memory};

    ghost from_gives = { λ _ e. e ≡ Memory };

    fn from(_error: AllocError) -> Self {
        ExplainError::Memory
    }
}
