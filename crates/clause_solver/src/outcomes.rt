//! How a search ends.
use clause_pool::FlagList;
use search_terms::Log;

/// The answer of a search with its certificate.
#[derive(Drop)]
pub enum Outcome {
    /// Some healthy set hits every goal.
    Found {
        /// The true classes of the first found leaf, a flag for each class.
        chosen: FlagList,
    },
    /// No healthy set hits every goal.
    Refuted {
        /// The log of the whole tree.
        log: Log,
    },
    /// The tree has more failed leaves than the budget allows.
    Spent {
        /// The failed leaves that were met: one more than the budget.
        failed: u64,
    },
}

/// The answer of a search alone.
#[derive(Clone, Copy, Debug, PartialEq, Eq)]
pub enum Verdict {
    /// Some healthy set hits every goal.
    Yes,
    /// No healthy set does.
    No,
    /// The tree has more failed leaves than the budget allows.
    Spent,
}
