//! Why goals cannot be installed together: the goals that matter for it, and the conflicts that do.
#![tactic(auto)]

mod asking;
mod blocks;
mod clashes;
mod conflicts;
mod explaining;
mod explanation;
mod goals;
mod laws;
mod met;
mod reach;
mod solved;

// Goals are explained.
pub use explaining::explain;
pub use explanation::{Clash, ClashList, ExplainError, Explanation, Mark, MarkList};

// Laws.
pub use laws::{explanations_are_tellable, explanations_hold, reach_is_least};
