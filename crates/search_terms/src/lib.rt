//! The terms of the search. First come signed classes, and the formula of a repository and a list
//! of goals with its sentences. Then there is the search tree of a formula with its failed leaves
//! and its log. Last is what a log derives, and the laws of these.
#![tactic(auto)]

mod laws;
mod literals;
mod sentences;

// Signed classes, lists of them, and logs.
pub use literals::{EntryList, Literal, LiteralList, Log, negated};

// The sentences of clauses and goals.
pub use sentences::{clause_sentences, goal_sentences};
