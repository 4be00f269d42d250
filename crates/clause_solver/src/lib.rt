//! The search for a healthy set that hits every goal. The tree of the formula is walked by unit
//! propagation, decisions and backtracks up to the first found leaf, within a budget of failed
//! leaves.
#![tactic(auto)]

mod book_solver;
mod decision;
mod formula;
mod laws;
mod nodes;
mod outcomes;
mod propagation;
mod reading;
mod solver;
mod steps;
mod table;
mod trail;
mod tree_walk;

// A search, or a book with its solver that is asked many times.
pub use book_solver::{BookSolver, search};
pub use outcomes::{Outcome, Verdict};

// A verdict depends on nothing but what the goals reach.
pub use laws::verdict_is_local;

// What a log is made of.
pub use search_terms::{EntryList, Literal, LiteralList, Log};
