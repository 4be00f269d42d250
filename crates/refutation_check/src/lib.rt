//! Whether a log refutes the goals: each entry follows by unit steps from the formula and the
//! entries before it, and the last one is empty. The closure is taken by plain scans, so that the
//! checker can be believed by reading. It shares nothing with the search but the terms.
#![tactic(auto)]

mod checking;
mod closures;
mod derivation;
mod flags;
mod formula;

pub use checking::check;
