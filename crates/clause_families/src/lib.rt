//! Families of clauses. They are made in scratch space and put in order, and their minimal clauses
//! go into a pool.
//!
//! A package is taken out of a row by unions of the row's clauses with those of the package's own
//! row. The function of `laws` does nothing: its contract is a law.
#![tactic(auto)]

mod counting;
mod family;
mod family_tree;
mod laws;
mod needed;
mod placing;
mod rewriting;
mod scratch;
mod splitting;
mod useful;

// A clause is made in scratch space.
pub use scratch::Clause;

// A family is put in order, and the row of its minimal clauses goes into a pool.
pub use family::{intern_minimal, put_in_order};

// The clauses of a row without a package are counted.
pub use counting::count_with_unions;

// A package is taken out of a row, in a pool or in scratch space.
pub use family::with_unions;
pub use rewriting::rewrite;
pub use useful::useful_of;

// Laws.
pub use laws::union_merges;
