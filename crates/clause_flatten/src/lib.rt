//! Flattening. Packages without conflicts are taken out one after another, and the clauses of each
//! package are put in terms of those that are left. With hold a package stays if a row would pass
//! the clause limit without it.
//!
//! Every set of packages stays co-installable or not. The functions of `elimination` and `support`
//! do nothing: the contract of each is one law.
#![tactic(auto)]

mod changing;
mod elimination;
mod error;
mod flattening;
mod holding;
mod least_tree;
mod locality;
mod substitution;
mod support;
mod taking_out;
mod tidy_rows;
mod waiting;

// A book is flattened.
pub use error::FlatError;
pub use flattening::{Flattened, flatten};

// One package is taken out.
pub use substitution::eliminate;

// Laws of eliminations, and of sets that are kept.
pub use elimination::{
    core_is_reached, core_stays, flat_by_stages, flat_keeps, held_is_used, hold_stays_within,
    next_is_least, passes_by_stages, stages_run, table_step, without_hold,
};
pub use locality::{flat_is_local, limit_is_local};
pub use support::{
    first_rows, keeps_every_set, lift_is_healthy, own_row_stays, row_computes, row_is_one,
    row_tells, substitutes,
};
