//! Which names can be taken over from a newer index into an older one, one after the other, without
//! breaking any.
#![tactic(auto)]

mod alike;
mod both_suites;
mod checks;
mod differing;
mod flags;
mod homes;
mod kernels;
mod laws;
mod lengths;
mod making;
mod mixing;
mod names;
mod parting;
mod plan;
mod refusals;
mod reuse;
mod trying;

// A plan is made.
pub use lengths::TextLengths;
pub use making::{make_plan, plan_between};
pub use plan::{Plan, PlanLine, PlanList};
pub use refusals::PlanError;

// Laws.
pub use laws::test_is_equality;
