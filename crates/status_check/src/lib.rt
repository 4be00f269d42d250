//! What an index has of the packages that a dpkg status file says are installed, and whether these
//! are healthy and can be installed from it together.
#![tactic(auto)]

mod classes;
mod installed;
mod laws;
mod own;
mod report;
mod state;
mod status;

// A status file is checked against an index.
pub use report::{HaveLine, HaveList, OwnState, StatusReport, SuiteState};
pub use status::status_report;

// Laws.
pub use laws::{no_architecture_fault, states_are_one};
