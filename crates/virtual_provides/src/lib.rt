//! Packages by the names that they have and the names that they provide.
#![tactic(auto)]

mod names;

pub use names::NameTable;
