//! Parts of suites: the repository that some packages of a suite make, from that of all of them.
//! The functions of `laws` do nothing: the contract of each is one law.
#![tactic(auto)]

mod back;
mod base;
mod changed;
mod laws;
mod part;
mod renewed;
mod rows;
mod small;
mod subset;

// Some packages of a book, and the book that they make.
pub use base::Base;
pub use part::part_of;
pub use subset::Subset;

// Laws.
pub use laws::{merged_mix, mix_follows, names_are_part, part_is_exact, small_tells};
