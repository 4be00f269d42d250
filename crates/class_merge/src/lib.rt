//! Merging: packages with the same clauses and the same conflicts become one class. The functions
//! of `laws` do nothing: the contract of each is one law.
#![tactic(auto)]

mod class_rows;
mod grouping;
mod images;
mod key_table;
mod laws;
mod masked;
mod merging;

// A book, or some packages of one, are merged.
pub use masked::MaskedRows;
pub use merging::{Merged, merge, merge_chosen};

// Keys that are numbered as they come.
pub use key_table::KeyTable;

// Laws.
pub use laws::{has_class, merge_is_tidy, merge_keeps, merge_lifts, quotient_of_part};
