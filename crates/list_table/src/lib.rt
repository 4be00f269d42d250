//! Lists that are each kept once, found by their items.
#![tactic(auto)]

mod hash_index;
mod item;
mod spans;
mod table;

// Lists, each kept once under a number.
pub use table::ListTable;

// Items, and how lists of them are hashed.
pub use item::{Item, SEED, mix, upper_half};
