//! Rounds of flattening, merging, pruning and thinning, up to the kernel, which no further round
//! changes. The functions of `laws` do nothing: the contract of each is one law.
#![tactic(auto)]

mod advancing;
mod error;
mod extraction;
mod known;
mod laws;
mod moving;
mod rounding;

// The kernel of a book, or one round of it.
pub use error::RoundError;
pub use extraction::{Kernel, extract};
pub use known::{Classified, KnownRounds, classes_of_part};
pub use rounding::{Rounded, one_round};

// Laws.
pub use laws::{
    fixed_is_settled, fixed_parts, hold_is_unused, image_is_of_classes, kernel_behind_round,
    kernel_is, kernel_keeps, kernel_of_kernel, limit_without_hold, rounds_go_down,
};
