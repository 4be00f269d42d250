//! Installations from the true classes of a kernel. Lifting takes a healthy set of the kernel back
//! to the repository that the kernel came from. Trimming leaves as few packages as the open needs
//! ask for.
#![tactic(auto)]

mod laws;
mod lifting;
mod raising;
mod trimming;
mod user_table;
mod waiting;

pub use lifting::lift;
pub use trimming::trim;
