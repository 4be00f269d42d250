//! Pairs of packages that conflict.

/// Two packages that conflict, the lesser number first.
#[derive(Clone, Copy, Debug, PartialEq, Eq, PartialOrd, Ord)]
pub struct Pair {
    /// The lesser of the two numbers.
    pub low: u32,
    /// The greater of the two numbers.
    pub high: u32,
}
