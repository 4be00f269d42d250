//! A package of a sample suite.
use row_book::ClauseList;

/// What a package of a sample suite needs, and what it conflicts with. Packages are named by their
/// numbers.
#[derive(Drop)]
pub(crate) struct SamplePackage {
    /// Its elements, each a list of alternatives; one of them has to be there.
    pub(crate) needs: ClauseList,
    /// The package that it conflicts with, if there is one.
    pub(crate) conflict: Option<u32>,
}
