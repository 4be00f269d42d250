//! What the pruning of one package looks at.
use clause_pool::{NumList, Pool, RowId};

/// A package whose clauses are pruned, in the repository of these rows and conflicts.
#[derive(Clone, Copy)]
pub(crate) struct PrunedPackage<'a> {
    /// The pool of the rows.
    pub(crate) pool: &'a Pool,
    /// The rows of all packages.
    pub(crate) rows: &'a [RowId],
    /// For each package the packages that conflict with it.
    pub(crate) table: &'a [NumList],
    /// The number of the package.
    pub(crate) number: u32,
}
