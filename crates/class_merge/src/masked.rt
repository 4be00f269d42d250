//! Rows of a repository, with a mask over its packages.

use clause_pool::{NumList, Pool, RowId};

/// A repository, and a mask over its packages.
#[derive(Drop)]
pub struct MaskedRows<'a> {
    /// The pool of the rows.
    pub pool: &'a Pool,
    /// For each package its row.
    pub rows: &'a [RowId],
    /// For each package the packages that it conflicts with.
    pub conflicts: &'a [NumList],
    /// For each package whether it is in the mask.
    pub flags: &'a [bool],
}
