//! Short indexes.
use repo_model::{IndexFault, Suite, read_suite};
use std::alloc::Global;

/// Package 0 depends on 1 or 2, and conflicts with 3. Package 2 depends on a name that nobody has.
pub(crate) const CHOICE: &str = "Package: a\nVersion: 1\nDepends: b | c\nConflicts: d\n\n\
     Package: b\nVersion: 1\n\n\
     Package: c\nVersion: 1\nDepends: x\n\n\
     Package: d\nVersion: 1\nDepends: b | c\n";

/// A package that depends on a name that nobody has.
pub(crate) const ALONE: &str = "Package: a\nVersion: 1\nDepends: x\n";

/// The suite of a short index.
pub(crate) fn suite_of(alloc: Global, text: &str) -> Result<Suite, IndexFault> {
    if text.len() > 1000 {
        return Err(IndexFault::TooMany);
    }
    read_suite(alloc, text.as_bytes())
}
