//! The steps by which a kernel came from its repository.
use crate::{Book, NumList};
use listed::Listed;

/// One step that a healthy set of a kernel is taken back through.
#[derive(Drop)]
pub enum Step {
    /// The book was flattened.
    Flat {
        /// The book before it.
        before: Book,
    },
    /// A clause was dropped that may be hit at no cost.
    Idle {
        /// The package of the clause.
        package: u32,
        /// The clause.
        clause: NumList,
        /// The member of the clause that is added if the package is there and no member of the
        /// clause is.
        added: u32,
    },
    /// Packages that are alike became classes.
    Merge {
        /// The class of each package.
        class_of: NumList,
    },
}

/// Steps in their order.
pub type StepList = Listed<Step>;

/// The steps of a kernel, in their order.
#[derive(Drop)]
pub struct Trail {
    /// The steps.
    pub steps: StepList,
}
