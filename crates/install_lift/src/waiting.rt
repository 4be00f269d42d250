//! The packages that wait to be looked at.
//!
//! They are in an ordered set, the least first, so none is looked at again once its clauses are
//! hit.
ghost use Rattle.std.specs.Prelude.{◌≡◌, ◌+◌, ◌≤◌, ℕ, false, IfNone, IfSome, OnOk};
ghost use Rattle.row_book.specs.Sets.{plus, without};
ghost use Rattle.install_lift.specs.Waiting.{is_waiting, waiting_count, IsLeast};

use std::alloc::{AllocError, Global};
use std::collections::BTreeSet;

/// The packages that wait to be looked at, the least one first.
#[derive(Drop)]
pub(crate) struct Waiting {
    packages: BTreeSet<u32>,
}

impl Waiting {
    /// No packages.
    pub(crate) fn new(alloc: Global) -> Waiting
        ensures { (q : ℕ) → is_waiting result q ≡ false }
    {
        Waiting {
            packages: BTreeSet::new(alloc),
        }
    }

    /// Adds a package to those that wait.
    pub(crate) fn put(&mut self, number: u32) -> Result<(), AllocError>
        ensures put { OnOk result ((q : ℕ) →
            is_waiting self.new q ≡ plus (is_waiting self.old) number q) }
        ensures count { OnOk result (waiting_count self.new ≤ waiting_count self.old + 1) }
    {
        self.packages.insert(number)?;
        Ok(())
    }

    /// Takes the least package from those that wait.
    pub(crate) fn take_first(&mut self) -> Option<u32>
        ensures none { IfNone result ((q : ℕ) → is_waiting self.old q ≡ false) }
        ensures least { IfSome result (IsLeast (is_waiting self.old)) }
        ensures taken { IfSome result (λ p. (q : ℕ) →
            is_waiting self.new q ≡ without (is_waiting self.old) p q) }
        ensures count { IfSome result (λ p. waiting_count self.new + 1 ≡ waiting_count self.old) }
    {
        self.packages.pop_first()
    }
}
