//! The packages that goals and names choose.
ghost use Rattle.std.specs.{Prelude.{◌≡◌, IfOk}, List.{list_any}};
ghost use Rattle.repo_model.specs.Goals.{any_version, one_version, packages_named};
ghost use Rattle.repo_model.specs.Pairs.{is_named};

use crate::goals::Goal;
use crate::suite::Suite;
use deb_version::Version;
use std::alloc::{AllocError, Global};

impl Suite {
    /// The packages that a goal names, ascending: those of its name, and if it has a version those
    /// in a version that compares as equal.
    pub fn chosen_by(&self, alloc: Global, goal: &Goal) -> Result<Vec<u32>, AllocError>
        ensures { IfOk result (λ made. made.items ≡ packages_named self.now.packages goal.now) }
    {
        let name = goal.name.as_slice();
        match &goal.version {
            Some(version) => self.versioned(alloc, name, version),
            None => self.named(alloc, name),
        }
    }

    /// The packages of a name, ascending.
    pub fn named(&self, alloc: Global, name: &[u8]) -> Result<Vec<u32>, AllocError>
        ensures { IfOk result (λ made. made.items
            ≡ packages_named self.now.packages (any_version name.now)) }
    {
        self.names.named(alloc, self.packages.as_slice(), name)
    }

    /// The packages of a name with an equal version, ascending.
    pub fn versioned(
        &self,
        alloc: Global,
        name: &[u8],
        version: &Version,
    ) -> Result<Vec<u32>, AllocError>
        ensures { IfOk result (λ made. made.items
            ≡ packages_named self.now.packages (one_version name.now version.now)) }
    {
        self.names
            .versioned(alloc, self.packages.as_slice(), name, version)
    }

    /// Whether a package has the name.
    pub fn has_name(&self, name: &[u8]) -> bool
        ensures { result ≡ list_any (is_named name.now) self.now.packages }
    {
        self.names.has_name(self.packages.as_slice(), name)
    }
}
