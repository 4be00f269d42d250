//! Suites, and how they are read.
ghost use Rattle.std.specs.Prelude.{◌≡◌, ◌≤◌, ◌<◌, length, map, None, Some, slice_get, IfOk, IfErr};
ghost use Rattle.std.specs.{Prelude.{OnOk}, Option.{option_map}};
ghost use Rattle.relation_fields.specs.Elements.{elements_of};
ghost use Rattle.virtual_provides.specs.Bearers.{IsBuiltFrom, IsBuiltFrom-prop};
ghost use Rattle.repo_model.specs.Facts.{facts_of, AreNamedPackages};
ghost use Rattle.repo_model.specs.FirstFault.{first_fault, home_of, stanzas_of};
ghost use Rattle.repo_model.specs.{Refusals.{Refuses}, Limits.{most_bytes, most_packages}};
ghost use Rattle.repo_model.specs.Needs.{needs_of_all, needs-prop};

use crate::building::Building;
use crate::fault::IndexFault;
use crate::reading::read_behind;
use listed::Listed;
use relation_fields::{Home, PackageFacts, SharedElements};
use std::alloc::Global;
use virtual_provides::NameTable;

/// Packages in the order of their stanzas.
pub type PackageList = Listed<PackageFacts>;

/// The packages of an index, at most 200,000, and their common architecture.
#[derive(Drop)]
pub struct Suite {
    /// The packages, in the order of their stanzas.
    pub packages: PackageList,
    /// The common architecture of the packages that are not of `all`.
    pub home: Home,
    // The elements of the packages' needs, those of one package after those of another.
    pub(crate) elements: SharedElements,
    // The register of the packages and of what they provide, by names and versions.
    pub(crate) names: NameTable,
    ghost few: { length packages ≤ most_packages },
    ghost shared: { elements_of elements
        ≡ needs_of_all packages } by { needs-prop (elements_of elements) packages },
    ghost named: { IsBuiltFrom packages names } by { IsBuiltFrom-prop packages names },
}

impl Suite {
    /// The number of packages.
    pub fn count(&self) -> u32
        ensures { result ≡ length self.now.packages }
    {
        self.packages.as_slice().len() as u32
    }

    /// The name of the package with a number, from 0.
    pub fn name(&self, i: u32) -> &[u8]
        requires { i < length self.now.packages }
        ensures { option_map (λ facts. facts.name) (slice_get self.now.packages i)
            ≡ Some result.now }
    {
        self.packages.as_slice()[i as usize].name.as_slice()
    }

    /// The version of the package with a number, from 0, as it is written.
    pub fn version_text(&self, i: u32) -> &[u8]
        requires { i < length self.now.packages }
        ensures { option_map (λ facts. facts.version) (slice_get self.now.packages i)
            ≡ Some result.now }
    {
        self.packages.as_slice()[i as usize].version.text()
    }
}

/// Reads a whole index: the packages of its stanzas and their common architecture, or the fault of
/// the first stanza that has one.
///
/// An index has at most 1,073,741,824 bytes, the limit that the program keeps for files. Time is
/// linear in the index, but for the ordered set of a stanza's field names.
pub fn read_suite(alloc: Global, bytes: &[u8]) -> Result<Suite, IndexFault>
    requires { length bytes.now ≤ most_bytes }
    ensures refused { IfErr result (λ fault. Refuses fault (first_fault bytes.now)) }
    ensures accepted { OnOk result (first_fault bytes.now ≡ None) }
    ensures packages { IfOk result (λ suite. suite.packages ≡ map facts_of (stanzas_of bytes.now)) }
    ensures home { IfOk result (λ suite. suite.home.name ≡ home_of (stanzas_of bytes.now)) }
    ensures named { IfOk result (λ suite. AreNamedPackages suite.packages) }
{
    let read = read_behind(alloc, Building::new(alloc), bytes, 1)?;
    Ok(read.building.into_suite())
}
