//! What a package's stanza says of it.
use crate::atom_lists::AtomList;
use crate::relations::{ElementList, ProvideList};
use deb_version::{Bytes, Named, Version};

/// The common architecture of the packages of an index; an index with only `all` has none.
#[derive(Drop)]
pub struct Home {
    /// The name of the architecture.
    pub name: Option<Bytes>,
}

/// A package with its relations.
#[derive(Drop)]
pub struct PackageFacts {
    /// The number of the stanza's first line, from 1.
    pub line: u64,
    /// The package's name.
    pub name: Bytes,
    /// The package's version.
    pub version: Version,
    /// Whether it has an architecture other than `all`, and so that of its index.
    pub is_arch_dependent: bool,
    /// The elements of `Pre-Depends`, and then those of `Depends`.
    pub needs: ElementList,
    /// The atoms of `Conflicts`, and then those of `Breaks`.
    pub against: AtomList,
    /// The provides of `Provides`.
    pub provides: ProvideList,
}

impl Named for PackageFacts {
    ghost name_of = { λ facts. facts.name };

    ghost version_of = { λ facts. facts.version };

    fn name(&self) -> &[u8] {
        self.name.as_slice()
    }

    fn version(&self) -> &Version {
        &self.version
    }
}
