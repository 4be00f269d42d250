//! What the elements of relation fields say.
use crate::atom_lists::AtomList;
use deb_version::{Bytes, Version};
use listed::Listed;

/// How a version has to compare to that of a restriction.
#[derive(Clone, Copy, Debug, PartialEq, Eq)]
pub enum Op {
    /// `<<`: strictly earlier.
    Earlier,
    /// `<=`, or the old `<`: earlier or equal.
    EarlierEqual,
    /// `=`: exactly equal.
    Exactly,
    /// `>=`, or the old `>`: later or equal.
    LaterEqual,
    /// `>>`: strictly later.
    Later,
}

/// A restriction to some versions, as `(>= 1.2)`.
#[derive(Drop)]
pub struct Bound {
    /// How the versions have to compare to the one below.
    pub op: Op,
    /// The version that is named.
    pub version: Version,
}

/// A package that a relation names, as `libc6:any (>= 2.14)`.
#[derive(Drop)]
pub struct Atom {
    /// The package's name.
    pub name: Bytes,
    /// The architecture after the colon, if one is written.
    pub qualifier: Option<Bytes>,
    /// The restriction, if one is written.
    pub bound: Option<Bound>,
}

/// A name that a package provides, as `mail-transport-agent` or `libfoo (= 2)`.
#[derive(Drop)]
pub struct Provide {
    /// The name that is provided.
    pub name: Bytes,
    /// The architecture after the colon, if one is written.
    pub qualifier: Option<Bytes>,
    /// The version that is provided, if one is written.
    pub version: Option<Version>,
}

/// The elements of `Pre-Depends` and `Depends` in their order, each with its alternatives.
pub type ElementList = Listed<AtomList>;

/// The elements of `Provides` in their order.
pub type ProvideList = Listed<Provide>;
