//! When a package meets an atom.
ghost use Rattle.std.specs.{Prelude.{◌≡◌, true}, List.{list_any}, Option.{option_map_or}};
ghost use Rattle.relation_fields.specs.Meeting.{wants, fits, is_always_ignored, is_home};
ghost use Rattle.relation_fields.specs.Meeting.{is_ignored, is_met_by_name, fits_provided};
ghost use Rattle.relation_fields.specs.Meeting.{is_provided_by, meets};

use crate::packages::{Home, PackageFacts};
use crate::relations::{Atom, Bound, Op, Provide};
use deb_version::{Bytes, Version};
use std::cmp::Ordering;

impl Atom {
    /// Whether the package meets the atom, by its own name or by one of its provides.
    ///
    /// A provide without a version never meets an atom with a restriction (Debian Policy 7.5). The
    /// qualifiers `any`, `native`, `all` and the name of the home are ignored; an atom or provide
    /// with any other matches nothing.
    #[tactic(auto, unfolding(crate::specs::Meeting::meets))]
    pub fn met_by(&self, package: &PackageFacts, home: &Home) -> bool
        ensures { result ≡ meets self.now «package».now home.now }
    {
        is_ignored(&self.qualifier, home)
            && (self.is_met_by_name(package) || self.is_met_by_provide(package, home))
    }

    // Whether the package has the atom's name, and a version that fits the restriction if there is
    // one.
    fn is_met_by_name(&self, facts: &PackageFacts) -> bool
        ensures { result ≡ is_met_by_name self.now facts.now }
    {
        self.name.as_slice() == facts.name.as_slice() && self.allows(&facts.version)
    }

    // Whether the version fits the restriction if there is one.
    fn allows(&self, version: &Version) -> bool
        ensures { result ≡ option_map_or (fits version.now) self.now.bound true }
    {
        match &self.bound {
            Some(bound) => bound.allows(version),
            None => true,
        }
    }

    // Whether one of the package's provides meets the atom.
    fn is_met_by_provide(&self, facts: &PackageFacts, home: &Home) -> bool
        ensures { result ≡ list_any (is_provided_by self.now home.now) facts.now.provides }
    {
        let provides = facts.provides.as_slice();
        provides
            .iter()
            .any(|provide| self.is_provided(provide, home))
    }

    // Whether the provide is of the atom's name, with a version that fits if the atom has a
    // restriction.
    fn is_provided(&self, provide: &Provide, home: &Home) -> bool
        ensures { result ≡ is_provided_by self.now home.now provide.now }
    {
        is_ignored(&provide.qualifier, home)
            && self.name.as_slice() == provide.name.as_slice()
            && self.allows_provided(&provide.version)
    }

    // Whether the provided version fits the restriction. A missing version fits none.
    fn allows_provided(&self, provided: &Option<Version>) -> bool
        ensures { result ≡ option_map_or (fits_provided provided.now) self.now.bound true }
    {
        match &self.bound {
            Some(bound) => match provided {
                Some(version) => bound.allows(version),
                None => false,
            },
            None => true,
        }
    }
}

impl Bound {
    // Whether the version fits.
    fn allows(&self, version: &Version) -> bool
        ensures { result ≡ fits version.now self.now }
    {
        self.op.accepts(version.order(&self.version))
    }
}

impl Op {
    // Whether the operator allows a version, by its order to that of the restriction.
    fn accepts(self, order: Ordering) -> bool
        ensures { result ≡ wants self order }
    {
        match self {
            Op::Earlier => order.is_lt(),
            Op::EarlierEqual => order.is_le(),
            Op::Exactly => order.is_eq(),
            Op::LaterEqual => order.is_ge(),
            Op::Later => order.is_gt(),
        }
    }
}

// Whether the qualifier is one that is ignored.
fn is_ignored(qualifier: &Option<Bytes>, home: &Home) -> bool
    ensures { result ≡ is_ignored qualifier.now home.now }
{
    match qualifier {
        Some(written) => is_always_ignored(written.as_slice()) || is_home(written.as_slice(), home),
        None => true,
    }
}

// Whether the qualifier is ignored for every home.
fn is_always_ignored(written: &[u8]) -> bool
    ensures { result ≡ is_always_ignored written.now }
{
    written == b"any".as_slice() || written == b"native".as_slice() || written == b"all".as_slice()
}

// Whether the qualifier is the name of the home.
fn is_home(written: &[u8], home: &Home) -> bool
    ensures { result ≡ is_home written.now home.now }
{
    match &home.name {
        Some(name) => written == name.as_slice(),
        None => false,
    }
}
