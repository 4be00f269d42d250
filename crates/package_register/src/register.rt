//! The register: numbers by names, and by names with versions.
//!
//! It may give more numbers than are asked for, but never fewer: two names may have one hash, so
//! the caller tests what the numbers stand for. So no text is kept, and a number that is found
//! stays found, however the register grows.
ghost use Rattle.std.specs.Prelude.{◌≡◌, ◌≤◌, ◌++◌, true, false, length, IfOk, OnOk};
ghost use Rattle.std.specs.Option.{option_copied};
ghost use Rattle.deb_version.specs.Grammar.{is_version};
ghost use Rattle.package_register.specs.Hashed.{hash_of, Puts};
ghost use Rattle.package_register.specs.Registers.{numbers_named, package_key, AreCandidates};
ghost use Rattle.package_register.specs.Registers.{Grows, IsBlank, IsFound};

use crate::hashed::NumbersByHash;
use crate::keys::{hash_of, key_of};
use deb_version::Version;
use std::alloc::{AllocError, Global};

/// If a name has at most this many numbers, all are gone through: that is faster than making the
/// key of a version.
const FEW: usize = 16;

/// The numbers of items by their names, and by their names with versions.
#[derive(Drop)]
pub struct Register {
    // Under the hash of a name, the numbers of all that have it.
    names: NumbersByHash,
    // Under the hash of a key, the numbers of those that are not among the first few of their name.
    versions: NumbersByHash,
}

/// Numbers that include all that have a name and an equal version: the first few of the name, and
/// others.
#[derive(Clone, Copy)]
pub struct Candidates<'a> {
    /// The first few of the name.
    pub first: &'a [u32],
    /// Others.
    pub others: &'a [u32],
}

impl Register {
    /// An empty register.
    pub fn new(alloc: Global) -> Self
        ensures { IsBlank result }
    {
        Register {
            names: NumbersByHash::new(alloc),
            versions: NumbersByHash::new(alloc),
        }
    }

    /// Files a number under a name, and if there is a version under the name with each equal one.
    pub fn put(
        &mut self,
        name: &[u8],
        version: Option<&Version>,
        number: u32,
    ) -> Result<(), AllocError>
        ensures found { OnOk result
            (IsFound self.new name.now (option_copied version.entry) number) }
        ensures grows { OnOk result (Grows self.old self.new) }
    {
        let many = self.put_name(name, number)?;
        if !many {
            return Ok(());
        }
        let Some(version) = version else {
            return Ok(());
        };
        self.put_version(name, version, number)?;
        Ok(())
    }

    // Files a number under a name; returns whether the name now has more than a few.
    fn put_name(&mut self, name: &[u8], number: u32) -> Result<bool, AllocError>
        ensures versions { self.new.versions ≡ self.old.versions }
        ensures puts { OnOk result (Puts self.old.names self.new.names (hash_of name.now) number) }
        ensures few { IfOk result (λ many. many ≡ false →
            length (numbers_named self.new name.now) ≤ 16) }
    {
        let hash = hash_of(name);
        let count = self.names.put(hash, number)?;
        Ok(count > FEW)
    }

    // Files a number under a name with each version that is equal to this one.
    fn put_version(&mut self, name: &[u8], version: &Version, number: u32) -> Result<(), AllocError>
        ensures names { self.new.names ≡ self.old.names }
        ensures puts { OnOk result (Puts self.old.versions self.new.versions
            (hash_of (package_key name.now version.now)) number) }
        ensures version { is_version version.now ≡ true }
    {
        let alloc = self.versions.allocator();
        let key = key_of(alloc, name, version)?;
        let hash = hash_of(&key);
        self.versions.put(hash, number)?;
        Ok(())
    }

    /// Lends numbers that include all that were filed under the name.
    pub fn bearers(&self, name: &[u8]) -> &[u32]
        ensures { result.now ≡ numbers_named self.now name.now }
    {
        self.names.numbers(hash_of(name))
    }

    /// Numbers that include all that were filed under the name with an equal version. It takes
    /// memory only if more than a few have the name.
    pub fn candidates(
        &self,
        alloc: Global,
        name: &[u8],
        version: &Version,
    ) -> Result<Candidates<'_>, AllocError>
        ensures { IfOk result (λ found.
            AreCandidates self.now name.now version.now (found.first.now ++ found.others.now)) }
    {
        let all = self.bearers(name);
        if all.len() <= FEW {
            return Ok(Candidates {
                first: all,
                others: &[],
            });
        }
        let key = key_of(alloc, name, version)?;
        let hash = hash_of(&key);
        Ok(Candidates {
            first: &all[..FEW],
            others: self.versions.numbers(hash),
        })
    }
}
