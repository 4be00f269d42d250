//! The key of a package, and hashes.
ghost use Rattle.std.specs.Prelude.{◌≡◌, true, IfOk};
ghost use Rattle.deb_version.specs.Grammar.{is_version};
ghost use Rattle.package_register.specs.{Hashed.{hash_of}, Registers.{package_key}};

use deb_version::Version;
use std::alloc::{AllocError, Global};
use std::hash::{FoldHasher, Hasher};

/// A number that is the same for equal texts.
pub(crate) fn hash_of(text: &[u8]) -> u64
    ensures { result ≡ hash_of text.now }
{
    let mut hasher = FoldHasher::default();
    hasher.write(text);
    hasher.finish()
}

/// The key of a name with a version, which equal versions share.
#[tactic(auto, unfolding(crate::specs::Registers::package_key))]
pub(crate) fn key_of(alloc: Global, name: &[u8], version: &Version) -> Result<Vec<u8>, AllocError>
    ensures key { IfOk result (λ key. key.items ≡ package_key name.now version.now) }
    ensures version { is_version version.now ≡ true }
{
    let room = version
        .text()
        .len()
        .saturating_add(name.len())
        .saturating_add(3);
    let mut key = Vec::with_capacity(alloc, room)?;
    version.push_key(&mut key)?;
    key.push(b' ')?;
    key.extend_from_slice(name)?;
    Ok(key)
}
