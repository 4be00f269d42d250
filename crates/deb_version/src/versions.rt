//! The versions of packages and their order.
ghost use Rattle.std.specs.Prelude.{◌≡◌, ◌++◌, true, false, List, ℕ, IfOk, IfErr, OnOk, unwrap_or};
ghost use Rattle.std.specs.{Cmp.{IsTotalOrder}, Option.{option_copied}};
ghost use Rattle.deb_version.specs.Grammar.{is_version};
ghost use Rattle.deb_version.specs.Order.{version_order, or_zero, IsTotalUpToTies};
ghost use Rattle.deb_version.specs.{Keys.{version_key}, Refusals.{OnShape}};

use crate::cuts::{cut, is_well_formed};
use crate::digits::{order_numbers, without_zeros};
use crate::keys::push_part;
use crate::parts::order_parts;
use crate::texts::Bytes;
use std::alloc::{AllocError, Global};
use std::cmp::Ordering;
use std::marker::Model;

/// Why a text gave no version.
#[derive(Clone, Copy, Debug, PartialEq, Eq)]
pub enum VersionError {
    /// The text is outside the grammar of versions.
    Shape,
    /// No memory was found.
    Memory,
}

impl From<AllocError> for VersionError {
    ghost use Rattle.std.specs.Prelude.{◌≡◌};
    ghost use Rattle.deb_version.specs.declared.versions.VersionError.TheVariants.{Memory};

    ghost from_gives = { λ _ e. e ≡ Memory };

    fn from(_error: AllocError) -> Self {
        VersionError::Memory
    }
}

/// A version `[epoch:]upstream[-revision]`, as it was written.
#[derive(Drop)]
pub struct Version {
    text: Bytes,
}

impl Model for Version {
    ghost use Rattle.std.specs.{Prelude.{◌≡◌, List, ℕ, true}, Coded.{coded_list, coded_ℕ}};
    ghost use Rattle.deb_version.specs.Grammar.{is_version};

    ghost Value = { List ℕ };

    ghost coded = { coded_list coded_ℕ };

    ghost view = { λ s. s.text };

    ghost invariant = { λ s. is_version s.text ≡ true };
}

impl Version {
    /// Reads a version. A text outside the grammar is refused before any memory is asked for.
    pub fn parse(alloc: Global, text: &[u8]) -> Result<Self, VersionError>
        ensures text { IfOk result (λ v. v ≡ text.now) }
        ensures grammar { OnOk result (is_version text.now ≡ true) }
        ensures shape { IfErr result (OnShape (is_version text.now ≡ false)) }
        ensures outside { is_version text.now ≡ false → result ≡ Err VersionError.Shape }
    {
        if !is_well_formed(text) {
            return Err(VersionError::Shape);
        }
        Ok(Version {
            text: Bytes::copy(alloc, text)?,
        })
    }

    /// Compares two versions, in time linear in the two texts.
    pub fn order(&self, other: &Version) -> Ordering
        ensures { result ≡ version_order self.now other.now }
    {
        order_texts(self.text(), other.text())
    }

    /// A text that is equal for two versions exactly if they compare as equal. It takes time linear
    /// in the text.
    pub fn key(&self, alloc: Global) -> Result<Bytes, AllocError>
        ensures { IfOk result (λ key. key ≡ version_key self.now) }
    {
        // A key is at most two bytes longer than its text, by its two spaces: that of `1` is ` 1 `.
        let mut key = Vec::with_capacity(alloc, self.text().len().saturating_add(2))?;
        self.push_key(&mut key)?;
        Ok(Bytes::of(key))
    }

    /// Appends the key, so that a longer key can hold it without a copy. Without memory a part of
    /// it may be written.
    #[tactic(auto, using(crate::proofs::append_assoc), unfolding(crate::specs::Keys::version_key))]
    pub fn push_key(&self, out: &mut Vec<u8>) -> Result<(), AllocError>
        ensures { OnOk result (out.new.items ≡ out.old.items ++ version_key self.now) }
    {
        let parts = cut(self.text());
        out.extend_from_slice(without_zeros(written_or_zero(parts.epoch)))?;
        out.push(b' ')?;
        push_part(out, parts.upstream)?;
        out.push(b' ')?;
        push_part(out, written_or_zero(parts.revision))?;
        Ok(())
    }

    /// Lends the text that was parsed.
    pub fn text(&self) -> &[u8]
        ensures value { result.now ≡ self.now }
        ensures grammar { is_version self.now ≡ true }
    {
        self.text.as_slice()
    }
}

// Compares two texts of versions by their epochs, then by their upstream parts, then by their
// revisions.
fn order_texts(left: &[u8], right: &[u8]) -> Ordering
    requires left { is_version left.now ≡ true }
    requires right { is_version right.now ≡ true }
    ensures { result ≡ version_order left.now right.now }
{
    let left = cut(left);
    let right = cut(right);
    let epochs = order_numbers(written_or_zero(left.epoch), written_or_zero(right.epoch));
    if epochs.is_ne() {
        return epochs;
    }
    let upstreams = order_parts(left.upstream, right.upstream);
    if upstreams.is_ne() {
        return upstreams;
    }
    order_parts(
        written_or_zero(left.revision),
        written_or_zero(right.revision),
    )
}

// What is written; a missing epoch or revision counts as `0`.
fn written_or_zero(written: Option<&[u8]>) -> &[u8]
    ensures { result.now ≡ unwrap_or (option_copied written.entry) or_zero }
{
    written.unwrap_or(b"0")
}

/// The order of versions is total up to equal versions, so callers may sort and search by it. Equal
/// versions need not be the same text.
pub fn order_is_total()
    ensures laws { IsTotalUpToTies version_order }
    ensures sorts { IsTotalOrder version_order }
{}

/// Two versions have the same key exactly if they compare as equal, so versions may be looked up by
/// it.
pub fn keys_are_shared()
    ensures by_equals { (v w : List ℕ) → is_version v ≡ true → is_version w ≡ true →
        version_order v w ≡ Ordering.Equal → version_key v ≡ version_key w }
    ensures by_no_others { (v w : List ℕ) → is_version v ≡ true → is_version w ≡ true →
        version_key v ≡ version_key w → version_order v w ≡ Ordering.Equal }
{}
