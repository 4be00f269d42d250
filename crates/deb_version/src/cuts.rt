//! How a version is cut into its parts, and what may stand in them.
ghost use Rattle.std.specs.Prelude.{◌≡◌, ◌≤◌, true, not, length, IsTrue};
ghost use Rattle.std.specs.List.{position, suffix_len, list_all};
ghost use Rattle.std.specs.Option.{option_copied, option_map_or};
ghost use Rattle.deb_version.specs.Grammar.{is_colon, is_hyphen, epoch_of, behind_epoch};
ghost use Rattle.deb_version.specs.Grammar.{upstream_in, revision_in, upstream_of, revision_of};
ghost use Rattle.deb_version.specs.Grammar.{is_epoch, is_revision_byte, is_upstream_byte};
ghost use Rattle.deb_version.specs.Grammar.{is_upstream, is_revision, are_parts, is_version};

use crate::classes::{is_revision_byte, is_upstream_byte};
use listed::has_digits_alone;

/// The text of a version cut into its parts; an epoch or a revision that is not written is `None`.
#[derive(Clone, Copy)]
pub(crate) struct VersionParts<'a> {
    pub(crate) epoch: Option<&'a [u8]>,
    pub(crate) upstream: &'a [u8],
    pub(crate) revision: Option<&'a [u8]>,
}

/// Cuts the text at its first colon, and what follows at its last hyphen.
pub(crate) fn cut(text: &[u8]) -> VersionParts<'_>
    ensures epoch { option_copied result.epoch ≡ epoch_of text.now }
    ensures upstream { result.upstream.now ≡ upstream_of text.now }
    ensures revision { option_copied result.revision ≡ revision_of text.now }
{
    let (epoch, rest) = cut_epoch(text);
    let (upstream, revision) = cut_revision(rest);
    VersionParts {
        epoch,
        upstream,
        revision,
    }
}

// The epoch, and what follows it.
fn cut_epoch(text: &[u8]) -> (Option<&[u8]>, &[u8])
    ensures epoch { option_copied result.0 ≡ epoch_of text.now }
    ensures rest { result.1.now ≡ behind_epoch text.now }
{
    match colon_place(text) {
        Some(place) => (Some(&text[..place]), &text[place + 1..]),
        None => (None, text),
    }
}

// The place of the first colon.
fn colon_place(text: &[u8]) -> Option<usize>
    ensures { result ≡ position is_colon text.now }
{
    text.iter().position(|byte| *byte == b':')
}

// The upstream part and the revision of what follows an epoch.
fn cut_revision(rest: &[u8]) -> (&[u8], Option<&[u8]>)
    ensures upstream { result.0.now ≡ upstream_in rest.now }
    ensures revision { option_copied result.1 ≡ revision_in rest.now }
{
    let tail = tail_len(rest);
    if tail == rest.len() {
        return (rest, None);
    }
    let place = rest.len() - tail - 1;
    (&rest[..place], Some(&rest[place + 1..]))
}

// How many bytes follow the last hyphen; all of them if there is none.
fn tail_len(text: &[u8]) -> usize
    ensures is { result ≡ suffix_len (λ c. not (is_hyphen c)) text.now }
    ensures within { result ≤ length text.now }
{
    let mut start = text.len();
    while start > 0 && text[start - 1] != b'-' {
        start -= 1;
    }
    text.len() - start
}

/// Whether the text is in the grammar of versions.
#[tactic(auto, unfolding(crate::specs::Grammar::is_version))]
pub(crate) fn is_well_formed(text: &[u8]) -> bool
    ensures { result ≡ is_version text.now }
{
    are_well_formed(cut(text))
}

// Whether the parts are well formed, as far as they are written.
fn are_well_formed(parts: VersionParts) -> bool
    ensures { result ≡ are_parts (option_copied parts.entry.epoch) parts.entry.upstream.now
        (option_copied parts.entry.revision) }
{
    fits_epoch(parts.epoch) && fits_upstream(parts.upstream) && fits_revision(parts.revision)
}

// Whether the epoch, if there is one, has a digit and nothing but digits.
fn fits_epoch(epoch: Option<&[u8]>) -> bool
    ensures { result ≡ option_map_or is_epoch (option_copied epoch.entry) true }
{
    match epoch {
        Some(digits) => !digits.is_empty() && has_digits_alone(digits),
        None => true,
    }
}

// Whether the upstream part has a byte and each of its bytes may stand in it.
fn fits_upstream(upstream: &[u8]) -> bool
    ensures { result ≡ is_upstream upstream.now }
{
    !upstream.is_empty() && has_upstream_bytes(upstream)
}

// Whether the revision, if there is one, has a byte and each of its bytes may stand in it.
fn fits_revision(revision: Option<&[u8]>) -> bool
    ensures { result ≡ option_map_or is_revision (option_copied revision.entry) true }
{
    match revision {
        Some(bytes) => !bytes.is_empty() && has_revision_bytes(bytes),
        None => true,
    }
}

fn has_upstream_bytes(text: &[u8]) -> bool
    ensures { result ≡ list_all is_upstream_byte text.now }
{
    text.iter().all(|byte| is_upstream_byte(*byte))
}

fn has_revision_bytes(text: &[u8]) -> bool
    ensures { result ≡ list_all is_revision_byte text.now }
{
    text.iter().all(|byte| is_revision_byte(*byte))
}
