//! Which stanzas of a status file are installed, and which of them are foreign.
ghost use Rattle.std.specs.Prelude.{◌≡◌, ◌∷◌, ◌||◌, ◌<◌, ◌≤◌, ◌+◌, if◌then◌else◌, [], codes};
ghost use Rattle.std.specs.Prelude.{length, map, count_by, IfOk, MatchOption};
ghost use Rattle.std.specs.{List.{position, position_or_len}, Str.{bytes_eq}};
ghost use Rattle.stanza_reader.specs.Fields.{is_edge, trimmed_start};
ghost use Rattle.repo_model.specs.Facts.{is_all};
ghost use Rattle.status_check.specs.Installed.{is_elsewhere, is_foreign, is_installed, is_of_home};
ghost use Rattle.status_check.specs.Installed.{is_own, says_installed, words};

use listed::{is_white_byte, trim_front};
use relation_fields::Home;
use repo_model::{find_field, is_all};
use stanza_reader::{FieldKind, RawStanza};
use std::alloc::{AllocError, Global};

/// Which stanzas are installed and not foreign to the home, and how many are installed and foreign.
#[derive(Drop)]
pub(crate) struct Sorted {
    pub(crate) own: Vec<bool>,
    pub(crate) foreign: u64,
}

/// Sorts the stanzas of a status file. Each is looked at once.
pub(crate) fn sort_stanzas(
    alloc: Global,
    home: &Home,
    stanzas: &[RawStanza],
) -> Result<Sorted, AllocError>
    ensures own { IfOk result (λ sorted. sorted.own.items ≡ map (is_own home.now) stanzas.now) }
    ensures foreign { IfOk result (λ sorted. sorted.foreign
        ≡ count_by (is_foreign home.now) stanzas.now) }
{
    let mut own = Vec::with_capacity(alloc, stanzas.len())?;
    let mut foreign = 0;
    for stanza in stanzas {
        let standing = standing_of(home, stanza);
        own.push(standing.own)?;
        foreign = counted(foreign, standing.foreign);
    }
    Ok(Sorted { own, foreign })
}

// The count, raised by one if there is one more.
fn counted(count: u64, more: bool) -> u64
    requires { count < 9223372036854775807 }
    ensures { result ≡ if more then count + 1 else count }
{
    if more { count + 1 } else { count }
}

// Whether a stanza is installed and not foreign, and whether it is installed and foreign.
#[derive(Clone, Copy)]
struct Standing {
    own: bool,
    foreign: bool,
}

fn standing_of(home: &Home, stanza: &RawStanza) -> Standing
    ensures own { result.own ≡ is_own home.now stanza.now }
    ensures foreign { result.foreign ≡ is_foreign home.now stanza.now }
{
    if !is_installed(stanza) {
        return Standing {
            own: false,
            foreign: false,
        };
    }
    let elsewhere = is_elsewhere(home, stanza);
    Standing {
        own: !elsewhere,
        foreign: elsewhere,
    }
}

// Whether the stanza has an architecture that is neither `all` nor the home.
fn is_elsewhere(home: &Home, stanza: &RawStanza) -> bool
    ensures { result ≡ is_elsewhere home.now stanza.now }
{
    match find_field(stanza.fields.as_slice(), FieldKind::Architecture) {
        Some(field) => !is_known(home, field.value.as_slice()),
        None => false,
    }
}

// Whether the architecture is `all` or the home.
fn is_known(home: &Home, architecture: &[u8]) -> bool
    ensures { result ≡ (is_all architecture.now || is_of_home home.now architecture.now) }
{
    is_all(architecture) || is_of_home(home, architecture)
}

fn is_of_home(home: &Home, architecture: &[u8]) -> bool
    ensures { result ≡ is_of_home home.now architecture.now }
{
    match &home.name {
        Some(name) => architecture == name.as_slice(),
        None => false,
    }
}

#[tactic(auto, unfolding(crate::specs::Installed::words))]
fn is_installed(stanza: &RawStanza) -> bool
    ensures { result ≡ is_installed stanza.now }
{
    match find_field(stanza.fields.as_slice(), FieldKind::Status) {
        Some(field) => says_installed(field.value.as_slice()),
        None => false,
    }
}

// Whether the value has exactly three words, and the third is `installed`.
fn says_installed(value: &[u8]) -> bool
    ensures { result ≡ says_installed (words value.now) }
{
    let Some((_, behind)) = next_word(value) else {
        return false;
    };
    let Some((_, behind)) = next_word(behind) else {
        return false;
    };
    let Some((third, behind)) = next_word(behind) else {
        return false;
    };
    match next_word(behind) {
        Some(_) => false,
        None => is_word_installed(third),
    }
}

fn is_word_installed(word: &[u8]) -> bool
    ensures { result ≡ bytes_eq word.now (codes "installed") }
{
    word == b"installed".as_slice()
}

// The first word of a text, and what follows it, if the text has a word.
fn next_word(text: &[u8]) -> Option<(&[u8], &[u8])>
    ensures { MatchOption result (words text.now ≡ []) (λ next. words text.now
        ≡ next.0.now ∷ words next.1.now) }
{
    let start = skip_white(text);
    if start.is_empty() {
        return None;
    }
    let size = word_size(start);
    Some((&start[..size], &start[size..]))
}

// The text without the white space at its start.
fn skip_white(text: &[u8]) -> &[u8]
    ensures { result.now ≡ trimmed_start text.now }
{
    trim_front(text)
}

// How many bytes are before the first white space.
fn word_size(text: &[u8]) -> usize
    ensures place { result ≡ position_or_len is_edge text.now }
    ensures within { result ≤ length text.now }
{
    match white_place(text) {
        Some(place) => place,
        None => text.len(),
    }
}

fn white_place(text: &[u8]) -> Option<usize>
    ensures { result ≡ position is_edge text.now }
{
    text.iter().position(|byte| is_white(*byte))
}

// Whether the byte is a space, a tab or a line feed.
fn is_white(byte: u8) -> bool
    ensures { result ≡ is_edge byte }
{
    is_white_byte(byte)
}
