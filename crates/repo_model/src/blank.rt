//! Blank lines of a text, mostly searched from its end.
//!
//! The last blank line says how far a piece closes stanzas. So the search goes from the end, and
//! only over a piece's own bytes, however long the open stanza is. The first one says how much of
//! the piece is read together with what was pending.
ghost use Rattle.std.specs.Prelude.{◌≡◌, ◌<◌, ◌≤◌, length, take, drop, count_by, IfNone, IfSome};
ghost use Rattle.stanza_reader.specs.{Close.{IsClosed}, Lines.{is_blank_byte, is_line_feed}};
ghost use Rattle.repo_model.specs.{Backward.{is_last_blank, IsLastFeed, NoFeed}, Feeding.{IsOpen}};

use memchr::{memchr, memrchr};

/// How many bytes end with the last blank line that ends with a line feed; 0 if there is none.
/// There is none among the first `from` bytes. Only line feeds are looked at, from the last one on.
pub(crate) fn closed_length(text: &[u8], from: usize) -> usize
    requires { IsOpen (take from text.now) }
    ensures within { result ≤ length text.now }
    ensures closed { IsClosed (take result text.now) }
    ensures unclosed { IsOpen (drop result text.now) }
{
    let mut end = text.len();
    while from < end {
        let Some(feed) = last_feed(text, from, end) else {
            return 0;
        };
        if is_last_blank(text, feed) {
            return feed + 1;
        }
        end = feed;
    }
    0
}

/// How many bytes end with the first blank line that ends with a line feed and is not the first
/// line; 0 if there is none.
pub(crate) fn first_closed(text: &[u8]) -> usize
    ensures { result ≤ length text.now }
{
    let Some(first) = next_feed(text, 0) else {
        return 0;
    };
    let mut start = first + 1;
    while let Some(feed) = next_feed(text, start) {
        if is_last_blank(text, feed) {
            return feed + 1;
        }
        start = feed + 1;
    }
    0
}

/// The place of the first line feed from a place on.
fn next_feed(text: &[u8], from: usize) -> Option<usize>
    requires { from ≤ length text.now }
    ensures from { IfSome result (λ place. from ≤ place) }
    ensures below { IfSome result (λ place. place < length text.now) }
{
    match memchr(b'\n', &text[from..]) {
        Some(place) => Some(from + place),
        None => None,
    }
}

/// The place of the last line feed from one place to before another.
fn last_feed(text: &[u8], from: usize, end: usize) -> Option<usize>
    requires order { from ≤ end }
    requires within { end ≤ length text.now }
    ensures some { IfSome result (IsLastFeed text.now from end) }
    ensures below { IfSome result (λ place. place < end) }
    ensures none { IfNone result (NoFeed text.now from end) }
{
    match memrchr(b'\n', &text[from..end]) {
        Some(place) => Some(from + place),
        None => None,
    }
}

/// Whether what follows the last line feed of the first bytes is blank.
fn is_last_blank(text: &[u8], end: usize) -> bool
    requires { end ≤ length text.now }
    ensures { result ≡ is_last_blank (take end text.now) }
{
    let mut start = end;
    while 0 < start {
        let byte = text[start - 1];
        if is_feed(byte) {
            return true;
        }
        if !is_blank(byte) {
            return false;
        }
        start -= 1;
    }
    true
}

fn is_feed(byte: u8) -> bool
    ensures { result ≡ is_line_feed byte }
{
    byte == b'\n'
}

fn is_blank(byte: u8) -> bool
    ensures { result ≡ is_blank_byte byte }
{
    byte == b' ' || byte == b'\t'
}

/// The number of line feeds.
pub(crate) fn count_feeds(text: &[u8]) -> u64
    ensures { result ≡ count_by is_line_feed text.now }
{
    text.iter().filter(|byte| **byte == b'\n').count() as u64
}
