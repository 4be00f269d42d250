//! The names of fields.

ghost use Rattle.std.specs.{Prelude.{◌≡◌, ◌≤◌, true, length, take}, List.{list_all, list_any}};
ghost use Rattle.deb_version.specs.Grammar.{is_colon};
ghost use Rattle.stanza_reader.specs.Fields.{is_field_name_byte, is_field_name, kind_of, name_of};

use crate::stanza::FieldKind;
use memchr::memchr;

/// The text before the first colon of a line, or the whole line if it has none.
pub(crate) fn name_of(line: &[u8]) -> &[u8]
    ensures { result.now ≡ name_of line.now }
{
    match memchr(b':', line) {
        Some(end) => &line[..end],
        None => line,
    }
}

/// Whether the line has a colon. `name` is the text before the first one, and so the whole line if
/// there is none.
pub(crate) fn has_colon(line: &[u8], name: &[u8]) -> bool
    requires { name.now ≡ name_of line.now }
    ensures { result ≡ list_any is_colon line.now }
{
    name.len() < line.len()
}

/// How many bytes at the front of a line may all stand in a name.
pub(crate) fn name_length(line: &[u8]) -> usize
    ensures within { result ≤ length line.now }
    ensures bytes { list_all is_field_name_byte (take result line.now) ≡ true }
{
    for (place, byte) in line.iter().enumerate() {
        if !is_name_byte(*byte) {
            return place;
        }
    }
    line.len()
}

/// Whether a colon follows the first `len` bytes, which all may stand in a name. They are then the
/// text before the first colon.
pub(crate) fn has_colon_behind(line: &[u8], len: usize) -> bool
    requires { list_all is_field_name_byte (take len line.now) ≡ true }
    ensures name { result ≡ true → take len line.now ≡ name_of line.now }
    ensures colon { result ≡ true → list_any is_colon line.now ≡ true }
{
    len < line.len() && line[len] == b':'
}

/// Whether the text is the name of a field.
pub(crate) fn is_field_name(text: &[u8]) -> bool
    ensures { result ≡ is_field_name text.now }
{
    has_name_bytes(text) && is_begun_well(text)
}

fn has_name_bytes(text: &[u8]) -> bool
    ensures { result ≡ list_all is_field_name_byte text.now }
{
    text.iter().all(|byte| is_name_byte(*byte))
}

/// Whether a text is the name of a field. All its bytes may stand in one, so its first byte
/// decides.
pub(crate) fn is_begun_well(text: &[u8]) -> bool
    requires { list_all is_field_name_byte text.now ≡ true }
    ensures { result ≡ is_field_name text.now }
{
    match text {
        [first, ..] => *first != b'#' && *first != b'-',
        [] => false,
    }
}

// A printable character of ASCII, but no space and no colon.
fn is_name_byte(byte: u8) -> bool
    ensures { result ≡ is_field_name_byte byte }
{
    33 <= byte && byte <= 126 && byte != b':'
}

/// The kind of the field with this name, if it is one of those that are kept. Names are compared
/// without case.
pub(crate) fn kind_of(name: &[u8]) -> Option<FieldKind>
    ensures { result ≡ kind_of name.now }
{
    if name.eq_ignore_ascii_case(b"Package") {
        Some(FieldKind::Package)
    } else if name.eq_ignore_ascii_case(b"Version") {
        Some(FieldKind::Version)
    } else if name.eq_ignore_ascii_case(b"Architecture") {
        Some(FieldKind::Architecture)
    } else if name.eq_ignore_ascii_case(b"Pre-Depends") {
        Some(FieldKind::PreDepends)
    } else if name.eq_ignore_ascii_case(b"Depends") {
        Some(FieldKind::Depends)
    } else if name.eq_ignore_ascii_case(b"Conflicts") {
        Some(FieldKind::Conflicts)
    } else if name.eq_ignore_ascii_case(b"Breaks") {
        Some(FieldKind::Breaks)
    } else if name.eq_ignore_ascii_case(b"Provides") {
        Some(FieldKind::Provides)
    } else if name.eq_ignore_ascii_case(b"Status") {
        Some(FieldKind::Status)
    } else {
        None
    }
}
