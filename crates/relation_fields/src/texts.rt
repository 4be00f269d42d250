//! Cutting texts into pieces.
ghost use Rattle.std.specs.Prelude.{◌≡◌, ◌≤◌, ◌==◌, ◌∷◌, length, drop};
ghost use Rattle.std.specs.{List.{prefix_len, position, take_while}, Option.{option_copied}};
ghost use Rattle.relation_fields.specs.Texts.{is_white, behind_byte, before_byte, pieces};
ghost use Rattle.relation_fields.specs.Texts.{pieces_left, is_of_kind};

use listed::is_white_byte;

/// The bytes that may stand in one kind of piece.
#[derive(Clone, Copy)]
pub(crate) enum ByteKind {
    /// White space: a space, a tab or an LF.
    White,
    /// A letter, a digit or one of `+ - . _`.
    Name,
    /// A lower-case letter, a digit or a hyphen.
    Qualifier,
    /// One of `< = >`.
    Operator,
}

/// Whether the text has no byte but white space.
pub(crate) fn is_white(text: &[u8]) -> bool
    ensures { result ≡ is_white text.now }
{
    text.iter().all(|byte| is_white_byte(*byte))
}

/// The longest front of bytes of the kind, and what follows it.
pub(crate) fn split_front(text: &[u8], kind: ByteKind) -> (&[u8], &[u8])
    ensures front { result.0.now ≡ take_while (is_of_kind kind) text.now }
    ensures behind { result.1.now ≡ drop (prefix_len (is_of_kind kind) text.now) text.now }
{
    text.split_at(front_len(text, kind))
}

// The length of the longest front of bytes of the kind.
fn front_len(text: &[u8], kind: ByteKind) -> usize
    ensures is { result ≡ prefix_len (is_of_kind kind) text.now }
    ensures within { result ≤ length text.now }
{
    for (i, byte) in text.iter().enumerate() {
        if !has_kind(*byte, kind) {
            return i;
        }
    }
    text.len()
}

/// Whether the byte is of the kind.
pub(crate) fn has_kind(byte: u8, kind: ByteKind) -> bool
    ensures { result ≡ is_of_kind kind byte }
{
    match kind {
        ByteKind::White => is_white_byte(byte),
        ByteKind::Name => byte.is_ascii_alphanumeric() || matches!(byte, b'+' | b'-' | b'.' | b'_'),
        ByteKind::Qualifier => byte.is_ascii_lowercase() || byte.is_ascii_digit() || byte == b'-',
        ByteKind::Operator => matches!(byte, b'<' | b'=' | b'>'),
    }
}

/// The text after the byte, if the text begins with it.
pub(crate) fn strip_first(text: &[u8], byte: u8) -> Option<&[u8]>
    ensures { option_copied result ≡ behind_byte byte text.now }
{
    if text.is_empty() || text[0] != byte {
        return None;
    }
    Some(&text[1..])
}

/// The text before the byte, if the text ends with it.
pub(crate) fn strip_last(text: &[u8], byte: u8) -> Option<&[u8]>
    ensures { option_copied result ≡ before_byte byte text.now }
{
    if text.is_empty() || text[text.len() - 1] != byte {
        return None;
    }
    Some(&text[..text.len() - 1])
}

/// The text before the first such byte, and after it if there is one.
pub(crate) fn cut(text: &[u8], byte: u8) -> (&[u8], Option<&[u8]>)
    ensures { pieces byte text.now ≡ result.0.now ∷ pieces_left byte (option_copied result.1) }
{
    match place_of(text, byte) {
        Some(place) => (&text[..place], Some(&text[place + 1..])),
        None => (text, None),
    }
}

// The place of the first such byte.
fn place_of(text: &[u8], byte: u8) -> Option<usize>
    ensures { result ≡ position (λ x. x == byte) text.now }
{
    text.iter().position(|each| *each == byte)
}
