//! The order of two upstream parts, or of two revisions.
ghost use Rattle.std.specs.{Prelude.{◌≡◌, ◌≤◌, ◌<◌, true, length, drop}, Char.{is_ascii_digit}};
ghost use Rattle.std.specs.{Cmp.Lexicographic.{slice_cmp}, List.{list_all, prefix_len, take_while}};
ghost use Rattle.std.specs.Ordering.{ordering_then, nat_cmp, int_cmp};
ghost use Rattle.deb_version.specs.Order.{number, is_plain, weight, weights, weight_at_front};
ghost use Rattle.deb_version.specs.Order.{behind_plain, behind_digits, part_order};

use crate::digits::order_numbers;
use std::cmp::Ordering;

/// Compares two parts by the pieces taken off their fronts in turn.
pub(crate) fn order_parts(left: &[u8], right: &[u8]) -> Ordering
    ensures { result ≡ part_order left.now right.now }
{
    let mut left = left;
    let mut right = right;
    while !left.is_empty() || !right.is_empty() {
        let left_front = front(left);
        let right_front = front(right);
        let found = order_fronts(left_front, right_front);
        if found.is_ne() {
            return found;
        }
        left = left_front.rest;
        right = right_front.rest;
    }
    Ordering::Equal
}

/// The two pieces at the front of a part, and what is left after them.
#[derive(Clone, Copy)]
pub(crate) struct Pieces<'a> {
    pub(crate) plain: &'a [u8],
    pub(crate) digits: &'a [u8],
    pub(crate) rest: &'a [u8],
}

/// Takes the two pieces off the front of a part.
pub(crate) fn front(part: &[u8]) -> Pieces<'_>
    ensures plain { result.plain.now ≡ take_while is_plain part.now }
    ensures digits { result.digits.now ≡ take_while is_ascii_digit (behind_plain part.now) }
    ensures rest { result.rest.now ≡ behind_digits (behind_plain part.now) }
    ensures all { list_all is_ascii_digit result.digits.now ≡ true }
    ensures shorter { 0 < length part.now → length result.rest.now < length part.now }
{
    let (plain, behind) = part.split_at(plain_len(part));
    let (digits, rest) = behind.split_at(digits_len(behind));
    Pieces {
        plain,
        digits,
        rest,
    }
}

// Compares the pieces without digits, and if these are alike the numbers after them.
fn order_fronts(left: Pieces, right: Pieces) -> Ordering
    requires left { list_all is_ascii_digit left.digits.now ≡ true }
    requires right { list_all is_ascii_digit right.digits.now ≡ true }
    ensures { result ≡ ordering_then
        (slice_cmp int_cmp (weights left.entry.plain.now) (weights right.entry.plain.now))
        (nat_cmp (number left.entry.digits.now) (number right.entry.digits.now)) }
{
    let found = order_plain(left.plain, right.plain);
    if found.is_ne() {
        found
    } else {
        order_numbers(left.digits, right.digits)
    }
}

// The length of the longest front without digits.
fn plain_len(part: &[u8]) -> usize
    ensures is { result ≡ prefix_len is_plain part.now }
    ensures within { result ≤ length part.now }
{
    for (i, byte) in part.iter().enumerate() {
        if byte.is_ascii_digit() {
            return i;
        }
    }
    part.len()
}

// The length of the longest front of digits.
fn digits_len(part: &[u8]) -> usize
    ensures is { result ≡ prefix_len is_ascii_digit part.now }
    ensures within { result ≤ length part.now }
{
    for (i, byte) in part.iter().enumerate() {
        if !byte.is_ascii_digit() {
            return i;
        }
    }
    part.len()
}

// Compares two pieces without digits by the first weight that differs.
fn order_plain(left: &[u8], right: &[u8]) -> Ordering
    ensures { result ≡ slice_cmp int_cmp (weights left.now) (weights right.now) }
{
    for i in 0..left.len().max(right.len()) {
        let found = order_at(left, right, i);
        if found.is_ne() {
            return found;
        }
    }
    Ordering::Equal
}

// Compares the weights at the place.
fn order_at(left: &[u8], right: &[u8], place: usize) -> Ordering
    ensures { result
        ≡ int_cmp (weight_at_front (drop place left.now)) (weight_at_front (drop place right.now)) }
{
    weight_at(left, place).cmp(&weight_at(right, place))
}

// The weight at the place, or that of the end.
fn weight_at(piece: &[u8], place: usize) -> i16
    ensures { result ≡ weight_at_front (drop place piece.now) }
{
    match piece.get(place) {
        Some(byte) => weight_of(*byte),
        None => 0,
    }
}

// The tilde comes before the end of a piece, the end before the letters, and these before the other
// bytes.
fn weight_of(byte: u8) -> i16
    ensures { result ≡ weight byte }
{
    if byte == b'~' {
        -1
    } else if byte.is_ascii_alphabetic() {
        i16::from(byte)
    } else {
        256 + i16::from(byte)
    }
}
