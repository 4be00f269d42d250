//! The keys under which equal versions are found.
ghost use Rattle.std.specs.Prelude.{◌≡◌, ◌++◌, OnOk};
ghost use Rattle.deb_version.specs.Keys.{zero_before, number_before, part_key};

use crate::digits::without_zeros;
use crate::parts::front;
use std::alloc::AllocError;

/// Appends the key of a part.
pub(crate) fn push_part(out: &mut Vec<u8>, part: &[u8]) -> Result<(), AllocError>
    ensures { OnOk result (out.new.items ≡ out.old.items ++ part_key part.now) }
{
    let mut rest = part;
    while !rest.is_empty() {
        let pieces = front(rest);
        out.extend_from_slice(pieces.plain)?;
        out.extend_from_slice(number_before(without_zeros(pieces.digits), pieces.rest))?;
        rest = pieces.rest;
    }
    Ok(())
}

// The number that these digits write without leading zeros, before what follows in its part.
fn number_before<'a>(digits: &'a [u8], more: &[u8]) -> &'a [u8]
    ensures { result.now ≡ number_before digits.now more.now }
{
    match digits {
        [] => zero_before(more),
        [_, ..] => digits,
    }
}

// The number 0 before what follows in its part.
fn zero_before<'a>(more: &[u8]) -> &'a [u8]
    ensures { result.now ≡ zero_before more.now }
{
    match more {
        [] => b"",
        [_, ..] => b"0",
    }
}
