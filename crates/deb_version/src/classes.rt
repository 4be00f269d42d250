//! The bytes that may stand in names and in versions. A byte is looked up in a table, which is
//! faster than comparing it with each range of bytes.
ghost use Rattle.std.specs.Prelude.{◌≡◌};
ghost use Rattle.deb_version.specs.Names.{is_name_byte};
ghost use Rattle.deb_version.specs.Grammar.{is_revision_byte, is_upstream_byte};

const NAME: u8 = 1;

const REVISION: u8 = 2;

const UPSTREAM: u8 = 4;

// For each byte a digit, whose low three bits are the flags above.
static CLASS: [u8; 256] = *b"\
    00000000000000000000000000000000\
    00000000000705707777777777400000\
    07777777777777777777777777700001\
    07777777777777777777777777700060\
    00000000000000000000000000000000\
    00000000000000000000000000000000\
    00000000000000000000000000000000\
    00000000000000000000000000000000";

/// Whether the byte may stand in a name.
pub(crate) fn is_name_byte(byte: u8) -> bool
    ensures { result ≡ is_name_byte byte }
{
    CLASS[byte as usize] & NAME != 0
}

/// Whether the byte may stand in a revision.
pub(crate) fn is_revision_byte(byte: u8) -> bool
    ensures { result ≡ is_revision_byte byte }
{
    CLASS[byte as usize] & REVISION != 0
}

/// Whether the byte may stand in the upstream part of a version.
pub(crate) fn is_upstream_byte(byte: u8) -> bool
    ensures { result ≡ is_upstream_byte byte }
{
    CLASS[byte as usize] & UPSTREAM != 0
}
