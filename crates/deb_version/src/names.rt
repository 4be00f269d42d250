//! The names of packages.
ghost use Rattle.std.specs.{Prelude.{◌≡◌}, List.{list_all}};
ghost use Rattle.deb_version.specs.Names.{is_name, is_name_byte, has_first};

use crate::classes::is_name_byte;

/// Whether the text is the name of a package.
///
/// A name is an ASCII letter or digit, and then ASCII letters, digits and `+ - . _`.
pub fn is_package_name(text: &[u8]) -> bool
    ensures { result ≡ is_name text.now }
{
    begins_well(text) && has_name_bytes(text)
}

// Whether there is a first byte, and it is a letter or a digit.
fn begins_well(text: &[u8]) -> bool
    ensures { result ≡ has_first text.now }
{
    match text {
        [first, ..] => first.is_ascii_alphanumeric(),
        [] => false,
    }
}

// Whether each byte may stand in a name.
fn has_name_bytes(text: &[u8]) -> bool
    ensures { result ≡ list_all is_name_byte text.now }
{
    text.iter().all(|byte| is_name_byte(*byte))
}
