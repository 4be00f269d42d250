//! The front of a text after which no stanza goes on.

ghost use Rattle.std.specs.Prelude.{◌≡◌, ℕ, None, IfSome};
ghost use Rattle.stanza_reader.specs.Close.{IsClosedFront};

use crate::groups::{skip_blank, skip_group};
use crate::lines::line_end;
use crate::place::Place;

/// The length in bytes of the front up to and with the first blank line that ends with a line feed
/// and follows a line that is not blank. `None` if there is no such line.
pub fn closed_front(bytes: &[u8]) -> Option<u64>
    ensures front { IfSome result (IsClosedFront bytes.now) }
    ensures none { result ≡ None → (n : ℕ) → IsClosedFront bytes.now n → ⊥ }
{
    let start = skip_blank(bytes, Place { offset: 0, line: 1 });
    let after = skip_group(bytes, start);
    let end = line_end(bytes, after.offset as usize);
    if end < bytes.len() {
        Some(end as u64 + 1)
    } else {
        None
    }
}
