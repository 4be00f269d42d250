//! The shape of a field line.

ghost use Rattle.std.specs.Prelude.{◌≡◌, false, None, Some, OnOk, IfOk, IfErr};
ghost use Rattle.stanza_reader.specs.{Fields.{name_of}, Lines.{is_continuation}};
ghost use Rattle.stanza_reader.specs.Stanzas.{line_fault};

use crate::fault::StanzaFault;
use crate::names::{
    has_colon, has_colon_behind, is_begun_well, is_field_name, name_length, name_of,
};

/// The name of the field that a line begins, or the fault in the shape of the line.
pub(crate) fn checked_name(line: &[u8], number: u64) -> Result<&[u8], StanzaFault>
    requires { is_continuation line.now ≡ false }
    ensures name { IfOk result (λ name. name.now ≡ name_of line.now) }
    ensures fine { OnOk result (line_fault record { number = number; text = line.now } ≡ None) }
    ensures fault { IfErr result (λ fault.
        line_fault record { number = number; text = line.now } ≡ Some fault) }
{
    // Most lines begin with a good name and its colon: one pass finds both.
    let len = name_length(line);
    let front = &line[..len];
    if has_colon_behind(line, len) && is_begun_well(front) {
        return Ok(front);
    }
    let name = name_of(line);
    if !has_colon(line, name) {
        return Err(StanzaFault::NoColon { line: number });
    }
    if !is_field_name(name) {
        return Err(StanzaFault::BadName { line: number });
    }
    Ok(name)
}
