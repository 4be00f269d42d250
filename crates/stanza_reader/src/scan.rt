//! One pass over the lines of a group.

ghost use Rattle.std.specs.Prelude.{◌≡◌, ◌<◌, length, [], true, None, Some, OnOk, IfOk, IfErr};
ghost use Rattle.stanza_reader.specs.{Places.{CountsOn, IsPlace, lines_at}, Reading.{OnTextFault}};
ghost use Rattle.stanza_reader.specs.Stanzas.{behind_group, first_group, first_line_fault};
ghost use Rattle.stanza_reader.specs.Stanzas.{has_line, kept_fields, repeat_fault};

use crate::check::checked_name;
use crate::fault::StanzaFault;
use crate::fields::kept_field;
use crate::lines::{is_blank, is_continuation};
use crate::note::Names;
use crate::place::{Place, next_line};
use crate::stanza::FieldList;
use std::alloc::Global;

/// What the lines of a group have: the fault of the first repeated name, or else the kept fields.
/// `after` is the place after them, the first blank line or the end.
#[derive(Drop)]
pub(crate) struct Found {
    pub(crate) repeat: Option<StanzaFault>,
    pub(crate) fields: FieldList,
    pub(crate) after: Place,
}

/// Passes once over the lines of the group at a place, up to the first fault of shape. That the
/// first line is a continuation line is no such fault.
#[tactic(auto, using(crate::proofs::PlaceLemmas::counts_on))]
pub(crate) fn scan(alloc: Global, bytes: &[u8], at: Place) -> Result<Found, StanzaFault>
    requires place { IsPlace bytes.now at }
    requires full { has_line (first_group (lines_at bytes.now at)) ≡ true }
    ensures shape { OnOk result (first_line_fault (first_group (lines_at bytes.now at)) ≡ None) }
    ensures fault { IfErr result (λ fault.
        OnTextFault fault (first_line_fault (first_group (lines_at bytes.now at)) ≡ Some fault)) }
    ensures repeat { IfOk result (λ found. found.repeat
        ≡ repeat_fault [] (first_group (lines_at bytes.now at))) }
    ensures fields { IfOk result (λ found. found.repeat ≡ None →
        found.fields ≡ kept_fields (first_group (lines_at bytes.now at))) }
    ensures place { IfOk result (λ found. IsPlace bytes.now found.after) }
    ensures onward { IfOk result (λ found. at.offset < found.after.offset) }
    ensures counted { IfOk result (λ found. CountsOn bytes.now at found.after) }
    ensures lines { IfOk result (λ found. lines_at bytes.now found.after
        ≡ behind_group (lines_at bytes.now at)) }
{
    let mut fields = FieldList::new(alloc);
    let mut names = Names::new(alloc)?;
    let mut at = at;
    while at.offset < bytes.len() as u64 {
        let (line, after) = next_line(bytes, at);
        if is_blank(line) {
            return Ok(Found {
                repeat: names.repeat,
                fields,
                after: at,
            });
        }
        if is_continuation(line) {
            at = after;
            continue;
        }
        let name = match checked_name(line, at.line) {
            Ok(name) => name,
            Err(fault) => return Err(fault),
        };
        names.note(alloc, name, at.line)?;
        // After a repeated name nothing is kept, and only a fault of shape still counts.
        if names.repeat.is_some() {
            at = after;
            continue;
        }
        let Some(field) = kept_field(alloc, bytes, at, line, name, after)? else {
            at = after;
            continue;
        };
        fields.push(field)?;
        at = after;
    }
    Ok(Found {
        repeat: names.repeat,
        fields,
        after: at,
    })
}
