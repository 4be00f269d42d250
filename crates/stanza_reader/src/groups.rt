//! Groups of lines between blank lines.

ghost use Rattle.std.specs.Prelude.{◌≡◌, ◌<◌, ◌≤◌, length, true, Ok, Err, IfOk, IfErr};
ghost use Rattle.stanza_reader.specs.{Places.{CountsOn, IsPlace, lines_at}, Reading.{OnTextFault}};
ghost use Rattle.stanza_reader.specs.Stanzas.{behind_blank, behind_group, first_group, has_line};
ghost use Rattle.stanza_reader.specs.Stanzas.{stanza_of};

use crate::fault::StanzaFault;
use crate::lines::{is_blank, is_continuation};
use crate::place::{Place, next_line};
use crate::scan::scan;
use crate::stanza::RawStanza;
use std::alloc::Global;

/// The place of the first line, from a place on, that is not blank; or the end.
#[tactic(auto, using(crate::proofs::PlaceLemmas::counts_on))]
pub(crate) fn skip_blank(bytes: &[u8], at: Place) -> Place
    requires { IsPlace bytes.now at }
    ensures place { IsPlace bytes.now result }
    ensures onward { at.offset ≤ result.offset }
    ensures counted { CountsOn bytes.now at result }
    ensures lines { lines_at bytes.now result ≡ behind_blank (lines_at bytes.now at) }
    ensures full { result.offset < length bytes.now →
        has_line (first_group (lines_at bytes.now result)) ≡ true }
{
    let mut next = at;
    while next.offset < bytes.len() as u64 {
        let (line, after) = next_line(bytes, next);
        if !is_blank(line) {
            return next;
        }
        next = after;
    }
    next
}

/// The place of the first blank line from a place on, or the end.
pub(crate) fn skip_group(bytes: &[u8], at: Place) -> Place
    requires { IsPlace bytes.now at }
    ensures place { IsPlace bytes.now result }
    ensures onward { at.offset ≤ result.offset }
    ensures lines { lines_at bytes.now result ≡ behind_group (lines_at bytes.now at) }
{
    let mut next = at;
    while next.offset < bytes.len() as u64 {
        let (line, after) = next_line(bytes, next);
        if is_blank(line) {
            return next;
        }
        next = after;
    }
    next
}

/// A group of lines as a stanza, and the place after them: the first blank line, or the end.
#[derive(Drop)]
pub(crate) struct Group {
    pub(crate) stanza: RawStanza,
    pub(crate) after: Place,
}

/// The group of lines at a place as a stanza, or its first fault.
pub(crate) fn read_group(alloc: Global, bytes: &[u8], at: Place) -> Result<Group, StanzaFault>
    requires place { IsPlace bytes.now at }
    requires more { at.offset < length bytes.now }
    requires full { has_line (first_group (lines_at bytes.now at)) ≡ true }
    ensures stanza { IfOk result (λ group. stanza_of (first_group (lines_at bytes.now at))
        ≡ Ok group.stanza) }
    ensures fault { IfErr result (λ fault.
        OnTextFault fault (stanza_of (first_group (lines_at bytes.now at)) ≡ Err fault)) }
    ensures place { IfOk result (λ group. IsPlace bytes.now group.after) }
    ensures onward { IfOk result (λ group. at.offset < group.after.offset) }
    ensures counted { IfOk result (λ group. CountsOn bytes.now at group.after) }
    ensures lines { IfOk result (λ group. lines_at bytes.now group.after
        ≡ behind_group (lines_at bytes.now at)) }
{
    let (first, _) = next_line(bytes, at);
    if is_continuation(first) {
        return Err(StanzaFault::LoneContinuation { line: at.line });
    }
    let found = scan(alloc, bytes, at)?;
    if let Some(fault) = found.repeat {
        return Err(fault);
    }
    Ok(Group {
        stanza: RawStanza {
            line: at.line,
            fields: found.fields,
        },
        after: found.after,
    })
}
