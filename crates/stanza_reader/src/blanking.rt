//! Texts in which the lines of some stanzas are made empty.
ghost use Rattle.std.specs.Prelude.{◌≡◌, ◌∷◌, ◌++◌, ◌<◌, ◌≤◌, length, if◌then◌else◌, IfOk, OnOk};
ghost use Rattle.std.specs.List.{list_any};
ghost use Rattle.stanza_reader.specs.Blanking.{blanked, emptied, ends_stanza, first_flag};
ghost use Rattle.stanza_reader.specs.Blanking.{flags_behind, is_at_blank, is_blank_whole, stays};
ghost use Rattle.stanza_reader.specs.Blanking.{whole_lines, HasFlags, HasPicked};
ghost use Rattle.stanza_reader.specs.Lines.{is_line_feed};

use crate::lines::line_end;
use crate::values::is_edge;
use std::alloc::{AllocError, Global};

/// The text with each line of each stanza whose flag is down made empty, but for its line feed. So
/// it has exactly the stanzas whose flags are up, with the same line numbers.
pub fn blank_lines(alloc: Global, bytes: &[u8], keep: &[bool]) -> Result<Vec<u8>, AllocError>
    requires { HasFlags bytes.now keep.now }
    ensures text { IfOk result (λ made. made.items ≡ blanked keep.now bytes.now) }
    ensures stanzas { IfOk result (λ made. HasPicked bytes.now keep.now made.items) }
    ensures short { IfOk result (λ made. length made.items ≤ length bytes.now) }
{
    let mut made = Vec::with_capacity(alloc, bytes.len())?;
    let mut flags = keep;
    let mut rest = bytes;
    while !rest.is_empty() {
        let (line, more) = first_line(rest);
        push_line(&mut made, line, stays(flags, line))?;
        flags = flags_behind(flags, line, more);
        rest = more;
    }
    Ok(made)
}

// The first line of a text, with its line feed if it has one, and what follows it.
fn first_line(text: &[u8]) -> (&[u8], &[u8])
    requires { 0 < length text.now }
    ensures lines { whole_lines text.now ≡ result.0.now ∷ whole_lines result.1.now }
    ensures shorter { length result.1.now < length text.now }
{
    let end = line_end(text, 0);
    if end < text.len() {
        text.split_at(end + 1)
    } else {
        text.split_at(end)
    }
}

// Appends a line, whole or as its line feed alone.
fn push_line(made: &mut Vec<u8>, line: &[u8], whole: bool) -> Result<(), AllocError>
    ensures { OnOk result (made.new.items
        ≡ made.old.items ++ (if whole then line.now else emptied line.now)) }
{
    if whole {
        made.extend_from_slice(line)?;
    } else if has_line_feed(line) {
        made.push(b'\n')?;
    }
    Ok(())
}

// Whether the line stays. The flags begin with that of its stanza, or of the next one if it is
// blank.
fn stays(flags: &[bool], line: &[u8]) -> bool
    ensures { result ≡ stays flags.now line.now }
{
    is_blank_whole(line) || first_flag(flags)
}

// The flags for the line that comes next: they begin with that of the next stanza once a stanza
// ends with this line.
fn flags_behind<'a>(flags: &'a [bool], line: &[u8], more: &[u8]) -> &'a [bool]
    ensures { result.now ≡ flags_behind flags.now line.now (whole_lines more.now) }
{
    if !ends_stanza(line, more) {
        return flags;
    }
    match flags {
        [_, others @ ..] => others,
        [] => flags,
    }
}

// Whether a stanza ends with the line, if this text follows it.
fn ends_stanza(line: &[u8], more: &[u8]) -> bool
    ensures { result ≡ ends_stanza line.now (whole_lines more.now) }
{
    !is_blank_whole(line) && is_at_blank(more)
}

// Whether the text has no line, or begins with a blank one.
fn is_at_blank(text: &[u8]) -> bool
    ensures { result ≡ is_at_blank (whole_lines text.now) }
{
    if text.is_empty() {
        return true;
    }
    let (line, _) = first_line(text);
    is_blank_whole(line)
}

// Whether the line has only spaces and tabs besides its line feed.
fn is_blank_whole(line: &[u8]) -> bool
    ensures { result ≡ is_blank_whole line.now }
{
    line.iter().all(|byte| is_edge(*byte))
}

// The first flag; if there is none, it is down.
fn first_flag(flags: &[bool]) -> bool
    ensures { result ≡ first_flag flags.now }
{
    match flags {
        [first, ..] => *first,
        [] => false,
    }
}

// Whether the line has a line feed.
fn has_line_feed(line: &[u8]) -> bool
    ensures { result ≡ list_any is_line_feed line.now }
{
    line.iter().any(|byte| *byte == b'\n')
}
