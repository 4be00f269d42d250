//! The first line with a number that is not one of a class.
ghost use Rattle.std.specs.{Prelude.{◌≡◌, ◌≤◌, IfOk, length}, List.{position_from}};
ghost use Rattle.kernel_text.specs.{KernelLines.{lines_of}, StoredReading.{strays}};
ghost use Rattle.kernel_text.specs.{Strays.{strays_by}, Words.{line_of_content}};
ghost use Rattle.repo_model.specs.Limits.{most_bytes};

use crate::check_range::is_below;
use crate::content::LineContent;
use crate::line_end::line_end;
use crate::read_line::read_line;
use std::alloc::{AllocError, Global};

/// The first line, counted from 1, with a number that is not one of a class, if there is one. The
/// lines are read anew, since nothing else asks for their places.
pub(crate) fn first_stray(
    alloc: Global,
    bytes: &[u8],
    classes: u32,
) -> Result<Option<u64>, AllocError>
    requires { length bytes.now ≤ most_bytes }
    ensures { IfOk result (λ found. found ≡ position_from (strays classes) 1 (lines_of bytes.now)) }
{
    let mut place = 0;
    let mut line = 0u64;
    while place < bytes.len() {
        let end = line_end(bytes, place);
        line += 1;
        if is_stray(alloc, &bytes[place..end], classes)? {
            return Ok(Some(line));
        }
        place = end;
    }
    Ok(None)
}

// Whether the line has a number that is not one of a class.
fn is_stray(alloc: Global, line: &[u8], classes: u32) -> Result<bool, AllocError>
    ensures { IfOk result (λ found. found ≡ strays classes line.now) }
{
    match read_line(alloc, line)? {
        Some(content) => Ok(has_stray(&content, classes)),
        None => Ok(false),
    }
}

// Whether what the line says has a number that is not one of a class.
fn has_stray(content: &LineContent, classes: u32) -> bool
    ensures { result ≡ strays_by classes (line_of_content content.now) }
{
    match content {
        LineContent::Needs { clause } => !is_below(clause.as_slice(), classes),
        LineContent::Against { class } => *class >= classes,
        _ => false,
    }
}
