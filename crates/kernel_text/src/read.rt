//! Reading the lines of a kernel text.
ghost use Rattle.std.specs.Prelude.{◌≡◌, ℕ, ◌≤◌, IfOk, IfErr, OnOk, length};
ghost use Rattle.kernel_text.specs.KernelFaults.{IsFault};
ghost use Rattle.kernel_text.specs.Reader.{HoldsReading, HoldsAll, HoldsKernel};
ghost use Rattle.kernel_text.specs.Reading.{empty_reading};
ghost use Rattle.repo_model.specs.Limits.{most_bytes};

use crate::check_range::is_in_range;
use crate::fault::KernelFault;
use crate::find_stray::first_stray;
use crate::line_end::line_end;
use crate::reader::Reader;
use std::alloc::Global;

/// Reads a whole text: what its lines say, or its first fault.
pub(crate) fn read_text(alloc: Global, bytes: &[u8]) -> Result<Reader, KernelFault>
    requires { length bytes.now ≤ most_bytes }
    ensures read { IfOk result (HoldsKernel bytes.now) }
    ensures refused { IfErr result (IsFault bytes.now) }
{
    let mut reader = Reader::new(alloc);
    fill(alloc, bytes, &mut reader)?;
    Ok(reader)
}

// Takes all lines into a reader that has none, or finds the first fault.
fn fill(alloc: Global, bytes: &[u8], reader: &mut Reader) -> Result<(), KernelFault>
    requires size { length bytes.now ≤ most_bytes }
    requires none { HoldsReading reader.old empty_reading }
    ensures read { OnOk result (HoldsKernel bytes.now reader.new) }
    ensures refused { IfErr result (IsFault bytes.now) }
{
    add_lines(alloc, bytes, reader)?;
    judge(alloc, bytes, reader)
}

// Takes all lines into a reader that has none, or finds the first that is not allowed after those
// before it.
fn add_lines(alloc: Global, bytes: &[u8], reader: &mut Reader) -> Result<(), KernelFault>
    requires size { length bytes.now ≤ most_bytes }
    requires none { HoldsReading reader.old empty_reading }
    ensures read { OnOk result (HoldsAll bytes.now reader.new) }
    ensures refused { IfErr result (IsFault bytes.now) }
{
    let mut place = 0;
    let mut line = 0u64;
    while place < bytes.len() {
        let end = line_end(bytes, place);
        line += 1;
        if !reader.add(alloc, &bytes[place..end])? {
            return Err(KernelFault::Line { line });
        }
        place = end;
    }
    Ok(())
}

// The fault of a text whose lines are all allowed, if it has one.
fn judge(alloc: Global, bytes: &[u8], reader: &Reader) -> Result<(), KernelFault>
    requires size { length bytes.now ≤ most_bytes }
    requires read { HoldsAll bytes.now reader.now }
    ensures read { OnOk result (HoldsKernel bytes.now reader.now) }
    ensures refused { IfErr result (IsFault bytes.now) }
{
    if !reader.is_complete() {
        return Err(KernelFault::End);
    }
    if !is_in_range(
        reader.clauses.as_slice(),
        reader.conflicts.as_slice(),
        reader.classes,
    ) {
        let Some(line) = first_stray(alloc, bytes, reader.classes)? else {
            unreachable!()
        };
        return Err(KernelFault::Range { line });
    }
    Ok(())
}
