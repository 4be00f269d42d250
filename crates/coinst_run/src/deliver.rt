//! An answer handed out: the report to one sink or a line to the other, and the status.
ghost use Rattle.std.specs.{Prelude.{◌≡◌, ◌≤◌, ◌++◌, [], codes, take}, List.{flat_map}};
ghost use Rattle.coinst_run.specs.Delivers.{Delivers, IsRefused, Tells};
ghost use Rattle.coinst_run.specs.Ending.{ending_of, stop_ending};
ghost use Rattle.coinst_run.specs.Lines.{cut_line, memory_line, unread_line, words_line};

use crate::answer::{Report, Stop};
use crate::status::Status;
use byte_flow::{Sink, WriteError, write_all};
use itoa::Buffer;

// Writes the pieces of a line one after another, up to the first that is not taken whole. It takes
// no memory, so that the line of a failed write and that of want of memory are always written.
fn tell<E: Sink>(err: &mut E, pieces: &[&[u8]])
    ensures { Tells E.model err.old err.new (flat_map (λ p. p.now) pieces.now) }
{
    for piece in pieces {
        match write_all(err, piece) {
            Ok(()) => {}
            Err(WriteError::Failed { written: _ }) => return,
        }
    }
}

// Writes the line that says after how many bytes a write failed.
fn tell_cut<E: Sink>(err: &mut E, written: u64)
    ensures { Tells E.model err.old err.new (cut_line written) }
{
    let mut buffer = Buffer::new();
    let digits = buffer.format(written).as_bytes();
    tell(
        err,
        &[
            b"write failed after ".as_slice(),
            digits,
            b" bytes\n".as_slice(),
        ],
    );
}

// Writes the line that says that the file at a path could not be read.
fn tell_unread<E: Sink>(err: &mut E, path: &str)
    ensures { Tells E.model err.old err.new (unread_line path.now) }
{
    tell(err, &[path.as_bytes(), b": read failed\n".as_slice()]);
}

// Writes a whole line.
fn tell_line<E: Sink>(err: &mut E, line: &[u8])
    ensures { Tells E.model err.old err.new line.now }
{
    tell(err, &[line]);
}

// Writes the line that says why there is no report.
#[tactic(auto, unfolding(crate::specs::Lines::words_line, crate::specs::Lines::memory_line))]
fn refuse<E: Sink>(err: &mut E, stop: &Stop) -> Status
    ensures { IsRefused E.model err.old (stop_ending stop.now) result err.new }
{
    match stop {
        Stop::NotACommand => {
            tell_line(err, b"words: not a command of coinst\n");
            Status::Words
        }
        Stop::Refused { cause, line } => {
            tell_line(err, line.as_slice());
            cause.status()
        }
        Stop::Unread { path } => {
            tell_unread(err, path.as_str());
            Status::ReadFault
        }
        Stop::Memory => {
            tell_line(err, b"out of memory\n");
            Status::Memory
        }
    }
}

/// Writes a report to one sink. If there is none, or it is cut, a line on the other sink says so.
pub fn deliver<O: Sink, E: Sink>(out: &mut O, err: &mut E, answer: &Result<Report, Stop>) -> Status
    ensures { Delivers O.model E.model out.old err.old result out.new err.new
        (ending_of answer.now) }
{
    match answer {
        Ok(report) => match write_all(out, report.text.as_slice()) {
            Ok(()) => report.verdict.status(),
            Err(WriteError::Failed { written }) => {
                tell_cut(err, written);
                Status::WriteFault
            }
        },
        Err(stop) => refuse(err, stop),
    }
}
