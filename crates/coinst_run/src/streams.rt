//! The edge of the program: the top call over the files and the two streams of the system.
ghost use Rattle.std.specs.{Prelude.{◌≡◌, Option, map, string_bytes}, Process.{exit_status}};
ghost use Rattle.claims.specs.Sentences.{CompareIsTrue, ExplainIsTrue, KernelIsSettled};
ghost use Rattle.claims.specs.Sentences.{KernelIsTrue, MigrateIsTrue, QueryIsTrue, StatusIsTrue};
ghost use Rattle.claims.specs.Sentences.{StoredQueryIsTrue};
ghost use Rattle.coinst_run.specs.{Delivers.{Delivers}, Follows.{FollowsJob}, Meaning.{IsMeant}};
ghost use Rattle.coinst_run.specs.{Outcome.{Outcome}, Readings.{Noted, NotesReport}};
ghost use Rattle.coinst_run.specs.Status.{code_of, verdict_status};
ghost use Rattle.coinst_run.specs.declared.answer.ReportVerdict.{ReportVerdict};
ghost use Rattle.coinst_run.specs.declared.status.Status.{Status};
ghost use Rattle.coinst_words.specs.Jobs.{job_of};

use crate::top::run;
use byte_flow::{FileShelf, Shelf, Sink, StdSink};
use std::alloc::Global;
use std::io::{Stderr, Stdout};
use std::process::ExitCode;
use std::rt::Files;

/// Does what the words ask for over the files of a runtime. The report goes to standard output. If
/// there is none or it is cut, a line goes to standard error. The two streams have types of their
/// own, so they cannot be swapped.
pub fn run_streams<'a, R: Files>(
    alloc: Global,
    words: &[String],
    files: &mut FileShelf<'a, R>,
    report: &mut StdSink<Stdout>,
    line: &mut StdSink<Stderr>,
) -> ExitCode
    // If the exit status is that of a report, the bytes that standard output took mean this for the
    // texts that the files handed over. Both are noted beside the calls of the system: which files
    // were opened, what was read of each, and what was taken.
    ensures meaning { (verdict : ReportVerdict) →
        exit_status result ≡ code_of (verdict_status verdict) → Noted files.old.history.readings
        files.new.history.readings report.old.history.bytes report.new.history.bytes
        (λ readings printed. IsMeant (map string_bytes words.now) readings verdict printed) }

    // So are the sentences.
    ensures kernel_is_true { NotesReport files.old.history.readings files.new.history.readings
        report.old.history.bytes report.new.history.bytes (exit_status result)
        (KernelIsTrue (map string_bytes words.now)) }
    ensures kernel_is_settled { NotesReport files.old.history.readings files.new.history.readings
        report.old.history.bytes report.new.history.bytes (exit_status result)
        (KernelIsSettled (map string_bytes words.now)) }
    ensures query_is_true { NotesReport files.old.history.readings files.new.history.readings
        report.old.history.bytes report.new.history.bytes (exit_status result)
        (QueryIsTrue (map string_bytes words.now)) }
    ensures stored_query_is_true { NotesReport files.old.history.readings files.new.history.readings
        report.old.history.bytes report.new.history.bytes (exit_status result)
        (StoredQueryIsTrue (map string_bytes words.now)) }
    ensures compare_is_true { NotesReport files.old.history.readings files.new.history.readings
        report.old.history.bytes report.new.history.bytes (exit_status result)
        (CompareIsTrue (map string_bytes words.now)) }
    ensures explain_is_true { NotesReport files.old.history.readings files.new.history.readings
        report.old.history.bytes report.new.history.bytes (exit_status result)
        (ExplainIsTrue (map string_bytes words.now)) }
    ensures status_is_true { NotesReport files.old.history.readings files.new.history.readings
        report.old.history.bytes report.new.history.bytes (exit_status result)
        (StatusIsTrue (map string_bytes words.now)) }
    ensures migrate_is_true { NotesReport files.old.history.readings files.new.history.readings
        report.old.history.bytes report.new.history.bytes (exit_status result)
        (MigrateIsTrue (map string_bytes words.now)) }

    // What the run did to the files and to the two streams, by how it ended, and that the exit
    // status is that of its status.
    ensures runs { (status : Status) × (ending : Option Outcome)
        × FollowsJob ⟦<FileShelf<'a, R> as Shelf>⟧.model
        (job_of (map string_bytes words.now)) files.old ending files.new
        × Delivers ⟦<StdSink<Stdout> as Sink>⟧.model ⟦<StdSink<Stderr> as Sink>⟧.model report.old
        line.old status report.new line.new ending
        × (exit_status result ≡ code_of status) }
{
    let status = run(alloc, words, files, report, line);
    ExitCode::from(status.code())
}
