//! The top call: all that the program does, over any shelf and any two sinks.
ghost use Rattle.std.specs.Prelude.{◌≡◌, ◌⊎◌, IfSome, None, Option, map, string_bytes};
ghost use Rattle.byte_flow.specs.Flow.{Rose};
ghost use Rattle.claims.specs.Sentences.{CompareIsTrue, ExplainIsTrue, KernelIsSettled};
ghost use Rattle.claims.specs.Sentences.{KernelIsTrue, MigrateIsTrue, QueryIsTrue, StatusIsTrue};
ghost use Rattle.claims.specs.Sentences.{StoredQueryIsTrue};
ghost use Rattle.coinst_run.specs.{Delivers.{Delivers, Tells}, Ending.{ending_of}};
ghost use Rattle.coinst_run.specs.Follows.{Follows, FollowsJob};
ghost use Rattle.coinst_run.specs.{Meaning.{IsMeant, course_of, outcome_for}, Outcome.{Outcome}};
ghost use Rattle.coinst_run.specs.Readings.{IsOfText, Prints, RunRefuses, Reports};
ghost use Rattle.coinst_run.specs.Run.{RunAnswers, Completes};
ghost use Rattle.coinst_run.specs.Status.{cause_status, verdict_status};
ghost use Rattle.coinst_run.specs.declared.answer.Cause.{Cause};
ghost use Rattle.coinst_run.specs.declared.answer.ReportVerdict.{ReportVerdict};
ghost use Rattle.coinst_words.specs.Jobs.{IsInLimits, job_of};

use crate::answer::{Report, Stop};
use crate::compare::compare;
use crate::deliver::deliver;
use crate::explain::explain;
use crate::kernel::kernel;
use crate::migrate::migrate;
use crate::query::query;
use crate::sample::sample;
use crate::status::Status;
use crate::stored_query::stored_query;
use crate::system_status::system_status;
use byte_flow::{Shelf, Sink};
use coinst_words::{Job, read_words};
use std::alloc::Global;

// What the command of a job makes of the shelf.
fn answer_job<F: Shelf>(alloc: Global, shelf: &mut F, job: &Job) -> Result<Report, Stop>
    requires { IsInLimits job.now }
    ensures { Follows F.model (course_of job.now) shelf.old (ending_of result) shelf.new }
{
    let settings = job.settings();
    match job {
        Job::Kernel { index, json, .. } => kernel(alloc, shelf, index.as_str(), *json, settings),
        Job::Query { index, goals, .. } => {
            query(alloc, shelf, index.as_str(), goals.as_slice(), settings)
        }
        Job::StoredQuery { kernel, goals, .. } => {
            stored_query(alloc, shelf, kernel.as_str(), goals.as_slice(), settings)
        }
        Job::Compare { old, new, .. } => compare(
            alloc,
            shelf,
            old.as_str(),
            new.as_str(),
            settings,
        ),
        Job::Explain { index, goals, .. } => {
            explain(alloc, shelf, index.as_str(), goals.as_slice(), settings)
        }
        Job::Status { file, index, .. } => {
            system_status(alloc, shelf, file.as_str(), index.as_str(), settings)
        }
        Job::Migrate { old, new, .. } => migrate(
            alloc,
            shelf,
            old.as_str(),
            new.as_str(),
            settings,
        ),
        Job::Sample { seed, count } => sample(alloc, *seed, *count),
    }
}

// The answer to the words.
fn answer_to<F: Shelf>(alloc: Global, words: &[String], shelf: &mut F) -> Result<Report, Stop>
    ensures { FollowsJob F.model (job_of (map string_bytes words.now)) shelf.old
        (ending_of result) shelf.new }
{
    match read_words(alloc, words) {
        Ok(job) => answer_job(alloc, shelf, &job),
        Err(error) => Err(Stop::from(error)),
    }
}

/// Does what the words ask for: reads from the shelf, and writes the report to one sink. If there
/// is none or it is cut, one line goes to the other.
pub fn run<F: Shelf, O: Sink, E: Sink>(
    alloc: Global,
    words: &[String],
    shelf: &mut F,
    out: &mut O,
    err: &mut E,
) -> Status
    // If the shelf says its contents, the status and the bytes are those of the outcome, or of one
    // of three causes.
    ensures answers { IfSome (F.model.contents shelf.old) (λ files.
        RunAnswers (F.model.is_quiet shelf.old)
        (Rose (F.model.faults shelf.old) (F.model.faults shelf.new))
        (Rose (O.model.faults out.old) (O.model.faults out.new)) (O.model.room out.old)
        (Tells E.model err.old err.new) (outcome_for (map string_bytes words.now) files)
        (O.model.taken out.old) (O.model.taken out.new) result) }

    // On any shelf and any sinks: if the status is that of a report, the run read its files whole,
    // wrote these bytes whole, and did no more. They mean what the stanzas say of the texts that
    // the reads handed over.
    ensures meaning { (verdict : ReportVerdict) → result ≡ verdict_status verdict →
        Reports F.model O.model shelf.old shelf.new out.old out.new (λ readings printed.
        IsMeant (map string_bytes words.now) readings verdict printed) }

    // The sentences, of any run too: for each command what was printed, with the options in one
    // order, is true of what was read.
    ensures kernel_is_true { Prints F.model O.model shelf.old shelf.new out.old out.new result
        (KernelIsTrue (map string_bytes words.now)) }
    ensures kernel_is_settled { Prints F.model O.model shelf.old shelf.new out.old out.new result
        (KernelIsSettled (map string_bytes words.now)) }
    ensures query_is_true { Prints F.model O.model shelf.old shelf.new out.old out.new result
        (QueryIsTrue (map string_bytes words.now)) }
    ensures stored_query_is_true { Prints F.model O.model shelf.old shelf.new out.old out.new result
        (StoredQueryIsTrue (map string_bytes words.now)) }
    ensures compare_is_true { Prints F.model O.model shelf.old shelf.new out.old out.new result
        (CompareIsTrue (map string_bytes words.now)) }
    ensures explain_is_true { Prints F.model O.model shelf.old shelf.new out.old out.new result
        (ExplainIsTrue (map string_bytes words.now)) }
    ensures status_is_true { Prints F.model O.model shelf.old shelf.new out.old out.new result
        (StatusIsTrue (map string_bytes words.now)) }
    ensures migrate_is_true { Prints F.model O.model shelf.old shelf.new out.old out.new result
        (MigrateIsTrue (map string_bytes words.now)) }

    // If the status is that of a refusal for what was read, the line is the one that the course of
    // the command leads to over it. No report was written.
    ensures refuses { (cause : Cause) → IsOfText cause → result ≡ cause_status cause →
        RunRefuses F.model shelf.old shelf.new out.old out.new (map string_bytes words.now) cause
        (Tells E.model err.old err.new) }

    // If no call failed, a report is written whole unless no memory is found.
    ensures completes { IfSome (F.model.contents shelf.old) (λ files.
        (Rose (F.model.faults shelf.old) (F.model.faults shelf.new) → ⊥) →
        (Rose (O.model.faults out.old) (O.model.faults out.new) → ⊥) →
        Completes result (outcome_for (map string_bytes words.now) files)) }

    // On any shelf and any sinks: what the run did, by how it ended. How it ended decides the
    // status and which line standard error is given, so a fault of standard error changes neither
    // the status nor the report.
    ensures runs { (ending : Option Outcome)
        × FollowsJob F.model (job_of (map string_bytes words.now)) shelf.old ending shelf.new
        × Delivers O.model E.model out.old err.old result out.new err.new ending }

    // Why the statuses of the words, of a failed read and of a failed write come.
    ensures words { result ≡ Status.Words → job_of (map string_bytes words.now) ≡ None }
    ensures no_job { job_of (map string_bytes words.now) ≡ None →
        (result ≡ Status.Words) ⊎ (result ≡ Status.Memory) }
    ensures read_fault { result ≡ Status.ReadFault →
        Rose (F.model.faults shelf.old) (F.model.faults shelf.new) }
    ensures write_fault { result ≡ Status.WriteFault →
        Rose (O.model.faults out.old) (O.model.faults out.new) }
{
    let answer = answer_to(alloc, words, shelf);
    deliver(out, err, &answer)
}
