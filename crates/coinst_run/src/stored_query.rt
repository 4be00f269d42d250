//! The command that asks of a stored kernel whether one package for each goal can be installed
//! together.
ghost use Rattle.std.specs.Prelude.{◌≡◌, ◌++◌, ◌<◌, ◌≤◌, Ok, OnOk, IfOk, IfErr, IfSome, filter};
ghost use Rattle.std.specs.{Prelude.{length}, List.{flat_map}};
ghost use Rattle.clause_solver.specs.Outcomes.{IsBudget};
ghost use Rattle.coinst_words.specs.Jobs.{AreInLimits};
ghost use Rattle.kernel_text.specs.KernelReads.{content};
ghost use Rattle.row_book.specs.{Book.{repository_of, Sound}, Numbers.{numbers}, Flags.{flag}};
ghost use Rattle.row_book.specs.{Needs.{NeedsFit}, Sound.{SoundRepository}};
ghost use Rattle.suite_compare.specs.Asking.{tree_of};
ghost use Rattle.coinst_run.specs.{Answer.{refused}, Course.{answers}};
ghost use Rattle.coinst_run.specs.Ending.{ending_of, Settles, stop_ending, StopsAt};
ghost use Rattle.coinst_run.specs.{Follows.{Follows}, Outcome.{answered}, Query.{by_tree}};
ghost use Rattle.coinst_run.specs.declared.answer.Cause.TheVariants.{Content};
ghost use Rattle.coinst_run.specs.StoredQuery.{checked_kernel, class_line, classes_text};
ghost use Rattle.coinst_run.specs.StoredQuery.{kernel_fault_line, kernel_fault_text, stored_answer};
ghost use Rattle.coinst_run.specs.StoredQuery.{stored_query_answer, stored_query_course};
ghost use Rattle.repo_model.specs.Limits.{most_bytes};

use crate::answer::{Cause, Report, ReportVerdict, Stop};
use crate::lines::{Made, Put, line_about, push_at_line, push_count};
use crate::query::unknown_goal;
use crate::query_text::{no_text, undecided_text};
use crate::stages::text_at;
use byte_flow::Shelf;
use clause_pool::Pool;
use clause_solver::{Outcome, search};
use coinst_words::Settings;
use kernel_text::{ImageError, KernelFault, StoredKernel, read_kernel};
use repo_model::Goal;
use row_book::{Book, Needs};
use std::alloc::Global;

/// The report on goals that are asked of the stored kernel at a path.
pub fn stored_query<F: Shelf>(
    alloc: Global,
    shelf: &mut F,
    path: &str,
    goals: &[Goal],
    settings: Settings,
) -> Result<Report, Stop>
    requires { AreInLimits settings }
    ensures { Follows F.model (stored_query_course path.now goals.now settings.budget) shelf.old
        (ending_of result) shelf.new }
{
    let text = text_at(alloc, shelf, path)?;
    stored_report(alloc, text.as_slice(), path, goals, settings.budget)
}

// The report on goals that are asked of the kernel of a text.
fn stored_report(
    alloc: Global,
    text: &[u8],
    path: &str,
    goals: &[Goal],
    budget: u64,
) -> Result<Report, Stop>
    requires budget { IsBudget budget }
    requires short { length text.now ≤ most_bytes }
    ensures { Settles (stored_query_answer path.now goals.now budget text.now) (ending_of result) }
{
    let mut pool = Pool::new(alloc)?;
    let stored = checked_kernel(alloc, &mut pool, path, text)?;
    let report = goals_report(alloc, &pool, &stored, goals, budget);
    // Its one end: a proof follows each field at every end of the body that owns it.
    drop(stored);
    report
}

// Reads a stored kernel over the pool, or refuses its fault.
fn checked_kernel(
    alloc: Global,
    pool: &mut Pool,
    path: &str,
    text: &[u8],
) -> Result<StoredKernel, Stop>
    requires { length text.now ≤ most_bytes }
    ensures kernel { IfOk result (λ stored. checked_kernel path.now text.now ≡ Ok
        (content stored.format (repository_of pool.new stored.book) stored.members stored.held)) }
    ensures sound { IfOk result (λ stored. Sound pool.new stored.book) }
    ensures repository { IfOk result (λ stored.
        SoundRepository (repository_of pool.new stored.book)) }
    ensures stop { IfErr result (λ stop.
        StopsAt (checked_kernel path.now text.now) (stop_ending stop)) }
{
    match read_kernel(alloc, text, pool) {
        Ok(stored) => Ok(stored),
        Err(KernelFault::Line { line }) => Err(faulty(alloc, path, KernelFault::Line { line })),
        Err(KernelFault::End) => Err(faulty(alloc, path, KernelFault::End)),
        Err(KernelFault::Range { line }) => Err(faulty(alloc, path, KernelFault::Range { line })),
        Err(KernelFault::Memory) => Err(Stop::Memory),
    }
}

// The stop of a text with a fault.
fn faulty(alloc: Global, path: &str, fault: KernelFault) -> Stop
    ensures { IfSome (stop_ending result) (λ outcome. outcome
        ≡ answered (refused Content (kernel_fault_line path.now fault))) }
{
    Stop::refused(Cause::Content, kernel_fault_line(alloc, path, fault))
}

// The report on goals that are asked of a stored kernel.
fn goals_report(
    alloc: Global,
    pool: &Pool,
    stored: &StoredKernel,
    goals: &[Goal],
    budget: u64,
) -> Result<Report, Stop>
    requires sound { Sound pool.now stored.now.book }
    requires repository { SoundRepository (repository_of pool.now stored.now.book) }
    requires budget { IsBudget budget }
    ensures { Settles (answers (stored_answer goals.now budget (content stored.now.format
        (repository_of pool.now stored.now.book) stored.now.members stored.now.held)))
        (ending_of result) }
{
    match stored.images(alloc, goals) {
        Ok(needs) => tree_report(alloc, pool, &stored.book, &needs, budget),
        Err(ImageError::Unknown { goal }) => Err(unknown_goal(alloc, goals, goal)),
        Err(ImageError::Memory) => Err(Stop::Memory),
    }
}

// The report on needs of classes: one class of each is wanted.
fn tree_report(
    alloc: Global,
    pool: &Pool,
    book: &Book,
    needs: &Needs,
    budget: u64,
) -> Result<Report, Stop>
    requires sound { Sound pool.now book.now }
    requires repository { SoundRepository (repository_of pool.now book.now) }
    requires fit { NeedsFit (length book.now.rows) needs.now }
    requires budget { IsBudget budget }
    ensures { Settles (answers (by_tree classes_text budget
        (tree_of (repository_of pool.now book.now) needs.now))) (ending_of result) }
{
    match search(alloc, pool, book, needs, budget)? {
        Outcome::Found { chosen } => Ok(Report::of(
            ReportVerdict::Done,
            classes_text(alloc, chosen.as_slice())?,
        )),
        Outcome::Refuted { log } => Ok(Report::of(ReportVerdict::Negative, no_text(alloc, &log)?)),
        Outcome::Spent { .. } => Ok(Report::of(
            ReportVerdict::Undecided,
            undecided_text(alloc, budget)?,
        )),
    }
}

// Appends the lines of the classes whose flags are up.
fn push_classes(out: &mut Vec<u8>, chosen: &[bool]) -> Put
    ensures { OnOk result (out.new.items ≡ out.old.items
        ++ flat_map class_line (filter (flag chosen.now) (numbers (length chosen.now) 0))) }
{
    for number in 0..chosen.len() {
        if chosen[number] {
            push_count(out, b"class ", number as u64)?;
        }
    }
    Ok(())
}

// Yes, and the classes whose flags are up.
#[tactic(auto, using(crate::proofs::append_assoc), unfolding(crate::specs::classes_text))]
fn classes_text(alloc: Global, chosen: &[bool]) -> Made
    ensures { IfOk result (λ text. text.items ≡ classes_text chosen.now) }
{
    let mut text = Vec::from_slice(alloc, b"yes\n")?;
    push_classes(&mut text, chosen)?;
    Ok(text)
}

// Appends why a text is not that of a kernel.
fn push_kernel_fault(out: &mut Vec<u8>, fault: KernelFault) -> Put
    ensures { OnOk result (out.new.items ≡ out.old.items ++ kernel_fault_text fault) }
{
    match fault {
        KernelFault::Line { line } => push_at_line(out, line, b"not a kernel line"),
        KernelFault::End => out.extend_from_slice(b"no matching end line"),
        KernelFault::Range { line } => push_at_line(out, line, b"no such class"),
        KernelFault::Memory => out.extend_from_slice(b"out of memory"),
    }
}

// The line of the fault of the stored kernel at a path.
#[tactic(auto, unfolding(crate::specs::StoredQuery::kernel_fault_line))]
fn kernel_fault_line(alloc: Global, path: &str, fault: KernelFault) -> Made
    ensures { IfOk result (λ line. line.items ≡ kernel_fault_line path.now fault) }
{
    let mut words = Vec::new(alloc);
    push_kernel_fault(&mut words, fault)?;
    line_about(alloc, path, words.as_slice())
}
