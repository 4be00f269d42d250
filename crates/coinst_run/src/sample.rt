//! The command that extracts the kernel of a suite made from a number, and prints its size.
//!
//! It searches nothing, so it takes no budget.
ghost use Rattle.std.specs.Prelude.{◌≡◌, ◌<◌, ℕ, Ok, IfOk, IfErr, IfSome, filter, length, ltb};
ghost use Rattle.std.specs.Prelude.{sum_by};
ghost use Rattle.row_book.specs.{Book.{listed_for, repository_of, Sound}, Numbers.{numbers}};
ghost use Rattle.row_book.specs.Repository.{clauses_of};
ghost use Rattle.sample_suite.specs.{Drawing.{IsCount}, SampleText.{sample_text}};
ghost use Rattle.coinst_run.specs.Ending.{Settles, StopsAt, ending_of, stop_ending};
ghost use Rattle.coinst_run.specs.{Index.{checked_index, index_of}, IndexKernel.{index_kernel}};
ghost use Rattle.coinst_run.specs.Sample.{sample_course, sample_path, size_report};

use crate::answer::{Report, ReportVerdict, Stop};
use crate::lines::size_line;
use crate::stages::checked_index;
use crate::views::view_of;
use clause_pool::Pool;
use repo_model::Suite;
use row_book::Book;
use sample_suite::sample_text;
use std::alloc::Global;
use suite_compare::SuiteView;

/// The clause limit of the command, which works without hold.
const CLAUSE_LIMIT: u32 = 65_536;

/// The report on the size of the kernel of a suite of `count` packages; it reads no file.
pub fn sample(alloc: Global, seed: u64, count: u32) -> Result<Report, Stop>
    requires { IsCount count }
    ensures { Settles (sample_course seed count) (ending_of result) }
{
    let suite = suite_of(alloc, seed, count)?;
    let view = view_of(alloc, suite, "sample", CLAUSE_LIMIT, false)?;
    Ok(Report::of(ReportVerdict::Done, size_report(alloc, &view)?))
}

// The suite of `count` packages; its text is dropped.
fn suite_of(alloc: Global, seed: u64, count: u32) -> Result<Suite, Stop>
    requires { IsCount count }
    ensures suite { IfOk result (λ suite. checked_index sample_path (sample_text seed count)
        ≡ Ok (index_of suite)) }
    ensures stop { IfErr result (λ stop.
        StopsAt (checked_index sample_path (sample_text seed count)) (stop_ending stop)) }
{
    let text = sample_text(alloc, seed, count)?;
    checked_index(alloc, "sample", text.as_slice())
}

// The line on the size of the kernel of a view.
fn size_report(alloc: Global, view: &SuiteView) -> Result<Vec<u8>, Stop>
    ensures line { IfOk result (λ line. line.items
        ≡ size_report view.now.suite.packages (index_kernel view.now.limit view.now.kernel.hold
        view.now.suite.home view.now.suite.packages)) }
    ensures stop { IfErr result (λ stop. stop ≡ Stop.Memory) }
{
    // A kernel of more lines than 64 bits count finds no memory.
    let Some(clauses) = clause_count(&view.pool, &view.kernel.book) else {
        return Err(Stop::Memory);
    };
    let Some(conflicts) = conflict_count(&view.kernel.book) else {
        return Err(Stop::Memory);
    };
    Ok(size_line(
        alloc,
        u64::from(view.suite.count()),
        u64::from(view.kernel.book.size()),
        clauses,
        conflicts,
    )?)
}

// How many clauses the classes have together, if 64 bits count them.
fn clause_count(pool: &Pool, book: &Book) -> Option<u64>
    requires { Sound pool.now book.now }
    ensures { IfSome result (λ count. count ≡ sum_by (λ n. length
        (clauses_of (repository_of pool.now book.now) n)) (numbers (length book.now.rows) 0)) }
{
    let mut count = 0;
    for class in 0..book.size() {
        count = row_length(pool, book, class).checked_add(count)?;
    }
    Some(count)
}

// How many clauses a class has.
fn row_length(pool: &Pool, book: &Book, class: u32) -> u64
    requires sound { Sound pool.now book.now }
    requires inside { class < length book.now.rows }
    ensures { result ≡ length (clauses_of (repository_of pool.now book.now) class) }
{
    pool.row(book.row(class)).len() as u64
}

// How many conflicts there are, each counted once, if 64 bits count them.
fn conflict_count(book: &Book) -> Option<u64>
    ensures { IfSome result (λ count. count ≡ sum_by
        (λ n. length (filter (λ m. ltb n m) (listed_for book.now.conflicts n)))
        (numbers (length book.now.rows) 0)) }
{
    let mut count = 0;
    for class in 0..book.size() {
        count = (greater_count(book.against(class), class) as u64).checked_add(count)?;
    }
    Some(count)
}

// How many of the numbers are greater than another.
fn greater_count(numbers: &[u32], least: u32) -> usize
    ensures { result ≡ length (filter (λ m. ltb least m) numbers.now) }
{
    numbers.iter().filter(|number| **number > least).count()
}
