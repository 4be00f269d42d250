//! How views are made.
ghost use Rattle.std.specs.Prelude.{◌≡◌, ◌<◌, ◌≤◌, length, Bool, List, ℕ, None, Some, IfOk, IfErr};
ghost use Rattle.std.specs.Prelude.{OnOk};
ghost use Rattle.repo_model.specs.{Facts.{AreNamedPackages}, FirstFault.{first_fault}};
ghost use Rattle.repo_model.specs.{Repository.{suite_repository}, Limits.{most_bytes}};
ghost use Rattle.row_book.specs.Rounds.{limit_at};
ghost use Rattle.suite_compare.specs.Refusals.{home_in, packages_in, RefusesIndex, RefusesSuite};
ghost use Rattle.suite_compare.specs.Views.{IsViewOf};
ghost use Rattle.clause_pool.specs.Interned.{IsPool};

use crate::refusals::{LimitError, ViewError};
use crate::view::SuiteView;
use clause_pool::Pool;
use deb_version::Bytes;
use kernel_rounds::{Kernel, RoundError, extract};
use relation_fields::PackageFacts;
use repo_model::{IndexFault, Suite, read_suite};
use row_book::Book;
use std::alloc::{AllocError, Global};

impl SuiteView {
    /// The view of an index, with at most `limit` clauses in any row on the way to its kernel: the
    /// index is read, and then its kernel is extracted. With `hold` a package stays in the kernel
    /// if its elimination would make a row pass the limit.
    pub fn of(alloc: Global, bytes: &[u8], limit: u32, hold: bool) -> Result<SuiteView, ViewError>
        requires short { length bytes.now ≤ most_bytes }
        requires limit { 0 < limit }
        ensures refused { IfErr result (RefusesIndex bytes.now limit hold) }
        ensures accepted { OnOk result (first_fault bytes.now ≡ None) }
        ensures within { OnOk result (limit_at limit hold
            (suite_repository (home_in bytes.now) (packages_in bytes.now)) ≡ None) }
        ensures packages { IfOk result (λ view. view.suite.packages ≡ packages_in bytes.now) }
        ensures home { IfOk result (λ view. view.suite.home ≡ home_in bytes.now) }
        ensures named { IfOk result (λ view. AreNamedPackages view.suite.packages) }
        ensures limit { IfOk result (λ view. view.limit ≡ limit) }
        ensures hold { IfOk result (λ view. view.kernel.hold ≡ hold) }
    {
        let suite = match read_suite(alloc, bytes) {
            Ok(suite) => suite,
            Err(IndexFault::Memory) => return Err(ViewError::Memory),
            Err(fault) => return Err(ViewError::Index(fault)),
        };
        match SuiteView::of_suite(alloc, suite, limit, hold) {
            Ok(view) => Ok(view),
            Err(error) => Err(of_index(error)),
        }
    }

    /// The view of a suite, with at most `limit` clauses in any row on the way to its kernel. A
    /// refusal drops the suite. With `hold` a package stays in the kernel if its elimination would
    /// make a row pass the limit.
    pub fn of_suite(
        alloc: Global,
        suite: Suite,
        limit: u32,
        hold: bool,
    ) -> Result<SuiteView, LimitError>
        requires { 0 < limit }
        ensures refused { IfErr result (RefusesSuite suite.home suite.packages limit hold) }
        ensures within { OnOk result
            (limit_at limit hold (suite_repository suite.home suite.packages) ≡ None) }
        ensures packages { IfOk result (λ view. view.suite.packages ≡ suite.packages) }
        ensures home { IfOk result (λ view. view.suite.home ≡ suite.home) }
        ensures limit { IfOk result (λ view. view.limit ≡ limit) }
        ensures hold { IfOk result (λ view. view.kernel.hold ≡ hold) }
    {
        match reduce_suite(alloc, &suite, limit, hold) {
            Ok(made) => Ok(view_with(suite, made, limit)),
            Err(error) => {
                // Its one end: a proof follows each field at every end of the body that owns it.
                drop(suite);
                Err(error)
            }
        }
    }
}

/// What is made of a suite: its repository over a pool, and the kernel of that.
#[derive(Drop)]
struct Reduced {
    pool: Pool,
    book: Book,
    kernel: Kernel,
}

/// The view of a suite, with what was made of it.
fn view_with(suite: Suite, made: Reduced, limit: u32) -> SuiteView
    requires { IsViewOf made.pool suite.home suite.packages made.book made.kernel limit }
    ensures suite { result.suite ≡ suite }
    ensures limit { result.limit ≡ limit }
    ensures hold { result.kernel.hold ≡ made.kernel.hold }
{
    let Reduced { pool, book, kernel } = made;
    SuiteView {
        pool,
        suite,
        book,
        kernel,
        limit,
    }
}

/// What is made of a suite, in a pool of its own.
fn reduce_suite(alloc: Global, suite: &Suite, limit: u32, hold: bool) -> Result<Reduced, LimitError>
    requires { 0 < limit }
    ensures refused { IfErr result (RefusesSuite suite.now.home suite.now.packages limit hold) }
    ensures within { OnOk result
        (limit_at limit hold (suite_repository suite.now.home suite.now.packages) ≡ None) }
    ensures view { IfOk result (λ made.
        IsViewOf made.pool suite.now.home suite.now.packages made.book made.kernel limit) }
    ensures hold { IfOk result (λ made. made.kernel.hold ≡ hold) }
{
    let mut pool = Pool::new(alloc)?;
    match reduce_in(alloc, &mut pool, suite, limit, hold) {
        Ok((book, kernel)) => Ok(Reduced { pool, book, kernel }),
        Err(error) => {
            // Its one end: a proof follows each field at every end of the body that owns it.
            drop(pool);
            Err(error)
        }
    }
}

/// The repository of a suite and the kernel of that, in a pool.
fn reduce_in(
    alloc: Global,
    pool: &mut Pool,
    suite: &Suite,
    limit: u32,
    hold: bool,
) -> Result<(Book, Kernel), LimitError>
    requires pool { IsPool pool.old }
    requires limit { 0 < limit }
    ensures refused { IfErr result (RefusesSuite suite.now.home suite.now.packages limit hold) }
    ensures within { OnOk result
        (limit_at limit hold (suite_repository suite.now.home suite.now.packages) ≡ None) }
    ensures view { IfOk result (λ made.
        IsViewOf pool.new suite.now.home suite.now.packages made.0 made.1 limit) }
    ensures hold { IfOk result (λ made. made.1.hold ≡ hold) }
{
    let book = suite.book(alloc, pool)?;
    match extract(alloc, pool, &book, limit, hold) {
        Ok(kernel) => Ok((book, kernel)),
        Err(
            RoundError::Limit {
                round,
                gone,
                package,
                count,
            },
        ) => Err(limit_of(alloc, suite, round, gone, package, count)),
        Err(RoundError::Memory) => Err(LimitError::Memory),
    }
}

// The limit that was passed, with the texts of its package.
fn limit_of(
    alloc: Global,
    suite: &Suite,
    round: u32,
    gone: u32,
    over: u32,
    count: u64,
) -> LimitError
    requires { over < length suite.now.packages }
    ensures { (limit : ℕ) (hold : Bool) →
        limit_at limit hold (suite_repository suite.now.home suite.now.packages)
        ≡ Some (record { number = round; gone = gone; over = over; count = count }) →
        RefusesSuite suite.now.home suite.now.packages limit hold result }
{
    match texts_of(alloc, &suite.packages.as_slice()[over as usize]) {
        Ok((name, version)) => LimitError::Limit {
            round,
            gone,
            package: over,
            count,
            name,
            version,
        },
        Err(_) => LimitError::Memory,
    }
}

// The name and the version of a package.
fn texts_of(alloc: Global, facts: &PackageFacts) -> Result<(Bytes, Bytes), AllocError>
    ensures name { IfOk result (λ texts. texts.0 ≡ facts.now.name) }
    ensures version { IfOk result (λ texts. texts.1 ≡ facts.now.version) }
{
    let name = Bytes::copy(alloc, facts.name.as_slice())?;
    let version = Bytes::copy(alloc, facts.version.text())?;
    Ok((name, version))
}

// The refusal as one of the index that the suite was read from.
fn of_index(error: LimitError) -> ViewError
    ensures { (text : List ℕ) (limit : ℕ) (hold : Bool) → first_fault text ≡ None →
        RefusesSuite (home_in text) (packages_in text) limit hold error →
        RefusesIndex text limit hold result }
{
    match error {
        LimitError::Limit {
            round,
            gone,
            package,
            count,
            name,
            version,
        } => ViewError::Limit {
            round,
            gone,
            package,
            count,
            name,
            version,
        },
        LimitError::Memory => ViewError::Memory,
    }
}
