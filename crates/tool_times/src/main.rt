//! A measuring program, which prints the time of each step: it reads an index, makes its suite,
//! looks up each atom, makes the repository, flattens it and makes its kernel. Then it makes each
//! part of each round by itself. No part of coinst uses it; `bench/suite` runs it.
#![tactic(auto)]

ghost use Rattle.std.specs.Prelude.{IfOk};
ghost use Rattle.row_book.specs.Book.{RowsTidy, Sound};

use byte_flow::{FileShelf, read_file};
use class_merge::merge;
use clause_flatten::flatten;
use clause_pool::Pool;
use clause_prune::prune;
use conflict_reduce::thin;
use kernel_rounds::extract;
use repo_model::{Suite, read_suite};
use row_book::Book;
use std::alloc::{AllocError, Global};
use std::env;
use std::process::ExitCode;
use std::time::{Duration, Instant};
use virtual_provides::NameTable;

/// The most bytes of an index, as the program has it.
const MOST_BYTES: u64 = 1_073_741_824;

/// The greatest clause limit, as the program has it.
const MOST_CLAUSES: u32 = 1_000_000;

/// The most rounds whose parts are measured.
const MOST_ROUNDS: u32 = 20;

/// How many packages meet the atoms of all needs, each atom counted anew.
fn count_met(alloc: Global, suite: &Suite) -> Result<u64, AllocError> {
    let mut met = 0u64;
    let packages = suite.packages.as_slice();
    let table = NameTable::build(alloc, packages)?;
    for package in packages {
        for element in package.needs.as_slice() {
            for atom in element.as_slice() {
                let found = table.meeting(alloc, packages, atom, &suite.home)?;
                met = met.wrapping_add(found.len() as u64);
            }
        }
    }
    Ok(met)
}

/// How many packages have an element that no package meets: their rows begin with the empty clause.
fn count_unmet(pool: &Pool, book: &Book) -> u64
    requires { Sound pool.now book.now }
{
    let mut unmet = 0u64;
    let Some(empty) = pool.find(&[]) else {
        return unmet;
    };
    for row in book.rows.as_slice() {
        if pool.row(*row).first() == Some(&empty) {
            unmet = unmet.wrapping_add(1);
        }
    }
    unmet
}

/// The time since the start, or zero if the clock fails.
fn since(rt: &HostRuntime, start: &Instant) -> Duration {
    start.elapsed(rt).unwrap_or(Duration::ZERO)
}

/// Prints what a suite has and the time of each step.
fn measure(rt: &HostRuntime, start: &Instant, suite: &Suite) -> Result<(), AllocError> {
    let alloc = rt.alloc();
    let made = since(rt, start);
    let met = count_met(alloc, suite)?;
    let all = since(rt, start);
    let mut pool = Pool::new(alloc)?;
    let book = suite.book(alloc, &mut pool)?;
    let booked = since(rt, start);
    let count = suite.count();
    let unmet = count_unmet(&pool, &book);
    let clauses = pool.clause_count();
    let _ = println!(rt;
        "{count} packages, {met} that meet an atom, \
         {unmet} with an element that nobody meets, {clauses} clauses"
    );
    let _ = println!(rt;
        "a suite after {made:?}, all atoms looked up after {all:?}, a book after {booked:?}"
    );
    let before = since(rt, start);
    let is_flat = flatten(alloc, &mut pool, &book, MOST_CLAUSES, false).is_ok();
    let flattened = since(rt, start);
    let kept = pool.clause_count();
    let _ = println!(rt; "flattened ({is_flat}) from {before:?} to {flattened:?}, {kept} clauses");
    measure_kernel(rt, start, suite)
}

/// Prints what the kernel of a suite has and the time that it took.
fn measure_kernel(rt: &HostRuntime, start: &Instant, suite: &Suite) -> Result<(), AllocError> {
    let alloc = rt.alloc();
    let mut pool = Pool::new(alloc)?;
    let book = suite.book(alloc, &mut pool)?;
    let before = since(rt, start);
    let found = extract(alloc, &mut pool, &book, MOST_CLAUSES, false);
    let extracted = since(rt, start);
    let _ = println!(rt; "extracted from {before:?} to {extracted:?}");
    match found {
        Ok(kernel) => {
            print_counts(rt, &pool, &kernel.book);
        }
        Err(error) => {
            let _ = println!(rt; "no kernel: {error}");
        }
    }
    measure_rounds(rt, start, suite)
}

/// Prints how many classes, clauses and conflicting pairs a book has, and returns their sum.
fn print_counts(rt: &HostRuntime, pool: &Pool, book: &Book) -> u64
    requires { Sound pool.now book.now }
{
    let mut clauses = 0u64;
    let mut conflicts = 0u64;
    for row in book.rows.as_slice() {
        clauses = clauses.wrapping_add(pool.row(*row).len() as u64);
    }
    for list in book.conflicts.as_slice() {
        conflicts = conflicts.wrapping_add(list.as_slice().len() as u64);
    }
    let classes = book.size();
    let pairs = conflicts / 2;
    let _ = println!(rt; "{classes} classes, {clauses} clauses, {pairs} conflicting pairs");
    clauses.wrapping_add(pairs).wrapping_add(u64::from(classes))
}

/// Prints the time after each part of a round, and returns the book that it leaves. A clause limit
/// that is passed counts as want of memory.
fn measure_round(
    rt: &HostRuntime,
    start: &Instant,
    pool: &mut Pool,
    book: &Book,
) -> Result<Book, AllocError>
    requires { Sound pool.old book.now }
    ensures { IfOk result (Sound pool.new) }
{
    let before = since(rt, start);
    let Ok(flat) = flatten(rt.alloc(), pool, book, MOST_CLAUSES, false) else {
        return Err(AllocError);
    };
    let flattened = since(rt, start);
    let _ = print!(rt; "a round from {before:?}, flattened {flattened:?}");
    let left = measure_merge(rt, start, pool, &flat.book);
    drop(flat);
    left
}

/// The parts of a round from merging on.
fn measure_merge(
    rt: &HostRuntime,
    start: &Instant,
    pool: &mut Pool,
    book: &Book,
) -> Result<Book, AllocError>
    requires { Sound pool.old book.now }
    ensures { IfOk result (Sound pool.new) }
{
    let classes = merge(rt.alloc(), pool, book)?;
    let merged = since(rt, start);
    let _ = print!(rt; ", merged {merged:?}");
    let left = measure_prune(rt, start, pool, &classes.book);
    drop(classes);
    left
}

/// The parts of a round from pruning on.
fn measure_prune(
    rt: &HostRuntime,
    start: &Instant,
    pool: &mut Pool,
    book: &Book,
) -> Result<Book, AllocError>
    requires sound { Sound pool.old book.now }
    requires tidy { RowsTidy pool.old book.now.rows }
    ensures { IfOk result (Sound pool.new) }
{
    let pruned = prune(rt.alloc(), pool, book)?;
    let done = since(rt, start);
    let _ = print!(rt; ", pruned {done:?}");
    let left = measure_thin(rt, start, pool, &pruned.book);
    drop(pruned);
    left
}

/// The last part of a round, which removes the redundant conflicts.
fn measure_thin(
    rt: &HostRuntime,
    start: &Instant,
    pool: &mut Pool,
    book: &Book,
) -> Result<Book, AllocError>
    requires { Sound pool.old book.now }
    ensures { IfOk result (Sound pool.new) }
{
    let thinned = thin(rt.alloc(), pool, book)?;
    let done = since(rt, start);
    let _ = println!(rt; ", thinned {done:?}");
    Ok(thinned)
}

/// Prints the time of each part of each round, up to one that leaves as many classes, clauses and
/// conflicts. It fails as `measure_round` does.
fn measure_rounds(rt: &HostRuntime, start: &Instant, suite: &Suite) -> Result<(), AllocError> {
    let alloc = rt.alloc();
    let mut pool = Pool::new(alloc)?;
    let mut book = suite.book(alloc, &mut pool)?;
    let mut count = 0;
    for _ in 0..MOST_ROUNDS {
        let next = measure_round(rt, start, &mut pool, &book)?;
        book = next;
        let left = print_counts(rt, &pool, &book);
        if left == count {
            return Ok(());
        }
        count = left;
    }
    Ok(())
}

/// Statuses: 0 if it measured; 2 if the one word INDEX is missing. With 3 the index has a fault,
/// which is printed. With 5 it could not be read or is too long. With 7 memory or a clock was
/// missing.
fn main(rt: HostRuntime) -> ExitCode {
    let Ok(mut words) = env::args(&rt) else {
        return ExitCode::from(2)
    };
    let _ = words.next();
    let Some(path) = words.next() else {
        return ExitCode::from(2)
    };
    let Ok(start) = Instant::now(&rt) else {
        return ExitCode::from(7)
    };
    let mut shelf = FileShelf::new(&rt);
    let Ok(bytes) = read_file(rt.alloc(), &mut shelf, path.as_str(), MOST_BYTES) else {
        return ExitCode::from(5)
    };
    let read = since(&rt, &start);
    let _ = println!(rt; "read after {read:?}");
    match read_suite(rt.alloc(), &bytes) {
        Ok(suite) => match measure(&rt, &start, &suite) {
            Ok(()) => ExitCode::from(0),
            Err(_) => ExitCode::from(7),
        },
        Err(fault) => {
            let _ = println!(rt; "{fault}");
            ExitCode::from(3)
        }
    }
}
