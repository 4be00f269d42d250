//! What rounds leave in a pool, over the book of a small index.
ghost use Rattle.std.specs.Prelude.{IfOk};
ghost use Rattle.clause_pool.specs.Interned.{Interned};
ghost use Rattle.row_book.specs.{Book.{Sound}, Trail.{SoundSteps}};

use crate::samples::book_of;
use clause_flatten::FlatError;
use clause_pool::Pool;
use kernel_rounds::{Rounded, one_round};
use row_book::{Book, StepList, Trail};
use std::alloc::Global;
use std::process::Abort;
use std::test::Fail;

/// Package 0 depends on 1 or 2, and 1 on 3 or 4; 2, 3 and 4 conflict with 5.
const DETOUR: &str = "Package: a\nVersion: 1\nDepends: b | c\n\n\
     Package: b\nVersion: 1\nDepends: d | e\n\n\
     Package: c\nVersion: 1\nConflicts: f\n\n\
     Package: d\nVersion: 1\nConflicts: f\n\n\
     Package: e\nVersion: 1\nConflicts: f\n\n\
     Package: f\nVersion: 1\n";

/// Whether a round changes something, its classes, and how many clauses the pool then has.
#[derive(Clone, Copy)]
struct Wanted<'a> {
    changed: bool,
    class_of: &'a [u32],
    clauses: u64,
}

/// No steps.
fn no_steps(alloc: Global) -> Trail
    ensures { (pool : Interned) → SoundSteps pool result.steps }
{
    Trail {
        steps: StepList::new(alloc),
    }
}

fn check_made(rt: &impl Abort, made: &Rounded, clauses: u64, wanted: Wanted<'_>) {
    assert!(rt; made.changed == wanted.changed);
    assert!(rt; made.class_of.as_slice() == wanted.class_of);
    assert!(rt; clauses == wanted.clauses);
}

/// Asserts what one more round gives.
fn check_round(
    rt: &(impl Abort + AllocGlobal),
    pool: &mut Pool,
    book: Book,
    past: Trail,
    wanted: Wanted<'_>,
) -> Result<Rounded, FlatError>
    requires sound { Sound pool.old book }
    requires books { SoundSteps pool.old past.steps }
    ensures sound { IfOk result (λ made. Sound pool.new made.book) }
    ensures books { IfOk result (λ made. SoundSteps pool.new made.trail.steps) }
{
    let made = one_round(rt.alloc(), pool, book, past, 65_536, false)?;
    check_made(rt, &made, pool.clause_count(), wanted);
    Ok(made)
}

/// Flattening gives 0 the clause of 2, 3 and 4, which merging makes the clause of their class. The
/// longer one is gone after the round, and those of the books before stay.
fn check_first(
    rt: &(impl Abort + AllocGlobal),
    pool: &mut Pool,
    book: Book,
) -> Result<Rounded, FlatError>
    requires { Sound pool.old book }
    ensures sound { IfOk result (λ made. Sound pool.new made.book) }
    ensures books { IfOk result (λ made. SoundSteps pool.new made.trail.steps) }
{
    let wanted = Wanted {
        changed: true,
        class_of: &[0, 1, 2, 2, 2, 3],
        clauses: 3,
    };
    let made = check_round(rt, pool, book, no_steps(rt.alloc()), wanted)?;
    assert!(rt; pool.find(&[2, 3, 4]).is_none());
    Ok(made)
}

fn check_second(
    rt: &(impl Abort + AllocGlobal),
    pool: &mut Pool,
    made: Rounded,
) -> Result<Rounded, FlatError>
    requires sound { Sound pool.old made.book }
    requires books { SoundSteps pool.old made.trail.steps }
    ensures sound { IfOk result (λ made. Sound pool.new made.book) }
    ensures books { IfOk result (λ made. SoundSteps pool.new made.trail.steps) }
{
    let wanted = Wanted {
        changed: true,
        class_of: &[0, 0, 1, 2],
        clauses: 4,
    };
    check_round(rt, pool, made.book, made.trail, wanted)
}

/// Nothing is left to change.
fn check_third(
    rt: &(impl Abort + AllocGlobal),
    pool: &mut Pool,
    made: Rounded,
) -> Result<(), FlatError>
    requires sound { Sound pool.old made.book }
    requires books { SoundSteps pool.old made.trail.steps }
{
    let wanted = Wanted {
        changed: false,
        class_of: &[0, 1, 2],
        clauses: 4,
    };
    check_round(rt, pool, made.book, made.trail, wanted)?;
    Ok(())
}

fn check_later(
    rt: &(impl Abort + AllocGlobal),
    pool: &mut Pool,
    first: Rounded,
) -> Result<(), FlatError>
    requires sound { Sound pool.old first.book }
    requires books { SoundSteps pool.old first.trail.steps }
{
    let second = check_second(rt, pool, first)?;
    check_third(rt, pool, second)
}

fn check_rounds(
    rt: &(impl Abort + AllocGlobal),
    pool: &mut Pool,
    book: Book,
) -> Result<(), FlatError>
    requires { Sound pool.old book }
{
    let first = check_first(rt, pool, book)?;
    check_later(rt, pool, first)
}

fn check_detour(rt: &(impl Abort + AllocGlobal), pool: &mut Pool) -> Result<(), Fail> {
    let book = book_of(rt.alloc(), pool, DETOUR)?;
    Ok(check_rounds(rt, pool, book)?)
}

#[test]
fn rounds_leave_the_clauses_of_their_books(rt: HostRuntime) -> Result<(), Fail> {
    let mut pool = Pool::new(rt.alloc())?;
    check_detour(&rt, &mut pool)
}
