//! Logs that are checked against the kernels of small indexes.
ghost use Rattle.std.specs.Prelude.{◌<◌, IfOk, OnOk};
ghost use Rattle.row_book.specs.{Book.{Sound}, Needs.{NeedsFit}};
ghost use Rattle.search_terms.specs.Closure.{InRange};

use crate::samples::book_of;
use clause_pool::Pool;
use kernel_rounds::extract;
use refutation_check::check;
use row_book::{Book, Needs};
use search_terms::{EntryList, Literal, LiteralList, Log};
use std::alloc::{AllocError, Global};
use std::process::Abort;
use std::test::Fail;

/// Three packages, each a class of its own; the last two conflict.
const THREE: &str = "Package: a\nVersion: 1\nDepends: b | c\n\n\
     Package: b\nVersion: 1\nConflicts: c\n\n\
     Package: c\nVersion: 1\n";

/// Package 0 wants one of each of three pairs, and no three of these go together; each is a class
/// of its own.
const TANGLE: &str = "Package: p\nVersion: 1\nDepends: x1 | x2, y1 | y2, z1 | z2\n\n\
     Package: x1\nVersion: 1\nConflicts: y1, z1\n\n\
     Package: x2\nVersion: 1\nConflicts: y2, z2\n\n\
     Package: y1\nVersion: 1\nConflicts: z1\n\n\
     Package: y2\nVersion: 1\nConflicts: z2\n\n\
     Package: z1\nVersion: 1\n\n\
     Package: z2\nVersion: 1\n";

/// That class 1 is left out, and that it is chosen.
const WITHOUT: Literal = Literal {
    class: 1,
    positive: false,
};

const WITH: Literal = Literal {
    class: 1,
    positive: true,
};

/// The classes that are wanted, and a log: an entry for each literal, followed by the empty entry
/// if it ends.
#[derive(Clone, Copy)]
struct Tried<'a> {
    goals: &'a [u32],
    literals: &'a [Literal],
    ends: bool,
}

/// One more goal of one package.
fn add_goal(goals: &mut Needs, size: u32, number: u32) -> Result<(), AllocError>
    requires fit { NeedsFit size goals.old }
    requires below { number < size }
    ensures { OnOk result (NeedsFit size goals.new) }
{
    goals.push(&[number])?;
    Ok(())
}

/// A goal for each package below the size.
fn single_goals(alloc: Global, size: u32, numbers: &[u32]) -> Result<Needs, AllocError>
    ensures { IfOk result (NeedsFit size) }
{
    let mut goals = Needs::new(alloc);
    for number in numbers {
        if *number < size {
            add_goal(&mut goals, size, *number)?;
        }
    }
    Ok(goals)
}

/// An entry for each literal below the size, and the empty entry at the end.
fn entries_of(
    alloc: Global,
    size: u32,
    literals: &[Literal],
    ends: bool,
) -> Result<EntryList, AllocError>
    ensures { IfOk result (InRange size) }
{
    let mut entries = EntryList::new(alloc);
    for literal in literals {
        if literal.class < size {
            let mut entry = LiteralList::new(alloc);
            entry.push(*literal)?;
            entries.push(entry)?;
        }
    }
    if ends {
        entries.push(LiteralList::new(alloc))?;
    }
    Ok(entries)
}

/// The kernel of a short index.
fn kernel_of(alloc: Global, pool: &mut Pool, index: &str) -> Result<Book, Fail>
    ensures { IfOk result (Sound pool.new) }
{
    let book = book_of(alloc, pool, index)?;
    let made = extract(alloc, pool, &book, 65_536, false)?;
    Ok(made.book)
}

/// Whether the log derives the empty entry over the kernel and the goals.
fn is_derived(
    alloc: Global,
    pool: &Pool,
    kernel: &Book,
    tried: Tried<'_>,
) -> Result<bool, AllocError>
    requires { Sound pool.now kernel.now }
{
    let goals = single_goals(alloc, kernel.size(), tried.goals)?;
    let entries = entries_of(alloc, kernel.size(), tried.literals, tried.ends)?;
    check(alloc, pool, kernel, &goals, &Log { entries })
}

/// Whether the log derives the empty entry over the kernel of an index and the goals.
fn is_derived_over(alloc: Global, index: &str, tried: Tried<'_>) -> Result<bool, Fail> {
    let mut pool = Pool::new(alloc)?;
    let kernel = kernel_of(alloc, &mut pool, index)?;
    Ok(is_derived(alloc, &pool, &kernel, tried)?)
}

fn check_log(
    rt: &(impl Abort + AllocGlobal),
    index: &str,
    goals: &[u32],
    literals: &[Literal],
    ends: bool,
    wanted: bool,
) -> Result<(), Fail> {
    let tried = Tried {
        goals,
        literals,
        ends,
    };
    let derived = is_derived_over(rt.alloc(), index, tried)?;
    assert!(rt; derived == wanted, "goals {goals:?}");
    Ok(())
}

#[test]
fn logs_are_checked(rt: HostRuntime) -> Result<(), Fail> {
    check_log(&rt, THREE, &[1, 2], &[], true, true)?;
    check_log(&rt, THREE, &[0], &[], true, false)?;
    check_log(&rt, THREE, &[1, 2], &[], false, false)?;
    check_log(&rt, TANGLE, &[0], &[WITHOUT, WITH], true, true)?;
    check_log(&rt, TANGLE, &[0], &[WITHOUT], true, true)?;
    check_log(&rt, TANGLE, &[0], &[], true, false)
}
