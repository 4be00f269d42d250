//! From one round to the next.
ghost use Rattle.std.specs.Prelude.{Bool, ◌≡◌, ◌<◌, IfOk, eqb, length, map, ℕ};
ghost use Rattle.clause_pool.specs.Interned.{Interned, IsPool, Kept};
ghost use Rattle.row_book.specs.Book.{repository_of, AddsOnly, IsSameBook, Sound};
ghost use Rattle.row_book.specs.{Merging.{place_of}, Numbers.{numbers}, Repository.{Repository}};
ghost use Rattle.row_book.specs.{Rounds.{round}, Sound.{SoundRepository}};
ghost use Rattle.class_merge.specs.Classes.{class_in};
ghost use Rattle.kernel_rounds.specs.Extracting.{refusal, IsMidway, IsReduced};

use crate::error::RoundError;
use crate::moving::keep_live;
use crate::rounding::{Reduced, add_round};
use clause_flatten::FlatError;
use clause_pool::Pool;
use row_book::{Book, StepList};
use std::alloc::{AllocError, Global};

/// A kernel on its way. It has the book after some rounds, in the pool that the rounds work in, and
/// the class of each package in it. It has the steps so far, in the pool that the kernel is for,
/// and the number of the next round.
#[derive(Drop)]
pub(crate) struct Progress {
    pub(crate) book: Book,
    pub(crate) class_of: Vec<u32>,
    pub(crate) steps: StepList,
    pub(crate) number: u32,
}

/// The class of a package in a list.
fn class_in(class_of: &[u32], number: u32) -> u32
    ensures { result ≡ class_in class_of.now number }
{
    match class_of.get(number as usize) {
        Some(class) => *class,
        None => 0,
    }
}

/// The classes of classes.
pub(crate) fn compose(alloc: Global, class_of: &[u32], next: &[u32]) -> Result<Vec<u32>, AllocError>
    ensures { IfOk result (λ made. made.items ≡ map (class_in next.now) class_of.now) }
{
    let mut made = Vec::new(alloc);
    for class in class_of {
        made.push(class_in(next, *class))?;
    }
    Ok(made)
}

/// The least package of the class, or the number of all packages if there is none.
fn least_member(class_of: &[u32], class: u32) -> u32
    requires { length class_of.now < 4294967296 }
    ensures { result ≡ place_of (λ k. eqb k class) class_of.now }
{
    for (number, own) in class_of.iter().enumerate() {
        if *own == class {
            return number as u32;
        }
    }
    class_of.len() as u32
}

/// Why no kernel is extracted if the flattening of a round is refused.
pub(crate) fn round_error(fault: FlatError, number: u32, class_of: &[u32]) -> RoundError
    requires { length class_of.now < 4294967296 }
    ensures { result ≡ refusal number class_of.now fault }
{
    match fault {
        FlatError::Limit {
            gone,
            package,
            count,
        } => RoundError::Limit {
            round: number,
            gone,
            package: least_member(class_of, package),
            count,
        },
        FlatError::Memory => RoundError::Memory,
    }
}

/// The numbers from 0 on: each package is its own class.
fn own_classes(alloc: Global, size: u32) -> Result<Vec<u32>, AllocError>
    ensures { IfOk result (λ made. made.items ≡ numbers size 0) }
{
    let mut made = Vec::new(alloc);
    for number in 0..size {
        made.push(number)?;
    }
    Ok(made)
}

/// Before the first round: the book as it is, each package as a class of its own, and no steps.
pub(crate) fn begin(alloc: Global, book: &Book) -> Result<Progress, AllocError>
    ensures { (pool : Interned) (limit : ℕ) (hold : Bool) → Sound pool book.now →
        IfOk result (IsMidway (repository_of pool book.now) limit hold pool pool pool) }
{
    let own = book.copy(alloc)?;
    let class_of = own_classes(alloc, book.size())?;
    Ok(Progress {
        book: own,
        class_of,
        steps: StepList::new(alloc),
        number: 1,
    })
}

/// The book before the round of the number, in the other pool. The first one has the same ids
/// there, and needs no look for each row; any other comes into that pool.
fn book_in(
    alloc: Global,
    book: &Book,
    number: u32,
    from: &Pool,
    into: &mut Pool,
) -> Result<Book, AllocError>
    requires { Sound from.now book.now }
    ensures same { (number ≡ 1 → IsSameBook from.now book.now into.old book.now) →
        IfOk result (IsSameBook from.now book.now into.new) }
    ensures only { IfOk result (λ made. AddsOnly into.old into.new made.rows) }
    ensures kept { Kept into.old into.new }
{
    if number == 1 {
        let made = book.copy(alloc)?;
        return Ok(made);
    }
    let made = book.carry(alloc, from, into)?;
    Ok(made)
}

/// After a round that changed something its steps come into the other pool. Then the pool that it
/// worked in only keeps the rows of its book, so that no later round carries the first repository
/// on.
pub(crate) fn go_on(
    alloc: Global,
    now: Progress,
    made: Reduced,
    work: &mut Pool,
    into: &mut Pool,
) -> Result<Progress, AllocError>
    requires before { Sound work.old now.book }
    requires after { Sound work.old made.book }
    requires into { IsPool into.old }
    ensures next { (R : Repository) (limit : ℕ) (hold : Bool) (start old : Interned) →
        SoundRepository R → IsMidway R limit hold start into.old old now →
        repository_of work.old now.book ≡ repository_of old now.book →
        IsReduced limit hold (repository_of old now.book) work.old made →
        (round limit hold (repository_of old now.book) ≡ repository_of old now.book → ⊥) →
        IfOk result (IsMidway R limit hold start into.new work.new) }
    ensures book { IfOk result (λ next. repository_of work.new next.book
        ≡ repository_of work.old made.book) }
    ensures kept { Kept into.old into.new }
{
    let Reduced {
        book,
        class_of,
        idle,
        ..
    } = made;
    let classes = compose(alloc, now.class_of.as_slice(), class_of.as_slice())?;
    let before = book_in(alloc, &now.book, now.number, work, into)?;
    let steps = add_round(now.steps, before, class_of, idle)?;
    let (after, _) = keep_live(alloc, work, &book, &[])?;
    Ok(Progress {
        book: after,
        class_of: classes,
        steps,
        number: now.number.saturating_add(1),
    })
}
