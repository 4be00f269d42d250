//! First choices: sets of classes that show, without a search, that goals can be met.
//!
//! A set is made first and then tested, so that no proof needs to know how it was made.
ghost use Rattle.std.specs.Prelude.{◌≡◌, ◌<◌, ◌∷◌, [], ℕ, List, true, IfOk, OnOk, length};
ghost use Rattle.std.specs.List.{list_any};
ghost use Rattle.clause_pool.specs.Interned.{clauses_at, OfPool};
ghost use Rattle.listed.specs.Lists.{In, has};
ghost use Rattle.row_book.specs.{Book.{listed_for}, Lent.{repository_in}, Repository.{clauses_of}};
ghost use Rattle.suite_compare.specs.FirstChoices.{IsFirstChoice};
ghost use Rattle.suite_compare.specs.Choices.{has_first_member, AreBelow, HaveFirsts, IsChosen};
ghost use Rattle.suite_compare.specs.Choices.{IsServed};

use crate::class_set::ClassSet;
use clause_pool::{ClauseId, NumList, Pool};
use listed::Listed;
use row_book::{Book, LentBook};
use std::alloc::{AllocError, Global};

/// The clauses of a class.
fn row_of<'a>(kernel: &LentBook<'a>, class: u32) -> &'a [ClauseId]
    requires { class < length kernel.now.book.now.rows }
    ensures of_pool { OfPool kernel.now.pool.now result.now }
    ensures clauses { clauses_at kernel.now.pool.now result.now
        ≡ clauses_of (repository_in kernel.now) class }
    ensures numbers { (c : List ℕ) → In c (clauses_at kernel.now.pool.now result.now) →
        AreBelow (length kernel.now.book.now.rows) c }
{
    let id = kernel.book.row(class);
    kernel.pool.row(id)
}

/// Adds the first member of a clause, if it has one.
fn put_first(clause: &[u32], chosen: &mut ClassSet) -> Result<(), AllocError>
    requires { AreBelow chosen.old.0 clause.now }
    ensures { OnOk result (chosen.new.0 ≡ chosen.old.0) }
{
    if clause.is_empty() {
        return Ok(());
    }
    chosen.put(clause[0])
}

/// Adds the first member of each clause of a row, until there are too many: a hostile index may
/// give a class thousands of clauses.
fn put_firsts(
    pool: &Pool,
    row: &[ClauseId],
    most: usize,
    chosen: &mut ClassSet,
) -> Result<(), AllocError>
    requires row { OfPool pool.now row.now }
    requires numbers { (c : List ℕ) → In c (clauses_at pool.now row.now) → AreBelow chosen.old.0 c }
    ensures { OnOk result (chosen.new.0 ≡ chosen.old.0) }
{
    for id in row {
        if most < chosen.as_slice().len() {
            return Ok(());
        }
        put_first(pool.slice(*id), chosen)?;
    }
    Ok(())
}

/// Adds the first member of each clause of what is chosen, until none is missing, or there are too
/// many.
fn follow(kernel: &LentBook, most: usize, chosen: &mut ClassSet) -> Result<(), AllocError>
    requires { chosen.old.0 ≡ length kernel.now.book.now.rows }
    ensures { OnOk result (chosen.new.0 ≡ length kernel.now.book.now.rows) }
{
    for place in 0..most {
        let members = chosen.as_slice();
        if place >= members.len() {
            return Ok(());
        }
        let row = row_of(kernel, members[place]);
        put_firsts(kernel.pool, row, most, chosen)?;
    }
    Ok(())
}

/// Whether the first member of a clause is in the set.
fn has_first(clause: &[u32], chosen: &ClassSet) -> bool
    ensures { result ≡ has_first_member chosen.now.1 clause.now }
{
    match clause.first() {
        None => false,
        Some(number) => chosen.has(*number),
    }
}

/// Whether the first member of each clause of a row is in the set.
fn has_firsts(pool: &Pool, row: &[ClauseId], chosen: &ClassSet) -> bool
    requires { OfPool pool.now row.now }
    ensures { result ≡ true → HaveFirsts (clauses_at pool.now row.now) chosen.now.1 }
{
    for clause in row {
        if !has_first(pool.slice(*clause), chosen) {
            return false;
        }
    }
    true
}

/// Whether the class conflicts with a member of the set.
fn conflicts_with_one(book: &Book, class: u32, chosen: &ClassSet) -> bool
    requires { class < length book.now.rows }
    ensures { result ≡ list_any (has chosen.now.1) (listed_for book.now.conflicts class) }
{
    book.against(class).iter().any(|other| chosen.has(*other))
}

/// Whether the set has the first member of each clause of a class, and no class that it conflicts
/// with.
fn is_served(kernel: &LentBook, class: u32, chosen: &ClassSet) -> bool
    requires { class < length kernel.now.book.now.rows }
    ensures { result ≡ true → IsServed (repository_in kernel.now) chosen.now.1 class }
{
    if conflicts_with_one(kernel.book, class, chosen) {
        return false;
    }
    has_firsts(kernel.pool, row_of(kernel, class), chosen)
}

/// Whether the set is a first choice of a goal.
fn is_first_choice(kernel: &LentBook, goal: &[u32], chosen: &ClassSet) -> bool
    requires { chosen.now.0 ≡ length kernel.now.book.now.rows }
    ensures { result ≡ true →
        IsFirstChoice (repository_in kernel.now) (goal.now ∷ []) (has chosen.now.1) }
{
    for class in chosen.as_slice() {
        if !is_served(kernel, *class, chosen) {
            return false;
        }
    }
    has_first(goal, chosen)
}

/// The first choice of a goal: its first member, and the first member of each clause of what is
/// chosen, if no two of these conflict. The list is empty if there is no such set, or none this
/// short. It is made in a set that is emptied first.
pub(crate) fn first_choice(
    alloc: Global,
    kernel: &LentBook,
    goal: &[u32],
    most: usize,
    chosen: &mut ClassSet,
) -> Result<NumList, AllocError>
    requires goal { AreBelow (length kernel.now.book.now.rows) goal.now }
    requires size { chosen.old.0 ≡ length kernel.now.book.now.rows }
    ensures size { OnOk result (chosen.new.0 ≡ length kernel.now.book.now.rows) }
    ensures chosen { IfOk result (IsChosen (repository_in kernel.now) goal.now) }
{
    chosen.clear();
    put_first(goal, chosen)?;
    follow(kernel, most, chosen)?;
    if !is_first_choice(kernel, goal, chosen) {
        return Ok(Listed::new(alloc));
    }
    let made = Vec::from_slice(alloc, chosen.as_slice())?;
    Ok(Listed::of(made))
}
