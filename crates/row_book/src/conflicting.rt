//! Which packages conflict, by a table of their conflicts.
ghost use Rattle.std.specs.{Prelude.{◌≡◌, ℕ, IfOk}, List.{list_all}};
ghost use Rattle.listed.specs.Lists.{has, is_inside, Ascending};
ghost use Rattle.row_book.specs.{Book.{listed_for}, Facing.{against_in, all_against, common_to}};

use crate::{Book, NumList};
use listed::{holds_ascending, is_inside};
use std::alloc::{AllocError, Global};

/// The packages that the table has for a package.
pub fn conflicts_of(table: &[NumList], number: u32) -> &[u32]
    ensures { result.now ≡ listed_for table.now number }
{
    match table.get(number as usize) {
        Some(list) => list.as_slice(),
        None => &[],
    }
}

/// Whether the table, whose lists ascend, has the second package among the conflicts of the first.
pub fn are_against(table: &[NumList], first: u32, second: u32) -> bool
    requires { Ascending (listed_for table.now first) }
    ensures { result ≡ against_in table.now first second }
{
    holds_ascending(conflicts_of(table, first), second)
}

/// Whether the table, whose lists ascend, has the package among the conflicts of each of the
/// others.
fn is_against_each(table: &[NumList], others: &[u32], number: u32) -> bool
    requires { (p : ℕ) → Ascending (listed_for table.now p) }
    ensures { result ≡ list_all (λ other. against_in table.now other number) others.now }
{
    for other in others {
        if !are_against(table, *other, number) {
            return false;
        }
    }
    true
}

/// The packages that conflict with the first and with each of the others, by the table, whose lists
/// ascend.
pub fn common_conflicts(
    alloc: Global,
    table: &[NumList],
    first: u32,
    others: &[u32],
) -> Result<Vec<u32>, AllocError>
    requires { (p : ℕ) → Ascending (listed_for table.now p) }
    ensures { IfOk result (λ common. common.items ≡ common_to table.now first others.now) }
{
    let mut common = Vec::new(alloc);
    for number in conflicts_of(table, first) {
        if is_against_each(table, others, *number) {
            common.push(*number)?;
        }
    }
    Ok(common)
}

/// Whether each package of the first list conflicts with each of the second, by the table.
fn all_conflict(table: &[NumList], first: &[u32], second: &[u32]) -> bool
    ensures { result ≡ all_against (against_in table.now) first.now second.now }
{
    first
        .iter()
        .all(|number| is_inside(second, conflicts_of(table, *number)))
}

impl Book {
    ghost use Rattle.std.specs.Prelude.{◌≡◌, ◌<◌, ◌↔◌, ℕ, IsTrue, length, true};
    ghost use Rattle.listed.specs.Lists.{has, In};
    ghost use Rattle.row_book.specs.Book.{listed_for};

    /// Whether each package of the first list conflicts with each of the second, all of them below
    /// the size.
    pub fn all_conflict(&self, first: &[u32], second: &[u32]) -> bool
        requires first { (m : ℕ) → In m first.now → m < length self.now.rows }
        requires second { (n : ℕ) → In n second.now → n < length self.now.rows }
        ensures { IsTrue result ↔ ((m n : ℕ) → In m first.now → In n second.now →
            has (listed_for self.now.conflicts m) n ≡ true) }
    {
        all_conflict(self.conflicts.as_slice(), first, second)
    }
}
