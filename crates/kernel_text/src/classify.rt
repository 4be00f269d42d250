//! The packages of each class.
ghost use Rattle.std.specs.Prelude.{◌≡◌, ◌∷◌, ◌++◌, [], ◌≤◌, ◌<◌, ℕ, IfOk, OnOk, length, slice_set};
ghost use Rattle.row_book.specs.Book.{listed_for};
ghost use Rattle.listed.specs.Lists.{In};
ghost use Rattle.kernel_text.specs.Writing.{IsByClass};
ghost use Rattle.repo_model.specs.Limits.{most_packages};

use clause_pool::NumList;
use listed::empty_lists;
use std::alloc::{AllocError, Global};

/// For each class the numbers of its packages, ascending. Each package is looked at once.
pub(crate) fn packages_by_class(
    alloc: Global,
    class_of: &[u32],
    size: u32,
) -> Result<Vec<NumList>, AllocError>
    requires few { length class_of.now ≤ most_packages }
    requires inside { (class : ℕ) → In class class_of.now → class < size }
    ensures { IfOk result (λ table. IsByClass class_of.now (length class_of.now) size table.items) }
{
    let mut table = empty_lists(alloc, size as usize)?;
    for number in 0..class_of.len() as u32 {
        enter(&mut table, class_of[number as usize], number)?;
    }
    Ok(table)
}

/// Appends a number to the list of a class.
fn enter(table: &mut Vec<NumList>, class: u32, number: u32) -> Result<(), AllocError>
    requires { class < length table.old.items }
    ensures { OnOk result (table.new.items
        ≡ slice_set table.old.items class (listed_for table.old.items class ++ number ∷ [])) }
{
    let list = &mut table[class as usize];
    list.push(number)
}
