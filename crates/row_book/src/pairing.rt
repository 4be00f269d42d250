//! The conflicts of each package, from the pairs of packages that conflict.
ghost use Rattle.std.specs.Prelude.{◌≡◌, ◌<◌, IfOk, OnOk, length, slice_set};
ghost use Rattle.std.specs.List.Sorted.{IsPermutation};
ghost use Rattle.row_book.specs.Book.{listed_for, lists_of_pairs, PairsFit};
ghost use Rattle.row_book.specs.Pairs.{is_last, with_last, AllEmpty, Entered, ListsPairs, Rising};

use crate::{NumList, Pair};
use listed::empty_lists;
use std::alloc::{AllocError, Global};

/// For each of `size` packages, ascending, those that it is paired with.
pub(crate) fn conflict_lists(
    alloc: Global,
    pairs: &[Pair],
    size: usize,
) -> Result<Vec<NumList>, AllocError>
    requires { PairsFit pairs.now size }
    ensures { IfOk result (λ table. table.items ≡ lists_of_pairs pairs.now size) }
{
    let ordered = in_order(alloc, pairs)?;
    let mut table = empty_lists(alloc, size)?;
    enter_pairs(&mut table, ordered.as_slice())?;
    Ok(table)
}

/// The pairs by their lesser and then by their greater numbers.
fn in_order(alloc: Global, pairs: &[Pair]) -> Result<Vec<Pair>, AllocError>
    ensures same { IfOk result (λ ordered. IsPermutation pairs.now ordered.items) }
    ensures rising { IfOk result (λ ordered. Rising ordered.items) }
{
    let mut ordered = Vec::from_slice(alloc, pairs)?;
    ordered.sort_unstable();
    Ok(ordered)
}

/// Appends, in order, to empty lists the numbers of the pairs, each to the list of the other.
fn enter_pairs(table: &mut Vec<NumList>, pairs: &[Pair]) -> Result<(), AllocError>
    requires rising { Rising pairs.now }
    requires fit { PairsFit pairs.now (length table.old.items) }
    requires empty { AllEmpty table.old.items }
    ensures { OnOk result (ListsPairs table.new.items (length table.old.items) pairs.now) }
{
    for pair in pairs {
        enter_pair(table, *pair)?;
    }
    Ok(())
}

/// Appends each number of a pair to the list of the other, unless it is the last there.
fn enter_pair(table: &mut Vec<NumList>, pair: Pair) -> Result<(), AllocError>
    requires ordered { pair.low < pair.high }
    requires below { pair.high < length table.old.items }
    ensures { OnOk result (Entered table.old.items table.new.items pair.low pair.high) }
{
    enter(table, pair.high, pair.low)?;
    enter(table, pair.low, pair.high)
}

/// Appends a number to the list of a package, unless it is the last there.
fn enter(table: &mut Vec<NumList>, holder: u32, number: u32) -> Result<(), AllocError>
    requires { holder < length table.old.items }
    ensures { OnOk result (table.new.items ≡ slice_set table.old.items holder
        (with_last (listed_for table.old.items holder) number)) }
{
    let list = &mut table[holder as usize];
    if !is_last(list.as_slice(), number) {
        list.push(number)?;
    }
    Ok(())
}

/// Whether the list ends in the number.
fn is_last(list: &[u32], number: u32) -> bool
    ensures { result ≡ is_last list.now number }
{
    match list.last() {
        Some(last) => *last == number,
        None => false,
    }
}
