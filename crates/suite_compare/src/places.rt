//! Places under keys, ascending lists of them, and what is at a place.
ghost use Rattle.std.specs.Prelude.{◌≡◌, ◌<◌, ◌↔◌, [], ℕ, IfOk, OnOk, length, slice_index_or};
ghost use Rattle.std.specs.List.Sorted.{IsNonDecreasing};
ghost use Rattle.listed.specs.Lists.{In, has, Ascending};
ghost use Rattle.row_book.specs.Book.{listed_for};
ghost use Rattle.clause_solver.specs.declared.outcomes.Verdict.TheVariants.{Spent};
ghost use Rattle.suite_compare.specs.Groups.{ArePlaces, IsEntered};

use clause_pool::NumList;
use clause_solver::Verdict;
use listed::{Listed, empty_lists};
use repo_model::LentName;
use std::alloc::{AllocError, Global};

/// Places in a list.
pub(crate) type PlaceList = Listed<usize>;

/// Appends a place under a key.
pub(crate) fn enter(table: &mut [PlaceList], key: usize, place: usize) -> Result<(), AllocError>
    requires { key < length table.old }
    ensures { OnOk result (IsEntered table.old table.new key place) }
{
    table[key].push(place)?;
    Ok(())
}

/// Appends each place of the list under the key that is there.
fn enter_all(table: &mut [PlaceList], keys: &[usize]) -> Result<(), AllocError>
    requires within { (i : ℕ) → i < length keys.now →
        slice_index_or keys.now i 0 < length table.old }
    requires empty { (k : ℕ) → listed_for table.old k ≡ [] }
    ensures { OnOk result (ArePlaces keys.now table.new) }
{
    for (place, key) in keys.iter().enumerate() {
        enter(table, *key, place)?;
    }
    Ok(())
}

/// For each key below `count` the places of the list at which it is.
pub(crate) fn places_by(
    alloc: Global,
    count: usize,
    keys: &[usize],
) -> Result<Vec<PlaceList>, AllocError>
    requires { (i : ℕ) → i < length keys.now → slice_index_or keys.now i 0 < count }
    ensures size { IfOk result (λ table. length table.items ≡ count) }
    ensures places { IfOk result (λ table. ArePlaces keys.now table.items) }
{
    let mut table = empty_lists(alloc, count)?;
    enter_all(&mut table, keys)?;
    Ok(table)
}

/// Sorts the numbers, and keeps each once.
pub(crate) fn sort_once(numbers: &mut Vec<usize>)
    ensures ascending { Ascending numbers.new.items }
    ensures same { (n : ℕ) → In n numbers.new.items ↔ In n numbers.old.items }
{
    numbers.sort_unstable();
    numbers.dedup();
}

/// Whether the number is among those of an ascending list.
pub(crate) fn holds(ascending: &[usize], number: usize) -> bool
    requires { Ascending ascending.now }
    ensures { result ≡ has ascending.now number }
{
    ascending.binary_search(&number).is_ok()
}

/// The name at a place of a list.
pub(crate) fn name_at<'a>(names: &[LentName<'a>], place: usize) -> &'a [u8]
    requires { place < length names.now }
    ensures { result.now ≡ listed_for names.now place }
{
    names[place].as_slice()
}

/// The number at a place of a list.
pub(crate) fn place_at(list: &[usize], place: usize) -> usize
    requires { place < length list.now }
    ensures { result ≡ slice_index_or list.now place 0 }
{
    list[place]
}

/// The list at a place of a table.
pub(crate) fn places_at(table: &[PlaceList], place: usize) -> &[usize]
    requires { place < length table.now }
    ensures { result.now ≡ listed_for table.now place }
{
    table[place].as_slice()
}

/// The classes at a place of a table.
pub(crate) fn classes_at(table: &[NumList], place: usize) -> &[u32]
    requires { place < length table.now }
    ensures { result.now ≡ listed_for table.now place }
{
    table[place].as_slice()
}

/// The verdict at a place of a list.
pub(crate) fn verdict_at(verdicts: &[Verdict], place: usize) -> Verdict
    requires { place < length verdicts.now }
    ensures { result ≡ slice_index_or verdicts.now place Spent }
{
    verdicts[place]
}
