//! The packages that bear the names of an old side, and their classes.
ghost use Rattle.std.specs.Prelude.{◌≡◌, ◌<◌, ℕ, List, [], IfOk, OnOk, filter, length, map};
ghost use Rattle.std.specs.Prelude.{slice_index_or};
ghost use Rattle.listed.specs.Lists.{In};
ghost use Rattle.row_book.specs.{Book.{listed_for}, Flags.{flag}};
ghost use Rattle.suite_compare.specs.Bearers.{bearers_of, filled_places, AreClasses};
ghost use Rattle.suite_compare.specs.Groups.{AreEach};

use crate::ask::classes_by;
use crate::few::{FewNumbers, few_at};
use crate::places::name_at;
use repo_model::{LentName, Suite};
use std::alloc::{AllocError, Global};

/// For each name the packages that bear it, of any version, ascending. The list is empty if there
/// is none.
pub fn bearers_of(
    alloc: Global,
    suite: &Suite,
    names: &[LentName],
) -> Result<Vec<FewNumbers>, AllocError>
    ensures { IfOk result (λ lists. lists.items ≡ bearers_of suite.now.packages names.now) }
{
    let mut lists = Vec::new(alloc);
    for name in names {
        let numbers = suite.named(alloc, name.as_slice())?;
        let few = FewNumbers::copy(alloc, &numbers)?;
        lists.push(few)?;
    }
    Ok(lists)
}

/// The places at which a list has an item.
pub(crate) fn filled_places(alloc: Global, lists: &[FewNumbers]) -> Result<Vec<usize>, AllocError>
    ensures { IfOk result (λ places. places.items ≡ filled_places lists.now) }
{
    let mut places = Vec::new(alloc);
    for place in 0..lists.len() {
        if few_at(lists, place).is_empty() {
            continue;
        }
        places.push(place)?;
    }
    Ok(places)
}

/// The names at these places.
pub(crate) fn names_at<'a>(
    alloc: Global,
    names: &[LentName<'a>],
    places: &[usize],
) -> Result<Vec<LentName<'a>>, AllocError>
    requires { (i : ℕ) → i < length places.now → slice_index_or places.now i 0 < length names.now }
    ensures { IfOk result (λ made. made.items ≡ map (listed_for names.now) places.now) }
{
    let mut made = Vec::new(alloc);
    for place in places {
        made.push(LentName::of(name_at(names, *place)))?;
    }
    Ok(made)
}

/// The lists at these places.
pub(crate) fn lists_at(
    alloc: Global,
    lists: &[FewNumbers],
    places: &[usize],
) -> Result<Vec<FewNumbers>, AllocError>
    requires { (i : ℕ) → i < length places.now → slice_index_or places.now i 0 < length lists.now }
    ensures { IfOk result (λ made. made.items ≡ map (listed_for lists.now) places.now) }
{
    let mut made = Vec::new(alloc);
    for place in places {
        let list = FewNumbers::copy(alloc, few_at(lists, *place))?;
        made.push(list)?;
    }
    Ok(made)
}

/// The classes of each list of packages, by the class of each package.
pub(crate) fn classes_of_each(
    alloc: Global,
    class_of: &[u32],
    lists: &[FewNumbers],
) -> Result<Vec<FewNumbers>, AllocError>
    requires { (chosen : List ℕ) → In chosen lists.now → (n : ℕ) → In n chosen →
        n < length class_of.now }
    ensures { IfOk result (λ made. AreEach (λ i image.
        AreClasses class_of.now (listed_for lists.now i) image) [] (length lists.now) made.items) }
{
    let mut made = Vec::new(alloc);
    for place in 0..lists.len() {
        let image = classes_of_few(alloc, class_of, few_at(lists, place))?;
        made.push(image)?;
    }
    Ok(made)
}

/// The classes of those packages of each list that are in a mask, by the class of each package.
pub fn classes_of_chosen(
    alloc: Global,
    class_of: &[u32],
    lists: &[FewNumbers],
    flags: &[bool],
) -> Result<Vec<FewNumbers>, AllocError>
    requires flags { (chosen : List ℕ) → In chosen lists.now → (n : ℕ) → In n chosen →
        n < length flags.now }
    requires classes { length class_of.now ≡ length flags.now }
    ensures { IfOk result (λ made. AreEach (λ i image. AreClasses class_of.now (filter
        (flag flags.now) (listed_for lists.now i)) image) [] (length lists.now) made.items) }
{
    let mut made = Vec::new(alloc);
    let mut chosen = Vec::new(alloc);
    for place in 0..lists.len() {
        put_chosen(&mut chosen, few_at(lists, place), flags)?;
        let image = classes_of_few(alloc, class_of, chosen.as_slice())?;
        made.push(image)?;
    }
    Ok(made)
}

// Makes the list that of the numbers whose flags are up.
fn put_chosen(chosen: &mut Vec<u32>, numbers: &[u32], flags: &[bool]) -> Result<(), AllocError>
    requires { (n : ℕ) → In n numbers.now → n < length flags.now }
    ensures { OnOk result (chosen.new.items ≡ filter (flag flags.now) numbers.now) }
{
    chosen.clear();
    for number in numbers {
        if flags[*number as usize] {
            chosen.push(*number)?;
        }
    }
    Ok(())
}

// The classes of a few packages, ascending, by the class of each package. That of a single one is
// not sorted.
fn classes_of_few(alloc: Global, class_of: &[u32], chosen: &[u32]) -> Result<FewNumbers, AllocError>
    requires { (n : ℕ) → In n chosen.now → n < length class_of.now }
    ensures { IfOk result (AreClasses class_of.now chosen.now) }
{
    if chosen.len() == 1 {
        let class = class_of[chosen[0] as usize];
        return Ok(FewNumbers::one(alloc, class));
    }
    let image = classes_by(alloc, class_of, chosen)?;
    Ok(FewNumbers::of(image))
}
