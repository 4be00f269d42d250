//! Kinds: lists of classes, each once, numbered as they came, and pairs of kinds likewise.
ghost use Rattle.std.specs.Prelude.{◌≡◌, ◌<◌, ◌+◌, ℕ, List, IfOk, OnOk, length, map};
ghost use Rattle.std.specs.Prelude.{slice_index_or};
ghost use Rattle.row_book.specs.Book.{listed_for};
ghost use Rattle.suite_compare.specs.Kinds.{ArePaired, AreKinds, AreNumbered};

use crate::few::{FewNumbers, few_at};
use crate::places::place_at;
use class_merge::KeyTable;
use clause_pool::NumList;
use listed::Listed;
use std::alloc::{AllocError, Global};

/// Lists of classes, each once, and for each name the number of its own.
#[derive(Drop)]
pub(crate) struct Kinds {
    /// The lists by their numbers.
    pub(crate) lists: Vec<NumList>,
    /// The kind of each name.
    pub(crate) kind_of: Vec<usize>,
}

/// Pairs of kinds in the old and in the new suite, each once, and for each name the number of its
/// own.
#[derive(Drop)]
pub(crate) struct KindPairs {
    /// The kind of each pair in the old suite.
    pub(crate) old: Vec<usize>,
    /// The kind of each pair in the new suite.
    pub(crate) new: Vec<usize>,
    /// The pair of each name.
    pub(crate) pair_of: Vec<usize>,
}

/// The keys of items, each numbered once as it came.
#[derive(Drop)]
pub(crate) struct Numbering {
    /// The keys.
    seen: KeyTable,
    /// For each key the first item that has it.
    firsts: Vec<usize>,
    /// For each item the number of its key.
    number_of: Vec<usize>,
}

impl Numbering {
    /// No items yet.
    #[tactic(auto, using(crate::proofs::Numbered::numbered_none))]
    fn new(alloc: Global) -> Numbering
        ensures { (keys : ℕ → List ℕ) →
            AreNumbered keys 0 result.seen result.firsts.items result.number_of.items }
    {
        Numbering {
            seen: KeyTable::new(alloc),
            firsts: Vec::new(alloc),
            number_of: Vec::new(alloc),
        }
    }

    /// One more item with its key.
    fn put(&mut self, key: &[u64]) -> Result<(), AllocError>
        ensures { (keys : ℕ → List ℕ) (n : ℕ) → keys n ≡ key.now →
            AreNumbered keys n self.old.seen self.old.firsts.items self.old.number_of.items →
            OnOk result (AreNumbered keys (n + 1)
            self.new.seen self.new.firsts.items self.new.number_of.items) }
    {
        if let Some(number) = self.seen.find(key) {
            self.number_of.push(number)?;
            return Ok(());
        }
        self.firsts.push(self.number_of.len())?;
        let number = self.seen.push(key)?;
        self.number_of.push(number)?;
        Ok(())
    }
}

/// Replaces the key by the numbers of a list.
fn put_key(key: &mut Vec<u64>, list: &[u32]) -> Result<(), AllocError>
    ensures { OnOk result (key.new.items ≡ list.now) }
{
    key.clear();
    for class in list {
        key.push(u64::from(*class))?;
    }
    Ok(())
}

/// Copies of the lists at these places.
fn lists_at(
    alloc: Global,
    lists: &[FewNumbers],
    places: &[usize],
) -> Result<Vec<NumList>, AllocError>
    requires { (i : ℕ) → i < length places.now → slice_index_or places.now i 0 < length lists.now }
    ensures { IfOk result (λ made. made.items ≡ map (listed_for lists.now) places.now) }
{
    let mut made = Vec::new(alloc);
    for place in places {
        let list = Vec::from_slice(alloc, few_at(lists, *place))?;
        made.push(Listed::of(list))?;
    }
    Ok(made)
}

/// The numbers at these places.
pub(crate) fn numbers_at(
    alloc: Global,
    list: &[usize],
    places: &[usize],
) -> Result<Vec<usize>, AllocError>
    requires { (i : ℕ) → i < length places.now → slice_index_or places.now i 0 < length list.now }
    ensures { IfOk result (λ made. made.items ≡ map (λ i. slice_index_or list.now i 0) places.now) }
{
    let mut made = Vec::new(alloc);
    for place in places {
        made.push(place_at(list, *place))?;
    }
    Ok(made)
}

/// The kinds of lists of classes.
pub(crate) fn kinds_of(alloc: Global, lists: &[FewNumbers]) -> Result<Kinds, AllocError>
    ensures { IfOk result (λ kinds. AreKinds lists.now kinds.lists.items kinds.kind_of.items) }
{
    let mut numbering = Numbering::new(alloc);
    let mut key = Vec::new(alloc);
    for list in lists {
        put_key(&mut key, list.as_slice())?;
        numbering.put(&key)?;
    }
    let kinds = lists_at(alloc, lists, &numbering.firsts)?;
    Ok(Kinds {
        lists: kinds,
        kind_of: numbering.number_of,
    })
}

/// The pairs of the kinds of each name in the old and in the new suite.
pub(crate) fn kind_pairs_of(
    alloc: Global,
    old_of: &[usize],
    new_of: &[usize],
) -> Result<KindPairs, AllocError>
    requires { length old_of.now ≡ length new_of.now }
    ensures { IfOk result (λ kind_pairs.
        ArePaired old_of.now new_of.now kind_pairs.old.items kind_pairs.new.items
        kind_pairs.pair_of.items) }
{
    let mut numbering = Numbering::new(alloc);
    for place in 0..old_of.len() {
        numbering.put(&[old_of[place] as u64, new_of[place] as u64])?;
    }
    let old = numbers_at(alloc, old_of, &numbering.firsts)?;
    let new = numbers_at(alloc, new_of, &numbering.firsts)?;
    Ok(KindPairs {
        old,
        new,
        pair_of: numbering.number_of,
    })
}
