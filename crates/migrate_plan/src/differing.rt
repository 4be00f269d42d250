//! The names that differ between two indexes.
ghost use Rattle.std.specs.Prelude.{◌≡◌, ◌<◌, ℕ, filter, length, map, slice_index, IfOk};
ghost use Rattle.std.specs.Cmp.Lexicographic.{pointwise};
ghost use Rattle.listed.specs.Lists.{In};
ghost use Rattle.repo_model.specs.Stanzas.{stanza_at};
ghost use Rattle.migrate_plan.specs.Differing.{differing, differs, says_same};

use crate::alike::says_same;
use crate::names::names_of_either;
use deb_version::Bytes;
use relation_fields::PackageFacts;
use repo_model::{NameList, Suite};
use std::alloc::{AllocError, Global};

/// The names whose packages in the two indexes do not say the same, ascending by bytes.
#[tactic(auto, unfolding(crate::specs::Differing::differing))]
pub(crate) fn differing_names(
    alloc: Global,
    old: &Suite,
    new: &Suite,
) -> Result<NameList, AllocError>
    ensures { IfOk result (λ names. names ≡ differing old.now.packages new.now.packages) }
{
    let before = old.packages.as_slice();
    let after = new.packages.as_slice();
    let names = names_of_either(alloc, before, after)?;
    let found = those_that_differ(alloc, names.as_slice(), old, new)?;
    Ok(found)
}

// Those of the names that differ.
fn those_that_differ(
    alloc: Global,
    names: &[Bytes],
    old: &Suite,
    new: &Suite,
) -> Result<NameList, AllocError>
    ensures { IfOk result (λ made. made
        ≡ filter (differs old.now.packages new.now.packages) names.now) }
{
    let mut made = NameList::new(alloc);
    for name in names {
        let differ = differs(alloc, old, new, name.as_slice())?;
        if !differ {
            continue;
        }
        let copy = Bytes::copy(alloc, name.as_slice())?;
        made.push(copy)?;
    }
    Ok(made)
}

// Whether the packages of a name do not say the same in both.
#[tactic(auto, unfolding(crate::specs::Differing::differs))]
fn differs(alloc: Global, old: &Suite, new: &Suite, name: &[u8]) -> Result<bool, AllocError>
    ensures { IfOk result (λ differing. differing
        ≡ differs old.now.packages new.now.packages name.now) }
{
    let olds = old.named(alloc, name)?;
    let news = new.named(alloc, name)?;
    Ok(!say_same(
        old.packages.as_slice(),
        &olds,
        new.packages.as_slice(),
        &news,
    ))
}

// Whether the packages of these numbers say the same, one after the other.
fn say_same(old: &[PackageFacts], olds: &[u32], new: &[PackageFacts], news: &[u32]) -> bool
    requires old { (n : ℕ) → In n olds.now → n < length old.now }
    requires new { (n : ℕ) → In n news.now → n < length new.now }
    ensures { result ≡ pointwise says_same (map (stanza_at old.now) olds.now)
        (map (stanza_at new.now) news.now) }
{
    if olds.len() != news.len() {
        return false;
    }
    for place in 0..olds.len() {
        let one = package_at(old, olds, place);
        let other = package_at(new, news, place);
        if !says_same(one, other) {
            return false;
        }
    }
    true
}

// The package of the number at a place.
fn package_at<'a>(packages: &'a [PackageFacts], numbers: &[u32], place: usize) -> &'a PackageFacts
    requires place { place < length numbers.now }
    requires numbers { (n : ℕ) → In n numbers.now → n < length packages.now }
    ensures { result.now ≡ stanza_at packages.now (slice_index numbers.now place) }
{
    &packages[numbers[place] as usize]
}
