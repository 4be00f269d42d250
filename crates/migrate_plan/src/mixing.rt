//! Mixes of two indexes: which packages a mix has. No text of a mix is made.
ghost use Rattle.std.specs.Prelude.{◌≡◌, ◌++◌, ◌∷◌, ◌≤◌, ◌+◌, [], length, map, IfOk};
ghost use Rattle.std.specs.{Bool.{OnTrue}, List.{items_where_true}};
ghost use Rattle.repo_model.specs.Limits.{most_packages};
ghost use Rattle.suite_compare.specs.Refusals.{home_in};
ghost use Rattle.migrate_plan.specs.{Mix.{is_left, is_taken, mix}, Indexes.{AreTexts, Texts}};

use crate::flags::{left_flags, taken_flags};
use crate::homes::home_of_both;
use deb_version::Bytes;
use relation_fields::Home;
use repo_model::Suite;
use std::alloc::{AllocError, Global};

/// A mix of two suites: which packages of the old one are left in it, which of the new one are
/// taken into it, and the common architecture.
#[derive(Drop)]
pub(crate) struct Mix {
    /// For each package of the old suite whether it is in the mix.
    pub(crate) left: Vec<bool>,
    /// For each package of the new suite whether it is in the mix.
    pub(crate) kept: Vec<bool>,
    /// The common architecture.
    pub(crate) home: Home,
}

/// The mix of two suites. Packages of the names that are taken, and of the one that is tried with
/// them, come from the new one, and all others from the old one.
pub(crate) fn mix_with(
    alloc: Global,
    old: &Suite,
    new: &Suite,
    taken: &[Bytes],
    tried: &[u8],
) -> Result<Mix, AllocError>
    ensures left { IfOk result (λ mix. mix.left.items
        ≡ map (λ facts. is_left (taken.now ++ tried.now ∷ []) facts.name) old.now.packages) }
    ensures kept { IfOk result (λ mix. mix.kept.items
        ≡ map (λ facts. is_taken (taken.now ++ tried.now ∷ []) facts.name) new.now.packages) }
    ensures home { IfOk result (λ made. (texts : Texts) → AreTexts texts old.now new.now →
        made.home ≡ home_in (mix texts.old texts.new (taken.now ++ tried.now ∷ []))) }
{
    let names = with_tried(alloc, taken, tried)?;
    let left = left_flags(alloc, old, &names)?;
    let kept = taken_flags(alloc, new, &names)?;
    let home = home_of_both(alloc, old, &left, new, &kept)?;
    Ok(Mix { left, kept, home })
}

/// The suite of a mix.
pub(crate) fn suite_of(
    alloc: Global,
    old: &Suite,
    new: &Suite,
    mix: Mix,
) -> Result<Suite, AllocError>
    requires left { length mix.left.items ≡ length old.now.packages }
    requires kept { length mix.kept.items ≡ length new.now.packages }
    requires few { length (items_where_true mix.left.items old.now.packages)
        + length (items_where_true mix.kept.items new.now.packages) ≤ most_packages }
    ensures packages { IfOk result (λ suite. suite.packages ≡ items_where_true mix.left.items
        old.now.packages ++ items_where_true mix.kept.items new.now.packages) }
    ensures home { IfOk result (λ suite. suite.home ≡ mix.home) }
{
    let Mix { left, kept, home } = mix;
    old.join(alloc, &left, new, &kept, home)
}

/// Whether the two are the same architecture, or both none.
pub(crate) fn is_same_home(one: &Home, other: &Home) -> bool
    ensures { OnTrue result (one.now ≡ other.now) }
{
    match &one.name {
        Some(name) => match &other.name {
            Some(second) => name.as_slice() == second.as_slice(),
            None => false,
        },
        None => other.name.is_none(),
    }
}

// The names that are taken, and the one that is tried with them.
fn with_tried(alloc: Global, taken: &[Bytes], tried: &[u8]) -> Result<Vec<Bytes>, AllocError>
    ensures { IfOk result (λ names. names.items ≡ taken.now ++ tried.now ∷ []) }
{
    let mut names = copies_of(alloc, taken)?;
    let last = Bytes::copy(alloc, tried)?;
    names.push(last)?;
    Ok(names)
}

// Copies of the names.
fn copies_of(alloc: Global, names: &[Bytes]) -> Result<Vec<Bytes>, AllocError>
    ensures { IfOk result (λ made. made.items ≡ names.now) }
{
    let mut made = Vec::new(alloc);
    for name in names {
        let copy = Bytes::copy(alloc, name.as_slice())?;
        made.push(copy)?;
    }
    Ok(made)
}
