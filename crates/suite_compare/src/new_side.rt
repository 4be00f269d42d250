//! The new suite of a comparison, beside the old one.
ghost use Rattle.std.specs.Prelude.{◌≡◌, ◌<◌, ℕ, length, slice_index_or};
ghost use Rattle.suite_compare.specs.Props.{number-set};

use crate::side::Side;
use repo_model::LentName;

/// A new view beside an old one, of the names that both have.
#[derive(Drop)]
pub(crate) struct NewSide<'s, 'o, 'n> {
    /// The side of the old suite.
    pub(crate) old: &'s Side<'o>,
    /// The names that both have, with their kinds in the old suite.
    pub(crate) common: CommonNames<'o>,
    /// The side of the new suite, of these names alone.
    pub(crate) side: Side<'n>,
    ghost long: { length side.kind_of.items ≡ length common.names.items } by { number-set
        (length side.kind_of.items) (length common.names.items) },
    ghost old_long: { length common.kind_of.items ≡ length common.names.items } by { number-set
        (length common.kind_of.items) (length common.names.items) },
    ghost old_within: { (i : ℕ) → i < length common.names.items →
        slice_index_or common.kind_of.items i 0 < length old.now.judge.kinds.items },
}

/// Those names of a side that another suite has.
#[derive(Drop)]
pub(crate) struct CommonNames<'a> {
    /// The names.
    pub(crate) names: Vec<LentName<'a>>,
    /// The kind of each of them.
    pub(crate) kind_of: Vec<usize>,
}
