//! One suite of a comparison.
ghost use Rattle.std.specs.Prelude.{◌<◌, ℕ, length, slice_index_or};
ghost use Rattle.suite_compare.specs.{Bad.{AreSingles}, Props.{AreSingles-prop}};

use crate::judge::Judge;
use clause_solver::Verdict;

/// One suite of a comparison: its judge, the kind of each name, and the verdict on each kind by
/// itself.
#[derive(Drop)]
pub(crate) struct Side<'a> {
    /// The judge.
    pub(crate) judge: Judge<'a>,
    /// The kind of each name.
    pub(crate) kind_of: Vec<usize>,
    /// The verdict on each kind by itself.
    pub(crate) singles: Vec<Verdict>,
    ghost within: { (i : ℕ) → i < length kind_of.items →
        slice_index_or kind_of.items i 0 < length judge.kinds.items },
    ghost told: { AreSingles judge singles.items } by { AreSingles-prop judge singles.items },
}
