//! How many items are left out at once: they are a block. The block doubles after a success, and
//! halves after a failure. It is one item as soon as what is left does not clash at the root.
//!
//! If the items outside a block clash at the root, each greater set of items does too. So one by
//! one, every item of the block would have been dropped as well.
ghost use Rattle.std.specs.Prelude.{◌≡◌, ◌<◌, ◌≤◌, ◌*◌};
ghost use Rattle.explain_core.specs.Deletion.{is_no};

use clause_solver::Verdict;

/// Whether the search found nothing.
pub(crate) fn is_no(verdict: Verdict) -> bool
    ensures { result ≡ is_no verdict }
{
    match verdict {
        Verdict::No => true,
        Verdict::Yes => false,
        Verdict::Spent => false,
    }
}

/// The size of the next block: at most the items that are left.
pub(crate) fn count_of(block: u64, left: u64) -> u64
    requires block { 0 < block }
    requires left { 0 < left }
    ensures some { 0 < result }
    ensures block { result ≤ block }
    ensures left { result ≤ left }
{
    if block < left { block } else { left }
}

/// The block after one that was left out.
pub(crate) fn twice(count: u64) -> u64
    requires { 0 < count }
    ensures some { 0 < result }
    ensures most { result ≤ count * 2 }
{
    count.saturating_mul(2)
}

/// The block in place of one that was not left out.
pub(crate) fn half(count: u64) -> u64
    requires { 1 < count }
    ensures some { 0 < result }
    ensures less { result < count }
{
    count / 2
}

/// The block after a single item.
pub(crate) fn block_behind(at_once: bool, verdict: Verdict) -> u64
    ensures some { 0 < result }
    ensures few { result ≤ 2 }
{
    if at_once && is_no(verdict) { 2 } else { 1 }
}
