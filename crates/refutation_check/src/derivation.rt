//! Whether the entries of a log follow one after another.
ghost use Rattle.std.specs.Prelude.{◌≡◌, ◌-◌, Some, [], IfOk, IsTrue, ◌↔◌, length, slice_get};
ghost use Rattle.search_terms.specs.{Closure.{InRange}, Derives.{Derives}};

use crate::closures::follows;
use search_terms::LiteralList;
use std::alloc::{AllocError, Global};

/// Whether there is a last entry and it is empty.
fn ends_empty(log: &[LiteralList]) -> bool
    ensures { IsTrue result ↔ (slice_get log.now (length log.now - 1) ≡ Some []) }
{
    match log.last() {
        Some(entry) => entry.as_slice().is_empty(),
        None => false,
    }
}

/// Whether the log derives the empty entry over the formula.
pub(crate) fn derives(
    alloc: Global,
    classes: u32,
    formula: &[LiteralList],
    log: &[LiteralList],
) -> Result<bool, AllocError>
    requires formula { InRange classes formula.now }
    requires log { InRange classes log.now }
    ensures { IfOk result (λ r. IsTrue r ↔ Derives formula.now log.now) }
{
    if !ends_empty(log) {
        return Ok(false);
    }
    for (k, entry) in log.iter().enumerate() {
        if !follows(alloc, classes, formula, &log[..k], entry.as_slice())? {
            return Ok(false);
        }
    }
    Ok(true)
}
