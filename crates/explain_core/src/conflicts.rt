//! The conflicts within a set of packages.
ghost use Rattle.std.specs.Prelude.{◌≡◌, ◌<◌, ◌&&◌, ◌++◌, ltb, IfOk, OnOk, filter, map};
ghost use Rattle.row_book.specs.{Book.{repository_of}, Flags.{flag}};
ghost use Rattle.explain_core.specs.Only.{conflicts_within, pair};

use clause_pool::Pool;
use row_book::{Book, Pair};
use std::alloc::{AllocError, Global};

/// Whether the flag of a package is up.
fn is_up(flags: &[bool], number: u32) -> bool
    ensures { result ≡ flag flags.now number }
{
    flags.get(number as usize).copied().unwrap_or(false)
}

/// Appends the conflicts of a package with greater ones of the set.
fn add_above(
    flags: &[bool],
    low: u32,
    against: &[u32],
    pairs: &mut Vec<Pair>,
) -> Result<(), AllocError>
    ensures { OnOk result (pairs.new.items ≡ pairs.old.items
        ++ map (pair low) (filter (λ high. ltb low high && flag flags.now high) against.now)) }
{
    for high in against {
        if low < *high && is_up(flags, *high) {
            pairs.push(Pair { low, high: *high })?;
        }
    }
    Ok(())
}

/// The conflicts within the packages whose flags are up, ascending.
pub(crate) fn conflicts_within(
    alloc: Global,
    pool: &Pool,
    book: &Book,
    flags: &[bool],
) -> Result<Vec<Pair>, AllocError>
    ensures { IfOk result (λ pairs. pairs.items
        ≡ conflicts_within (repository_of pool.now book.now) (flag flags.now)) }
{
    let mut pairs = Vec::new(alloc);
    for low in 0..book.size() {
        if is_up(flags, low) {
            add_above(flags, low, book.against(low), &mut pairs)?;
        }
    }
    Ok(pairs)
}
