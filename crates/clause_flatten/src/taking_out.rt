//! One step of flattening: a package is taken out.
//!
//! The limit is tried on the rows after the whole step, also on those of packages that are gone.
//! Only rows that change are looked at, in ascending order, so the first over the limit is the
//! least. They are counted before they are made: a row that is refused is not made.
ghost use Rattle.std.specs.Prelude.{◌≡◌, ◌<◌, ◌≤◌, ◌&&◌, ℕ, Bool, false, cond, Some, IfOk, IfErr};
ghost use Rattle.std.specs.{Prelude.{OnOk, length}, List.{find}};
ghost use Rattle.clause_pool.specs.Interned.{Interned, Kept};
ghost use Rattle.listed.specs.Lists.{In, Ascending};
ghost use Rattle.row_book.specs.{Numbers.{numbers}, Flattening.{passed_by}};
ghost use Rattle.clause_flatten.specs.Ready.{table_of, AreReady};
ghost use Rattle.clause_flatten.specs.Substitution.{table_without, table_passes, length_in};
ghost use Rattle.clause_flatten.specs.{Refusals.{OnLimit}, Waiting.{never, Filed}};
ghost use Rattle.clause_flatten.specs.TakingOut.{counted_anew, is_over};

use crate::changing::change_rows;
use crate::error::FlatError;
use crate::holding::{first_over, would_pass};
use crate::waiting::Waiting;
use clause_pool::Pool;
use row_book::{ClauseTable, IdList};
use std::alloc::{AllocError, Global};

/// The number of clauses in the row of a package.
pub(crate) fn clauses_in(rows: &[IdList], number: u32) -> u64
    requires { number < length rows.now }
    ensures count { (pool : Interned) → result ≡ length_in (table_of pool rows.now) number }
    ensures few { result < never }
{
    rows[number as usize].as_slice().len() as u64
}

/// Whether the row of a package has more clauses than the limit allows.
fn is_over(rows: &[IdList], number: u32, limit: u32) -> bool
    requires { number < length rows.now }
    ensures { (pool : Interned) → result ≡ is_over (table_of pool rows.now) limit number }
{
    u64::from(limit) < clauses_in(rows, number)
}

/// The least package whose row has more clauses than the limit allows.
pub(crate) fn least_over(rows: &[IdList], limit: u32) -> Option<u32>
    requires { length rows.now < u32.MAX }
    ensures { (pool : Interned) →
        result ≡ find (is_over (table_of pool rows.now) limit) (numbers (length rows.now) 0) }
{
    for number in 0..rows.len() as u32 {
        if is_over(rows, number, limit) {
            return Some(number);
        }
    }
    None
}

/// Files those of the users that wait under the numbers of clauses of their rows.
fn file_users(rows: &[IdList], users: &[u32], waiting: &mut Waiting)
    requires { (q : ℕ) → In q users.now → q < length rows.now }
    ensures { (pool : Interned) (may : ℕ → Bool) (count : ℕ → ℕ) → Filed waiting.old may count →
        Filed waiting.new may (counted_anew count (table_of pool rows.now) users.now) }
{
    for user in users {
        waiting.file_again(*user, clauses_in(rows, *user));
    }
}

/// The elimination of one package.
#[derive(Clone, Copy)]
pub(crate) struct Elimination {
    /// The package that is taken out.
    pub(crate) next: u32,
    /// How many packages are gone, this one among them.
    pub(crate) gone: u32,
    /// How many clauses a row may have.
    pub(crate) limit: u32,
    /// Whether the package is held if a row would have more.
    pub(crate) hold: bool,
}

/// Takes a package that waits no longer out of the rows. With hold, if a row would then pass the
/// limit, the package is held, the rows stay, and true is returned.
pub(crate) fn take_out_or_hold(
    alloc: Global,
    pool: &mut Pool,
    rows: &mut [IdList],
    uses: &mut ClauseTable,
    waiting: &mut Waiting,
    step: Elimination,
) -> Result<bool, FlatError>
    requires few { length rows.old < u32.MAX }
    requires ready { AreReady pool.old rows.old uses.old }
    requires there { step.next < length rows.old }
    requires within { (p : ℕ) → p < length rows.old →
        length_in (table_of pool.old rows.old) p ≤ step.limit }
    ensures held { IfOk result (λ held. held ≡ (step.hold
        && table_passes step.limit (table_without step.next (table_of pool.old rows.old)))) }
    ensures rows { IfOk result (λ held. table_of pool.new rows.new
        ≡ cond held (table_of pool.old rows.old)
        (table_without step.next (table_of pool.old rows.old))) }
    ensures ready { AreReady pool.new rows.new uses.new }
    ensures kept { Kept pool.old pool.new }
    ensures within { IfOk result (λ held. held ≡ false → (p : ℕ) → p < length rows.old →
        length_in (table_without step.next (table_of pool.old rows.old)) p ≤ step.limit) }
    ensures passed { IfErr result (OnLimit (λ passed. (step.hold ≡ false)
        × (passed_by (length_in (table_without step.next (table_of pool.old rows.old)))
        (numbers (length rows.old) 0) step.limit step.gone ≡ Some passed))) }
    ensures filed { IfOk result (λ held. (may : ℕ → Bool) →
        Filed waiting.old may (length_in (table_of pool.old rows.old)) →
        Filed waiting.new may (length_in (cond held (table_of pool.old rows.old)
        (table_without step.next (table_of pool.old rows.old))))) }
{
    let stays = is_to_stay(alloc, pool, rows, uses, step)?;
    if stays {
        return Ok(true);
    }
    take_out(alloc, pool, rows, uses, waiting, step)?;
    Ok(false)
}

/// Whether the package is held.
fn is_to_stay(
    alloc: Global,
    pool: &Pool,
    rows: &[IdList],
    uses: &ClauseTable,
    step: Elimination,
) -> Result<bool, AllocError>
    requires ready { AreReady pool.now rows.now uses.now }
    requires there { step.next < length rows.now }
    requires within { (p : ℕ) → p < length rows.now →
        length_in (table_of pool.now rows.now) p ≤ step.limit }
    ensures { IfOk result (λ stays. stays ≡ (step.hold
        && table_passes step.limit (table_without step.next (table_of pool.now rows.now)))) }
{
    if !step.hold {
        return Ok(false);
    }
    would_pass(alloc, pool, rows, uses, step.next, step.limit)
}

/// Takes a package, which waits no longer, out of the rows of its users, and files those that wait
/// again. It fails before any change if a row would pass the limit.
pub(crate) fn take_out(
    alloc: Global,
    pool: &mut Pool,
    rows: &mut [IdList],
    uses: &mut ClauseTable,
    waiting: &mut Waiting,
    step: Elimination,
) -> Result<(), FlatError>
    requires few { length rows.old < u32.MAX }
    requires ready { AreReady pool.old rows.old uses.old }
    requires there { step.next < length rows.old }
    requires within { (p : ℕ) → p < length rows.old →
        length_in (table_of pool.old rows.old) p ≤ step.limit }
    ensures rows { OnOk result (table_of pool.new rows.new
        ≡ table_without step.next (table_of pool.old rows.old)) }
    ensures ready { AreReady pool.new rows.new uses.new }
    ensures kept { Kept pool.old pool.new }
    ensures within { OnOk result ((p : ℕ) → p < length rows.old →
        length_in (table_without step.next (table_of pool.old rows.old)) p ≤ step.limit) }
    ensures passed { IfErr result (OnLimit (λ passed.
        passed_by (length_in (table_without step.next (table_of pool.old rows.old)))
        (numbers (length rows.old) 0) step.limit step.gone ≡ Some passed)) }
    ensures filed { OnOk result ((may : ℕ → Bool) →
        Filed waiting.old may (length_in (table_of pool.old rows.old)) →
        Filed waiting.new may (length_in (table_without step.next (table_of pool.old rows.old)))) }
{
    let users = uses.users(alloc, pool, rows, step.next)?;
    let over = first_over(alloc, pool, rows, users.as_slice(), step.next, step.limit)?;
    if let Some(over) = over {
        return Err(FlatError::Limit {
            gone: step.gone,
            package: over.package,
            count: over.count,
        });
    }
    change_rows(alloc, pool, rows, uses, users.as_slice(), step.next)?;
    file_users(rows, users.as_slice(), waiting);
    // No row holds the package any more. Without this each other member of its clauses would go
    // through all their users again.
    uses.forget(step.next);
    Ok(())
}
