//! The row of a user once a package is taken out.
ghost use Rattle.std.specs.Prelude.{◌≡◌, ◌<◌, ℕ, List, IfOk, length};
ghost use Rattle.clause_pool.specs.Interned.{clauses_at, IsPool, Kept, OfPool};
ghost use Rattle.clause_pool.specs.{Clauses.{apart_from, in_row_order}, Lists.{InOrder}};
ghost use Rattle.listed.specs.Lists.{In, Inside};
ghost use Rattle.clause_families.specs.Unions.{substituted};

use crate::family::with_unions;
use crate::useful::useful_of;
use clause_pool::{ClauseId, Pool};
use std::alloc::{AllocError, Global};

/// The row of a user once the spent package, whose own row is `others`, is taken out; it fails only
/// if no memory is found.
pub fn rewrite(
    alloc: Global,
    pool: &mut Pool,
    user: u32,
    spent: u32,
    row: &[ClauseId],
    others: &[ClauseId],
) -> Result<Vec<ClauseId>, AllocError>
    requires pool { IsPool pool.old }
    requires row { OfPool pool.old row.now }
    requires in_order { InOrder (clauses_at pool.old row.now) }
    requires others { OfPool pool.old others.now }
    requires apart { (c : List ℕ) → In c (clauses_at pool.old row.now) → In user c → ⊥ }
    requires own { (c : List ℕ) → In c (clauses_at pool.old others.now) → In spent c → ⊥ }
    requires minimal { (c d : List ℕ) → In c (clauses_at pool.old row.now) →
        In d (clauses_at pool.old row.now) → Inside c d → c ≡ d }
    ensures ok { IfOk result (λ ids. clauses_at pool.new ids.items
        ≡ in_row_order
        (substituted user spent (clauses_at pool.old row.now) (clauses_at pool.old others.now))) }
    ensures of_pool { IfOk result (λ ids. OfPool pool.new ids.items) }
    ensures kept { Kept pool.old pool.new }
{
    let useful = useful_of(alloc, pool, user, spent, row, others)?;
    with_unions(alloc, pool, spent, row, useful.as_slice())
}
