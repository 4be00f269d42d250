//! One elimination: a package is taken out of all rows.
ghost use Rattle.std.specs.Prelude.{◌≡◌, ◌≢◌, ◌<◌, ◌⊎◌, ℕ, List, IfOk, OnErr, OnOk, length, map};
ghost use Rattle.std.specs.Prelude.{slice_set};
ghost use Rattle.clause_pool.specs.{Interned.{row_at, Kept}, Clauses.{in_row_order}};
ghost use Rattle.row_book.specs.{Book.{RowsFit, RowsTidy}, Uses.{row_id, users_of, uses_of}};
ghost use Rattle.listed.specs.Lists.{In};
ghost use Rattle.clause_flatten.specs.Substitution.{table_without, table_row};
ghost use Rattle.clause_families.specs.Unions.{substituted};

use clause_families::rewrite;
use clause_pool::{Pool, RowId};
use row_book::UseTable;
use std::alloc::{AllocError, Global};

/// Takes a package out of the rows: each clause that holds it is replaced by its unions with the
/// clauses of the package's own row, which stays. If no memory is found, each row is the old or the
/// new one.
pub fn eliminate(
    alloc: Global,
    pool: &mut Pool,
    rows: &mut [RowId],
    uses: &mut UseTable,
    gone: u32,
) -> Result<(), AllocError>
    requires few { length rows.old < u32.MAX }
    requires fit { RowsFit pool.old rows.old }
    requires tidy { RowsTidy pool.old rows.old }
    requires table { uses.old ≡ uses_of pool.old rows.old }
    requires gone { gone < length rows.old }
    ensures ok { OnOk result (map (row_at pool.new) rows.new
        ≡ table_without gone (map (row_at pool.old) rows.old)) }
    ensures each { (p : ℕ) → p < length rows.old → (row_id rows.new p ≡ row_id rows.old p)
        ⊎ (row_at pool.new (row_id rows.new p)
        ≡ table_row (table_without gone (map (row_at pool.old) rows.old)) p) }
    ensures fit { RowsFit pool.new rows.new }
    ensures tidy { RowsTidy pool.new rows.new }
    ensures table { uses.new ≡ uses_of pool.new rows.new }
    ensures kept { Kept pool.old pool.new }
{
    let users = Vec::from_slice(alloc, uses.packages(gone))?;
    eliminate_for(alloc, pool, rows, uses, users.as_slice(), gone)
}

/// As `eliminate`, for the known users of the package.
pub(crate) fn eliminate_for(
    alloc: Global,
    pool: &mut Pool,
    rows: &mut [RowId],
    uses: &mut UseTable,
    users: &[u32],
    gone: u32,
) -> Result<(), AllocError>
    requires few { length rows.old < u32.MAX }
    requires fit { RowsFit pool.old rows.old }
    requires tidy { RowsTidy pool.old rows.old }
    requires table { uses.old ≡ uses_of pool.old rows.old }
    requires gone { gone < length rows.old }
    requires users { users.now ≡ users_of pool.old rows.old gone }
    ensures ok { OnOk result (map (row_at pool.new) rows.new
        ≡ table_without gone (map (row_at pool.old) rows.old)) }
    ensures each { (p : ℕ) → p < length rows.old → (row_id rows.new p ≡ row_id rows.old p)
        ⊎ (row_at pool.new (row_id rows.new p)
        ≡ table_row (table_without gone (map (row_at pool.old) rows.old)) p) }
    ensures fit { RowsFit pool.new rows.new }
    ensures tidy { RowsTidy pool.new rows.new }
    ensures table { uses.new ≡ uses_of pool.new rows.new }
    ensures kept { Kept pool.old pool.new }
{
    // The last user comes first: what each leaves in the table then stands at the ends of its
    // lists.
    for place in (0..users.len()).rev() {
        replace_row(alloc, pool, rows, uses, users[place], gone)?;
    }
    Ok(())
}

/// The row of a user once a package is taken out, in the pool; it fails only if no memory is found.
pub(crate) fn new_row(
    alloc: Global,
    pool: &mut Pool,
    rows: &[RowId],
    user: u32,
    gone: u32,
) -> Result<RowId, AllocError>
    requires fit { RowsFit pool.old rows.now }
    requires tidy { RowsTidy pool.old rows.now }
    requires user { user < length rows.now }
    requires gone { gone < length rows.now }
    ensures ok { IfOk result (λ id. row_at pool.new id
        ≡ in_row_order (substituted user gone (row_at pool.old (row_id rows.now user))
        (row_at pool.old (row_id rows.now gone)))) }
    ensures of_pool { IfOk result (λ id. id < length pool.new.rows) }
    ensures numbers { IfOk result (λ id. (c : List ℕ) → In c (row_at pool.new id) →
        (n : ℕ) → In n c → n < length rows.now) }
    ensures stay { (p : ℕ) → p < length rows.now →
        row_at pool.new (row_id rows.now p) ≡ row_at pool.old (row_id rows.now p) }
    ensures fit { RowsFit pool.new rows.now }
    ensures tidy { RowsTidy pool.new rows.now }
    ensures fits { IfOk result (λ id. RowsFit pool.new (slice_set rows.now user id)) }
    ensures tidies { IfOk result (λ id. RowsTidy pool.new (slice_set rows.now user id)) }
    ensures kept { Kept pool.old pool.new }
{
    let row = Vec::from_slice(alloc, pool.row(rows[user as usize]))?;
    let own = Vec::from_slice(alloc, pool.row(rows[gone as usize]))?;
    let clauses = rewrite(alloc, pool, user, gone, row.as_slice(), own.as_slice())?;
    let new = pool.intern_row(clauses.as_slice())?;
    Ok(new)
}

/// Takes a package out of the row of one user; if no memory is found, the rows stay as they were.
fn replace_row(
    alloc: Global,
    pool: &mut Pool,
    rows: &mut [RowId],
    uses: &mut UseTable,
    user: u32,
    gone: u32,
) -> Result<(), AllocError>
    requires fit { RowsFit pool.old rows.old }
    requires tidy { RowsTidy pool.old rows.old }
    requires table { uses.old ≡ uses_of pool.old rows.old }
    requires user { user < length rows.old }
    requires gone { gone < length rows.old }
    ensures ok { OnOk result (row_at pool.new (row_id rows.new user)
        ≡ in_row_order (substituted user gone (row_at pool.old (row_id rows.old user))
        (row_at pool.old (row_id rows.old gone)))) }
    ensures err { OnErr result (rows.new ≡ rows.old) }
    ensures others { (p : ℕ) → p ≢ user → row_id rows.new p ≡ row_id rows.old p }
    ensures stay { (p : ℕ) → p < length rows.old → p ≢ user →
        row_at pool.new (row_id rows.new p) ≡ row_at pool.old (row_id rows.old p) }
    ensures fit { RowsFit pool.new rows.new }
    ensures tidy { RowsTidy pool.new rows.new }
    ensures table { uses.new ≡ uses_of pool.new rows.new }
    ensures kept { Kept pool.old pool.new }
{
    let old = rows[user as usize];
    let new = new_row(alloc, pool, rows, user, gone)?;
    uses.replace(alloc, pool, user, old, new)?;
    rows[user as usize] = new;
    Ok(())
}
