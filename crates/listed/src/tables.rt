//! Tables of lists that are filled later.
ghost use Rattle.std.specs.Prelude.{◌≡◌, [], ℕ, length, map, slice_index_or, IfOk};

use crate::list::Listed;
use std::alloc::{AllocError, Global};

/// A table of empty lists.
pub fn empty_lists<T: Drop>(alloc: Global, size: usize) -> Result<Vec<Listed<T>>, AllocError>
    ensures size { IfOk result (λ made. length made.items ≡ size) }
    ensures empty { IfOk result (λ made. (k : ℕ) → slice_index_or made.items k [] ≡ []) }
{
    let mut made = Vec::new(alloc);
    for _i in 0..size {
        made.push(Listed::new(alloc))?;
    }
    Ok(made)
}

/// A table of empty vectors. Unlike that of a `Listed`, the capacity of a vector is seen by
/// contracts.
pub fn empty_vectors<T: Drop>(alloc: Global, size: usize) -> Result<Vec<Vec<T>>, AllocError>
    ensures size { IfOk result (λ made. length made.items ≡ size) }
    ensures empty { IfOk result (λ made. (k : ℕ) →
        slice_index_or (map (λ v. v.items) made.items) k [] ≡ []) }
{
    let mut made = Vec::new(alloc);
    for _i in 0..size {
        made.push(Vec::new(alloc))?;
    }
    Ok(made)
}
