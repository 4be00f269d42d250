//! Flags and the numbers of those that are up.
ghost use Rattle.std.specs.Prelude.{◌≡◌, ◌<◌, false, filter, length, slice_index_or, IfOk};
ghost use Rattle.std.specs.List.{range_with_len};

use crate::list::Listed;
use std::alloc::{AllocError, Global};

/// The numbers of the flags that are up, ascending.
pub fn true_numbers(alloc: Global, flags: &[bool]) -> Result<Listed<u32>, AllocError>
    requires { length flags.now < 4294967296 }
    ensures { IfOk result (λ numbers. numbers
        ≡ filter (λ n. slice_index_or flags.now n false) (range_with_len 0 (length flags.now))) }
{
    let mut numbers = Listed::new(alloc);
    for place in 0..flags.len() {
        if flags[place] {
            numbers.push(place as u32)?;
        }
    }
    Ok(numbers)
}
