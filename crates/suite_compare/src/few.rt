//! Lists of few numbers.
ghost use Rattle.std.specs.Prelude.{◌≡◌, ◌<◌, ◌∷◌, [], IfOk, length};
ghost use Rattle.row_book.specs.Book.{listed_for};

use smallvec::SmallVec;
use std::alloc::{AllocError, Global};
use std::marker::Model;

/// A list of numbers, as of the packages that bear a name. Most names have one package, and a copy
/// of one or two numbers takes no memory of its own.
#[derive(Drop)]
pub struct FewNumbers {
    numbers: SmallVec<u32, 2>,
}

impl Model for FewNumbers {
    ghost use Rattle.std.specs.{Prelude.{List, ℕ}, Coded.{coded_list, coded_ℕ}};

    ghost Value = { List ℕ };

    ghost coded = { coded_list coded_ℕ };

    ghost view = { λ s. s.numbers.items };
}

impl FewNumbers {
    /// A copy of the list.
    pub fn copy(alloc: Global, numbers: &[u32]) -> Result<FewNumbers, AllocError>
        ensures { IfOk result (λ few. few ≡ numbers.now) }
    {
        let numbers = SmallVec::from_slice(alloc, numbers)?;
        Ok(FewNumbers { numbers })
    }

    /// The list of a vector's numbers.
    pub(crate) fn of(numbers: Vec<u32>) -> FewNumbers
        ensures { result ≡ numbers.items }
    {
        FewNumbers {
            numbers: SmallVec::from_vec(numbers),
        }
    }

    /// The list of one number.
    pub(crate) fn one(alloc: Global, number: u32) -> FewNumbers
        ensures { result ≡ number ∷ [] }
    {
        FewNumbers {
            numbers: SmallVec::from_buf_and_len(alloc, [number, 0], 1),
        }
    }

    /// Lends the numbers in their order.
    pub fn as_slice(&self) -> &[u32]
        ensures { result.now ≡ self.now }
    {
        self.numbers.as_slice()
    }
}

/// The numbers at a place of a table.
pub(crate) fn few_at(table: &[FewNumbers], place: usize) -> &[u32]
    requires { place < length table.now }
    ensures { result.now ≡ listed_for table.now place }
{
    table[place].as_slice()
}
