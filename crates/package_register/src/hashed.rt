//! Lists of numbers by hashes.
ghost use Rattle.std.specs.Prelude.{◌≡◌, ◌∷◌, ◌++◌, [], length, IfOk, OnOk};
ghost use Rattle.package_register.specs.Hashed.{numbers_of, numbers_under, with_number, HasNone};
ghost use Rattle.package_register.specs.Hashed.{Puts};

use indexmap::IndexMap;
use std::alloc::{AllocError, Global};
use std::slice;

/// The numbers under a hash. Most hashes have one, which is kept without memory of its own.
#[derive(Drop)]
pub(crate) enum NumberList {
    One(u32),
    Many(Vec<u32>),
}

impl NumberList {
    // Lends the numbers.
    fn as_slice(&self) -> &[u32]
        ensures { result.now ≡ numbers_of self.now }
    {
        match self {
            NumberList::One(number) => slice::from_ref(number),
            NumberList::Many(numbers) => numbers.as_slice(),
        }
    }
}

/// For each hash a list of numbers, which is empty for a hash without numbers.
#[derive(Drop)]
pub(crate) struct NumbersByHash {
    lists: IndexMap<u64, NumberList>,
}

#[tactic(auto, unfolding(crate::specs::Hashed::numbers_under))]
impl NumbersByHash {
    /// No hash has a number.
    pub(crate) fn new(alloc: Global) -> Self
        ensures { HasNone result }
    {
        NumbersByHash {
            lists: IndexMap::new(alloc),
        }
    }

    /// The allocator of the lists.
    pub(crate) fn allocator(&self) -> Global {
        *self.lists.allocator()
    }

    /// Appends a number to those under a hash if it is not already last, and returns how many there
    /// are now.
    pub(crate) fn put(&mut self, hash: u64, number: u32) -> Result<usize, AllocError>
        ensures puts { OnOk result (Puts self.old self.new hash number) }
        ensures count { IfOk result (λ count. count ≡ length (numbers_under self.new hash)) }
    {
        let alloc = *self.lists.allocator();
        match self.lists.get_mut(&hash) {
            Some(numbers) => put_last(alloc, numbers, number),
            None => {
                self.lists.insert(hash, NumberList::One(number))?;
                Ok(1)
            }
        }
    }

    /// Lends the numbers under a hash, in the order in which they came.
    pub(crate) fn numbers(&self, hash: u64) -> &[u32]
        ensures { result.now ≡ numbers_under self.now hash }
    {
        match self.lists.get(&hash) {
            Some(numbers) => numbers.as_slice(),
            None => &[],
        }
    }
}

// Appends the number if it is not already last, and returns how many there are now.
fn put_last(alloc: Global, numbers: &mut NumberList, number: u32) -> Result<usize, AllocError>
    ensures numbers { OnOk result (numbers_of numbers.new
        ≡ with_number number (numbers_of numbers.old)) }
    ensures count { IfOk result (λ count. count ≡ length (numbers_of numbers.new)) }
{
    if numbers.as_slice().last() == Some(&number) {
        return Ok(numbers.as_slice().len());
    }
    if let NumberList::Many(many) = numbers {
        many.push(number)?;
        return Ok(many.as_slice().len());
    }
    let both = with_one_more(alloc, numbers.as_slice(), number)?;
    let count = both.as_slice().len();
    *numbers = NumberList::Many(both);
    Ok(count)
}

// A copy of the numbers with one more at the end.
fn with_one_more(alloc: Global, numbers: &[u32], number: u32) -> Result<Vec<u32>, AllocError>
    ensures { IfOk result (λ more. more.items ≡ numbers.now ++ number ∷ []) }
{
    let mut more = Vec::with_capacity(alloc, 4)?;
    more.extend_from_slice(numbers)?;
    more.push(number)?;
    Ok(more)
}
