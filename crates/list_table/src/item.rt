//! The types of items whose lists a table keeps.
//!
//! The multiplier of the hash is 2^64 over the golden ratio (Knuth, vol. 3, 6.4), and the seed is
//! digits of pi.
ghost use Rattle.std.specs.Prelude.{◌≡◌, ℕ, ◌↔◌, List, IsTrue};
ghost use Rattle.list_table.specs.Hash.{hash_of_bytes, hash_of_numbers, hash_with, upper_half};

use std::hash::{FoldHasher, Hasher};

/// The number with which the hash of numbers begins.
pub const SEED: u64 = 0x243f_6a88_85a3_08d3;

const MULTIPLIER: u64 = 0x9e37_79b9_7f4a_7c15;

/// An item: lists of it can be hashed and compared.
pub trait Item: Copy {
    ghost hash_of: { List Self → ℕ };

    /// The hash of a list.
    fn hash(items: &[Self]) -> u32
        ensures { result ≡ hash_of items.now };

    /// Whether two lists are equal.
    fn same(a: &[Self], b: &[Self]) -> bool
        ensures { IsTrue result ↔ (a.now ≡ b.now) };
}

impl Item for u32 {
    ghost hash_of = { hash_of_numbers };

    fn hash(items: &[u32]) -> u32 {
        let mut hash = SEED;
        for item in items {
            hash = mix(hash, *item as u64);
        }
        upper_half(hash)
    }

    fn same(a: &[u32], b: &[u32]) -> bool {
        a == b
    }
}

// Bytes are hashed in groups, which is faster than one by one.
impl Item for u8 {
    ghost hash_of = { hash_of_bytes };

    fn hash(items: &[u8]) -> u32 {
        let mut hasher = FoldHasher::default();
        hasher.write(items);
        upper_half(hasher.finish())
    }

    fn same(a: &[u8], b: &[u8]) -> bool {
        a == b
    }
}

/// The hash of numbers followed by one more number. Lists are found by its `upper_half`.
pub fn mix(hash: u64, number: u64) -> u64
    ensures { result ≡ hash_with hash number }
{
    (hash ^ number).wrapping_mul(MULTIPLIER)
}

/// The half of a hash by which lists are found.
pub fn upper_half(hash: u64) -> u32
    ensures { result ≡ upper_half hash }
{
    (hash >> 32) as u32
}
