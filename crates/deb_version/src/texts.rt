//! A text of bytes that its holder owns.
ghost use Rattle.std.specs.Prelude.{◌≡◌, IfOk};

use smallvec::SmallVec;
use std::alloc::{AllocError, Global};
use std::marker::Model;

/// An owned text, byte for byte.
#[derive(Drop)]
pub struct Bytes {
    // Most texts are short, and are kept here without memory of their own.
    bytes: SmallVec<u8, 16>,
}

impl Model for Bytes {
    ghost use Rattle.std.specs.{Prelude.{List, ℕ}, Coded.{coded_list, coded_ℕ}};

    ghost Value = { List ℕ };

    ghost coded = { coded_list coded_ℕ };

    ghost view = { λ s. s.bytes.items };
}

impl Bytes {
    /// A copy of the text.
    pub fn copy(alloc: Global, text: &[u8]) -> Result<Self, AllocError>
        ensures { IfOk result (λ t. t ≡ text.now) }
    {
        Ok(Bytes {
            bytes: SmallVec::from_slice(alloc, text)?,
        })
    }

    /// The text of a vector's bytes.
    pub fn of(bytes: Vec<u8>) -> Self
        ensures { result ≡ bytes.items }
    {
        Bytes {
            bytes: SmallVec::from_vec(bytes),
        }
    }

    /// Lends the text.
    pub fn as_slice(&self) -> &[u8]
        ensures { result.now ≡ self.now }
    {
        self.bytes.as_slice()
    }
}
