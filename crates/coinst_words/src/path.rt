//! Paths, as they were written. In contracts a path is its bytes.
ghost use Rattle.std.specs.Prelude.{◌≡◌, IfOk};

use std::alloc::{AllocError, Global};
use std::marker::Model;

/// The path of a file, as it was written.
#[derive(Drop)]
pub struct PathText {
    text: String,
}

impl Model for PathText {
    ghost use Rattle.std.specs.{Prelude.{List, ℕ, string_bytes}, Coded.{coded_list, coded_ℕ}};

    ghost Value = { List ℕ };

    ghost coded = { coded_list coded_ℕ };

    ghost view = { λ s. string_bytes s.text };
}

impl PathText {
    /// A copy of the path.
    pub fn copy(alloc: Global, text: &str) -> Result<Self, AllocError>
        ensures { IfOk result (λ t. t ≡ text.now) }
    {
        Ok(PathText {
            text: String::from_str(alloc, text)?,
        })
    }

    /// Lends the path.
    pub fn as_str(&self) -> &str
        ensures { result.now ≡ self.now }
    {
        self.text.as_str()
    }
}
