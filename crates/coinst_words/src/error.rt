//! Why words are refused.
use std::alloc::AllocError;

/// Why words gave no job.
#[derive(Clone, Copy, Debug, PartialEq, Eq)]
pub enum WordError {
    /// The words are no command of the program.
    NotACommand,
    /// No memory was found.
    Memory,
}

impl From<AllocError> for WordError {
    ghost use Rattle.std.specs.Prelude.{◌≡◌};
    ghost use Rattle.coinst_words.specs.declared.error.WordError.TheVariants.{Memory};

    ghost from_gives = { λ _ e. e ≡ Memory };

    fn from(_error: AllocError) -> Self {
        WordError::Memory
    }
}
