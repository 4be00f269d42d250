// What a taker promises to those who give it a text in pieces.
ghost use Rattle.std.specs.Prelude.{◌≡◌, ◌+◌, ◌++◌, ◌≤◌, ℕ, List, length, OnOk, OnErr};

use std::alloc::AllocError;

/// A value that grows by the pieces of a text.
pub trait Taker {
    /// Whether the value stands for these bytes.
    ghost stands_for: { Self → List ℕ → Type 0 };

    /// How many bytes were taken.
    ghost taken: { Self → ℕ };

    /// The most bytes that may be taken in all.
    ghost limit: { Self → ℕ };

    /// Takes the next piece.
    fn take(&mut self, piece: &[u8]) -> Result<(), AllocError>
        requires { taken self.old + length piece.now ≤ limit self.old }
        ensures limit { limit self.new ≡ limit self.old }
        ensures grows { OnOk result (taken self.new ≡ taken self.old + length piece.now) }
        ensures stands { OnOk result ((s : List ℕ) → stands_for self.old s →
            stands_for self.new (s ++ piece.now)) }
        ensures keeps { OnErr result (taken self.new ≡ taken self.old) };
}
