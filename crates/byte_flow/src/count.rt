// A count of faults.
ghost use Rattle.std.specs.Prelude.{◌≡◌, ◌<◌, ◌^◌};
ghost use Rattle.byte_flow.specs.Flow.{raised};

/// A number that rises by one at a time, up to 2^64 - 1.
#[derive(Drop)]
pub struct Count {
    pub number: u64,
    ghost fits: { number < 2 ^ 64 },
}

impl Count {
    /// A count of nothing.
    pub fn zero() -> Self
        ensures { result.number ≡ 0 }
    {
        Count { number: 0 }
    }

    /// Counts one more.
    pub fn raise(&mut self)
        ensures { self.new.number ≡ raised self.old.number }
    {
        self.number = self.number.saturating_add(1);
    }
}
