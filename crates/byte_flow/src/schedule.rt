// Numbered calls; some are to fail.
ghost use Rattle.std.specs.Prelude.{◌≡◌, ◌==◌, ◌∷◌, ◌++◌, [], false, OnOk, OnErr};
ghost use Rattle.std.specs.List.{list_any};
ghost use Rattle.byte_flow.specs.{Flow.{raised}, Schedule.{has_pending, is_next_listed}};

use std::alloc::{AllocError, Global};

/// How many calls were made, and the numbers of the calls that fail.
#[derive(Drop)]
pub struct Schedule {
    pub calls: u64,
    pub listed: Vec<u64>,
}

impl Schedule {
    /// No call was made, and none is listed.
    pub fn new(alloc: Global) -> Self
        ensures calls { result.calls ≡ 0 }
        ensures listed { result.listed.items ≡ [] }
    {
        Schedule {
            calls: 0,
            listed: Vec::new(alloc),
        }
    }

    /// Lists the call with this number.
    pub fn list(&mut self, call: u64) -> Result<(), AllocError>
        ensures ok { OnOk result (self.new.listed.items ≡ self.old.listed.items ++ call ∷ []) }
        ensures err { OnErr result (self.new.listed.items ≡ self.old.listed.items) }
        ensures calls { self.new.calls ≡ self.old.calls }
    {
        self.listed.push(call)?;
        Ok(())
    }

    /// Counts a call, and returns whether it is a listed one.
    pub fn next(&mut self) -> bool
        ensures answer { result ≡ is_next_listed self.old.calls self.old.listed.items }
        ensures calls { self.new.calls ≡ raised self.old.calls }
        ensures listed { self.new.listed.items ≡ self.old.listed.items }

        // If no listed call was still to come, this is none, and none is to come after it.
        ensures none { has_pending self.old.calls self.old.listed.items ≡ false → result ≡ false }
        ensures none_left { has_pending self.old.calls self.old.listed.items ≡ false
            → has_pending self.new.calls self.new.listed.items ≡ false }
    {
        if self.calls == u64::MAX {
            return false;
        }
        self.calls += 1;
        self.is_listed(self.calls)
    }

    fn is_listed(&self, number: u64) -> bool
        ensures { result ≡ list_any (λ n. n == number) self.now.listed.items }
    {
        self.listed.iter().any(|call| *call == number)
    }
}
