//! A counter of the calls that wrap a line.
ghost use Rattle.std.specs.Prelude.{◌≡◌, ℕ, ◌+◌, ⊤};

use crate::ghost_count::GhostCount;
use std::alloc::AllocError;
use std::marker::Model;

/// Counts the calls that wrap a line. The number exists only in contracts, where it has no upper
/// bound. At run time the counter takes no bytes.
#[derive(Drop)]
pub struct WrapCount {
    tally: GhostCount,
}

impl Model for WrapCount {
    ghost Value = { ℕ };

    ghost view = { λ c. c.tally.number };
}

impl WrapCount {
    /// Returns a counter at 0.
    pub fn new() -> WrapCount
        ensures { result ≡ 0 }
    {
        WrapCount {
            tally: GhostCount::zero(),
        }
    }

    // Adds one. Only `Rows::counted` calls this.
    pub(crate) fn tick(&mut self)
        ensures { self.new ≡ self.old + 1 }
    {
        self.tally = self.tally.plus(1);
    }
}

impl Clone for WrapCount {
    ghost is_clone = { λ count copy. copy ≡ count };

    ghost is_infallible = { λ _. ⊤ };

    /// Returns another counter at the same number. Allocates nothing.
    fn clone(&self) -> Result<WrapCount, AllocError> {
        Ok(WrapCount {
            tally: self.tally.plus(0),
        })
    }
}
