//! An unbounded number that only contracts see. It has no bytes, and its functions do nothing.
//!
//! The two functions are proved by hand; such a proof could set any number, so no other code
//! makes a `GhostCount`.
ghost use Rattle.std.specs.Prelude.{◌≡◌, ℕ, ◌+◌};
ghost use Rattle.std.specs.Borrow.{ftrue};

use std::marker::{Model, PhantomData};

/// A number that only contracts see.
#[derive(Drop)]
pub struct GhostCount {
    marker: PhantomData<u8>,
    pub ghost number: { ℕ },
}

impl Model for GhostCount {
    ghost also_owns = { λ _. ftrue };
}

impl GhostCount {
    /// Returns a tally at 0.
    pub fn zero() -> GhostCount
        ensures { result.number ≡ 0 }
    {
        GhostCount {
            marker: PhantomData,
        }
    }

    /// Returns a tally at a number that is greater by the amount.
    pub fn plus(&self, amount: usize) -> GhostCount
        ensures { result.number ≡ self.now.number + amount }
    {
        GhostCount {
            marker: PhantomData,
        }
    }
}
