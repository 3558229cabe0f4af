//! A number that exists in proofs only.
ghost use Rattle.std.specs.Prelude.{◌≡◌, ℕ, ◌+◌};
ghost use Rattle.std.specs.Borrow.{ftrue};

use std::marker::Model;

/// A count. It takes no bytes, and its calls do nothing when they run.
#[derive(Drop)]
pub struct Tally {
    pub ghost number: { ℕ },
}

impl Model for Tally {
    ghost also_owns = { λ _. ftrue };
}

impl Tally {
    /// Returns a count of 0.
    pub fn new() -> Tally
        ensures { result.number ≡ 0 }
    {
        Tally {}
    }

    /// Returns the count plus 1.
    pub fn next(&self) -> Tally
        ensures { result.number ≡ self.now.number + 1 }
    {
        Tally {}
    }
}
