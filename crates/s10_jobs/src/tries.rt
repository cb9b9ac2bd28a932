ghost use Rattle.std.specs.Prelude.{◌≡◌, ◌≤◌, SomeIff};

use std::marker::Model;

/// The maximum number of tries of a call: 1 to 100. The limits are this project's choice.
#[derive(Clone, Copy, Debug, PartialEq, Eq)]
pub struct Tries {
    count: u32,
}

impl Model for Tries {
    ghost use Rattle.std.specs.Prelude.{ℕ, ◌≤◌};

    ghost Value = { ℕ };

    ghost view = { λ tries. tries.count };

    ghost invariant = { λ tries. (1 ≤ tries.count) × (tries.count ≤ 100) };

    ghost inverse = { λ number. record { count = number } };
}

impl Tries {
    /// Returns `count` tries, or `None` if it is 0 or above 100.
    pub fn new(count: u32) -> Option<Tries>
        ensures { SomeIff result ((1 ≤ count) × (count ≤ 100)) count }
    {
        if 1 <= count && count <= 100 {
            Some(Tries { count })
        } else {
            None
        }
    }

    /// Returns the number of tries, 1 to 100.
    pub fn count(&self) -> u32
        ensures value { result ≡ self.now }
        ensures range { (1 ≤ result) × (result ≤ 100) }
    {
        self.count
    }
}
