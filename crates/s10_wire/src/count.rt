ghost use Rattle.std.specs.Prelude.{◌≡◌, SomeIff};
ghost use Rattle.s10_wire.specs.Ids.{IsCount};

use std::marker::Model;

// The greatest number of identifiers in a sheet.
const MOST: u8 = 16;

/// The number of identifiers in a sheet, 1 to 16.
#[derive(Clone, Copy, Debug, PartialEq, Eq)]
pub struct Count {
    value: u8,
}

impl Model for Count {
    ghost use Rattle.std.specs.Prelude.{ℕ};
    ghost use Rattle.s10_wire.specs.Ids.{IsCount};

    ghost Value = { ℕ };

    ghost view = { λ count. count.value };

    ghost invariant = { λ count. IsCount count.value };

    ghost inverse = { λ number. record { value = number } };
}

impl Count {
    /// Returns the count of this value, or `None` if it is 0 or above 16.
    pub fn new(value: u8) -> Option<Count>
        ensures { SomeIff result (IsCount value) value }
    {
        if 1 <= value && value <= MOST {
            Some(Count { value })
        } else {
            None
        }
    }

    /// Returns the value, 1 to 16.
    pub fn value(&self) -> u8
        ensures value { result ≡ self.now }
        ensures in_range { IsCount self.now }
    {
        self.value
    }
}
