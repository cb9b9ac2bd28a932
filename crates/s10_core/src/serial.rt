ghost use Rattle.std.specs.Prelude.{◌≡◌, SomeIff};
ghost use Rattle.s10_core.specs.Serial.{IsSerial, AreEightDigits, number_of};

use std::marker::Model;

// The greatest serial number.
const LAST: u32 = 99_999_999;

/// A serial number, 0 to 99,999,999: the eight digits of an identifier before its check digit (UPU
/// S10).
///
/// No serial number is reserved: this project's choice, see docs/IDENTIFIERS.md.
#[derive(Clone, Copy, Debug, PartialEq, Eq)]
pub struct Serial {
    value: u32,
}

impl Model for Serial {
    ghost use Rattle.std.specs.Prelude.{ℕ};
    ghost use Rattle.s10_core.specs.Serial.{IsSerial};

    ghost Value = { ℕ };

    ghost view = { λ serial. serial.value };

    ghost invariant = { λ serial. IsSerial serial.value };

    ghost inverse = { λ number. record { value = number } };
}

impl Serial {
    /// Returns the serial number of this value, or `None` if it is above 99,999,999.
    pub fn new(value: u32) -> Option<Serial>
        ensures { SomeIff result (IsSerial value) value }
    {
        if value <= LAST {
            Some(Serial { value })
        } else {
            None
        }
    }

    /// Reads a serial number from exactly eight ASCII digits, for example 00000008.
    ///
    /// Returns `None` for any other text.
    pub fn read(digits: &[u8]) -> Option<Serial>
        ensures { SomeIff result (AreEightDigits digits.now) (number_of digits.now) }
    {
        if digits.len() != 8 {
            return None;
        }
        let mut value: u32 = 0;
        for digit in digits {
            if !digit.is_ascii_digit() {
                return None;
            }
            value = 10 * value + (*digit - b'0') as u32;
        }
        Some(Serial { value })
    }

    /// Returns the value, 0 to 99,999,999.
    pub fn value(&self) -> u32
        ensures value { result ≡ self.now }
        ensures in_range { IsSerial self.now }
    {
        self.value
    }
}
