//! The digits of an identifier.
ghost use Rattle.std.specs.Prelude.{◌≡◌, ◌+◌, ◌%◌, ◌≤◌};
ghost use Rattle.s10_core.specs.Serial.{IsSerial, check_digit_of, digits_of, character_of};

use crate::serial::Serial;

/// Returns the check digit of a serial number, 0 to 9 (UPU S10).
///
/// The eight digits, from the left, are multiplied by the weights 8, 6, 4, 2, 3, 5, 9 and 7 and
/// summed. The check digit is 11 minus the remainder of the sum by 11, with 10 written as 0 and 11
/// as 5. It does not find every wrong digit: 00000000 and 00000004 both have 5.
#[tactic(auto, unfolding(crate::specs::Serial::check_digit_of))]
pub fn check_digit(serial: Serial) -> u8
    ensures digit { result ≡ check_digit_of serial }
    ensures in_range { result ≤ 9 }
{
    let value = serial.value();
    let sum = 8 * (value / 10_000_000 % 10)
        + 6 * (value / 1_000_000 % 10)
        + 4 * (value / 100_000 % 10)
        + 2 * (value / 10_000 % 10)
        + 3 * (value / 1_000 % 10)
        + 5 * (value / 100 % 10)
        + 9 * (value / 10 % 10)
        + 7 * (value % 10);
    match 11 - sum % 11 {
        10 => 0,
        11 => 5,
        check => check as u8,
    }
}

/// Returns the eight digits of a serial number as ASCII characters, with leading zeros.
pub fn serial_digits(serial: Serial) -> [u8; 8]
    ensures digits { result ≡ digits_of serial }
    ensures in_range { IsSerial serial }
{
    let value = serial.value();
    [
        last_digit(value / 10_000_000),
        last_digit(value / 1_000_000),
        last_digit(value / 100_000),
        last_digit(value / 10_000),
        last_digit(value / 1_000),
        last_digit(value / 100),
        last_digit(value / 10),
        last_digit(value),
    ]
}

fn last_digit(number: u32) -> u8
    ensures { result ≡ character_of (number % 10) }
{
    b'0' + (number % 10) as u8
}
