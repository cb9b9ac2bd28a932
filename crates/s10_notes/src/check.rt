//! The check value of a text.

ghost use Rattle.std.specs.Prelude.{◌≡◌};
ghost use Rattle.s10_notes.specs.CheckValue.{after_byte, check_digits, times_x, times_x4};
ghost use Rattle.s10_notes.specs.CheckValue as specs;

// The coefficients of the generator, that of x^0 in bit 31. Bit 0 is that of x^31.
const GENERATOR: u32 = 0xEDB8_8320;

/// Returns the check value of a text: its CRC-32, as IEEE 802.3 and zlib have it.
pub fn check_value(text: &[u8]) -> u32
    ensures { result ≡ specs.check_value text.now }
{
    let mut remainder = u32::MAX;
    for byte in text {
        remainder = after_byte(remainder, *byte);
    }
    u32::MAX - remainder
}

/// Returns the check value of a text in eight lower-case hexadecimal digits.
pub(crate) fn check_digits(text: &[u8]) -> [u8; 8]
    ensures { result ≡ check_digits text.now }
{
    let mut digits = [0u8; 8];
    match hex::encode_to_slice(check_value(text).to_be_bytes(), &mut digits) {
        Ok(()) => digits,
        Err(_) => unreachable!(),
    }
}

// Returns the remainder after one more byte.
fn after_byte(remainder: u32, byte: u8) -> u32
    ensures { result ≡ after_byte remainder byte }
{
    times_x4(times_x4(remainder ^ byte as u32))
}

// Returns the remainder times x^4.
fn times_x4(remainder: u32) -> u32
    ensures { result ≡ times_x4 remainder }
{
    times_x(times_x(times_x(times_x(remainder))))
}

// Returns the remainder times x.
fn times_x(remainder: u32) -> u32
    ensures { result ≡ times_x remainder }
{
    if remainder % 2 == 1 {
        (remainder / 2) ^ GENERATOR
    } else {
        remainder / 2
    }
}
