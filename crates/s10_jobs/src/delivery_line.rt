//! Reads a line of an input: DAY, one space, HEX.
ghost use Rattle.std.specs.Prelude.{◌≡◌, ◌==◌, ◌≤◌, ◌<◌, All, IfSome, IsTrue, length, position};
ghost use Rattle.std.specs.List.{list_all};
ghost use Rattle.std.specs.Option.{option_map};
ghost use Rattle.std.specs.Char.{IsAsciiDigit, is_ascii_digit};
ghost use Rattle.s10_core.specs.Serial.{number_of};
ghost use Rattle.s10_ends.specs.Runs.{dated};
ghost use Rattle.s10_jobs.specs.InputLines.{without_return, day_of_text, bytes_in, delivery_in};

use s10_ends::Delivery;
use s10_link::Packet;

/// Returns the line without one carriage return at its end.
pub fn without_return(line: &[u8]) -> &[u8]
    ensures { result.now ≡ without_return line.now }
{
    match line {
        [front @ .., b'\r'] => front,
        _ => line,
    }
}

fn number(digits: &[u8]) -> u64
    requires few { length digits.now ≤ 10 }
    requires digits { All IsAsciiDigit digits.now }
    ensures { result ≡ number_of digits.now }
{
    let mut number = 0u64;
    for digit in digits {
        number = 10 * number + (*digit - b'0') as u64;
    }
    number
}

fn are_digits(text: &[u8]) -> bool
    ensures test { result ≡ list_all is_ascii_digit text.now }
    ensures digits { IsTrue result → All IsAsciiDigit text.now }
{
    text.iter().all(|byte| byte.is_ascii_digit())
}

// Reads a day: one to ten digits, at most 4294967295.
fn read_day(text: &[u8]) -> Option<u32>
    ensures { result ≡ day_of_text text.now }
{
    if text.is_empty() || text.len() > 10 || !are_digits(text) {
        return None;
    }
    match u32::try_from(number(text)) {
        Ok(day) => Some(day),
        Err(_) => None,
    }
}

/// Reads the bytes of a datagram: an even number of hexadecimal digits, 0 to 1024.
pub fn read_bytes(text: &[u8]) -> Option<Packet>
    ensures { result ≡ bytes_in text.now }
{
    if text.len() > 1024 {
        return None;
    }
    let mut room = [0u8; 512];
    let bytes = &mut room[..text.len() / 2];
    match hex::decode_to_slice(text, bytes) {
        Ok(()) => Some(Packet::new(bytes)),
        Err(_) => None,
    }
}

/// Returns the index of the first space.
pub fn first_space(text: &[u8]) -> Option<usize>
    ensures place { result ≡ position (λ byte. byte == 32) text.now }
    ensures within { IfSome result (λ place. place < length text.now) }
{
    text.iter().position(|byte| *byte == b' ')
}

/// Reads a delivery: DAY, one space, HEX. Returns `None` if the line is not a delivery.
///
/// A carriage return at the end of the line is ignored.
pub fn read_delivery(line: &[u8]) -> Option<Delivery>
    ensures { option_map dated result ≡ delivery_in line.now }
{
    let text = without_return(line);
    let space = first_space(text)?;
    let day = read_day(&text[..space])?;
    let packet = read_bytes(&text[space + 1..])?;
    Some(Delivery { packet, day })
}
