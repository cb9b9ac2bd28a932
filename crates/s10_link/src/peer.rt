//! The address of an end.

ghost use Rattle.std.specs.Prelude.{◌≡◌, ℕ, ◌^◌, ◌<◌, List, ◌∷◌, ◌++◌, Some, IfSome, IsSomeAnd};
ghost use Rattle.std.specs.Prelude.{◌==◌, position, decimal};
ghost use Rattle.std.specs.Char.{IsAsciiDigit};

use std::{fmt, str};

/// An IPv4 address and a port.
#[derive(Clone, Copy, Debug, PartialEq, Eq)]
pub struct Peer {
    /// The four numbers of the address, in order.
    pub ip: [u8; 4],
    /// The port.
    pub port: u16,
}

impl Peer {
    ghost use Rattle.std.specs.Prelude.{◌≡◌, IfSome, Some};
    ghost use Rattle.s10_link.specs.declared.peer.Peer.{Peer};
    ghost use Rattle.s10_link.specs.Peer.{SpellsPeer};

    /// Reads an address such as `127.0.0.1:4711`, or returns `None` for any other text.
    ///
    /// No number may have a leading zero.
    pub fn read(text: &[u8]) -> Option<Peer>
        // An address that is read is the one that the text spells.
        ensures spelled { IfSome result (SpellsPeer text.now) }
        // A text that spells an address is read as that address.
        ensures read { (p : Peer) → SpellsPeer text.now p → result ≡ Some p }
    {
        let (a, rest) = octet_before(b'.', text)?;
        let (b, rest) = octet_before(b'.', rest)?;
        let (c, rest) = octet_before(b'.', rest)?;
        let (d, rest) = octet_before(b':', rest)?;
        let port = read_number(rest)?;
        Some(Peer {
            ip: [a, b, c, d],
            port,
        })
    }
}

impl fmt::Display for Peer {
    ghost use Rattle.std.specs.Prelude.{Some};
    ghost use Rattle.s10_link.specs.Peer.{peer_text};

    ghost output = { λ p. Some (peer_text p) };

    fn fmt<W: fmt::Write>(&self, f: &mut fmt::Formatter<W>) -> fmt::Result {
        let [a, b, c, d] = self.ip;
        write!(f, "{a}.{b}.{c}.{d}:{}", self.port)
    }
}

// Reads the number of one byte before the first separator, and returns it with the text after that.
fn octet_before(separator: u8, text: &[u8]) -> Option<(u8, &[u8])>
    requires { ¬ (IsAsciiDigit separator) }
    ensures spelled { IfSome result (λ read. text.now ≡ decimal read.0 ++ separator ∷ read.1.now) }
    ensures read { (n : ℕ) (rest : List ℕ) → n < 2 ^ 8 → text.now ≡ decimal n ++ separator ∷ rest
        → IsSomeAnd result (λ read. (read.0 ≡ n) × (read.1.now ≡ rest)) }
{
    let at = place_of(separator, text)?;
    let octet = u8::try_from(read_number(&text[..at])?).ok()?;
    Some((octet, &text[at + 1..]))
}

// Returns the index of the first such byte.
fn place_of(byte: u8, text: &[u8]) -> Option<usize>
    ensures { result ≡ position (λ other. other == byte) text.now }
{
    text.iter().position(|other| *other == byte)
}

// Reads a decimal number without a leading zero or a plus sign, which the parser would accept.
fn read_number(digits: &[u8]) -> Option<u16>
    ensures spelled { IfSome result (λ number. digits.now ≡ decimal number) }
    ensures read { (n : ℕ) → n < 2 ^ 16 → digits.now ≡ decimal n → result ≡ Some n }
{
    if digits.is_empty() || digits[0] == b'+' {
        return None;
    }
    if digits[0] == b'0' && digits.len() > 1 {
        return None;
    }
    str::from_utf8(digits).ok()?.parse().ok()
}
