ghost use Rattle.std.specs.Prelude.{◌≡◌, ◌≤◌, take, length};

use std::marker::Model;

/// A received datagram, of which the first 512 bytes are kept. Packets with the same bytes are
/// equal.
#[derive(Clone, Copy, Debug, PartialEq, Eq)]
pub struct Packet {
    // The bytes, then zeros, so that equal bytes are equal in every field.
    room: [u8; 512],
    // The number of bytes, 0 to 512.
    len: usize,
}

impl Model for Packet {
    ghost use Rattle.std.specs.Prelude.{ℕ, List, take, length};
    ghost use Rattle.std.proofs.Common.{sym};
    ghost use Rattle.s10_wire.specs.Padding.{IsZeroPadded, zero_padded};

    ghost Value = { List ℕ };

    ghost view = { λ packet. take packet.len packet.room };

    ghost invariant = { λ packet. IsZeroPadded 512 packet.room packet.len };

    ghost inverse = { λ bytes. record { room = zero_padded 512 bytes; len = length bytes } };

    ghost inverse_ok = { λ packet known i. record { room = sym known.rest i; len = known.long i } };
}

impl Packet {
    ghost use Rattle.std.specs.Prelude.{◌≡◌, ◌≤◌, take, length};

    /// Returns the first 512 bytes of a datagram; any others are ignored.
    pub fn new(datagram: &[u8]) -> Packet
        ensures { result ≡ take 512 datagram.now }
    {
        let kept = front(datagram, 512);
        let len = kept.len();
        let mut room = [0u8; 512];
        room[..len].copy_from_slice(kept);
        Packet { room, len }
    }

    /// Returns the bytes, at most 512.
    pub fn bytes(&self) -> &[u8]
        ensures bytes { result.now ≡ self.now }
        ensures few { length self.now ≤ 512 }
    {
        &self.room[..self.len]
    }
}

// Returns the first `most` bytes, or all if there are fewer.
fn front(bytes: &[u8], most: usize) -> &[u8]
    ensures front { result.now ≡ take most bytes.now }
    ensures bound { length result.now ≤ most }
{
    if bytes.len() > most {
        &bytes[..most]
    } else {
        bytes
    }
}
