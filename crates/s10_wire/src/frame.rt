use std::marker::Model;

/// A datagram to send: at most 256 bytes. Frames with the same bytes are equal.
#[derive(Clone, Copy, Debug, PartialEq, Eq)]
pub struct Frame {
    // The bytes, then zeros, so that equal bytes are equal in every field.
    room: [u8; 256],
    // The number of bytes, 0 to 256.
    len: usize,
}

impl Model for Frame {
    ghost use Rattle.std.specs.Prelude.{ℕ, List, take, length};
    ghost use Rattle.std.proofs.Common.{sym};
    ghost use Rattle.s10_wire.specs.Padding.{IsZeroPadded, zero_padded};

    ghost Value = { List ℕ };

    ghost view = { λ frame. take frame.len frame.room };

    ghost invariant = { λ frame. IsZeroPadded 256 frame.room frame.len };

    ghost inverse = { λ bytes. record { room = zero_padded 256 bytes; len = length bytes } };

    ghost inverse_ok = { λ frame known i. record { room = sym known.rest i; len = known.long i } };
}

impl Frame {
    ghost use Rattle.std.specs.Prelude.{◌≡◌, ◌+◌, ◌≤◌, ◌++◌, [], length};

    /// Returns the bytes to send.
    pub fn bytes(&self) -> &[u8]
        ensures bytes { result.now ≡ self.now }
        ensures few { length self.now ≤ 256 }
    {
        &self.room[..self.len]
    }

    /// Returns a frame without bytes.
    pub(crate) fn new() -> Frame
        ensures bytes { result ≡ [] }
        ensures len { length result ≡ 0 }
    {
        Frame {
            room: [0; 256],
            len: 0,
        }
    }

    /// Appends bytes. There must be space for them: at most 256 bytes in all.
    pub(crate) fn put(&mut self, bytes: &[u8])
        requires { length self.old + length bytes.now ≤ 256 }
        ensures bytes { self.new ≡ self.old ++ bytes.now }
        ensures len { length self.new ≡ length self.old + length bytes.now }
    {
        let end = self.len + bytes.len();
        self.room[self.len..end].copy_from_slice(bytes);
        self.len = end;
    }
}
