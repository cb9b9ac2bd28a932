//! The datagram of a request as a C struct.
ghost use Rattle.std.specs.Prelude.{◌≡◌, ◌≤◌, length};
ghost use Rattle.s10_wire.specs.Padding.{zero_padded};
ghost use Rattle.s10_plain.specs.Requests.{frame_of};

/// The datagram of a request, or no bytes.
#[repr(C)]
#[derive(Clone, Copy, Debug, PartialEq, Eq)]
pub struct PlainFrame {
    /// The number of bytes, 0 to 28.
    pub len: usize,
    /// The bytes, padded with zeros.
    pub bytes: [u8; 28],
}

fn padded(sent: &[u8]) -> [u8; 28]
    requires { length sent.now ≤ 28 }
    ensures { result ≡ zero_padded 28 sent.now }
{
    let mut bytes = [0u8; 28];
    bytes[..sent.len()].copy_from_slice(sent);
    bytes
}

/// Returns the C struct of up to 28 bytes.
pub fn frame(sent: &[u8]) -> PlainFrame
    requires { length sent.now ≤ 28 }
    ensures { result ≡ frame_of sent.now }
{
    PlainFrame {
        len: sent.len(),
        bytes: padded(sent),
    }
}
