//! Laws of frames and packets.

ghost use Rattle.std.specs.Prelude.{◌≤◌, length};

use crate::packet::Packet;
use s10_wire::Frame;

/// States that a frame has at most 256 bytes, and a packet at most 512.
pub fn datagrams_fit(frame: &Frame, packet: &Packet)
    ensures frame { length frame.now ≤ 256 }
    ensures packet { length packet.now ≤ 512 }
{
    // Brings the bounds of both lengths into scope.
    let _ = frame.bytes();
    let _ = packet.bytes();
}
