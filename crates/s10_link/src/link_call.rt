use crate::packet::Packet;
use crate::peer::Peer;
use s10_wire::Frame;

/// One call of a link, with what it carried.
#[derive(Clone, Copy)]
pub enum LinkCall {
    /// A receive that got nothing.
    Quiet,
    /// A receive of this datagram from this peer.
    Received(Peer, Packet),
    /// A receive that failed.
    FailedReceive,
    /// A send of this frame to this peer.
    Sent(Peer, Frame),
    /// A send of this frame to this peer that failed; whether the frame was sent is unknown.
    FailedSend(Peer, Frame),
}
