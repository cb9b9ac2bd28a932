use crate::packet::Packet;
use crate::peer::Peer;

/// The result of one receive of a scripted link.
#[derive(Clone, Copy, Debug, PartialEq, Eq)]
pub enum Receipt {
    /// This datagram arrives from this peer.
    Deliver(Peer, Packet),
    /// Nothing arrives.
    Nothing,
    /// The receive fails.
    Fail,
}
