use s10_book::BookFault;
use s10_link::{LinkFault, Peer};
use s10_wire::{Frame, WireFault};

/// The result of one turn of a server, with the sender of the datagram if there was one.
#[derive(Clone, Copy, Debug, PartialEq, Eq)]
pub enum ServerTurn {
    /// No datagram was received.
    Quiet,
    /// The first reason why the datagram is not a request.
    Dropped(Peer, WireFault),
    /// The fault because of which the request has no reply. The request may be sent again.
    Faulted(Peer, BookFault),
    /// The fault because of which the call is uncommitted, so that its reply was not sent. If the
    /// request is sent again, it gets its reply once the call is committed.
    Uncommitted(Peer, BookFault),
    /// The frame that was sent to the peer.
    Replied(Peer, Frame),
}

/// A turn of a server, or the fault of its receive or send.
pub type Turn = Result<ServerTurn, LinkFault>;
