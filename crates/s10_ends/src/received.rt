use s10_wire::{Reply, WireFault};

/// The result of a datagram that reached a client: the first variant that applies.
#[derive(Clone, Copy, Debug, PartialEq, Eq)]
pub enum Received {
    /// The first reason why the datagram is not a reply.
    Malformed(WireFault),
    /// A reply, but no request is pending.
    Idle,
    /// A reply to another request than the pending one.
    NotMine,
    /// The reply to the pending request. The client is idle after it.
    Accepted(Reply),
}
