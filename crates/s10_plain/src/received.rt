use s10_wire::{Outcome, WireFault};

/// What a received datagram is to the request that was sent: the first variant that applies.
#[derive(Clone, Copy, Debug, PartialEq, Eq)]
pub enum Received {
    /// No reply.
    Malformed(WireFault),
    /// A reply, but the bytes that were sent are no request.
    Idle,
    /// A reply to another request.
    NotMine,
    /// The reply to the request that was sent.
    Accepted(Outcome),
}
