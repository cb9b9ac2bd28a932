use crate::answer::Answer;
use s10_link::{Packet, Peer};

/// A datagram that a server received, with its sender and the server's answer.
#[derive(Clone, Copy, Debug)]
pub struct Exchange {
    /// The sender.
    pub from: Peer,
    /// The bytes received.
    pub packet: Packet,
    /// The answer of the server, before anything is committed or sent.
    pub answer: Answer,
}
