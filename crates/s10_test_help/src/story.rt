//! A story of three clients.

use crate::asked::Asked;

/// An event of a world.
#[derive(Clone, Copy)]
pub enum Happens {
    /// The client, and what it asks.
    Submit(u32, Asked),
    /// The client.
    Resend(u32),
    /// The client.
    GiveUp(u32),
    /// The index of a frame sent by a client, and the day of its delivery.
    ToServer(usize, u32),
    /// The bytes of a datagram that no client sent, and the day of its delivery.
    Strange(&'static [u8], u32),
    /// The client, and the index of a frame sent by the server.
    ToClient(u32, usize),
}

/// The post grants three serials. Two clients of customer 7 draw: the second's request arrives
/// first, both arrive twice, and the second client gives up before its reply arrives.
pub const STORY: &'static [Happens] = &[
    Happens::Submit(0, Asked::Grant(7, 0, 2)),
    Happens::Resend(0),
    Happens::ToServer(0, 20_000),
    Happens::ToClient(0, 0),
    Happens::Submit(1, Asked::Draw),
    Happens::Resend(1),
    Happens::Submit(2, Asked::Draw),
    Happens::Resend(2),
    Happens::ToServer(2, 20_000),
    Happens::ToServer(1, 20_000),
    Happens::ToServer(2, 20_001),
    Happens::ToServer(1, 20_001),
    Happens::ToClient(1, 1),
    Happens::GiveUp(2),
    Happens::ToClient(2, 1),
    Happens::ToClient(1, 2),
    Happens::ToClient(1, 4),
    Happens::ToServer(9, 20_000),
];
