use s10_link::Packet;
use s10_wire::Body;

/// An event of a world. Clients and datagrams have indices from 0.
///
/// An event with an index that does not exist changes nothing. A datagram is lost if no event
/// delivers it. It may be delivered several times, and in any order.
#[derive(Clone, Copy, Debug)]
pub enum Event {
    /// The client submits a request. Only `Resend` sends it.
    Submit { client: u32, body: Body },
    /// The client sends its pending request, for the first time or again.
    Resend { client: u32 },
    /// The client stops waiting for its pending request.
    GiveUp { client: u32 },
    /// The request with this index in `asked` reaches the server on a day.
    ToServer { index: usize, day: u32 },
    /// Any bytes, sent by no client of this world, reach the server on a day.
    Strange { packet: Packet, day: u32 },
    /// The reply with this index in `replied` reaches a client, which may be another than it was
    /// sent to.
    ToClient { client: u32, index: usize },
}
