//! Datagrams that are delivered to a server, with their expected answers.

use crate::datagrams as bytes;
use s10_book::BookFault;
use s10_wire::WireFault;

/// The expected answer to a delivery.
#[derive(Clone, Copy)]
pub enum Want {
    /// The bytes of the reply.
    Reply(&'static [u8]),
    Dropped(WireFault),
    Faulted(BookFault),
}

/// The day, the datagram, and its expected answer.
pub type Delivered = (u32, &'static [u8], Want);

/// The post grants range 1 to customer 7: RA GB 0 to 2.
pub const GRANT: Delivered = (20_000, bytes::GRANT, Want::Reply(bytes::GRANTED));

/// Customer 7's first Draw, which gets serial 0.
pub const DRAW: Delivered = (20_000, bytes::DRAW, Want::Reply(bytes::DRAWN));
