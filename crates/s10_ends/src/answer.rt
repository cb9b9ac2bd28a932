use s10_book::BookFault;
use s10_wire::{Frame, WireFault};

/// The server's answer to one delivery.
#[derive(Clone, Copy, Debug)]
pub enum Answer {
    /// The datagram of the reply that is owed.
    Reply(Frame),
    /// The first reason why the bytes are not a request. No reply is sent.
    Dropped(WireFault),
    /// The fault of the book, or `Full`. The request counts as lost, and may be sent again.
    Faulted(BookFault),
}
