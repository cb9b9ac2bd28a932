//! A client as a C struct.
use crate::plain_frame::PlainFrame;

/// A client of one customer. The caller owns it and stores it; any values are allowed.
#[repr(C)]
#[derive(Clone, Copy, Debug, PartialEq, Eq)]
pub struct PlainClient {
    /// The number of request numbers taken, 0 to 2^32.
    pub taken: u64,
    /// The customer; 0 is the post.
    pub customer: u32,
    /// The first request number.
    pub first: u32,
    /// The last request number.
    pub last: u32,
    /// The datagram of the pending request, to send and send again; no bytes if none is pending.
    pub pending: PlainFrame,
}
