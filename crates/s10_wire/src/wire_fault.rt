use thiserror::Error;

/// Why bytes are not a request, or not a reply: the first of these that applies. Offsets count
/// bytes from 0.
#[derive(Clone, Copy, Debug, PartialEq, Eq, Error)]
pub enum WireFault {
    /// There are fewer than the 12 bytes of a header.
    #[error("a datagram has at least 12 bytes")]
    Short,
    /// The first two bytes are not 53 31, the letters S1.
    #[error("a datagram begins with the bytes 53 31")]
    Magic,
    /// The version byte is neither 01 nor 02.
    #[error("the version is neither 1 nor 2")]
    Version,
    /// The version and the kind byte do not name a request or, when a reply is decoded, a reply.
    #[error("no such kind")]
    Kind,
    /// The length is not that of the kind or, when a reply is decoded, of the kind and the outcome.
    #[error("the length is not that of the kind")]
    Length,
    /// The leftmost wrong field is at this offset.
    #[error("the field at {0} is wrong")]
    Field(u16),
    /// The outcome byte does not fit a reply to this kind of request.
    #[error("the outcome does not fit the kind")]
    Outcome,
}
