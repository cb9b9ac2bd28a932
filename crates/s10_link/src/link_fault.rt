use thiserror::Error;

/// Why a call of a link failed.
#[derive(Clone, Copy, Debug, PartialEq, Eq, Error)]
pub enum LinkFault {
    /// No socket could be bound to the address. A link that exists never reports it.
    #[error("the address cannot be bound")]
    Bind,
    /// Receiving failed.
    #[error("receiving failed")]
    Receive,
    /// Sending failed; whether the frame was sent is unknown.
    #[error("sending failed")]
    Send,
    /// No call is left to the link: its calls have reached the greatest u64, or its script has no
    /// send left.
    #[error("the link is spent")]
    Spent,
}
