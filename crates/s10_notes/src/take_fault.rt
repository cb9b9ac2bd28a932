use thiserror::Error;

/// The reason why notes give no number to a request: the first variant that applies.
#[derive(Clone, Copy, Debug, PartialEq, Eq, Error)]
pub enum TakeFault {
    /// The request before has no reply yet.
    #[error("unanswered")]
    Unanswered,
    /// The last number was used.
    #[error("numbers-spent")]
    NumbersSpent,
}
