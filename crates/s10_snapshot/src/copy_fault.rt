use thiserror::Error;

/// The reason why a copy of a ledger was not written.
#[derive(Clone, Copy, Debug, PartialEq, Eq, Error)]
pub enum CopyFault {
    /// A file has one of its two names.
    #[error("taken")]
    Taken,
    /// A call of the system failed.
    #[error("store")]
    Store,
}
