use thiserror::Error;

/// Why a call of a book failed. Such a call changes nothing of an honest book but the fault counts.
#[derive(Clone, Copy, Debug, PartialEq, Eq, Error)]
pub enum BookFault {
    /// Memory that the call needed was refused.
    #[error("memory")]
    Memory,
    /// The store beneath the book failed, or held data that no book wrote.
    #[error("store")]
    Store,
    /// The ledger holds as many calls as its limit. No call of a book returns it: a server does,
    /// before it asks the book.
    #[error("full")]
    Full,
}
