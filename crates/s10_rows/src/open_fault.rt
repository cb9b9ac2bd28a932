use thiserror::Error;

/// Why a ledger could not be created or opened.
#[derive(Clone, Copy, Debug, PartialEq, Eq, Error)]
pub enum OpenFault {
    /// The tables are not those of a ledger, another table refers to one of them, or an index is on
    /// one. Or `head` is not one row with settings in their limits.
    #[error("not-a-ledger")]
    NotALedger,
    /// The schema number, which is not 1.
    #[error("schema {0}")]
    Schema(i64),
    /// The arrival, from 1, of the first wrong call. 0 if all calls are right and the derived rows
    /// are not those of the calls.
    #[error("damaged {0}")]
    Damaged(u32),
    /// A table with one of the five names exists already.
    #[error("not-empty")]
    NotEmpty,
    /// Out of memory.
    #[error("memory")]
    Memory,
    /// A statement failed that should succeed, or the database of a new ledger is not empty.
    #[error("store")]
    Store,
}
