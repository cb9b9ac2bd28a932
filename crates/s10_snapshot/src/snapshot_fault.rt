//! The reasons why the files of a ledger were not read.

use thiserror::Error;

/// The reason why a reading failed.
#[derive(Clone, Copy, Debug, PartialEq, Eq, Error)]
pub enum ReadFault {
    /// No file is at the path, in a folder that is there.
    #[error("missing")]
    Missing,
    /// Out of memory.
    #[error("memory")]
    Memory,
    /// A call of the system failed.
    #[error("store")]
    Store,
}

/// The reason why there is no snapshot.
#[derive(Clone, Copy, Debug, PartialEq, Eq, Error)]
pub enum SnapshotFault {
    /// A checkpoint restarted the log in each reading.
    #[error("busy")]
    Busy,
    /// A reading failed.
    #[error("{0}")]
    Unread(ReadFault),
}
