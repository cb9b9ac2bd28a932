//! What a look at a snapshot of a ledger returns besides its result.

use s10_snapshot::HostSource;
use sqlite::{Connection, FileStore};
use sqlite_disk::Memory;

/// A connection to a database on a disk in memory.
pub type MemoryConnection = Connection<FileStore<Memory>>;

/// The resources of a look.
#[derive(Drop)]
pub struct SnapshotResources<'a> {
    /// What read the files of the ledger.
    pub source: HostSource<'a>,
    /// The connection to their bytes, if these were opened as a database.
    pub left: Option<MemoryConnection>,
}
