//! What a copy of a ledger returns besides its result.

use crate::snapshot_resources::MemoryConnection;
use s10_snapshot::{HostSource, HostTarget};

/// The resources of a copy.
#[derive(Drop)]
pub struct CopyResources<'a> {
    /// What read the files of the ledger.
    pub source: HostSource<'a>,
    /// What wrote the files of the copy.
    pub target: HostTarget<'a>,
    /// What read the files of the copy.
    pub again: HostSource<'a>,
    /// The connection to the bytes of the copy, if these were opened as a database.
    pub left: Option<MemoryConnection>,
}
