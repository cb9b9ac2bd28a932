//! What a loop returns besides its result.

use s10_link::UdpLink;
use sqlite::{Connection, MemStore};

/// The resources of a loop.
#[derive(Drop)]
pub struct LoopResources {
    /// The connection of the ledger in memory.
    pub connection: Connection<MemStore>,
    /// The socket that the ledger was served on.
    pub far: UdpLink,
    /// The socket that the calls were made over.
    pub near: UdpLink,
}
