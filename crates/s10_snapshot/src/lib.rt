//! Part of `s10_host`, split off for the prover alone: the bytes of a ledger's file and of its log,
//! read while another process may change them, and written to a new pair of files.
#![tactic(auto)]

mod copy;
mod copy_call;
mod copy_fault;
mod host_source;
mod host_target;
mod in_memory;
mod ledger_bytes;
mod part;
mod read_call;
mod reading;
mod snapshot;
mod snapshot_fault;
mod source;
mod target;

pub use copy::write_copy;
pub use copy_call::CopyCall;
pub use copy_fault::CopyFault;
pub use host_source::HostSource;
pub use host_target::HostTarget;
pub use in_memory::memory_files;
pub use ledger_bytes::LedgerBytes;
pub use part::Part;
pub use read_call::ReadCall;
pub use reading::{Reading, read_files};
pub use snapshot::take_snapshot;
pub use snapshot_fault::{ReadFault, SnapshotFault};
pub use source::Source;
pub use target::Target;
