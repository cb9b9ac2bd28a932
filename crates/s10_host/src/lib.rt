//! The jobs over ledgers in tables, and over the files, sockets and clock of the system.
#![tactic(auto)]

mod ask;
mod audit;
mod audit_file;
mod closing;
mod copy;
mod copy_resources;
mod create;
mod drawn_seed;
mod emptied;
mod files;
mod job_end;
mod job_resources;
mod jobs;
mod ledger_file;
mod log_before;
mod loop_resources;
mod looping;
mod notes;
mod opened_files;
mod progress;
mod report;
mod report_over;
mod serve;
mod snapshot;
mod snapshot_job;
mod snapshot_resources;
mod until_file;

pub use audit::run_audit;
pub use copy_resources::CopyResources;
pub use files::ClosedFiles;
pub use job_end::JobEnd;
pub use job_resources::JobResources;
pub use jobs::run_job;
pub use loop_resources::LoopResources;
pub use looping::run_loop;
pub use s10_ledger::HashSeed;
pub use snapshot_job::SnapshotJob;
pub use snapshot_resources::{MemoryConnection, SnapshotResources};
