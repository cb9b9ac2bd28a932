//! How a job ended.

use crate::job_resources::JobResources;
use s10_jobs::JobStatus;
use s10_lines::WriteFault;

/// The end of a job. `F` represents the files of a ledger, closed.
#[derive(Drop)]
pub struct JobEnd<'a, F> {
    /// Its status, unless the output failed.
    pub done: Result<JobStatus, WriteFault>,
    /// Its resources.
    pub resources: JobResources<'a, F>,
}
