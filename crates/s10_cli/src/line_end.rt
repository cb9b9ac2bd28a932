//! How a command line ended.

use s10_jobs::Job;

/// How a command line ended, or the job that it asks the program for.
#[derive(Clone, Copy)]
pub enum LineEnd<'a> {
    /// It ended with this exit status.
    Ended(u8),
    /// It asks the program for this job.
    Asks(Job<'a>),
}
