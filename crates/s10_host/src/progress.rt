//! Prints the progress of the creation or opening of a ledger in a file to standard error.

use s10_ledger::{Observer, OpenFault, Refusal};
use sqlite::Error;
use std::time::{Duration, Instant};

/// The number of rows that are read between two reads of the clock.
const ROWS_PER_CLOCK_READ: u64 = 4096;

/// An observer that prints the progress of an opening to standard error, at most once a second, and
/// the error of a statement that failed.
///
/// The job goes on even if standard error is closed.
#[derive(Drop)]
pub(crate) struct Progress<'a> {
    rt: &'a HostRuntime,
    path: &'a str,
    // When it printed progress last.
    spoke: Option<Instant>,
}

impl<'a> Progress<'a> {
    pub(crate) fn new(rt: &'a HostRuntime, path: &'a str) -> Progress<'a> {
        let spoke = Instant::now(rt).ok();
        Progress { rt, path, spoke }
    }

    // Prints why no ledger was created, if no statement failed.
    pub(crate) fn eprint_not_created(&self, refusal: &Refusal) {
        if refusal.fault == OpenFault::Store && refusal.cause.is_none() {
            let _ = eprintln!(self.rt;
                "cannot create a ledger in {}: it has tables of its own",
                self.path
            );
        }
    }

    // Returns whether it has printed nothing for a second.
    fn is_due(&self) -> bool {
        let Some(spoke) = self.spoke else {
            return false;
        };
        match spoke.elapsed(self.rt) {
            Ok(silent) => silent >= Duration::from_secs(1),
            Err(_) => false,
        }
    }
}

impl Observer for Progress<'_> {
    fn rows_read(&mut self, table: &str, rows: u64) {
        if rows % ROWS_PER_CLOCK_READ == 0 && self.is_due() {
            self.spoke = Instant::now(self.rt).ok();
            let _ = eprintln!(self.rt; "opening {}: {rows} rows of {table} read", self.path);
        }
    }

    fn statement_failed(&mut self, error: &Error) {
        let _ = eprintln!(self.rt; "cannot use {}: {error}", self.path);
    }
}
