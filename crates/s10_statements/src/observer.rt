//! Observers of the creation or the opening of a ledger.

use sqlite::Error;

/// Is informed while a ledger is created or opened: of its progress, and of the error of a
/// statement that failed.
pub trait Observer {
    /// Reports that `rows` rows of this table were read so far. Called once per row of `calls`,
    /// `ranges`, `serials` and `closed`.
    fn rows_read(&mut self, table: &str, rows: u64);

    /// Reports the error of the statement that failed and ended the creation or the opening.
    fn statement_failed(&mut self, error: &Error);
}

/// An observer that ignores every report.
#[derive(Clone, Copy, Debug, Default, PartialEq, Eq)]
pub struct NoObserver;

impl Observer for NoObserver {
    fn rows_read(&mut self, _table: &str, _rows: u64) {}

    fn statement_failed(&mut self, _error: &Error) {}
}
