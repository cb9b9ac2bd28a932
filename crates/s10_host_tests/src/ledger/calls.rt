//! Settings and ledgers for several of these tests.

use s10_history::Settings;
use s10_ledger::{ClosedBook, HashSeed, SqlBook};
use sqlite::{Alter, Connection, MemStore};
use std::process::Abort;

/// What an opening found of a ledger.
#[derive(Clone, Copy, Debug, PartialEq, Eq)]
pub(crate) struct LedgerSummary {
    /// The settings, from `head`.
    pub settings: Settings,
    /// The number of kept calls.
    pub len: u32,
    /// The day of the last kept call, 0 if there is none.
    pub day: u32,
}

/// Returns settings with an interval of 30 days and this limit, and aborts if it is out of range.
pub(crate) fn settings<R: Abort>(rt: &R, limit: u32) -> Settings {
    match Settings::new(30, limit) {
        Some(settings) => settings,
        None => panic!(rt; "{limit}"),
    }
}

/// Returns the summary of a ledger with an interval of 30 days and a limit of 100 calls.
pub(crate) fn whole(len: u32, day: u32) -> LedgerSummary {
    LedgerSummary {
        settings: Settings::new(30, 100).unwrap(),
        len,
        day,
    }
}

/// Returns a new ledger in memory, and aborts if there is a fault.
pub(crate) fn ledger<R: Abort + AllocGlobal>(rt: &R, settings: Settings) -> SqlBook<MemStore> {
    match SqlBook::in_memory(rt.alloc(), HashSeed::fixed(), settings) {
        Ok(book) => book,
        Err(refusal) => panic!(rt; "{}", refusal.fault),
    }
}

/// Closes a ledger, and returns its connection.
pub(crate) fn closed<S: Alter>(book: SqlBook<S>) -> Connection<S> {
    let ClosedBook {
        connection,
        committed: _,
    } = book.close();
    connection
}
