//! Commits of a ledger whose log has space for only some of the calls.
//!
//! A log is extended before it is full. So one that cannot be extended has some space left.

use crate::ledger::calls::settings;
use crate::ledger::narrow_disk::NarrowDisk;
use crate::ledger::served_files::{calls_in, file_of};
use s10_book::{Batched, Book, BookFault, GroupCommit};
use s10_history::Settings;
use s10_ledger::{ClosedBook, HashSeed, NoObserver, Refused, SqlBook};
use s10_test_help::asked::Asked;
use s10_test_help::expect::holds;
use s10_test_help::steps::{answer, request};
use sqlite::{Alter, Connection, FileStore, Files, Options};
use sqlite_disk::{Disk, Memory};
use std::alloc::Global;

/// The number of sheets of one commit.
const SHEETS: u32 = 64;

/// How a commit of sheets ended.
#[derive(Clone, Copy, Debug, PartialEq, Eq)]
struct Ended {
    answer: Result<(), BookFault>,
    /// How many sheets are committed.
    committed: u32,
    /// Whether these are the first ones.
    in_order: bool,
}

/// The same, with the number of calls found afterwards, and the bytes that the log took.
#[derive(Clone, Copy, Debug, PartialEq, Eq)]
struct Outcome {
    ended: Ended,
    calls: Option<u32>,
    log: usize,
}

/// Returns whether the book commits a Grant.
fn commits_grant<B: GroupCommit>(book: &mut B) -> bool {
    let grant = request(0, 1, Asked::Grant(7, 0, 9_999));
    answer(book, &grant, 20_000).is_ok() && book.commit().is_ok()
}

/// Returns whether the book appends these sheets of 16 identifiers.
fn appends_sheets<B: Book>(book: &mut B, sheets: u32) -> bool {
    for number in 0..sheets {
        if answer(book, &request(7, number, Asked::DrawMany(16)), 20_000).is_err() {
            return false;
        }
    }
    true
}

/// Returns how a commit of these sheets with this answer ended.
fn ending_of<B: GroupCommit>(book: &B, sheets: u32, answer: Result<(), BookFault>) -> Ended {
    let mut committed: u32 = 0;
    let mut in_order = true;
    for number in 0..sheets {
        if book.is_committed(7, number) {
            in_order = in_order && committed == number;
            committed = committed.saturating_add(1);
        }
    }
    Ended {
        answer,
        committed,
        in_order,
    }
}

/// Commits a Grant and then sheets in a ledger, and closes it. Returns how the last commit ended, or
/// `None` if there was none, and the connection.
fn committed<S: Alter>(book: SqlBook<S>, sheets: u32) -> (Option<Ended>, Connection<S>) {
    let mut book = Batched::new(book);
    let mut ended = None;
    if commits_grant(&mut book) && appends_sheets(&mut book, sheets) {
        let answer = book.commit();
        ended = Some(ending_of(&book, sheets, answer));
    }
    let ClosedBook {
        connection,
        committed: _,
    } = book.into_inner().close();
    (ended, connection)
}

/// Does the same in a new ledger, and returns the store.
fn committed_in<S: Alter + Drop>(
    alloc: Global,
    conn: Connection<S>,
    settings: Settings,
    sheets: u32,
) -> (Option<Ended>, S) {
    if !conn.is_autocommit() {
        return (None, conn.into_store());
    }
    match SqlBook::create(alloc, HashSeed::fixed(), conn, settings, &mut NoObserver) {
        Ok(book) => {
            let (ended, conn) = committed(book, sheets);
            (ended, conn.into_store())
        }
        Err(
            Refused {
                refusal: _,
                connection,
            },
        ) => (None, connection.into_store()),
    }
}

/// Does the same over a connection to files.
fn committed_over<D: Disk + Drop>(
    alloc: Global,
    conn: Connection<FileStore<D>>,
    settings: Settings,
    sheets: u32,
) -> (Option<Ended>, Files<D>) {
    let (ended, store) = committed_in(alloc, conn, settings, sheets);
    (ended, store.close())
}

/// Returns the number of calls of the ledger in copies of these files, which have space.
fn calls_found(alloc: Global, files: &Files<NarrowDisk<Memory>>) -> Option<u32> {
    let files = Files {
        log: file_of(alloc, files.log.inner().bytes())?,
        db: file_of(alloc, files.db.inner().bytes())?,
    };
    if !files.may_be_used() {
        return None;
    }
    let conn = Connection::open_files(alloc, files, Options::new(7)).ok()?;
    calls_in(alloc, conn)
}

/// Commits these sheets over a log with space for `room` bytes.
fn outcome_of(alloc: Global, settings: Settings, room: usize, sheets: u32) -> Option<Outcome> {
    let files = Files {
        log: NarrowDisk::new(Memory::new(alloc), room),
        db: NarrowDisk::new(Memory::new(alloc), usize::MAX),
    };
    if !files.may_be_used() {
        return None;
    }
    let conn = Connection::open_files(alloc, files, Options::new(7)).ok()?;
    let (ended, files) = committed_over(alloc, conn, settings, sheets);
    Some(Outcome {
        ended: ended?,
        calls: calls_found(alloc, &files),
        log: files.log.reach(),
    })
}

/// Commits the sheets over a log that cannot be extended after the Grant.
fn outcome_on_full_disk(alloc: Global, settings: Settings) -> Option<Outcome> {
    let granted = outcome_of(alloc, settings, usize::MAX, 0)?;
    outcome_of(alloc, settings, granted.log, SHEETS)
}

/// Returns whether the first sheets, but not all, are committed, and found after the Grant.
fn is_partial(outcome: &Outcome) -> bool {
    let Ended {
        answer,
        committed,
        in_order,
    } = outcome.ended;
    answer == Err(BookFault::Store)
        && 0 < committed
        && committed < SHEETS
        && in_order
        && outcome.calls == Some(committed.saturating_add(1))
}

#[test]
fn a_commit_writes_the_first_calls_that_fit(rt: HostRuntime) {
    let outcome = outcome_on_full_disk(rt.alloc(), settings(&rt, 100));
    assert!(rt;
        holds(
            &rt,
            &outcome,
            outcome.is_some_and(|outcome| is_partial(&outcome))
        )
    );
}
