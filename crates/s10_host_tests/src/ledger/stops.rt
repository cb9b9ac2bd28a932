//! Ledgers over files that stop at one of their calls: a ledger of an earlier build, which had no
//! table of closed ranges, is opened, and a new ledger commits its calls.

use crate::ledger::calls::{closed, settings};
use crate::ledger::committing::{
    COMMITTED, CommitReport, UNCOMMITTED, commits_three_in, keeps_five_in,
};
use crate::ledger::tables::{OLD_LEDGER, run_batches};
use s10_book::Book;
use s10_history::Settings;
use s10_ledger::{HashSeed, NoObserver, OpenFault, Refusal, Refused, SqlBook};
use s10_test_help::expect::same;
use sqlite::{Alter, Connection, FileStore, Files, Options};
use sqlite_disk::{Crash, Disk, Fuse, Memory};
use std::alloc::Global;
use std::process::Abort;

/// How an opening ended.
#[derive(Clone, Copy, Debug, PartialEq, Eq)]
enum Ended {
    /// The files are no database.
    Unconnected,
    Refused(Refusal),
    /// With this number of calls, and the table of closed ranges.
    Found(u32),
    /// Without the table of closed ranges.
    Incomplete,
}

/// The options of a connection, and the number of calls that each file answers before it stops.
#[derive(Clone, Copy)]
struct Stops {
    options: Options,
    log: u64,
    db: u64,
}

/// A number of calls that no file reaches.
const NEVER: u64 = u64::MAX;

/// Few pages are kept in memory, and the log is copied into the database file at once. So both
/// files are called until the end.
const TIGHT: Options = Options {
    cache_pages: 2,
    spill_pages: 2,
    checkpoint_frames: 1,
    seed: 7,
};

/// What is done in a connection.
#[derive(Clone, Copy)]
enum Act {
    /// Executes the statements of the ledger of the nine calls.
    Fill,
    /// Opens its ledger.
    Open(Global),
    /// Creates a ledger with these settings and commits three calls.
    Commit(Global, Settings),
    /// Creates a ledger with these settings and keeps five calls.
    Keep(Global, Settings),
}

/// What is reported of a new ledger.
#[derive(Clone, Copy, PartialEq)]
enum Report {
    /// The ledger is not created, or no call is executed.
    Nothing,
    /// The report of a commit.
    Committed(CommitReport),
    /// The number of calls that were kept.
    Kept(u32),
}

/// Returns a file with these bytes, all synced, that stops at call `stop`, or `None` if that fails.
fn file_of(alloc: Global, bytes: &[u8], stop: u64) -> Option<Fuse<Memory>> {
    let mut file = Memory::new(alloc);
    if file.write_at(0, bytes).is_ok() && file.sync().is_ok() {
        Some(Fuse::new(file, stop))
    } else {
        None
    }
}

/// Returns files with the same bytes that stop as `stops` says, or `None` if that fails.
fn copied(alloc: Global, files: &Files<Fuse<Memory>>, stops: Stops) -> Option<Files<Fuse<Memory>>> {
    let log = file_of(alloc, files.log.inner().bytes(), stops.log)?;
    let db = file_of(alloc, files.db.inner().bytes(), stops.db)?;
    Some(Files { log, db })
}

/// Returns how the opening of a connection whose ledger has `calls` calls ended.
fn ending_of<S: Alter>(conn: &Connection<S>, calls: u32) -> Ended {
    if conn.schema().table_named(b"closed").is_some() {
        Ended::Found(calls)
    } else {
        Ended::Incomplete
    }
}

/// Opens the ledger in a connection. Returns how that ended, and the connection.
fn ledger_in<S: Alter + Drop>(alloc: Global, conn: Connection<S>) -> (Ended, Connection<S>) {
    if !conn.is_autocommit() {
        return (Ended::Unconnected, conn);
    }
    match SqlBook::open(alloc, HashSeed::fixed(), conn, &mut NoObserver) {
        Ok(book) => {
            let calls = book.len();
            let conn = closed(book);
            (ending_of(&conn, calls), conn)
        }
        Err(
            Refused {
                refusal,
                connection,
            },
        ) => (Ended::Refused(refusal), connection),
    }
}

/// Fills a connection with the ledger of the nine calls. Returns how that ended, and the
/// connection.
fn ledger_filled<S: Alter + Drop>(mut conn: Connection<S>) -> (Ended, Connection<S>) {
    let ended = if run_batches(&mut conn, &OLD_LEDGER).is_ok() {
        ending_of(&conn, 0)
    } else {
        Ended::Unconnected
    };
    (ended, conn)
}

/// Does this in a connection. Returns how that ended, what is reported of a new ledger, and the
/// store.
fn done<S: Alter + Drop>(conn: Connection<S>, act: &Act) -> (Ended, Report, S) {
    match act {
        Act::Fill => {
            let (ended, conn) = ledger_filled(conn);
            (ended, Report::Nothing, conn.into_store())
        }
        Act::Open(alloc) => {
            let (ended, conn) = ledger_in(*alloc, conn);
            (ended, Report::Nothing, conn.into_store())
        }
        Act::Commit(alloc, settings) => {
            let (committed, conn) = commits_three_in(*alloc, *settings, conn);
            let report = match committed {
                Some(report) => Report::Committed(report),
                None => Report::Nothing,
            };
            (Ended::Unconnected, report, conn.into_store())
        }
        Act::Keep(alloc, settings) => {
            let (kept, conn) = keeps_five_in(*alloc, *settings, conn);
            let report = match kept {
                Some(kept) => Report::Kept(kept),
                None => Report::Nothing,
            };
            (Ended::Unconnected, report, conn.into_store())
        }
    }
}

/// The same for a connection over files.
fn done_over<D: Disk + Drop>(
    conn: Connection<FileStore<D>>,
    act: &Act,
) -> (Ended, Report, FileStore<D>) {
    done(conn, act)
}

/// Returns these files with the ledger of the nine calls in the database file, or `None` if that
/// fails.
fn filled<D: Disk + Drop>(alloc: Global, files: Files<D>) -> Option<Files<D>> {
    if !files.may_be_used() {
        return None;
    }
    let Ok(conn) = Connection::open_files(alloc, files, Options::new(7)) else {
        return None;
    };
    let (ended, _, mut store) = done_over(conn, &Act::Fill);
    let is_written = ended == Ended::Incomplete && store.checkpoint().is_ok();
    let files = store.close();
    if is_written { Some(files) } else { None }
}

/// Returns the files of the ledger of the nine calls, or `None` if that fails.
fn old_ledger(alloc: Global) -> Option<Files<Fuse<Memory>>> {
    let log = Fuse::new(Memory::new(alloc), NEVER);
    let db = Fuse::new(Memory::new(alloc), NEVER);
    filled(alloc, Files { log, db })
}

/// The same for a connection over these files; returns the files instead of the store.
fn done_in<D: Disk + Drop>(
    alloc: Global,
    files: Files<D>,
    options: Options,
    act: &Act,
) -> (Ended, Report, Files<D>) {
    if !files.may_be_used() {
        return (Ended::Unconnected, Report::Nothing, files);
    }
    match Connection::open_files(alloc, files, options) {
        Ok(conn) => {
            let (ended, report, store) = done_over(conn, act);
            (ended, report, store.close())
        }
        Err((_, left)) => (Ended::Unconnected, Report::Nothing, left.into_files()),
    }
}

/// Opens the ledger in files. Returns how that ended, and the files.
fn opened<D: Disk + Drop>(alloc: Global, files: Files<D>, options: Options) -> (Ended, Files<D>) {
    let (ended, _, files) = done_in(alloc, files, options, &Act::Open(alloc));
    (ended, files)
}

/// Returns how the ledger opens over files with the same bytes that do not stop, or `None` if there
/// are none.
fn again(alloc: Global, files: &Files<Fuse<Memory>>) -> Option<Ended> {
    let stops = Stops {
        options: Options::new(7),
        log: NEVER,
        db: NEVER,
    };
    let (ended, _files) = opened(alloc, copied(alloc, files, stops)?, stops.options);
    Some(ended)
}

/// Opens the ledger over files that stop. Returns how that ended, and whether the ledger is then
/// whole in files that do not stop: with all bytes written, and with only the bytes synced.
fn stopped(alloc: Global, old: &Files<Fuse<Memory>>, stops: Stops) -> Option<(Ended, bool)> {
    let (ended, mut files) = opened(alloc, copied(alloc, old, stops)?, stops.options);
    let written = again(alloc, &files);
    files.log.crash();
    files.db.crash();
    let synced = again(alloc, &files);
    let whole = Some(Ended::Found(9));
    Some((ended, written == whole && synced == whole))
}

/// Returns for how many calls of one file a stop refuses the ledger with `Store` and the error of a
/// statement, before it opens and reaches no stop. Returns `None` if the ledger is refused for another reason, or is not whole
/// after a stop.
fn refused(
    alloc: Global,
    old: &Files<Fuse<Memory>>,
    options: Options,
    in_log: bool,
) -> Option<u32> {
    let mut count: u32 = 0;
    for at in 0..1000u64 {
        let (log, db) = if in_log { (at, NEVER) } else { (NEVER, at) };
        match stopped(alloc, old, Stops { options, log, db })? {
            (Ended::Found(9), true) => return Some(count),
            (
                Ended::Refused(
                    Refusal {
                        fault: OpenFault::Store,
                        cause: Some(_),
                    },
                ),
                true,
            ) => count = count.saturating_add(1),
            (Ended::Unconnected, true) => {}
            _ => return None,
        }
    }
    None
}

#[test]
fn a_ledger_whose_completion_stopped_is_whole(rt: HostRuntime) {
    let Some(old) = old_ledger(rt.alloc()) else {
        panic!(rt; "old ledger");
    };
    let plain = Options::new(7);
    let counts = [
        refused(rt.alloc(), &old, plain, true),
        refused(rt.alloc(), &old, TIGHT, true),
        refused(rt.alloc(), &old, TIGHT, false),
        refused(rt.alloc(), &old, plain, false),
    ];
    let are_met = [
        0 < counts[0].unwrap_or(0),
        0 < counts[1].unwrap_or(0),
        0 < counts[2].unwrap_or(0),
        counts[3].is_some(),
    ];
    assert!(rt; same(&rt, &counts, &are_met, &[true; 4]));
}

/// Does this over empty files that stop. Returns what is reported, and how the ledger then opens in
/// files that do not stop, with only the bytes synced.
fn done_until(alloc: Global, act: &Act, stops: Stops) -> Option<(Report, Ended)> {
    let log = Fuse::new(Memory::new(alloc), stops.log);
    let db = Fuse::new(Memory::new(alloc), stops.db);
    let (_, report, mut files) = done_in(alloc, Files { log, db }, stops.options, act);
    files.log.crash();
    files.db.crash();
    Some((report, again(alloc, &files)?))
}

/// Returns whether each call that was reported as committed is found, and no other call, except all
/// those of a commit that failed. Returns `None` if no stop was met.
fn stands(report: Report, ended: Ended) -> Option<bool> {
    match (report, ended) {
        (Report::Nothing, _) => Some(true),
        (Report::Committed(report), Ended::Found(5)) if report == COMMITTED => None,
        (Report::Committed(report), Ended::Found(2 | 5)) => Some(report == UNCOMMITTED),
        (Report::Kept(5), Ended::Found(5)) => None,
        (Report::Kept(kept), Ended::Found(found)) => {
            Some(kept < 5 && (found == kept || found == kept + 1))
        }
        _ => Some(false),
    }
}

/// Returns for how many calls of one file a stop makes the act fail once the ledger is created.
/// Returns `None` if a call that was reported as committed is lost, or another call is found.
fn failures(alloc: Global, act: &Act, options: Options, in_log: bool) -> Option<u32> {
    let mut count: u32 = 0;
    for at in 0..2000u64 {
        let (log, db) = if in_log { (at, NEVER) } else { (NEVER, at) };
        let (report, ended) = done_until(alloc, act, Stops { options, log, db })?;
        match stands(report, ended) {
            None => return Some(count),
            Some(true) => {
                if report != Report::Nothing {
                    count = count.saturating_add(1);
                }
            }
            Some(false) => return None,
        }
    }
    None
}

/// The same for the log, for the log that is copied at once, and for the database file into which
/// it is copied.
fn failures_of_each_file(alloc: Global, act: &Act) -> [Option<u32>; 3] {
    [
        failures(alloc, act, Options::new(7), true),
        failures(alloc, act, TIGHT, true),
        failures(alloc, act, TIGHT, false),
    ]
}

/// Returns for each file whether a stop made the act fail, and every call reported as committed was
/// found.
fn are_met(counts: &[Option<u32>; 3]) -> [bool; 3] {
    [
        counts[0].is_some_and(|count| 0 < count),
        counts[1].is_some_and(|count| 0 < count),
        counts[2].is_some_and(|count| 0 < count),
    ]
}

#[test]
fn a_failed_commit_commits_all_pending_calls_or_none(rt: HostRuntime) {
    let act = Act::Commit(rt.alloc(), settings(&rt, 100));
    let counts = failures_of_each_file(rt.alloc(), &act);
    assert!(rt; same(&rt, &counts, &are_met(&counts), &[true; 3]));
}

#[test]
fn a_kept_call_is_found_after_a_stop(rt: HostRuntime) {
    let act = Act::Keep(rt.alloc(), settings(&rt, 100));
    let counts = failures_of_each_file(rt.alloc(), &act);
    assert!(rt; same(&rt, &counts, &are_met(&counts), &[true; 3]));
}
