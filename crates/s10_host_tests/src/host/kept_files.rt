//! Jobs over a ledger that they refuse: the file and its log keep their bytes, also if calls are in
//! the log alone, if a commit was stopped, and if the file was emptied.

use crate::host::jobs::ends_with;
use s10_jobs::JobStatus;
use s10_test_help::expect::holds;
use sqlite::{Connection, FileStore, Unknown};
use sqlite_disk::Disk;
use std::fs;

/// A folder that is created for each case and removed after it.
const FOLDER: &str = "kept_files_test";

const FILE: &str = "kept_files_test/ledger";

const LOG: &str = "kept_files_test/ledger-wal";

const CREATE: &str = "s10 create --ledger kept_files_test/ledger --interval 30 --limit 100";

const AUDIT: &str = "s10 audit --ledger kept_files_test/ledger";

/// The command line of each job that opens the ledger.
const OPENINGS: &[&str] = &[
    AUDIT,
    "s10 report --ledger kept_files_test/ledger --day 20000",
    "s10 serve --ledger kept_files_test/ledger --bind 127.0.0.1:0 --count 1",
];

/// The rows of the post's Grant of RA GB 0 to 2 to customer 7, and of its Draw of serial 0.
const CALLS: &[&str] = &[
    "INSERT INTO calls (arrival, customer, number, day, reply) VALUES
(1, 0, 1, 20000, x'533101810000000000000001000000075241474200000000000000020000000001'),
(2, 7, 1, 20000, x'533101820000000700000001524147420000004e2052413030303030303030354742')",
    "INSERT INTO ranges (num, holder, pair, low, high, mark) VALUES (1, 7, 1380009794, 0, 2, 1)",
    "INSERT INTO serials (pair, serial, arrival, day, customer, number, voided) VALUES
(1380009794, 0, 2, 20000, 7, 1, 0)",
];

/// Executes the statements and closes the files. Returns whether that succeeds.
fn is_changed<D: Disk + Drop>(
    mut connection: Connection<FileStore<D>>,
    statements: &[&str],
) -> bool {
    let mut all = true;
    for statement in statements {
        all = all && connection.execute(statement, &[]).is_ok();
    }
    connection.close_files().is_ok() && all
}

/// Does the same in the file.
fn change(rt: &HostRuntime, statements: &[&str]) -> bool {
    match Connection::open_from(rt, FILE, false, Unknown) {
        Ok(connection) => is_changed(connection, statements),
        Err(_) => false,
    }
}

/// Executes the statements and closes nothing, as a kill does: they are in the log alone. Returns
/// whether that succeeds.
fn is_logged<D: Disk + Drop>(
    mut connection: Connection<FileStore<D>>,
    statements: &[&str],
) -> bool {
    let mut all = true;
    for statement in statements {
        all = all && connection.execute(statement, &[]).is_ok();
    }
    all
}

/// Does the same in the file's log.
fn log_change(rt: &HostRuntime, statements: &[&str]) -> bool {
    match Connection::open_from(rt, FILE, false, Unknown) {
        Ok(connection) => is_logged(connection, statements),
        Err(_) => false,
    }
}

/// Creates an empty folder, and in it a ledger of two calls with one change more, in its log alone.
/// Returns whether that succeeds.
fn make_logged(rt: &HostRuntime, statement: &str) -> bool {
    let _ = fs::remove_dir_all(rt, FOLDER);
    fs::create_dir(rt, FOLDER).is_ok()
        && ends_with(rt, CREATE, JobStatus::Done, "created\n")
        && log_change(rt, CALLS)
        && log_change(rt, &[statement])
}

/// Creates an empty folder, and in it a ledger of two calls with one change more. Returns whether
/// that succeeds.
fn make_ledger(rt: &HostRuntime, statement: &str) -> bool {
    let _ = fs::remove_dir_all(rt, FOLDER);
    fs::create_dir(rt, FOLDER).is_ok()
        && ends_with(rt, CREATE, JobStatus::Done, "created\n")
        && change(rt, CALLS)
        && change(rt, &[statement])
}

/// Returns whether each job that opens the ledger ends with this line, and a `create` with that.
fn are_refused(rt: &HostRuntime, line: &str, of_create: &str) -> bool {
    let mut all = true;
    for opening in OPENINGS {
        all = all && ends_with(rt, opening, JobStatus::Failed, line);
    }
    all && ends_with(rt, CREATE, JobStatus::Failed, of_create)
}

/// Returns whether a file has these bytes.
fn has_bytes(rt: &HostRuntime, path: &str, bytes: &[u8]) -> bool {
    match fs::read(rt, path) {
        Ok(found) => found.as_slice() == bytes,
        Err(_) => false,
    }
}

/// Returns whether the jobs are refused over a ledger with this change, and its file keeps its
/// bytes.
fn keeps_its_bytes(rt: &HostRuntime, statement: &str, line: &str) -> bool {
    if !make_ledger(rt, statement) {
        return false;
    }
    match fs::read(rt, FILE) {
        Ok(before) => {
            are_refused(rt, line, "ledger not-empty\n") && has_bytes(rt, FILE, before.as_slice())
        }
        Err(_) => false,
    }
}

/// A change of a ledger of two calls, and the line of each job that opens it.
const CHANGES: &[(&str, &str)] = &[
    ("UPDATE head SET schema = 2", "ledger schema 2\n"),
    ("DELETE FROM head", "ledger not-a-ledger\n"),
    (
        "UPDATE calls SET day = 19999 WHERE arrival = 2",
        "ledger damaged 2\n",
    ),
    ("UPDATE ranges SET mark = 0", "ledger damaged 0\n"),
];

#[test]
fn a_refused_ledger_keeps_its_bytes(rt: HostRuntime) {
    for (statement, line) in CHANGES {
        assert!(rt; holds(&rt, statement, keeps_its_bytes(&rt, statement, line)));
    }
    let _ = fs::remove_dir_all(&rt, FOLDER);
}

/// Returns whether a `create` over a ledger of two calls is refused, its file keeps its bytes, and
/// an audit finds the two calls.
fn is_not_replaced(rt: &HostRuntime) -> bool {
    if !make_ledger(rt, "UPDATE head SET schema = 1") {
        return false;
    }
    match fs::read(rt, FILE) {
        Ok(before) => {
            ends_with(rt, CREATE, JobStatus::Failed, "ledger not-empty\n")
                && has_bytes(rt, FILE, before.as_slice())
                && ends_with(rt, AUDIT, JobStatus::Done, "ledger ok 2\n")
                && has_bytes(rt, FILE, before.as_slice())
        }
        Err(_) => false,
    }
}

#[test]
fn a_ledger_is_not_created_again(rt: HostRuntime) {
    assert!(rt; is_not_replaced(&rt));
    let _ = fs::remove_dir_all(&rt, FOLDER);
}

const STORE: &str = "ledger store\n";

/// Returns whether all jobs are refused over a text with a log beside it, and both keep their
/// bytes.
fn keeps_its_log(rt: &HostRuntime, text: &str, log: &str) -> bool {
    let _ = fs::remove_dir_all(rt, FOLDER);
    fs::create_dir(rt, FOLDER).is_ok()
        && fs::write(rt, FILE, text).is_ok()
        && fs::write(rt, LOG, log).is_ok()
        && are_refused(rt, STORE, STORE)
        && has_bytes(rt, FILE, text.as_bytes())
        && has_bytes(rt, LOG, log.as_bytes())
}

#[test]
fn a_log_beside_a_refused_file_keeps_its_bytes(rt: HostRuntime) {
    let text = "a text, and longer than sixteen bytes\n";
    assert!(rt; keeps_its_log(&rt, text, "the log of another program\n"));
    let _ = fs::remove_dir_all(&rt, FOLDER);
}

const NOT_EMPTY: &str = "ledger not-empty\n";

/// Returns whether all jobs are refused, and the file and its log keep their bytes.
fn keep_both(rt: &HostRuntime, line: &str) -> bool {
    match (fs::read(rt, FILE), fs::read(rt, LOG)) {
        (Ok(file), Ok(log)) => {
            are_refused(rt, line, NOT_EMPTY)
                && has_bytes(rt, FILE, file.as_slice())
                && has_bytes(rt, LOG, log.as_slice())
        }
        _ => false,
    }
}

#[test]
fn a_refused_ledger_keeps_calls_that_are_in_its_log_alone(rt: HostRuntime) {
    for (statement, line) in CHANGES {
        assert!(rt;
            holds(
                &rt,
                statement,
                make_logged(&rt, statement) && keep_both(&rt, line)
            )
        );
    }
    let _ = fs::remove_dir_all(&rt, FOLDER);
}

/// The length in bytes of a log before its first frame.
const LOG_HEADER: usize = 32;

/// The length in bytes of a frame: a header and a page.
const FRAME: usize = 24 + 4096;

/// Appends the first bytes of one more frame to the log, which have the first byte of its salt: the
/// store clears one of them as it opens. Returns whether that succeeds.
fn begin_commit(rt: &HostRuntime) -> bool {
    let Ok(mut log) = fs::read(rt, LOG) else {
        return false;
    };
    let Some(salt) = log.get(16).copied() else {
        return false;
    };
    log.truncate(LOG_HEADER + log.len().saturating_sub(LOG_HEADER) / FRAME * FRAME);
    log.extend_from_slice(&[salt; 24]).is_ok() && fs::write(rt, LOG, log.as_slice()).is_ok()
}

#[test]
fn a_refused_ledger_keeps_a_commit_that_was_stopped(rt: HostRuntime) {
    for (statement, line) in CHANGES {
        let made = make_logged(&rt, statement) && begin_commit(&rt);
        assert!(rt; holds(&rt, statement, made && keep_both(&rt, line)));
    }
    let _ = fs::remove_dir_all(&rt, FOLDER);
}

/// Empties the file, and returns whether that succeeds.
fn empty_file(rt: &HostRuntime) -> bool {
    fs::write(rt, FILE, "").is_ok()
}

#[test]
fn an_emptied_file_and_its_log_keep_their_bytes(rt: HostRuntime) {
    let statement = "UPDATE head SET schema = 1";
    assert!(rt; make_logged(&rt, statement) && empty_file(&rt));
    assert!(rt; keep_both(&rt, "ledger not-a-ledger\n"));
    let _ = fs::remove_dir_all(&rt, FOLDER);
}
