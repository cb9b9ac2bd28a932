//! Looks at a ledger in files that another connection has locked, and copies of it: they see the
//! calls that are in its log alone, and change nothing.

use crate::host::jobs::ends_with;
use s10_jobs::JobStatus;
use s10_test_help::expect::holds;
use sqlite::{Connection, FileStore, Unknown};
use sqlite_disk::Disk;
use std::fs;

const FOLDER: &str = "snapshots_of_files_test";

const FILE: &str = "snapshots_of_files_test/ledger";

const LOG: &str = "snapshots_of_files_test/ledger-wal";

const CREATE: &str = "s10 create --ledger snapshots_of_files_test/ledger --interval 30 --limit 100";

/// The rows of the post's Grant of RA GB 0 to 2 to customer 7, and of its Draw of serial 0.
const CALLS: &[&str] = &[
    "INSERT INTO calls (arrival, customer, number, day, reply) VALUES
(1, 0, 1, 20000, x'533101810000000000000001000000075241474200000000000000020000000001'),
(2, 7, 1, 20000, x'533101820000000700000001524147420000004e2052413030303030303030354742')",
    "INSERT INTO ranges (num, holder, pair, low, high, mark) VALUES (1, 7, 1380009794, 0, 2, 1)",
    "INSERT INTO serials (pair, serial, arrival, day, customer, number, voided) VALUES
(1380009794, 0, 2, 20000, 7, 1, 0)",
];

/// A job over the ledger, its status and its lines.
const LOOKS: &[(&str, JobStatus, &str)] = &[
    (
        "s10 audit --snapshot --ledger snapshots_of_files_test/ledger",
        JobStatus::Done,
        "ledger ok 2\n",
    ),
    (
        "s10 report --snapshot --ledger snapshots_of_files_test/ledger --day 20000",
        JobStatus::Done,
        "range customer service country first last used voided free\n1 7 RA GB 00000000 00000002 1 0 2\n",
    ),
    (
        "s10 info --snapshot --ledger snapshots_of_files_test/ledger --day 20000",
        JobStatus::Done,
        "schema 1\ninterval 30\nlimit 100\ncalls 2\nlast-day 20000\nranges 1\nclosed 0\nused 1\nvoided 0\nfree 2\n",
    ),
    (
        "s10 copy --ledger snapshots_of_files_test/ledger --to snapshots_of_files_test/copy",
        JobStatus::Done,
        "copied 2\n",
    ),
    (
        "s10 copy --ledger snapshots_of_files_test/ledger --to snapshots_of_files_test/copy",
        JobStatus::Refused,
        "refused taken\n",
    ),
    (
        "s10 audit --ledger snapshots_of_files_test/copy",
        JobStatus::Done,
        "ledger ok 2\n",
    ),
];

/// Returns whether each look shows the two calls, and an audit that needs the lock is refused.
fn are_shown(rt: &HostRuntime) -> bool {
    let mut all = true;
    for (asked, status, lines) in LOOKS {
        all = all && holds(rt, asked, ends_with(rt, asked, *status, lines));
    }
    all && ends_with(
        rt,
        "s10 audit --ledger snapshots_of_files_test/ledger",
        JobStatus::Failed,
        "ledger store\n",
    )
}

fn read(rt: &HostRuntime, path: &str) -> Option<Vec<u8>> {
    fs::read(rt, path).ok()
}

/// Returns whether the looks show the calls, and leave both files as they are.
fn are_kept(rt: &HostRuntime) -> bool {
    let (file, log) = (read(rt, FILE), read(rt, LOG));
    let shown = are_shown(rt);
    shown && file == read(rt, FILE) && log == read(rt, LOG) && log.is_some()
}

/// Writes the calls, and returns whether looks beside the open connection show them.
fn look_beside<D: Disk + Drop>(rt: &HostRuntime, mut connection: Connection<FileStore<D>>) -> bool {
    let mut all = true;
    for statement in CALLS {
        all = all && connection.execute(statement, &[]).is_ok();
    }
    all = all && are_kept(rt);
    connection.close_files().is_ok() && all
}

fn look_while_open(rt: &HostRuntime) -> bool {
    match Connection::open_from(rt, FILE, false, Unknown) {
        Ok(connection) => look_beside(rt, connection),
        Err(_) => false,
    }
}

#[test]
fn a_ledger_that_is_locked_is_looked_at(rt: HostRuntime) {
    let _ = fs::remove_dir_all(&rt, FOLDER);
    assert!(rt; fs::create_dir(&rt, FOLDER).is_ok());
    assert!(rt; ends_with(&rt, CREATE, JobStatus::Done, "created\n"));
    assert!(rt; look_while_open(&rt));
    let _ = fs::remove_dir_all(&rt, FOLDER);
}
