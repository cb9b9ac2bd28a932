//! Jobs over files that are no ledgers: each is refused and leaves its folder unchanged.

use crate::host::jobs::ends_with;
use s10_jobs::JobStatus;
use s10_test_help::expect::holds;
use std::fs;
use std::os::unix::fs::PermissionsExt;

/// A folder that is created for each case and removed after it.
const FOLDER: &str = "refused_files_test";

const FILE: &str = "refused_files_test/ledger";

/// The command line of each job over the file.
const OVER_FILE: &[&str] = &[
    "s10 audit --ledger refused_files_test/ledger",
    "s10 report --ledger refused_files_test/ledger --day 20000",
    "s10 serve --ledger refused_files_test/ledger --bind 127.0.0.1:0 --count 1",
];

/// The command line of each job over a path in a folder that does not exist.
const OVER_NO_FOLDER: &[&str] = &[
    "s10 audit --ledger refused_files_test/nowhere/ledger",
    "s10 report --ledger refused_files_test/nowhere/ledger --day 20000",
    "s10 serve --ledger refused_files_test/nowhere/ledger --bind 127.0.0.1:0 --count 1",
];

/// Returns whether each of the jobs ends with status 3 and this line.
fn are_refused(rt: &HostRuntime, jobs: &[&str], line: &str) -> bool {
    for job in jobs {
        if !ends_with(rt, job, JobStatus::Failed, line) {
            return false;
        }
    }
    true
}

/// Creates the empty folder, and returns whether that succeeds.
fn make_folder(rt: &HostRuntime) -> bool {
    let _ = fs::remove_dir_all(rt, FOLDER);
    fs::create_dir(rt, FOLDER).is_ok()
}

/// Removes the folder, and returns whether it was empty: a folder with a file in it stays.
fn delete_folder(rt: &HostRuntime) -> bool {
    fs::remove_dir(rt, FOLDER).is_ok()
}

/// Removes the file, and returns whether these were its bytes.
fn delete_file(rt: &HostRuntime, bytes: &str) -> bool {
    match fs::read(rt, FILE) {
        Ok(left) => fs::remove_file(rt, FILE).is_ok() && left.as_slice() == bytes.as_bytes(),
        Err(_) => false,
    }
}

/// Returns whether the jobs are refused and the folder is empty after them.
fn stays_away(rt: &HostRuntime, jobs: &[&str], line: &str) -> bool {
    let refused = make_folder(rt) && are_refused(rt, jobs, line);
    delete_folder(rt) && refused
}

/// Returns whether the jobs are refused, the file keeps its bytes, and the folder has no other
/// file.
fn stays(rt: &HostRuntime, bytes: &str, line: &str) -> bool {
    let refused = make_folder(rt)
        && fs::write(rt, FILE, bytes).is_ok()
        && are_refused(rt, OVER_FILE, line);
    delete_file(rt, bytes) && delete_folder(rt) && refused
}

/// Jobs without a file, and the line of each.
const ABSENT: &[(&[&str], &str)] = &[
    (OVER_FILE, "ledger not-a-ledger\n"),
    (OVER_NO_FOLDER, "ledger store\n"),
];

/// Bytes of a file, and the line of each job over it.
const OTHERS: &[(&str, &str)] = &[
    ("", "ledger not-a-ledger\n"),
    ("short", "ledger store\n"),
    ("a text, and longer than sixteen bytes\n", "ledger store\n"),
];

#[test]
fn a_file_that_is_no_ledger_stays_unchanged(rt: HostRuntime) {
    for (jobs, line) in ABSENT {
        assert!(rt; holds(&rt, jobs, stays_away(&rt, jobs, line)));
    }
    for (bytes, line) in OTHERS {
        assert!(rt; holds(&rt, bytes, stays(&rt, bytes, line)));
    }
}

/// The command line of a `create` at a name that is no file's, and at one to which the system would
/// not let the store add anything.
const NO_NAMES: &[&str] = &[
    "s10 create --ledger :memory: --interval 30 --limit 100",
    "s10 create --ledger file:ledger --interval 30 --limit 100",
    "s10 create --ledger refused_files_test/a_name_of_two_hundred_and_fifty_bytes_aaaaaaaaaaaaaaaaaaaaaaaaaaaaaaaaaaaaaaaaaaaaaaaaaaaaaaaaaaaaaaaaaaaaaaaaaaaaaaaaaaaaaaaaaaaaaaaaaaaaaaaaaaaaaaaaaaaaaaaaaaaaaaaaaaaaaaaaaaaaaaaaaaaaaaaaaaaaaaaaaaaaaaaaaaaaaaaaaaaaaaaaaaaaaaaaaaaaaaaaaaaaaaaaaaaa --interval 30 --limit 100",
];

#[test]
fn a_refused_creation_leaves_no_file(rt: HostRuntime) {
    for job in NO_NAMES {
        assert!(rt; holds(&rt, job, stays_away(&rt, &[*job], "ledger store\n")));
    }
    assert!(rt; !matches!(fs::exists(&rt, ":memory:"), Ok(true)));
    assert!(rt; !matches!(fs::exists(&rt, "file:ledger"), Ok(true)));
}

const CREATE: &str = "s10 create --ledger refused_files_test/ledger --interval 30 --limit 100";

/// Returns whether no other user may read or write a file.
fn is_own(rt: &HostRuntime, path: &str) -> bool {
    match fs::metadata(rt, path) {
        Ok(metadata) => metadata.permissions().mode() & 0o177 == 0,
        Err(_) => false,
    }
}

#[test]
fn a_new_ledger_is_its_owners_alone(rt: HostRuntime) {
    assert!(rt; make_folder(&rt) && ends_with(&rt, CREATE, JobStatus::Done, "created\n"));
    assert!(rt; is_own(&rt, FILE) && is_own(&rt, "refused_files_test/ledger-wal"));
    let _ = fs::remove_dir_all(&rt, FOLDER);
}
