//! Copies of a ledger's two files.

use s10_snapshot::{CopyFault, HostTarget, LedgerBytes, write_copy};
use s10_test_help::expect::holds;
use std::alloc::Global;
use std::fs;
use std::fs::File;
use std::os::unix::fs::{MetadataExt, OpenOptionsExt};

fn bytes_of(alloc: Global, file: &str, log: &str) -> Option<LedgerBytes> {
    let mut bytes = LedgerBytes {
        file: Vec::new(alloc),
        log: Vec::new(alloc),
    };
    bytes.file.extend_from_slice(file.as_bytes()).ok()?;
    bytes.log.extend_from_slice(log.as_bytes()).ok()?;
    Some(bytes)
}

const FOLDER: &str = "copies_test";

const LEDGER: &str = "copies_test/ledger";

const FILE: &str = "copies_test/copy";

const LOG: &str = "copies_test/copy-wal";

fn copies(rt: &HostRuntime, path: &str, wanted: Result<(), CopyFault>) -> bool {
    let mut target = HostTarget::new(rt, path, LEDGER);
    match bytes_of(rt.alloc(), "file", "log") {
        Some(bytes) => write_copy(&mut target, bytes) == wanted,
        None => false,
    }
}

fn has(rt: &HostRuntime, path: &str, text: &str) -> bool {
    match fs::read(rt, path) {
        Ok(bytes) => bytes.as_slice() == text.as_bytes(),
        Err(_) => false,
    }
}

fn is_missing(rt: &HostRuntime, path: &str) -> bool {
    matches!(fs::exists(rt, path), Ok(false))
}

/// The names of a copy, and those under which its files are written.
const NAMES: &[&str] = &[
    FILE,
    LOG,
    "copies_test/copy.new",
    "copies_test/copy.new-wal",
];

/// Returns whether a file has this name and the text, or whether none has it.
fn is_left(rt: &HostRuntime, name: &str, taken: &str) -> bool {
    if name == taken {
        has(rt, name, "mine")
    } else {
        is_missing(rt, name)
    }
}

/// Returns whether a copy is refused if one of the names is taken, and leaves that file alone.
fn is_refused_by(rt: &HostRuntime, taken: &str) -> bool {
    let mut all = fs::write(rt, taken, "mine").is_ok() && copies(rt, FILE, Err(CopyFault::Taken));
    for name in NAMES {
        all = all && is_left(rt, name, taken);
    }
    all && fs::remove_file(rt, taken).is_ok()
}

/// Returns whether a copy has the bytes and the mode of the ledger.
fn are_copied(rt: &HostRuntime) -> bool {
    copies(rt, FILE, Ok(()))
        && has(rt, FILE, "file")
        && has(rt, LOG, "log")
        && is_missing(rt, "copies_test/copy.new")
        && is_missing(rt, "copies_test/copy.new-wal")
        && mode_of(rt, FILE) == mode_of(rt, LEDGER)
        && mode_of(rt, LOG) == mode_of(rt, LEDGER)
        && copies(rt, FILE, Err(CopyFault::Taken))
        && has(rt, FILE, "file")
        && has(rt, LOG, "log")
}

fn mode_of(rt: &HostRuntime, path: &str) -> Option<u32> {
    match fs::metadata(rt, path) {
        Ok(found) => Some(found.mode() & 0o7777),
        Err(_) => None,
    }
}

fn write_ledger(rt: &HostRuntime) -> bool {
    let mut options = File::options();
    options.write(true).create_new(true).mode(0o640);
    options.open(rt, LEDGER).is_ok()
}

#[test]
fn a_copy_is_a_new_pair_of_files(rt: HostRuntime) {
    let _ = fs::remove_dir_all(&rt, FOLDER);
    assert!(rt; fs::create_dir(&rt, FOLDER).is_ok());
    assert!(rt; write_ledger(&rt));
    for taken in NAMES {
        assert!(rt; holds(&rt, taken, is_refused_by(&rt, taken)));
    }
    assert!(rt; copies(&rt, "copies_test/nowhere/copy", Err(CopyFault::Store)));
    assert!(rt; are_copied(&rt));
    let _ = fs::remove_dir_all(&rt, FOLDER);
}
