//! Ledgers in files, for any initial file contents: `S` represents these.

ghost use Rattle.std.specs.Prelude.{◌≡◌, false, IfOk, IfErr, IfSome};
ghost use Rattle.sqlite.specs.Files.{file_state, over_files};
ghost use Rattle.s10_statements.specs.ConnectionState.{IsOpen};
ghost use Rattle.sqlite_wal.specs.Files.{image_at};
ghost use Rattle.s10_host.specs.Files.{IsFoundIn, IsPlain, Copies, Keeps, AreFilesOf};
ghost use Rattle.s10_host.specs.Files.{system_files, IsFileFault, IsAbsenceOr, IsUnopenedAs};

use crate::ledger_file::{LedgerFile, len_of};
use crate::opened_files::{Unopened, is_no_path, open_with_cache};
use s10_ledger::OpenFault;
use sqlite::{Connection, Error, ErrorCode, FileFrom, FileStore, Files, Start};
use sqlite_disk::Disk;
use sqlite_trees::store::Store;
use std::fs::OpenOptions;
use std::io::ErrorKind;
use std::os::unix::fs::OpenOptionsExt;
use std::{fs, io};

/// The size in megabytes from which an opening prints the file's size.
const LARGE_FILE_MB: u64 = 10;

/// The system's error number for a file or a folder that does not exist.
const ENOENT: i32 = 2;

/// A connection over a database file and its log.
pub type FileConnection<S> = Connection<FileStore<FileFrom<S>>>;

/// A database file and its log, closed.
pub type ClosedFiles<S> = Files<FileFrom<S>>;

/// Closes the files of a connection, with its last commit moved from the log into the database
/// file.
///
/// # Errors
///
/// `Store` if they cannot be closed so. The reason is printed to standard error.
pub fn checkpoint_and_close<D: Disk + Drop>(
    rt: &HostRuntime,
    path: &str,
    connection: Connection<FileStore<D>>,
) -> Result<Files<D>, OpenFault>
    ensures copied { IfOk result (Copies connection) }
    ensures refused { IfErr result (λ fault. fault ≡ OpenFault.Store) }
{
    match connection.close_files() {
        Ok(files) => Ok(files),
        Err(failed) => Err(fault_of_closing(rt, path, failed)),
    }
}

// Prints to standard error why the file cannot be closed.
fn fault_of_closing<D: Disk + Drop>(
    rt: &HostRuntime,
    path: &str,
    failed: (Error, FileStore<D>),
) -> OpenFault
    ensures { result ≡ OpenFault.Store }
{
    let (error, store) = failed;
    let _ = eprintln!(rt; "cannot close {path}: {error}");
    drop(store.close());
    OpenFault::Store
}

/// Opens an existing file as a database. A missing file is not created. A file whose first bytes
/// are not those of a database is not opened.
///
/// # Errors
///
/// The reason is printed to standard error.
///
/// - `NotALedger` if the file does not exist or is empty, also beside a log.
/// - `Memory` if out of memory.
/// - `Store` if the file is not a database, its folder does not exist, or the file cannot be
///   opened.
pub(crate) fn connect_to_ledger<S: Start>(
    rt: &HostRuntime,
    file: &LedgerFile<'_>,
    start: S,
) -> Result<FileConnection<S>, OpenFault>
    ensures idle { IfOk result (λ connection. connection.in_transaction ≡ false) }
    ensures found { IfOk result (IsFoundIn (image_at S.Start)) }
    ensures plain { IfOk result (IsPlain (image_at S.Start)) }
    ensures refused { IfErr result (IsAbsenceOr IsFileFault) }
{
    match fs::exists(rt, file.path) {
        Ok(true) => match file.fault_of_existing(rt) {
            None => connect(rt, file, OpenFault::NotALedger, start),
            Some(fault) => Err(fault),
        },
        Ok(false) => Err(fault_of_missing(rt, file.path)),
        Err(cause) => Err(fault_of_system(rt, file.path, &cause)),
    }
}

// Prints to standard error why the system cannot look up or create the file.
fn fault_of_system(rt: &HostRuntime, path: &str, cause: &io::Error) -> OpenFault
    ensures { result ≡ OpenFault.Store }
{
    let _ = eprintln!(rt; "cannot open {path}: {cause}");
    OpenFault::Store
}

/// Finds the file of a new ledger. Creates it, empty, if it is missing. No file is removed.
///
/// # Errors
///
/// `Store` if it cannot be created, or is at a path that cannot be opened. The reason is printed to
/// standard error.
pub(crate) fn find_or_create<'a>(
    rt: &HostRuntime,
    path: &'a str,
) -> Result<LedgerFile<'a>, OpenFault>
    ensures refused { IfErr result IsFileFault }
{
    match create_missing(rt, path) {
        Ok(true) => Ok(LedgerFile::created(rt, path)),
        Ok(false) => Ok(LedgerFile::find(rt, path)),
        Err(cause) => Err(fault_of_system(rt, path, &cause)),
    }
}

/// Opens the file of a new ledger as a database. A file that holds anything but a database is not
/// opened. No file is removed.
///
/// # Errors
///
/// The reason is printed to standard error.
///
/// - `NotEmpty` if the file is empty and its log is not.
/// - `Memory` if out of memory.
/// - `Store` if the file holds something else or cannot be opened.
pub(crate) fn connect_to_new<S: Start>(
    rt: &HostRuntime,
    file: &LedgerFile<'_>,
    start: S,
) -> Result<FileConnection<S>, OpenFault>
    ensures idle { IfOk result (λ connection. connection.in_transaction ≡ false) }
    ensures found { IfOk result (IsFoundIn (image_at S.Start)) }
    ensures plain { IfOk result (IsPlain (image_at S.Start)) }
    ensures refused { IfErr result (IsUnopenedAs (system_files S.row S.Start) (image_at S.Start)
        OpenFault.NotEmpty) }
{
    match file.fault_of_new(rt) {
        None => connect(rt, file, OpenFault::NotEmpty, start),
        Some(fault) => Err(fault),
    }
}

// Creates the file if it is missing, for its owner alone, and returns whether it did. The store's own
// error would not have the system's words. The store gives the log the same mode.
fn create_missing(rt: &HostRuntime, path: &str) -> io::Result<bool> {
    if is_no_path(path) {
        return Ok(false);
    }
    // The longest name that the store looks up must not be too long.
    let _len = len_of(rt, format!(in rt.alloc(); "{path}-journal")?.as_str())?;
    let mut options = OpenOptions::new();
    options.read(true).write(true).create_new(true).mode(0o600);
    match options.open(rt, path) {
        Ok(_) => Ok(true),
        Err(cause) if cause.kind() == ErrorKind::AlreadyExists => Ok(false),
        Err(cause) => Err(cause),
    }
}

// Prints to standard error why a missing file cannot be opened. Returns `Store` if its folder is
// missing too, otherwise `NotALedger`.
fn fault_of_missing(rt: &HostRuntime, path: &str) -> OpenFault
    ensures { IsAbsenceOr IsFileFault result }
{
    let absent = io::Error::from_raw_os_error(ENOENT);
    match path.rsplit_once('/') {
        None | Some(("", _)) => fault_of_absent(rt, path, &absent),
        Some((folder, _)) => match fs::exists(rt, folder) {
            Ok(true) => fault_of_absent(rt, path, &absent),
            Ok(false) => fault_of_system(rt, path, &absent),
            Err(cause) => fault_of_system(rt, path, &cause),
        },
    }
}

// Prints to standard error that the file is missing, in a folder that is there.
fn fault_of_absent(rt: &HostRuntime, path: &str, absent: &io::Error) -> OpenFault
    ensures { result ≡ OpenFault.NotALedger }
{
    let _ = fault_of_system(rt, path, absent);
    OpenFault::NotALedger
}

// Opens a file as a database. `of_emptied` is the fault of a file that is empty beside a log.
fn connect<S: Start>(
    rt: &HostRuntime,
    file: &LedgerFile<'_>,
    of_emptied: OpenFault,
    start: S,
) -> Result<FileConnection<S>, OpenFault>
    ensures idle { IfOk result (λ connection. connection.in_transaction ≡ false) }
    ensures found { IfOk result (IsFoundIn (image_at S.Start)) }
    ensures plain { IfOk result (IsPlain (image_at S.Start)) }
    ensures refused { IfErr result (IsUnopenedAs (system_files S.row S.Start) (image_at S.Start)
        of_emptied) }
{
    eprint_size(rt, file.path);
    match open_with_cache(rt, file.path, start) {
        Ok(connection) => Ok(connection),
        Err((cause, files)) => {
            // If the files were not returned, another program may have them open.
            if files.is_some() {
                file.put_back(rt);
            } else if !is_busy(&cause) {
                file.remove_created(rt);
            }
            match cause {
                Unopened::Emptied => {
                    eprint_emptied(rt, file.path);
                    Err(of_emptied)
                }
                Unopened::Failed(error) => {
                    eprint_cause(rt, file, &error);
                    Err(fault_of_opening(&error))
                }
            }
        }
    }
}

// Returns whether another program has the files open.
fn is_busy(cause: &Unopened) -> bool {
    matches!(
        cause,
        Unopened::Failed(Error::SqliteFailure(ErrorCode::DatabaseBusy))
    )
}

// Prints to standard error that the file is empty beside a log that is not.
fn eprint_emptied(rt: &HostRuntime, path: &str) {
    let _ = eprintln!(rt; "cannot open {path}: it is empty, and its log {path}-wal is not");
}

// Prints the size of a file whose opening takes a second or more to standard error: the store scans
// it first, and reports no progress meanwhile.
fn eprint_size(rt: &HostRuntime, path: &str) {
    let Ok(metadata) = fs::metadata(rt, path) else {
        return;
    };
    let megabytes = metadata.len() / 1_000_000;
    if megabytes >= LARGE_FILE_MB {
        let _ = eprintln!(rt; "opening {path}: {megabytes} MB");
    }
}

// Prints to standard error why a file could not be opened, in the system's words if these say more.
// Of a file that this process created they do not: it may be removed by now.
fn eprint_cause(rt: &HostRuntime, file: &LedgerFile<'_>, error: &Error) {
    let path = file.path;
    let cause = if file.is_created {
        None
    } else {
        cause_of(rt, path)
    };
    let _ = match cause {
        Some(cause) => eprintln!(rt; "cannot open {path}: {cause}"),
        None => eprintln!(rt; "cannot open {path}: {error}"),
    };
}

// Returns the system's error of opening the file again, if its name is that of a file. Creates and removes nothing: the name may
// have become another process's ledger.
fn cause_of(rt: &HostRuntime, path: &str) -> Option<io::Error> {
    if is_no_path(path) {
        return None;
    }
    let mut options = OpenOptions::new();
    options.read(true).write(true);
    options.open(rt, path).err()
}

/// Returns the fault of a database that could not be opened.
pub(crate) fn fault_of_opening(error: &Error) -> OpenFault
    ensures { IsFileFault result }
{
    match error {
        Error::SqliteFailure(ErrorCode::OutOfMemory) => OpenFault::Memory,
        _ => OpenFault::Store,
    }
}

/// Closes the files of a refused ledger as they are, without a write. They hold what the connection
/// shows; its last commits may be in the log alone.
///
/// Returns `None` if a fault shut the store.
pub fn close_refused<D: Disk + Drop>(connection: Connection<FileStore<D>>) -> Option<Files<D>>
    requires idle { connection.in_transaction ≡ false }
    ensures of { IfSome result (AreFilesOf connection) }
    ensures kept { IfSome result (Keeps connection) }
    ensures committed { IsOpen over_files connection → (file_state connection).committed
        ≡ (file_state connection).now }
{
    // Brings into scope that a connection in no transaction has nothing to commit.
    prove!(connection.is_autocommit());
    let store = connection.into_store();
    let is_shut = store.is_broken();
    let files = store.close();
    if is_shut { None } else { Some(files) }
}
