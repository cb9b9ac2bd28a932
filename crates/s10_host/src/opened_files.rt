//! The files at a path, opened as a database with a cache that holds the whole file if it can.

ghost use Rattle.std.specs.Prelude.{codes, ◌≡◌, ◌≢◌, ◌/◌, true, false, min, max, nat_eq, IsTrue};
ghost use Rattle.std.specs.Prelude.{IfOk, IfErr};
ghost use Rattle.std.specs.List.{starts_with};
ghost use Rattle.std.specs.IoError.{error_kind};
ghost use Rattle.sqlite_wal.specs.Files.{image_at};
ghost use Rattle.sqlite_std_file.specs.File.{file_is_usable, IsFresh};
ghost use Rattle.sqlite_wal.specs.Reads.{AreClean};
ghost use Rattle.sqlite.specs.Files.{image_of};
ghost use Rattle.s10_host.specs.Files.{IsFoundIn, IsPlain, IsEmptied, IsFoundEmptied};
ghost use Rattle.s10_host.specs.Files.{system_files};

use crate::emptied::is_emptied;
use crate::files::{ClosedFiles, FileConnection};
use crate::ledger_file::len_of;
use sqlite::{Connection, Error, ErrorCode, FileFrom, Leftover, Options, Start};
use sqlite_std_file::OpenError;
use std::hash::{BuildHasher, RandomState};
use std::io::ErrorKind;

/// The length in bytes of a page of a database file.
const PAGE_LEN: u64 = 4096;

/// The most pages that a cache holds: 64 MiB. A larger one makes the opening of a large ledger no
/// faster.
const MAX_CACHE_PAGES: u64 = 16_000;

const CANNOT_OPEN: Error = Error::SqliteFailure(ErrorCode::CannotOpen);

const NO_MEMORY: Error = Error::SqliteFailure(ErrorCode::OutOfMemory);

/// Why files were not opened as a database.
#[derive(Drop)]
pub(crate) enum Unopened {
    /// The database file is empty and its log is not: its calls may be in the log alone.
    Emptied,
    /// The store's error.
    Failed(Error),
}

/// Why files were not opened as a database, with what is left of them if the system opened them.
pub(crate) type OpeningFault<S> = (Unopened, Option<Leftover<FileFrom<S>>>);

/// Opens the files at a path as a database, and creates those that are missing. The cache holds
/// the whole file, up to 64 MiB. New files have no checksums.
///
/// # Errors
///
/// - `CannotOpen` without files if the system cannot open them, or no seed could be drawn.
/// - `DatabaseBusy` without files if another process has them open.
/// - `OutOfMemory` if out of memory.
/// - `Emptied` with the files, unchanged, if the database file is empty and its log is not.
/// - `CannotOpen` with the files if their lengths cannot be read.
/// - Any error of the store with what is left of the files.
pub(crate) fn open_with_cache<S: Start>(
    rt: &HostRuntime,
    path: &str,
    start: S,
) -> Result<FileConnection<S>, OpeningFault<S>>
    ensures idle { IfOk result (λ connection. connection.in_transaction ≡ false) }
    ensures found { IfOk result (IsFoundIn (image_at S.Start)) }
    ensures plain { IfOk result (IsPlain (image_at S.Start)) }
    ensures emptied { IfErr result (λ e. e.0 ≡ Unopened.Emptied → IsFoundEmptied
        (system_files S.row S.Start) (image_at S.Start)) }
{
    let files = match open_whole(rt, path, start) {
        Ok(files) => files,
        Err(fault) => return Err(fault),
    };
    let Ok(keys) = RandomState::new(rt) else {
        return Err((Unopened::Failed(CANNOT_OPEN), None));
    };
    let options = options_for(keys.hash_one(&0u8), file_len(rt, path));
    match Connection::open_files_with(rt.alloc(), files, options, false) {
        Ok(mut connection) => {
            connection.set_clock(rt);
            Ok(connection)
        }
        Err((error, left)) => Err((Unopened::Failed(error), Some(left))),
    }
}

// Opens and locks the file and its log, unless the file is empty and its log is not.
fn open_whole<S: Start>(
    rt: &HostRuntime,
    path: &str,
    start: S,
) -> Result<ClosedFiles<S>, OpeningFault<S>>
    ensures usable { IfOk result (λ files. IsTrue (file_is_usable S.Start files.log)
        × IsTrue (file_is_usable S.Start files.db)) }
    ensures same { IfOk result (λ files. image_of (system_files S.row S.Start) files
        ≡ image_at S.Start) }
    ensures whole { IfOk result (λ files. AreClean (system_files S.row S.Start) files.log files.db
        → ¬ IsEmptied (image_at S.Start)) }
    ensures emptied { IfErr result (λ e. e.0 ≡ Unopened.Emptied → IsFoundEmptied
        (system_files S.row S.Start) (image_at S.Start)) }
{
    let mut files = match open_pair(rt, path, start) {
        Ok(files) => files,
        Err(error) => return Err((Unopened::Failed(error), None)),
    };
    match is_emptied(&mut files) {
        Ok(true) => Err((Unopened::Emptied, Some(Leftover::Files(files)))),
        Ok(false) => Ok(files),
        Err(_) => Err((Unopened::Failed(CANNOT_OPEN), Some(Leftover::Files(files)))),
    }
}

// Opens and locks the file and its log. A path that SQLite would not take for a file's is refused.
fn open_pair<S: Start>(rt: &HostRuntime, path: &str, start: S) -> Result<ClosedFiles<S>, Error>
    ensures memory { path.now ≡ codes ":memory:"
        → result ≡ Err (Error.SqliteFailure ErrorCode.CannotOpen) }
    ensures uri { IsTrue (starts_with nat_eq path.now (codes "file:"))
        → result ≡ Err (Error.SqliteFailure ErrorCode.CannotOpen) }
    ensures usable { IfOk result (λ files. IsTrue (file_is_usable S.Start files.log)
        × IsTrue (file_is_usable S.Start files.db)) }
    ensures fresh { IfOk result (λ files. IsFresh true files.log × IsFresh false files.db) }
{
    if is_no_path(path) {
        return Err(CANNOT_OPEN);
    }
    match sqlite_std_file::open(rt, path, start) {
        Ok(files) => Ok(files),
        Err(fault) => Err(error_of(fault)),
    }
}

/// Returns whether SQLite would take the text for something else than a path.
pub(crate) fn is_no_path(path: &str) -> bool
    ensures memory { path.now ≡ codes ":memory:" → IsTrue result }
    ensures uri { IsTrue (starts_with nat_eq path.now (codes "file:")) → IsTrue result }
{
    path == ":memory:" || path.starts_with("file:")
}

// Returns the store's error for files that the system did not open.
fn error_of(fault: OpenError) -> Error
    ensures busy { fault ≡ OpenError.Busy
        → result ≡ Error.SqliteFailure ErrorCode.DatabaseBusy }
    ensures memory { fault ≡ OpenError.OutOfMemory
        → result ≡ Error.SqliteFailure ErrorCode.OutOfMemory }
    ensures journal { fault ≡ OpenError.HotJournal
        → result ≡ Error.SqliteFailure ErrorCode.CannotOpen }
    ensures system { (cause : _) → fault ≡ OpenError.Io cause
        → error_kind cause ≢ ErrorKind.OutOfMemory
        → result ≡ Error.SqliteFailure ErrorCode.CannotOpen }
    ensures system_memory { (cause : _) → fault ≡ OpenError.Io cause
        → error_kind cause ≡ ErrorKind.OutOfMemory
        → result ≡ Error.SqliteFailure ErrorCode.OutOfMemory }
{
    match fault {
        OpenError::Busy => Error::SqliteFailure(ErrorCode::DatabaseBusy),
        OpenError::OutOfMemory => NO_MEMORY,
        OpenError::Io(cause) if cause.kind() == ErrorKind::OutOfMemory => NO_MEMORY,
        OpenError::Io(_) | OpenError::HotJournal => CANNOT_OPEN,
    }
}

// Returns the length of the database file in bytes, or 0 if it cannot be looked up.
fn file_len(rt: &HostRuntime, path: &str) -> u64 {
    match len_of(rt, path) {
        Ok(Some(len)) => len,
        Ok(None) | Err(_) => 0,
    }
}

// Returns the options of a store for a file of this length in bytes. Its cache is never smaller
// than the store's own.
fn options_for(seed: u64, len: u64) -> Options
    ensures cache { result.cache_pages ≡ max 2000 (min 16000 (len / 4096)) }
    ensures seed { result.seed ≡ seed }
    ensures others { (result.spill_pages ≡ 2000) × (result.checkpoint_frames ≡ 1000) }
{
    let options = Options::new(seed);
    let pages = (len / PAGE_LEN).min(MAX_CACHE_PAGES) as usize;
    Options {
        cache_pages: options.cache_pages.max(pages),
        ..options
    }
}
