//! The file of a ledger before it is opened as a database: what its first bytes show, and what log is
//! beside it. A file that is refused stays as it is, with its log, and no log is created beside it.

ghost use Rattle.std.specs.Prelude.{◌≡◌, IfSome};
ghost use Rattle.s10_host.specs.Files.{IsFileFault, IsAbsenceOr};

use crate::log_before::LogBefore;
use s10_ledger::OpenFault;
use std::fs::{File, OpenOptions};
use std::io::{ErrorKind, Read};
use std::{fs, io};

/// The first 16 bytes of every database file.
const MAGIC: [u8; 16] = *b"SQLite format 3\0";

/// The length in bytes of a database without tables.
const EMPTY_DATABASE: u64 = 4096;

#[derive(Clone, Copy, Debug, PartialEq, Eq)]
enum FileKind {
    // It is empty, and so is its log, or there is none.
    Empty,
    Database,
    Other,
    // A creation that was stopped may have left it, beside a log that holds no commits.
    Unfinished,
    // It cannot be read, or it has a log that may hold its first pages.
    Unknown,
}

/// What is at the path of a ledger, looked up once before a database is opened there.
#[derive(Drop)]
pub(crate) struct LedgerFile<'a> {
    pub(crate) path: &'a str,
    kind: FileKind,
    // The log that an opening writes. `None` if the file does not exist or the log cannot be read.
    log: Option<LogBefore>,
    pub(crate) is_created: bool,
}

impl<'a> LedgerFile<'a> {
    /// Looks up what is at a path.
    pub(crate) fn find(rt: &HostRuntime, path: &'a str) -> LedgerFile<'a> {
        match LedgerFile::look_up(rt, path) {
            Ok(file) => file,
            Err(_) => LedgerFile {
                path,
                kind: FileKind::Unknown,
                log: None,
                is_created: false,
            },
        }
    }

    /// Looks up what is at a path at which this process has created the file.
    pub(crate) fn created(rt: &HostRuntime, path: &'a str) -> LedgerFile<'a> {
        LedgerFile {
            is_created: true,
            ..LedgerFile::find(rt, path)
        }
    }

    // The log is beside the target of a symbolic link.
    fn look_up(rt: &HostRuntime, path: &'a str) -> io::Result<LedgerFile<'a>> {
        let real = fs::canonicalize(rt, path)?;
        let log = LogBefore::find(rt, format!(in rt.alloc(); "{}-wal", real.as_str())?)?;
        let kind = match file_kind_of(rt, real.as_str(), &log) {
            Ok(kind) => kind,
            Err(_) => FileKind::Unknown,
        };
        Ok(LedgerFile {
            path,
            kind,
            log: Some(log),
            is_created: false,
        })
    }

    /// Returns why an existing file is not a ledger, if its first bytes show it. The reason is
    /// printed to standard error.
    pub(crate) fn fault_of_existing(&self, rt: &HostRuntime) -> Option<OpenFault>
        ensures { IfSome result (IsAbsenceOr IsFileFault) }
    {
        match self.kind {
            FileKind::Empty => Some(fault_of_empty(rt, self.path)),
            FileKind::Other | FileKind::Unfinished => Some(fault_of_not_database(rt, self.path)),
            FileKind::Database | FileKind::Unknown => None,
        }
    }

    /// Returns why no ledger can be created in the file, if its first bytes show that it holds
    /// something else. The reason is printed to standard error.
    pub(crate) fn fault_of_new(&self, rt: &HostRuntime) -> Option<OpenFault>
        ensures { IfSome result IsFileFault }
    {
        match self.kind {
            FileKind::Other => Some(fault_of_not_database(rt, self.path)),
            FileKind::Empty | FileKind::Database | FileKind::Unfinished | FileKind::Unknown => None,
        }
    }

    /// Puts back what the opening wrote, after it was refused: the log, and a file that was empty. A
    /// file that this process created is removed. The file must still be locked.
    ///
    /// A file that was empty stays if it has become longer than a database without tables: then
    /// another process has created a ledger in it.
    pub(crate) fn put_back(&self, rt: &HostRuntime) {
        let Some(log) = &self.log else {
            return;
        };
        if self.kind != FileKind::Empty {
            log.put_back(rt);
            self.remove_created(rt);
            return;
        }
        if matches!(len_of(rt, self.path), Ok(Some(len)) if len <= EMPTY_DATABASE) {
            log.clear(rt);
            self.empty(rt);
        }
    }

    // Empties the file, or removes it if this process created it. That ends its lock.
    fn empty(&self, rt: &HostRuntime) {
        if self.is_created {
            let _ = fs::remove_file(rt, self.path);
        } else if let Ok(file) = OpenOptions::new().write(true).open(rt, self.path) {
            let _ = file.set_len(0);
        }
    }

    /// Removes the file if this process created it and it is still empty.
    pub(crate) fn remove_created(&self, rt: &HostRuntime) {
        if self.is_created && is_empty(rt, self.path) {
            let _ = fs::remove_file(rt, self.path);
        }
    }
}

// Prints to standard error that the file is empty.
fn fault_of_empty(rt: &HostRuntime, path: &str) -> OpenFault
    ensures { result ≡ OpenFault.NotALedger }
{
    let _ = eprintln!(rt; "cannot open {path}: it is empty");
    OpenFault::NotALedger
}

// Prints to standard error that the file holds something else.
fn fault_of_not_database(rt: &HostRuntime, path: &str) -> OpenFault
    ensures { result ≡ OpenFault.Store }
{
    let _ = eprintln!(rt; "cannot open {path}: it is not a database");
    OpenFault::Store
}

fn file_kind_of(rt: &HostRuntime, path: &str, log: &LogBefore) -> io::Result<FileKind> {
    let metadata = fs::metadata(rt, path)?;
    if !metadata.is_file() || log.may_hold_commits() {
        return Ok(FileKind::Unknown);
    }
    if metadata.len() == 0 {
        return Ok(if log.has_bytes() {
            FileKind::Unknown
        } else {
            FileKind::Empty
        });
    }
    read_file_kind(rt, path, log.has_bytes())
}

// Returns whether the file exists and is empty.
fn is_empty(rt: &HostRuntime, path: &str) -> bool {
    matches!(len_of(rt, path), Ok(Some(0)))
}

/// Returns the length of a file in bytes, or `None` if it does not exist.
pub(crate) fn len_of(rt: &HostRuntime, path: &str) -> io::Result<Option<u64>> {
    match fs::metadata(rt, path) {
        Ok(metadata) => Ok(Some(metadata.len())),
        Err(error) if error.kind() == ErrorKind::NotFound => Ok(None),
        Err(error) => Err(error),
    }
}

// The first byte of a database is written last.
fn read_file_kind(rt: &HostRuntime, path: &str, has_log: bool) -> io::Result<FileKind> {
    let mut file = File::open(rt, path)?;
    let mut first = [0u8; 1];
    file.read_exact(&mut first)?;
    if first[0] == 0 && has_log {
        return Ok(FileKind::Unfinished);
    }
    let mut others = [0u8; 15];
    match file.read_exact(&mut others) {
        Ok(()) if first[0] == MAGIC[0] && others[..] == MAGIC[1..] => Ok(FileKind::Database),
        Ok(()) => Ok(FileKind::Other),
        Err(error) if error.kind() == ErrorKind::UnexpectedEof => Ok(FileKind::Other),
        Err(error) => Err(error),
    }
}
