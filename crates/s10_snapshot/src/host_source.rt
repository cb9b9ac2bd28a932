//! The files of a ledger in the system's files.

ghost use Rattle.std.specs.Prelude.{◌≡◌, ◌∷◌, []};

use crate::part::Part;
use crate::read_call::ReadCall;
use crate::snapshot_fault::ReadFault;
use crate::source::Source;
use http_server::Log;
use std::fs::File;
use std::io::{ErrorKind, Read};
use std::marker::Model;
use std::{fs, io};

/// The files of the ledger at a path. They are opened to be read alone, and not locked.
#[derive(Drop)]
pub struct HostSource<'a> {
    rt: &'a HostRuntime,
    path: &'a str,
    // Proofs alone read it.
    log: Log<ReadCall, Result<Vec<u8>, ReadFault>>,
}

impl<'a> Model for HostSource<'a> {
    ghost use Rattle.std.specs.Prelude.{reverse};
    ghost use Rattle.s10_snapshot.specs.Readings.{HostSourceState};

    ghost Value = { HostSourceState };

    ghost view = { λ s. record { path = s.path.now; calls = reverse s.log.items } };
}

impl<'a> HostSource<'a> {
    /// Returns the source of readings of the ledger at the path. Reads nothing yet.
    pub fn new(rt: &'a HostRuntime, path: &'a str) -> HostSource<'a>
        ensures { result ≡ record { path = path.now; calls = [] } }
    {
        HostSource {
            rt,
            path,
            log: Log::new(),
        }
    }

    // Logs a call and what it returned.
    fn log_call(&mut self, call: ReadCall, read: &Result<Vec<u8>, ReadFault>)
        ensures { self.new ≡ record {
          path = self.old.path;
          calls = (call, read.now) ∷ self.old.calls;
        } }
    {
        self.log = self.log.and(&call, read);
    }
}

impl Source for HostSource<'_> {
    ghost path = { λ s. s.path };

    ghost calls = { λ s. s.calls };

    fn read(&mut self, part: Part, most: u64) -> Result<Vec<u8>, ReadFault> {
        let read = read_at(self.rt, self.path, part, most);
        self.log_call(ReadCall { part, most }, &read);
        read
    }
}

// Reads a file of the ledger at a path. Prints to standard error why it cannot be read, unless a log
// is missing.
fn read_at(rt: &HostRuntime, path: &str, part: Part, most: u64) -> Result<Vec<u8>, ReadFault> {
    match read_part(rt, path, part, most) {
        Ok(bytes) => Ok(bytes),
        Err(cause) => {
            let fault = fault_of(rt, path, &cause);
            if part == Part::File || fault != ReadFault::Missing {
                let _ = eprintln!(rt; "cannot open {path}: {cause}");
            }
            Err(fault)
        }
    }
}

// The log is beside the target of a symbolic link.
fn read_part(rt: &HostRuntime, path: &str, part: Part, most: u64) -> io::Result<Vec<u8>> {
    let real = fs::canonicalize(rt, path)?;
    match part {
        Part::File => read_file(rt, real.as_str(), most),
        Part::Log => {
            let log = format!(in rt.alloc(); "{}-wal", real.as_str())?;
            read_file(rt, log.as_str(), most)
        }
    }
}

// Returns the first bytes of a file, at most this many. Opens a regular file alone: others may keep
// a reader waiting.
fn read_file(rt: &HostRuntime, path: &str, most: u64) -> io::Result<Vec<u8>> {
    if !fs::metadata(rt, path)?.is_file() {
        return Err(ErrorKind::Unsupported.into());
    }
    let file = File::open(rt, path)?;
    let len = file.metadata()?.len().min(most);
    let mut bytes = Vec::new(rt.alloc());
    bytes.reserve(len as usize)?;
    file.take(most).read_to_end(&mut bytes)?;
    Ok(bytes)
}

// A missing file in a folder that is missing too is a failure of the system.
fn fault_of(rt: &HostRuntime, path: &str, cause: &io::Error) -> ReadFault {
    match cause.kind() {
        ErrorKind::OutOfMemory => ReadFault::Memory,
        ErrorKind::NotFound if is_in_a_folder(rt, path) => ReadFault::Missing,
        _ => ReadFault::Store,
    }
}

fn is_in_a_folder(rt: &HostRuntime, path: &str) -> bool {
    match path.rsplit_once('/') {
        None | Some(("", _)) => true,
        Some((folder, _)) => matches!(fs::exists(rt, folder), Ok(true)),
    }
}
