//! A copy of a ledger in the system's files.

ghost use Rattle.std.specs.Prelude.{◌≡◌, ◌∷◌, []};

use crate::copy_call::CopyCall;
use crate::copy_fault::CopyFault;
use crate::part::Part;
use crate::target::Target;
use http_server::Log;
use std::fs::File;
use std::io::{ErrorKind, Write};
use std::marker::Model;
use std::os::fd::AsFd;
use std::os::unix::fs::{MetadataExt, OpenOptionsExt, fchown};
use std::path::Path;
use std::{fs, io};

/// The two files of a new ledger at a path, with the mode and owner of another one's file.
#[derive(Drop)]
pub struct HostTarget<'a> {
    rt: &'a HostRuntime,
    path: &'a str,
    ledger: &'a str,
    files: NewFiles,
    // Proofs alone read it.
    log: Log<CopyCall, Result<(), CopyFault>>,
}

// The new files that were created.
#[derive(Drop)]
struct NewFiles {
    file: Option<NewFile>,
    log: Option<NewFile>,
}

#[derive(Drop)]
struct NewFile {
    file: File,
    beside: String,
    name: String,
    is_named: bool,
}

impl<'a> Model for HostTarget<'a> {
    ghost use Rattle.std.specs.Prelude.{reverse};
    ghost use Rattle.s10_snapshot.specs.Copies.{HostTargetState};

    ghost Value = { HostTargetState };

    ghost view = { λ t. record {
      paths = record { copy = t.path.now; ledger = t.ledger.now };
      calls = reverse t.log.items;
    } };
}

impl<'a> HostTarget<'a> {
    /// Returns the target of a copy at the path. Creates nothing yet.
    pub fn new(rt: &'a HostRuntime, path: &'a str, ledger: &'a str) -> HostTarget<'a>
        ensures { result ≡ record {
          paths = record { copy = path.now; ledger = ledger.now };
          calls = [];
        } }
    {
        HostTarget {
            rt,
            path,
            ledger,
            files: NewFiles {
                file: None,
                log: None,
            },
            log: Log::new(),
        }
    }

    // Logs a call and its result.
    fn log_call(&mut self, call: CopyCall, done: &Result<(), CopyFault>)
        ensures { self.new ≡ record {
          paths = self.old.paths;
          calls = (call, done.now) ∷ self.old.calls;
        } }
    {
        self.log = self.log.and(&call, done);
    }

    // Returns the fault of a call of the system. Prints its cause to standard error, unless that was
    // printed as a taken name.
    fn done(&self, made: io::Result<()>) -> Result<(), CopyFault> {
        let Err(cause) = made else {
            return Ok(());
        };
        if cause.kind() == ErrorKind::AlreadyExists {
            return Err(CopyFault::Taken);
        }
        let _ = eprintln!(self.rt; "cannot write {}: {cause}", self.path);
        Err(CopyFault::Store)
    }
}

impl Target for HostTarget<'_> {
    ghost paths = { λ t. t.paths };

    ghost calls = { λ t. t.calls };

    fn create(&mut self, part: Part) -> Result<(), CopyFault> {
        let made = create_part(self.rt, self.path, self.ledger, part, &mut self.files);
        let created = self.done(made);
        self.log_call(CopyCall::Create(part), &created);
        created
    }

    fn write(&mut self, part: Part, bytes: Vec<u8>) -> Result<(), CopyFault> {
        let made = write_part(&mut self.files, part, bytes.as_slice());
        let written = self.done(made);
        self.log_call(CopyCall::Write(part, bytes), &written);
        written
    }

    fn sync(&mut self, part: Part) -> Result<(), CopyFault> {
        let made = sync_part(&mut self.files, part);
        let synced = self.done(made);
        self.log_call(CopyCall::Sync(part), &synced);
        synced
    }

    fn name(&mut self, part: Part) -> Result<(), CopyFault> {
        let made = name_part(self.rt, &mut self.files, part);
        let named = self.done(made);
        self.log_call(CopyCall::Name(part), &named);
        named
    }

    fn sync_folder(&mut self) -> Result<(), CopyFault> {
        let made = sync_folder_of(self.rt, self.path);
        let synced = self.done(made);
        self.log_call(CopyCall::SyncFolder, &synced);
        synced
    }

    fn remove(&mut self, part: Part) -> Result<(), CopyFault> {
        let made = remove_part(self.rt, &mut self.files, part);
        let removed = self.done(made);
        self.log_call(CopyCall::Remove(part), &removed);
        removed
    }
}

impl NewFiles {
    // Returns the new file of a part. It fails if none was created.
    fn part(&mut self, part: Part) -> io::Result<&mut NewFile> {
        let file = match part {
            Part::File => &mut self.file,
            Part::Log => &mut self.log,
        };
        match file {
            Some(file) => Ok(file),
            None => Err(ErrorKind::NotFound.into()),
        }
    }
}

// Creates the file beside its name, if no file has either.
fn create_part(
    rt: &HostRuntime,
    path: &str,
    ledger: &str,
    part: Part,
    files: &mut NewFiles,
) -> io::Result<()> {
    let log = match part {
        Part::File => "",
        Part::Log => "-wal",
    };
    let name = format!(in rt.alloc(); "{path}{log}")?;
    let beside = format!(in rt.alloc(); "{path}.new{log}")?;
    if fs::symlink_metadata(rt, name.as_str()).is_ok() {
        return Err(taken(rt, name.as_str()));
    }
    let file = create_like(rt, beside.as_str(), ledger)?;
    let new = Some(NewFile {
        file,
        beside,
        name,
        is_named: false,
    });
    match part {
        Part::File => files.file = new,
        Part::Log => files.log = new,
    }
    Ok(())
}

// Prints to standard error that another file has a name.
fn taken(rt: &HostRuntime, name: &str) -> io::Error {
    let _ = eprintln!(rt; "cannot write {name}: a file has this name");
    ErrorKind::AlreadyExists.into()
}

// Creates a file with the mode of another one, and with its owner if this process may.
fn create_like(rt: &HostRuntime, path: &str, ledger: &str) -> io::Result<File> {
    let found = fs::metadata(rt, ledger)?;
    let mut options = File::options();
    options.write(true).create_new(true).mode(0o600);
    let file = match options.open(rt, path) {
        Err(cause) if cause.kind() == ErrorKind::AlreadyExists => return Err(taken(rt, path)),
        opened => opened?,
    };
    let _ = fchown(file.as_fd(), Some(found.uid()), Some(found.gid()));
    match file.set_permissions(found.permissions()) {
        Ok(()) => Ok(file),
        Err(cause) => {
            let _ = fs::remove_file(rt, path);
            Err(cause)
        }
    }
}

fn write_part(files: &mut NewFiles, part: Part, bytes: &[u8]) -> io::Result<()> {
    files.part(part)?.file.write_all(bytes)
}

fn sync_part(files: &mut NewFiles, part: Part) -> io::Result<()> {
    files.part(part)?.file.sync_all()
}

// Gives the file its name, which no other file may have. A link fails then, and a rename would not.
fn name_part(rt: &HostRuntime, files: &mut NewFiles, part: Part) -> io::Result<()> {
    let new = files.part(part)?;
    match fs::hard_link(rt, new.beside.as_str(), new.name.as_str()) {
        Ok(()) => end_link(rt, new)?,
        Err(cause) if cause.kind() == ErrorKind::AlreadyExists => {
            return Err(taken(rt, new.name.as_str()));
        }
        Err(_) => rename_new(rt, new)?,
    }
    new.is_named = true;
    Ok(())
}

// Removes the name beside, or else the link.
fn end_link(rt: &HostRuntime, new: &NewFile) -> io::Result<()> {
    let removed = fs::remove_file(rt, new.beside.as_str());
    if removed.is_err() {
        let _ = fs::remove_file(rt, new.name.as_str());
    }
    removed
}

// Renames the file where the file system has no links.
fn rename_new(rt: &HostRuntime, new: &NewFile) -> io::Result<()> {
    if fs::symlink_metadata(rt, new.name.as_str()).is_ok() {
        return Err(taken(rt, new.name.as_str()));
    }
    fs::rename(rt, new.beside.as_str(), new.name.as_str())
}

fn remove_part(rt: &HostRuntime, files: &mut NewFiles, part: Part) -> io::Result<()> {
    let new = files.part(part)?;
    let place = if new.is_named { &new.name } else { &new.beside };
    fs::remove_file(rt, place.as_str())
}

// Syncs the folder that has the names.
fn sync_folder_of(rt: &HostRuntime, path: &str) -> io::Result<()> {
    let folder = match Path::new(path).parent() {
        Some(folder) if !folder.as_str().is_empty() => folder.as_str(),
        _ => ".",
    };
    File::open(rt, folder)?.sync_all()
}
