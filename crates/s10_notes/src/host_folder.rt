//! The folder of notes in the system's files.

ghost use Rattle.std.specs.Prelude.{◌≡◌, ◌<◌, ◌≤◌, ◌∷◌, [], length, None, IfErr, IfOk, IfSome};
ghost use Rattle.s10_notes.specs.Folder.{IsStore};

use crate::folder::Folder;
use crate::folder_call::{FolderCall, Text};
use crate::names::Names;
use crate::notes_fault::NotesFault;
use http_server::Log;
use std::fs::{File, TryLockError};
use std::io::{ErrorKind, Read, Write};
use std::marker::Model;
use std::os::fd::AsFd;
use std::os::unix::fs::{MetadataExt, OpenOptionsExt, fchown};
use std::path::Path;
use std::{fs, io};

// One byte more than a text has, so that a longer file is seen.
const ROOM: usize = 161;

/// The folder of a file of notes that this process has open and locked.
///
/// A symbolic link at the path is resolved first: a rename would replace the link and not the notes.
#[derive(Drop)]
pub struct HostFolder<'a> {
    rt: &'a HostRuntime,
    path: &'a str,
    // The path without symbolic links.
    real: String,
    // It is locked until it is closed, as the file of the notes is.
    _lock: File,
    notes: Option<File>,
    beside: Option<File>,
    // Proofs alone read it.
    log: Log<FolderCall, bool>,
}

impl<'a> Model for HostFolder<'a> {
    ghost use Rattle.std.specs.Prelude.{reverse};
    ghost use Rattle.s10_notes.specs.HostFolder.{HostFolderState};

    ghost Value = { HostFolderState };

    ghost view = { λ f. record { path = f.path.now; calls = reverse f.log.items } };
}

impl<'a> HostFolder<'a> {
    /// Opens the folder of the notes at the path. Locks the notes, and a file beside them.
    ///
    /// # Errors
    ///
    /// The first that applies:
    ///
    /// - `Missing` if no file is at the path.
    /// - `Damaged` if it is no regular file, such as a pipe or a folder.
    /// - `Locked` if another client has the notes open.
    /// - `Store` if a call of the system failed, or memory is lacking.
    pub fn open(rt: &'a HostRuntime, path: &'a str) -> Result<HostFolder<'a>, NotesFault>
        ensures at { IfOk result (λ folder. folder.path ≡ path.now) }
        ensures unused { IfOk result (λ folder. folder.calls ≡ []) }
    {
        let real = real_path(rt, path)?;
        let lock = lock_beside(rt, real.as_str())?;
        let notes = lock_file(rt, real.as_str())?;
        Ok(HostFolder {
            rt,
            path,
            real,
            _lock: lock,
            notes: Some(notes),
            beside: None,
            log: Log::new(),
        })
    }

    /// Opens the folder of new notes at a path where no file is. Locks a file beside them.
    ///
    /// # Errors
    ///
    /// The first that applies:
    ///
    /// - `Taken` if a file or a symbolic link is at the path.
    /// - `Locked` if another client is creating notes at the path.
    /// - `Store` if a call of the system failed, or memory is lacking.
    pub fn create(rt: &'a HostRuntime, path: &'a str) -> Result<HostFolder<'a>, NotesFault>
        ensures at { IfOk result (λ folder. folder.path ≡ path.now) }
        ensures unused { IfOk result (λ folder. folder.calls ≡ []) }
    {
        if count_names(rt, path, &None)? != Names::Zero {
            return Err(NotesFault::Taken);
        }
        let Ok(real) = format!(in rt.alloc(); "{path}") else {
            return Err(NotesFault::Store);
        };
        let lock = lock_beside(rt, path)?;
        Ok(HostFolder {
            rt,
            path,
            real,
            _lock: lock,
            notes: None,
            beside: None,
            log: Log::new(),
        })
    }

    // Logs a call, and whether it succeeded.
    fn log_call(&mut self, call: &FolderCall, done: bool)
        ensures { self.new ≡ record { path = self.old.path; calls = (call.now, done) ∷ self.old.calls } }
    {
        self.log = self.log.and(call, &done);
    }
}

impl Folder for HostFolder<'_> {
    ghost path = { λ f. f.path };

    ghost calls = { λ f. f.calls };

    fn names(&mut self) -> Result<Names, NotesFault> {
        let counted = count_names(self.rt, self.real.as_str(), &self.notes);
        self.log_call(&FolderCall::Names(names_of(&counted)), counted.is_ok());
        counted
    }

    fn empty_beside(&mut self) -> Result<(), NotesFault> {
        let opened = create_beside(self.rt, self.real.as_str(), &self.notes);
        self.log_call(&FolderCall::Empty, opened.is_ok());
        self.beside = Some(opened?);
        Ok(())
    }

    fn append_beside(&mut self, text: Text) -> Result<(), NotesFault> {
        let appended = append(&mut self.beside, text.as_slice());
        self.log_call(&FolderCall::Append(text), appended.is_ok());
        appended
    }

    fn sync_beside(&mut self) -> Result<(), NotesFault> {
        let synced = sync_file(&self.beside);
        self.log_call(&FolderCall::Sync, synced.is_ok());
        synced
    }

    fn rename_beside(&mut self) -> Result<(), NotesFault> {
        let renamed = rename_onto(self.rt, self.real.as_str());
        self.log_call(&FolderCall::Rename, renamed.is_ok());
        renamed?;
        self.notes = self.beside.take();
        Ok(())
    }

    fn sync(&mut self) -> Result<(), NotesFault> {
        let synced = sync_folder_of(self.rt, self.real.as_str());
        self.log_call(&FolderCall::SyncFolder, synced.is_ok());
        synced
    }

    fn read(&mut self) -> Result<Option<Text>, NotesFault> {
        let mut room = [0u8; ROOM];
        match read_file(&mut self.notes, &mut room) {
            Ok(len) => {
                let read = FolderCall::Read(text_of(&room[..len]));
                self.log_call(&read, true);
                match read {
                    FolderCall::Read(text) => Ok(text),
                    _ => unreachable!(),
                }
            }
            Err(fault) => {
                self.log_call(&FolderCall::Read(None), false);
                Err(fault)
            }
        }
    }
}

// Returns the path without symbolic links, of a regular file.
fn real_path(rt: &HostRuntime, path: &str) -> Result<String, NotesFault> {
    let real = match fs::canonicalize(rt, path) {
        Ok(real) => real,
        Err(error) if error.kind() == ErrorKind::NotFound => return Err(NotesFault::Missing),
        Err(_) => return Err(NotesFault::Store),
    };
    match fs::metadata(rt, real.as_str()) {
        Ok(metadata) if metadata.is_file() => {}
        Ok(_) => return Err(NotesFault::Damaged),
        Err(_) => return Err(NotesFault::Store),
    }
    match format!(in rt.alloc(); "{}", real.as_str()) {
        Ok(real) => Ok(real),
        Err(_) => Err(NotesFault::Store),
    }
}

// Locks the file `.lock` beside, which stays when a rename replaces the notes.
fn lock_beside(rt: &HostRuntime, path: &str) -> Result<File, NotesFault> {
    let Ok(beside) = format!(in rt.alloc(); "{path}.lock") else {
        return Err(NotesFault::Store);
    };
    if is_odd(rt, beside.as_str()) {
        return Err(NotesFault::Store);
    }
    let opened = File::options()
        .append(true)
        .create(true)
        .open(rt, beside.as_str());
    match opened {
        Ok(file) => lock(file),
        Err(_) => Err(NotesFault::Store),
    }
}

// Locks the notes themselves, so that clients meet which have other names for them.
fn lock_file(rt: &HostRuntime, path: &str) -> Result<File, NotesFault> {
    match File::options().read(true).write(true).open(rt, path) {
        Ok(file) => lock(file),
        Err(_) => Err(NotesFault::Store),
    }
}

fn lock(file: File) -> Result<File, NotesFault> {
    match file.try_lock() {
        Ok(()) => Ok(file),
        Err(TryLockError::WouldBlock) => Err(NotesFault::Locked),
        Err(TryLockError::Error(_)) => Err(NotesFault::Store),
    }
}

// Returns whether something else than a regular file is at a path. To open a pipe could wait.
fn is_odd(rt: &HostRuntime, path: &str) -> bool {
    match fs::metadata(rt, path) {
        Ok(metadata) => !metadata.is_file(),
        Err(error) => error.kind() != ErrorKind::NotFound,
    }
}

// Counts the names of the file at a path. If other notes are open, it is not the file that is meant.
fn count_names(rt: &HostRuntime, path: &str, notes: &Option<File>) -> Result<Names, NotesFault>
    ensures failed { IfErr result IsStore }
{
    let found = match fs::symlink_metadata(rt, path) {
        Ok(found) => found,
        Err(error) if error.kind() == ErrorKind::NotFound => return Ok(Names::Zero),
        Err(_) => return Err(NotesFault::Store),
    };
    if let Some(notes) = notes {
        let Ok(open) = notes.metadata() else {
            return Err(NotesFault::Store);
        };
        if open.ino() != found.ino() || open.dev() != found.dev() {
            return Ok(Names::Zero);
        }
    }
    Ok(if found.nlink() == 1 {
        Names::One
    } else {
        Names::More
    })
}

fn names_of(counted: &Result<Names, NotesFault>) -> Names
    ensures counted { IfOk counted.now (λ names. result ≡ names) }
    ensures uncounted { IfErr counted.now (λ _. result ≡ Names.Zero) }
{
    match counted {
        Ok(names) => *names,
        Err(_) => Names::Zero,
    }
}

// Creates the file `.new` beside, and locks it: it will be the notes. Removes the one that a client
// left there which was stopped.
fn create_beside(rt: &HostRuntime, path: &str, notes: &Option<File>) -> Result<File, NotesFault>
    ensures failed { IfErr result IsStore }
{
    let Ok(beside) = format!(in rt.alloc(); "{path}.new") else {
        return Err(NotesFault::Store);
    };
    match fs::symlink_metadata(rt, beside.as_str()) {
        Ok(found) if found.is_file() => {
            let Ok(()) = fs::remove_file(rt, beside.as_str()) else {
                return Err(NotesFault::Store);
            };
        }
        Err(error) if error.kind() == ErrorKind::NotFound => {}
        _ => return Err(NotesFault::Store),
    }
    let Ok(file) = create_private(rt, beside.as_str()) else {
        return Err(NotesFault::Store);
    };
    let Ok(()) = take_mode(&file, notes) else {
        return Err(NotesFault::Store);
    };
    match file.try_lock() {
        Ok(()) => Ok(file),
        Err(_) => Err(NotesFault::Store),
    }
}

// Creates a file for its owner alone, where none is.
fn create_private(rt: &HostRuntime, path: &str) -> io::Result<File> {
    let mut options = File::options();
    options.read(true).write(true).create_new(true).mode(0o600);
    options.open(rt, path)
}

// Gives a file the mode of the notes that it will replace, and their owner if this process may.
fn take_mode(file: &File, notes: &Option<File>) -> io::Result<()> {
    let Some(notes) = notes else {
        return Ok(());
    };
    let found = notes.metadata()?;
    let _ = fchown(file.as_fd(), Some(found.uid()), Some(found.gid()));
    file.set_permissions(found.permissions())
}

fn append(file: &mut Option<File>, text: &[u8]) -> Result<(), NotesFault>
    ensures failed { IfErr result IsStore }
{
    let Some(file) = file else {
        return Err(NotesFault::Store);
    };
    match file.write_all(text) {
        Ok(()) => Ok(()),
        Err(_) => Err(NotesFault::Store),
    }
}

fn sync_file(file: &Option<File>) -> Result<(), NotesFault>
    ensures failed { IfErr result IsStore }
{
    match file {
        Some(file) if file.sync_all().is_ok() => Ok(()),
        _ => Err(NotesFault::Store),
    }
}

fn rename_onto(rt: &HostRuntime, path: &str) -> Result<(), NotesFault>
    ensures failed { IfErr result IsStore }
{
    let Ok(beside) = format!(in rt.alloc(); "{path}.new") else {
        return Err(NotesFault::Store);
    };
    match fs::rename(rt, beside.as_str(), path) {
        Ok(()) => Ok(()),
        Err(_) => Err(NotesFault::Store),
    }
}

fn sync_folder_of(rt: &HostRuntime, path: &str) -> Result<(), NotesFault>
    ensures failed { IfErr result IsStore }
{
    let folder = match Path::new(path).parent() {
        Some(folder) if !folder.as_str().is_empty() => folder.as_str(),
        _ => ".",
    };
    match File::open(rt, folder) {
        Ok(folder) if folder.sync_all().is_ok() => Ok(()),
        _ => Err(NotesFault::Store),
    }
}

// Syncs the file, and reads it.
fn read_file(file: &mut Option<File>, room: &mut [u8; ROOM]) -> Result<usize, NotesFault>
    ensures len { IfOk result (λ len. len ≤ 161) }
    ensures failed { IfErr result IsStore }
{
    let Some(file) = file else {
        return Err(NotesFault::Store);
    };
    let Ok(()) = file.sync_all() else {
        return Err(NotesFault::Store);
    };
    let mut len = 0;
    'reads: for _ in 0..ROOM {
        match file.read(&mut room[len..]) {
            Ok(0) => break 'reads,
            Ok(count) => len += count,
            Err(error) if error.kind() == ErrorKind::Interrupted => {}
            Err(_) => return Err(NotesFault::Store),
        }
    }
    Ok(len)
}

// Returns the text of these bytes, or `None` if they are more than a text has.
fn text_of(bytes: &[u8]) -> Option<Text>
    ensures whole { IfSome result (λ text. text.items ≡ bytes.now) }
    ensures long { result ≡ None → 160 < length bytes.now }
{
    let mut text = Text::new();
    match text.try_extend_from_slice(bytes) {
        Ok(()) => Some(text),
        Err(_) => None,
    }
}
