//! A folder of notes in memory that stops at one of its calls.

ghost use Rattle.std.specs.Prelude.{◌≡◌, ◌∷◌, reverse, IfErr};
ghost use Rattle.s10_notes.specs.Folder.{IsStore};

use http_server::Log;
use s10_notes::{Folder, FolderCall, Names, NotesFault, Text};

/// What becomes of a call.
#[derive(Clone, Copy, PartialEq, Eq)]
enum Fate {
    Succeeds,
    /// It is made, but fails.
    FailsDone,
    /// It is not made.
    Fails,
}

/// What stops at the call that fails.
#[derive(Clone, Copy, Debug)]
pub(crate) enum Stop {
    /// The process: all that was written is found.
    Process,
    /// The machine: what was not synced is lost.
    Machine,
}

/// A folder in memory. Its calls fail after the first `left`; the first one that fails is made
/// nevertheless if `does_last`.
#[derive(Drop)]
pub(crate) struct StoppingFolder {
    names: Names,
    // What the notes' file holds, and what of that is on disk.
    shown: Text,
    shown_synced: Text,
    // What the machine finds under the file's name after a stop.
    kept: Text,
    // What the file beside holds, and what of that is on disk.
    beside: Text,
    beside_synced: Text,
    left: u32,
    does_last: bool,
    log: Log<FolderCall, bool>,
}

/// Returns a text of these bytes, or `None` if they are too many.
fn read_text(bytes: &[u8]) -> Option<Text> {
    let mut text = Text::new();
    match text.try_extend_from_slice(bytes) {
        Ok(()) => Some(text),
        Err(_) => None,
    }
}

/// Returns a text of these bytes, or an empty one if they are too many.
fn text_of(bytes: &[u8]) -> Text {
    match read_text(bytes) {
        Some(text) => text,
        None => Text::new(),
    }
}

fn result_of(fate: Fate) -> Result<(), NotesFault>
    ensures { IfErr result IsStore }
{
    match fate {
        Fate::Succeeds => Ok(()),
        Fate::FailsDone | Fate::Fails => Err(NotesFault::Store),
    }
}

impl StoppingFolder {
    pub(crate) fn new(names: Names, notes: &[u8], left: u32, does_last: bool) -> StoppingFolder {
        StoppingFolder {
            names,
            shown: text_of(notes),
            shown_synced: text_of(notes),
            kept: text_of(notes),
            beside: Text::new(),
            beside_synced: Text::new(),
            left,
            does_last,
            log: Log::new(),
        }
    }

    /// Gives the notes' file other names.
    pub(crate) fn set_names(&mut self, names: Names) {
        self.names = names;
    }

    /// Returns the text that the notes' file has after a stop.
    pub(crate) fn text_after(&self, stop: Stop) -> &[u8] {
        match stop {
            Stop::Process => self.shown.as_slice(),
            Stop::Machine => self.kept.as_slice(),
        }
    }

    fn next_fate(&mut self) -> Fate
        ensures { self.new.log ≡ self.old.log }
    {
        if self.left > 0 {
            self.left -= 1;
            return Fate::Succeeds;
        }
        if self.does_last {
            self.does_last = false;
            return Fate::FailsDone;
        }
        Fate::Fails
    }

    fn log_call(&mut self, call: &FolderCall, done: bool)
        ensures { reverse self.new.log.items ≡ (call.now, done) ∷ reverse self.old.log.items }
    {
        self.log = self.log.and(call, &done);
    }
}

impl Folder for StoppingFolder {
    ghost use Rattle.std.specs.Prelude.{[], reverse};

    ghost path = { λ _. [] };

    ghost calls = { λ f. reverse f.log.items };

    fn names(&mut self) -> Result<Names, NotesFault> {
        if self.next_fate() != Fate::Succeeds {
            self.log_call(&FolderCall::Names(Names::Zero), false);
            return Err(NotesFault::Store);
        }
        let names = self.names;
        self.log_call(&FolderCall::Names(names), true);
        Ok(names)
    }

    fn empty_beside(&mut self) -> Result<(), NotesFault> {
        let fate = self.next_fate();
        if fate != Fate::Fails {
            self.beside = Text::new();
            self.beside_synced = Text::new();
        }
        let emptied = result_of(fate);
        self.log_call(&FolderCall::Empty, emptied.is_ok());
        emptied
    }

    fn append_beside(&mut self, text: Text) -> Result<(), NotesFault> {
        let fate = self.next_fate();
        if fate != Fate::Fails {
            self.beside = text_of(text.as_slice());
        }
        let appended = result_of(fate);
        self.log_call(&FolderCall::Append(text), appended.is_ok());
        appended
    }

    fn sync_beside(&mut self) -> Result<(), NotesFault> {
        let fate = self.next_fate();
        if fate != Fate::Fails {
            self.beside_synced = text_of(self.beside.as_slice());
        }
        let synced = result_of(fate);
        self.log_call(&FolderCall::Sync, synced.is_ok());
        synced
    }

    fn rename_beside(&mut self) -> Result<(), NotesFault> {
        let fate = self.next_fate();
        if fate != Fate::Fails {
            self.names = Names::One;
            self.shown = text_of(self.beside.as_slice());
            self.shown_synced = text_of(self.beside_synced.as_slice());
        }
        let renamed = result_of(fate);
        self.log_call(&FolderCall::Rename, renamed.is_ok());
        renamed
    }

    fn sync(&mut self) -> Result<(), NotesFault> {
        let fate = self.next_fate();
        if fate != Fate::Fails {
            self.kept = text_of(self.shown_synced.as_slice());
        }
        let synced = result_of(fate);
        self.log_call(&FolderCall::SyncFolder, synced.is_ok());
        synced
    }

    fn read(&mut self) -> Result<Option<Text>, NotesFault> {
        if self.next_fate() != Fate::Succeeds {
            self.log_call(&FolderCall::Read(None), false);
            return Err(NotesFault::Store);
        }
        self.shown_synced = text_of(self.shown.as_slice());
        let read = FolderCall::Read(read_text(self.shown.as_slice()));
        self.log_call(&read, true);
        match read {
            FolderCall::Read(text) => Ok(text),
            _ => unreachable!(),
        }
    }
}
