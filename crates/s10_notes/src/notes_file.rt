//! Notes in a file, which is replaced by a rename.

ghost use Rattle.std.specs.Prelude.{◌≡◌, ℕ, IfErr, IfOk, IfSome, None, Ok, OnOk, Some};
ghost use Rattle.arrayvec.specs.ArrayVec.{ArrayVec};
ghost use Rattle.s10_notes.specs.Folder.{IsAlone, IsStore};
ghost use Rattle.s10_notes.specs.NotesFile.{ChecksName, IsNoNotes, IsWritten, IsWrittenNew};
ghost use Rattle.s10_notes.specs.NotesFile.{ReadsNotes, RefusesNew, RefusesNotes, WritesNotes};
ghost use Rattle.s10_notes.specs.Text.{SpellsNotes};

use crate::folder::Folder;
use crate::folder_call::Text;
use crate::folder_refusal::FolderRefusal;
use crate::laws::text_spells_one;
use crate::names::Names;
use crate::notebook::Notebook;
use crate::notes::Notes;
use crate::notes_fault::NotesFault;
use crate::reading::read_notes;
use crate::writing::write_notes;

/// An open file of notes.
#[derive(Drop)]
pub struct NotesFile<F> {
    /// Its folder.
    pub folder: F,
    /// The notes that were read or written last.
    pub held: Notes,
    // A replacement failed: an opening may find its notes.
    is_in_doubt: bool,
}

impl<F: Folder + Drop> NotesFile<F> {
    ghost use Rattle.std.specs.Prelude.{◌≡◌, IfErr, IfOk, Ok};
    ghost use Rattle.s10_notes.specs.NotesFile.{IsWrittenNew, ReadsNotes, RefusesNew, RefusesNotes};

    /// Reads the notes in a folder.
    ///
    /// # Errors
    ///
    /// The first that applies:
    ///
    /// - `Store` if the names of the file cannot be counted.
    /// - `Missing` if no file is at the path.
    /// - `Linked` if the file has another name too.
    /// - `Store` if the names of the folder cannot be synced, or the file cannot be read.
    /// - `Damaged` if the file has no notes in it.
    pub fn open(folder: F) -> Result<NotesFile<F>, FolderRefusal<F>>
        ensures read { IfOk result (λ file. ReadsNotes (F.calls folder) (F.calls file.folder) file.held) }
        ensures refused { IfErr result (λ refusal. RefusesNotes (F.calls folder)
            (F.calls refusal.folder) refusal.fault) }
        ensures at { IfOk result (λ file. F.path file.folder ≡ F.path folder) }
    {
        let mut folder = folder;
        match read_held(&mut folder) {
            Ok(held) => Ok(NotesFile {
                folder,
                held,
                is_in_doubt: false,
            }),
            Err(fault) => Err(FolderRefusal { folder, fault }),
        }
    }

    /// Writes new notes to a new file in a folder.
    ///
    /// # Errors
    ///
    /// The first that applies:
    ///
    /// - `Store` if the names of the file cannot be counted.
    /// - `Taken` if a file is at the path.
    /// - `Store` if a call of the folder failed. The file may be at the path then.
    pub fn create(folder: F, notes: &Notes) -> Result<NotesFile<F>, FolderRefusal<F>>
        ensures held { IfOk result (λ file. file.held ≡ notes.now) }
        ensures written { IfOk result (λ file. WritesNotes (F.calls folder) (F.calls file.folder)
            notes.now (Ok tt)) }
        ensures new { IfOk result (λ file. IsWrittenNew (F.calls folder) (F.calls file.folder)) }
        ensures refused { IfErr result (λ refusal. RefusesNew (F.calls folder)
            (F.calls refusal.folder) notes.now refusal.fault) }
        ensures at { IfOk result (λ file. F.path file.folder ≡ F.path folder) }
    {
        let mut folder = folder;
        match write_new(&mut folder, notes) {
            Ok(()) => Ok(NotesFile {
                folder,
                held: *notes,
                is_in_doubt: false,
            }),
            Err(fault) => Err(FolderRefusal { folder, fault }),
        }
    }
}

impl<F: Folder> Notebook for NotesFile<F> {
    ghost use Rattle.s10_notes.specs.NotesFile.{may_spell};

    ghost path = { λ file. F.path file.folder };

    ghost held = { λ file. file.held };

    ghost may_find = { λ file. may_spell (F.calls file.folder) };

    fn notes(&self) -> Notes {
        self.held
    }

    fn replace(&mut self, notes: &Notes) -> Result<(), NotesFault> {
        if self.is_in_doubt {
            return Err(NotesFault::Store);
        }
        check_name(&mut self.folder)?;
        match write_over(&mut self.folder, notes) {
            Ok(()) => {
                self.held = *notes;
                Ok(())
            }
            Err(fault) => {
                self.is_in_doubt = true;
                Err(fault)
            }
        }
    }
}

// Reads the notes in a folder.
fn read_held<F: Folder>(folder: &mut F) -> Result<Notes, NotesFault>
    ensures read { IfOk result (ReadsNotes (F.calls folder.old) (F.calls folder.new)) }
    ensures refused { IfErr result (RefusesNotes (F.calls folder.old) (F.calls folder.new)) }
    ensures at { F.path folder.new ≡ F.path folder.old }
{
    check_name(folder)?;
    folder.sync()?;
    let read = folder.read()?;
    match notes_in(&read) {
        Some(held) => Ok(held),
        None => Err(NotesFault::Damaged),
    }
}

// Returns the notes that a text spells, if there is one.
fn notes_in(text: &Option<Text>) -> Option<Notes>
    ensures spelled { IfSome result (λ notes. (found : ArrayVec ℕ) × (text.now ≡ Some found)
        × SpellsNotes found.items notes) }
    ensures none { result ≡ None → IsNoNotes text.now }
{
    match text {
        Some(text) => read_notes(text.as_slice()),
        None => None,
    }
}

// Checks that the notes are at the path, and have no other name.
fn check_name<F: Folder>(folder: &mut F) -> Result<(), NotesFault>
    ensures checked { ChecksName (F.calls folder.old) (F.calls folder.new) result }
    ensures at { F.path folder.new ≡ F.path folder.old }
{
    match folder.names()? {
        Names::Zero => Err(NotesFault::Missing),
        Names::One => Ok(()),
        Names::More => Err(NotesFault::Linked),
    }
}

// Writes notes to a new file.
fn write_new<F: Folder>(folder: &mut F, notes: &Notes) -> Result<(), NotesFault>
    ensures written { OnOk result (WritesNotes (F.calls folder.old) (F.calls folder.new) notes.now
        (Ok tt)) }
    ensures new { OnOk result (IsWrittenNew (F.calls folder.old) (F.calls folder.new)) }
    ensures refused { IfErr result (RefusesNew (F.calls folder.old) (F.calls folder.new) notes.now) }
    ensures at { F.path folder.new ≡ F.path folder.old }
{
    match folder.names()? {
        Names::Zero => write_over(folder, notes),
        Names::One => Err(NotesFault::Taken),
        Names::More => Err(NotesFault::Taken),
    }
}

// Writes the notes beside their file, and renames them onto it.
fn write_over<F: Folder>(folder: &mut F, notes: &Notes) -> Result<(), NotesFault>
    requires { IsAlone (F.calls folder.old) }
    ensures written { WritesNotes (F.calls folder.old) (F.calls folder.new) notes.now result }
    ensures renamed { OnOk result (IsWritten (F.calls folder.old) (F.calls folder.new)) }
    ensures failed { IfErr result IsStore }
    ensures at { F.path folder.new ≡ F.path folder.old }
{
    let mut text = Text::new();
    let Ok(()) = write_notes(notes, &mut text) else {
        return Err(NotesFault::Store);
    };
    text_spells_one(text.as_slice());
    folder.empty_beside()?;
    folder.append_beside(text)?;
    folder.sync_beside()?;
    folder.rename_beside()?;
    folder.sync()
}
