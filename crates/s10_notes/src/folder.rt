//! The trait of folders that hold notes.

ghost use Rattle.std.specs.Prelude.{◌≡◌, ◌∷◌, ℕ, List, is_ok, IfErr, IfOk, None, false, true};
ghost use Rattle.s10_notes.specs.Folder.{FolderCalls, IsStore};
ghost use Rattle.s10_notes.specs.declared.folder_call.FolderCall.TheVariants.{Empty, Append, Sync, Rename, SyncFolder, Read};
ghost use Rattle.s10_notes.specs.declared.folder_call.FolderCall.TheVariants.{Names as NamesCall};
ghost use Rattle.s10_notes.specs.declared.names.Names.TheVariants.{Zero};

use crate::folder_call::Text;
use crate::names::Names;
use crate::notes_fault::NotesFault;

/// A folder with the file of a client's notes, and a file beside it that takes its place. Nobody else
/// changes the two while it is open.
///
/// Each method makes one call, and fails as `Store` if the call failed or memory is lacking.
pub trait Folder {
    /// The path of the notes.
    ghost path: { Self → List ℕ };

    /// The calls that were made, the last first, each with whether it succeeded.
    ghost calls: { Self → FolderCalls };

    /// Returns how many names the notes' file has.
    fn names(&mut self) -> Result<Names, NotesFault>
        ensures counted { IfOk result (λ names. calls self.new ≡ (NamesCall names, true) ∷ calls self.old) }
        ensures uncounted { IfErr result (λ _. calls self.new ≡ (NamesCall Zero, false) ∷ calls self.old) }
        ensures failed { IfErr result IsStore }
        ensures at { path self.new ≡ path self.old };

    /// Creates the file beside, or empties it.
    fn empty_beside(&mut self) -> Result<(), NotesFault>
        ensures made { calls self.new ≡ (Empty, is_ok result) ∷ calls self.old }
        ensures failed { IfErr result IsStore }
        ensures at { path self.new ≡ path self.old };

    /// Appends the text to the file beside.
    fn append_beside(&mut self, text: Text) -> Result<(), NotesFault>
        ensures made { calls self.new ≡ (Append text, is_ok result) ∷ calls self.old }
        ensures failed { IfErr result IsStore }
        ensures at { path self.new ≡ path self.old };

    /// Makes what the file beside holds survive a stop of the machine.
    fn sync_beside(&mut self) -> Result<(), NotesFault>
        ensures made { calls self.new ≡ (Sync, is_ok result) ∷ calls self.old }
        ensures failed { IfErr result IsStore }
        ensures at { path self.new ≡ path self.old };

    /// Puts the file beside in the place of the notes' file.
    fn rename_beside(&mut self) -> Result<(), NotesFault>
        ensures made { calls self.new ≡ (Rename, is_ok result) ∷ calls self.old }
        ensures failed { IfErr result IsStore }
        ensures at { path self.new ≡ path self.old };

    /// Makes the names in the folder survive a stop of the machine.
    fn sync(&mut self) -> Result<(), NotesFault>
        ensures made { calls self.new ≡ (SyncFolder, is_ok result) ∷ calls self.old }
        ensures failed { IfErr result IsStore }
        ensures at { path self.new ≡ path self.old };

    /// Makes what the notes' file holds survive a stop of the machine, and returns it. There is no text
    /// if it holds more than any text has.
    fn read(&mut self) -> Result<Option<Text>, NotesFault>
        ensures read { IfOk result (λ text. calls self.new ≡ (Read text, true) ∷ calls self.old) }
        ensures unread { IfErr result (λ _. calls self.new ≡ (Read None, false) ∷ calls self.old) }
        ensures failed { IfErr result IsStore }
        ensures at { path self.new ≡ path self.old };
}
