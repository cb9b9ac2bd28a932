//! The trait of notebooks.

ghost use Rattle.std.specs.Prelude.{◌≡◌, ℕ, List};
ghost use Rattle.s10_notes.specs.Notes.{NotesState};
ghost use Rattle.s10_notes.specs.Notebook.{Replaces};

use crate::notes::Notes;
use crate::notes_fault::NotesFault;

/// What keeps the notes of a client, such as a file. It may stop at any moment.
pub trait Notebook {
    /// The path at which the notes are kept.
    ghost path: { Self → List ℕ };

    /// The notes that it holds.
    ghost held: { Self → NotesState };

    /// The notes that an opening may find if the process stops now.
    ghost may_find: { Self → NotesState → Type 0 };

    /// Returns the notes.
    fn notes(&self) -> Notes
        ensures { result ≡ held self.now };

    /// Replaces the notes, so that they survive a stop.
    ///
    /// # Errors
    ///
    /// A fault of the notebook. It still holds the old notes, and an opening finds these or the new
    /// ones.
    fn replace(&mut self, notes: &Notes) -> Result<(), NotesFault>
        ensures replaced { Replaces held may_find self.old self.new notes.now result }
        ensures at { path self.new ≡ path self.old };
}
