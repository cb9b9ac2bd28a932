//! Laws of notes.

ghost use Rattle.std.specs.Prelude.{◌≡◌, ℕ, List, ◌∷◌, ◌++◌, None};
ghost use Rattle.std.specs.List.{AllByRecursion};
ghost use Rattle.s10_wire.specs.declared.request.Request.{Request};
ghost use Rattle.s10_notes.specs.CheckValue.{IsByte, check_value};
ghost use Rattle.s10_notes.specs.Notes.{NotesState};
ghost use Rattle.s10_notes.specs.Lives.{Life, UsesOnce};
ghost use Rattle.s10_notes.specs.Text.{SpellsNotes};

use crate::reading::read_notes;

/// States that no number is sent with two requests, in all processes of a client and for any notes
/// that an opening may find.
pub fn numbers_are_used_once()
    ensures { (first n : NotesState) (sent : List Request) → first.request ≡ None
        → Life first n sent → UsesOnce n sent }
{}

/// States that texts which differ in one byte alone have different check values.
pub fn one_changed_byte_is_seen()
    ensures { (before after : List ℕ) (x y : ℕ) → AllByRecursion IsByte before
        → AllByRecursion IsByte after → IsByte x → IsByte y
        → check_value (before ++ x ∷ after) ≡ check_value (before ++ y ∷ after) → x ≡ y }
{}

/// Reads a text, which spells no other notes than those that are read.
pub(crate) fn text_spells_one(text: &[u8])
    ensures { (n m : NotesState) → SpellsNotes text.now n → SpellsNotes text.now m → n ≡ m }
{
    let _read = read_notes(text);
}
