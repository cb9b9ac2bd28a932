//! The verdicts on the rows of a ledger that follow from its calls.

ghost use Rattle.std.specs.Prelude.{◌≡◌, pos, Ok, IfErr, OnOk};
ghost use Rattle.s10_history.specs.Settings.{Terms};
ghost use Rattle.s10_rows.specs.Tables.{Tables};
ghost use Rattle.s10_replay.specs.RightRows.{AreRight, kept_of};
ghost use Rattle.s10_replay.specs.CheckedTables.{AreDerived, IsHead, IsRefusal};
ghost use Rattle.s10_index.specs.declared.indexed_book.IndexedBook.{IndexedBook};

use s10_rows::OpenFault;

/// Whether the rows of each table that follows from the calls are those of the book. The rows were
/// compared while they were read.
#[derive(Clone, Copy, Debug, PartialEq, Eq)]
pub(crate) struct Verdicts {
    /// Whether the rows of `ranges` are those of the book.
    pub has_ranges: bool,
    /// Whether the rows of `serials` are those of the book.
    pub has_serials: bool,
    /// Whether the rows of `closed` are those of the book.
    pub has_closed: bool,
}

impl Verdicts {
    ghost use Rattle.s10_ledger.specs.AllRows.{AreVerdictsOn};

    /// Succeeds if the rows of all tables are those of the book.
    ///
    /// # Errors
    ///
    /// `Damaged(0)` if a row differs, is missing or is extra.
    pub(crate) fn check(self) -> Result<(), OpenFault>
        ensures ok { (book : IndexedBook) (tables : Tables) (t : Terms)
            → AreVerdictsOn (Ok book) tables self → AreRight t tables.calls
            → book.index.entries.items ≡ kept_of tables.calls → OnOk result (AreDerived tables) }
        ensures err { (book : IndexedBook) (tables : Tables) (t : Terms)
            → AreVerdictsOn (Ok book) tables self → IsHead tables.heads (pos 1) t
            → AreRight t tables.calls → book.index.entries.items ≡ kept_of tables.calls
            → IfErr result (IsRefusal tables) }
        ensures fault { IfErr result (λ f. f ≡ OpenFault.Damaged 0) }
    {
        if self.has_ranges && self.has_serials && self.has_closed {
            Ok(())
        } else {
            Err(OpenFault::Damaged(0))
        }
    }
}
