//! Executes the calls of a ledger again while their rows are read.

ghost use Rattle.std.specs.Prelude.{◌≡◌, [], pos, IfOk, IfErr};
ghost use Rattle.s10_rows.specs.Tables.{Tables};
ghost use Rattle.s10_replay.specs.CheckedTables.{IsHead, IsRefusal};
ghost use Rattle.s10_replay.specs.FaultNames.{IsHeadFault};

use s10_index::IndexedBook;
use s10_ranges::HashSeed;
use s10_replay::{replay_row, settings_in};
use s10_rows::{CallRow, HeadRow, OpenFault};
use s10_statements::RowSink;
use std::alloc::Global;

/// The calls of the rows that it took, executed again in a book in memory. No row is kept.
#[derive(Drop)]
pub(crate) struct CallReplay {
    /// The book, or why the rows are refused.
    made: Result<IndexedBook, OpenFault>,
}

impl CallReplay {
    /// Creates a replay that took no row, in a book with the settings of `head`. It is refused with
    /// `NotALedger` or `Schema` if `heads` is not the one row of a ledger. The hashes of the book
    /// have this seed.
    pub(crate) fn new(alloc: Global, seed: HashSeed, heads: &[HeadRow]) -> CallReplay
        ensures ok { IfOk result.made (λ book. IsHead heads.now (pos 1) book.settings
            × (book.index.entries.items ≡ [])) }
        ensures err { (tables : Tables) → tables.heads ≡ heads.now
            → IfErr result.made (IsRefusal tables) }
        ensures head_fault { IfErr result.made IsHeadFault }
    {
        let made = match settings_in(heads) {
            Ok(settings) => Ok(IndexedBook::new(alloc, seed, settings)),
            Err(fault) => Err(fault),
        };
        CallReplay { made }
    }

    /// Returns the book of the rows, or why they are refused: `Damaged` with the arrival of the
    /// first wrong one, or `Memory` if out of memory.
    pub(crate) fn into_made(self) -> Result<IndexedBook, OpenFault>
        ensures { result ≡ self.made }
    {
        self.made
    }
}

impl RowSink<CallRow> for CallReplay {
    ghost use Rattle.s10_ledger.specs.CallReplay.{HasTakenCalls};

    ghost has_taken = { HasTakenCalls };

    ghost none = { λ start. record {
      refused = λ fault is. is;
      replayed = λ book is none. none;
    } };

    fn take(&mut self, row: CallRow) {
        let Ok(book) = &mut self.made else {
            return;
        };
        if let Err(fault) = replay_row(book, &row) {
            self.made = Err(fault);
        }
    }
}
