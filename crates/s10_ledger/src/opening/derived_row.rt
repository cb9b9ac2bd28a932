//! The rows of `ranges`, `serials` and `closed`, as a book derives them.

ghost use Rattle.std.specs.Prelude.{◌≡◌, ◌↔◌, List, length, All, Contains, IsTrue, false};
ghost use Rattle.std.specs.Cmp.{IsTotalOrder};
ghost use Rattle.std.specs.Ordering.{int_cmp, is_eq};
ghost use Rattle.std.specs.declared.cmp.Ordering.{Ordering};
ghost use Rattle.std.specs.declared.cmp.Ordering.TheVariants.{Less};
ghost use Rattle.s10_history.specs.declared.entry.Entry.{Entry};
ghost use Rattle.s10_history.specs.Settings.{Terms};
ghost use Rattle.s10_book.specs.Rules.{IsLegal};
ghost use Rattle.s10_rows.specs.Selected.{IsCall};
ghost use Rattle.s10_rows.specs.Tables.{range_rows, serial_rows, serial_row_cmp, closed_rows};
ghost use Rattle.s10_replay.specs.Ascending.{IsAscending};

use s10_index::IndexedBook;
use s10_rows::{ClosedRow, RangeRow, SerialRow};

/// A row of a table that follows from the calls.
pub(crate) trait DerivedRow: Copy {
    /// The rows of a history.
    ghost rows_of: { List Entry → List Self };

    /// How two rows compare: by the key of their table.
    ghost cmp: { Self → Self → Ordering };

    /// Returns the number of rows of the book's history.
    fn count_in(book: &IndexedBook) -> usize
        ensures { result ≡ length (rows_of book.now.index.entries.items) };

    /// Returns whether the book's history has exactly this row.
    fn is_in(&self, book: &IndexedBook) -> bool
        ensures { IsTrue result ↔ Contains (rows_of book.now.index.entries.items) self.now };

    /// Returns whether the key of the row is greater than that of the other one.
    fn is_above(&self, other: &Self) -> bool
        ensures { IsTrue result ↔ (cmp other.now self.now ≡ Less) };

    /// The order is total.
    ghost total: { IsTotalOrder cmp };

    /// No two rows of a legal history have the same key.
    ghost apart: { (h : List Entry) (t : Terms) → IsLegal h t → All IsCall h
        → IsAscending (λ a b. is_eq (cmp a b) ≡ false) (rows_of h) };
}

impl DerivedRow for RangeRow {
    ghost use Rattle.std.proofs.lemmas.Cmp.{on_total, int_cmp_total};
    ghost use Rattle.s10_rows.specs.declared.range_row.RangeRow.{RangeRow};
    ghost use Rattle.s10_replay.proofs.Rising.{range_rows_apart};

    ghost rows_of = { range_rows };

    ghost cmp = { λ a b. int_cmp a.num b.num };

    ghost total = { on_total (λ (r : RangeRow). r.num) int_cmp_total };

    ghost apart = { λ h t legal calls. range_rows_apart h };

    fn count_in(book: &IndexedBook) -> usize {
        book.range_count()
    }

    fn is_in(&self, book: &IndexedBook) -> bool {
        book.has_range_row(self)
    }

    fn is_above(&self, other: &RangeRow) -> bool {
        other.num < self.num
    }
}

impl DerivedRow for SerialRow {
    ghost use Rattle.s10_replay.proofs.Compared.{serial_row_total, serial_rows_apart};

    ghost rows_of = { serial_rows };

    ghost cmp = { serial_row_cmp };

    ghost total = { serial_row_total };

    ghost apart = { λ h t legal calls. serial_rows_apart h calls };

    fn count_in(book: &IndexedBook) -> usize {
        book.serial_count()
    }

    fn is_in(&self, book: &IndexedBook) -> bool {
        book.has_serial_row(self)
    }

    fn is_above(&self, other: &SerialRow) -> bool {
        other.pair < self.pair || other.pair == self.pair && other.serial < self.serial
    }
}

impl DerivedRow for ClosedRow {
    ghost use Rattle.std.proofs.lemmas.Cmp.{on_total, int_cmp_total};
    ghost use Rattle.s10_rows.specs.declared.closed_row.ClosedRow.{ClosedRow};
    ghost use Rattle.s10_replay.proofs.ClosedRows.{closed_rows_apart};

    ghost rows_of = { closed_rows };

    ghost cmp = { λ a b. int_cmp a.num b.num };

    ghost total = { on_total (λ (r : ClosedRow). r.num) int_cmp_total };

    ghost apart = { λ h t legal calls. closed_rows_apart h t legal };

    fn count_in(book: &IndexedBook) -> usize {
        book.closed_count()
    }

    fn is_in(&self, book: &IndexedBook) -> bool {
        book.has_closed_row(self)
    }

    fn is_above(&self, other: &ClosedRow) -> bool {
        other.num < self.num
    }
}
