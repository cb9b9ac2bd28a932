//! The derived rows of a book's history.

ghost use Rattle.std.specs.Prelude.{◌≡◌, ◌↔◌, ◌+◌, ℕ, pos, Some, IfSome, IsTrue, Contains, length};
ghost use Rattle.std.specs.Prelude.{slice_get};
ghost use Rattle.s10_rows.specs.Tables.{closed_rows, range_rows, serial_rows};
ghost use Rattle.s10_index.specs.RowsFrom.{serial_row_of, closed_row_of};

use crate::indexed_book::IndexedBook;
use crate::row_id::id_in;
use s10_book::Book;
use s10_core::Id;
use s10_rows::{ClosedRow, RangeRow, SerialRow};

// Returns the index of the element with that number, which counts from 1. None if there is none.
fn place_of(number: i64) -> Option<usize>
    ensures some { IfSome result (λ place. number ≡ pos (place + 1)) }
    ensures kept { (place : ℕ) → number ≡ pos (place + 1) → result ≡ Some place }
{
    usize::try_from(number).ok()?.checked_sub(1)
}

impl IndexedBook {
    // Returns the row of the range at an index, counted from 0, or `None` if there is none.
    fn range_row(&self, place: usize) -> Option<RangeRow>
        ensures { result ≡ slice_get (range_rows self.now.index.entries.items) place }
    {
        let ranges = self.index.ranges().all();
        let marks = self.index.ranges().marks();
        if place >= ranges.len() {
            return None;
        }
        Some(RangeRow::of(&ranges[place], marks[place].serial.value()))
    }

    /// Returns whether the history has exactly this row of `ranges`.
    pub fn has_range_row(&self, row: &RangeRow) -> bool
        ensures { IsTrue result ↔ Contains (range_rows self.now.index.entries.items) row.now }
    {
        let Some(place) = place_of(row.num) else {
            return false;
        };
        match self.range_row(place) {
            None => false,
            Some(range) => range == *row,
        }
    }

    /// Returns the number of rows of `ranges` of the history.
    pub fn range_count(&self) -> usize
        ensures { result ≡ length (range_rows self.now.index.entries.items) }
    {
        self.index.ranges().all().len()
    }

    // Returns the row of the identifier, or `None` if it was never issued.
    fn serial_row(&self, id: &Id) -> Option<SerialRow>
        ensures { result ≡ serial_row_of self.now.index.entries.items id.now }
    {
        // Brings len() <= MAX_LIMIT into scope.
        let _len = self.len();
        let issue = self.index.last_issue(id)?;
        let issuance = self.index.last_issuance(id)?;
        Some(SerialRow::of(&issuance, issue.voided))
    }

    /// Returns whether the history has exactly this row of `serials`.
    pub fn has_serial_row(&self, row: &SerialRow) -> bool
        ensures { IsTrue result ↔ Contains (serial_rows self.now.index.entries.items) row.now }
    {
        let Some(id) = id_in(row) else {
            return false;
        };
        match self.serial_row(&id) {
            None => false,
            Some(made) => made == *row,
        }
    }

    /// Returns the number of rows of `serials` of the history.
    pub fn serial_count(&self) -> usize
        ensures { result ≡ length (serial_rows self.now.index.entries.items) }
    {
        self.index.issues.identifiers
    }

    // Returns the row of `closed` that the call at an index, counted from 0, adds. None if it adds
    // none, or if there is no such call.
    fn closed_row(&self, place: usize) -> Option<ClosedRow>
        ensures { result ≡ closed_row_of self.now.index.entries.items place }
    {
        if place >= self.len() as usize {
            return None;
        }
        let entry = self.index.entries.at(place);
        ClosedRow::made_by(place as u32 + 1, &entry)
    }

    /// Returns whether the history has exactly this row of `closed`.
    pub fn has_closed_row(&self, row: &ClosedRow) -> bool
        ensures { IsTrue result ↔ Contains (closed_rows self.now.index.entries.items) row.now }
    {
        let Some(place) = place_of(row.arrival) else {
            return false;
        };
        match self.closed_row(place) {
            None => false,
            Some(closed) => closed == *row,
        }
    }

    /// Returns the number of rows of `closed` of the history.
    pub fn closed_count(&self) -> usize
        ensures { result ≡ length (closed_rows self.now.index.entries.items) }
    {
        let len = self.len() as usize;
        let mut count = 0;
        for place in 0..len {
            if self.closed_row(place).is_some() {
                count += 1;
            }
        }
        count
    }
}
