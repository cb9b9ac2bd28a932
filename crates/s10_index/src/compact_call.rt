//! Kept calls in compact form.

ghost use Rattle.std.specs.Prelude.{◌≡◌, ◌++◌, ◌<◌, length};
ghost use Rattle.std.specs.Prelude.{slice_get};
ghost use Rattle.s10_history.specs.Issues.{issues_at};
ghost use Rattle.s10_index.specs.CompactOutcomes.{entry_of, sheet_of, NamesSheetOf};

use crate::blocks::Blocks;
use crate::compact_outcome::CompactOutcome;
use s10_history::{Entry, Issuance};
use s10_wire::{Ids, Request};

/// A kept call, with a compact outcome.
#[derive(Clone, Copy)]
pub(crate) struct CompactCall {
    /// The request.
    pub(crate) request: Request,
    /// The day of the call.
    pub(crate) day: u32,
    /// The outcome, in compact form.
    pub(crate) outcome: CompactOutcome,
}

impl CompactCall {
    /// Returns the call in compact form. Appends its sheet, if it has one, to `sheets` in reserved
    /// memory.
    pub(crate) fn of(entry: Entry, sheets: &mut Blocks<Ids>) -> CompactCall
        requires room { 0 < sheets.old.room }
        requires few { length sheets.old.items < 4294967295 }
        ensures sheets { sheets.new.items ≡ sheets.old.items ++ sheet_of entry.outcome }
        ensures restored { entry_of sheets.new.items result ≡ entry }
        ensures named { NamesSheetOf (length sheets.new.items) result.outcome }
    {
        CompactCall {
            request: entry.request,
            day: entry.day,
            outcome: CompactOutcome::of(entry.outcome, sheets),
        }
    }

    /// Returns the call. Its sheet, if it has one, is in `sheets`.
    pub(crate) fn expand(self, sheets: &Blocks<Ids>) -> Entry
        requires { NamesSheetOf (length sheets.now.items) self.outcome }
        ensures { result ≡ entry_of sheets.now.items self }
    {
        Entry {
            request: self.request,
            day: self.day,
            outcome: self.outcome.expand(sheets),
        }
    }

    /// Returns the issuance at an index from 0, or `None` if it has fewer. The arrival is that of
    /// the call. Its sheet, if it has one, is in `sheets`.
    pub(crate) fn issue(self, sheets: &Blocks<Ids>, arrival: u32, at: u8) -> Option<Issuance>
        requires { NamesSheetOf (length sheets.now.items) self.outcome }
        ensures { result ≡ slice_get (issues_at arrival (entry_of sheets.now.items self)) at }
    {
        match self.outcome.issued_at(sheets, at) {
            None => None,
            Some((day, id)) => Some(Issuance {
                id,
                day,
                customer: self.request.customer,
                number: self.request.number,
                arrival,
            }),
        }
    }
}
