//! The calls in the process, in compact form.

ghost use Rattle.std.specs.Prelude.{◌≡◌, ◌∷◌, ◌++◌, ◌-◌, [], ◌<◌, OnOk, Some, length, slice_get};
ghost use Rattle.s10_history.specs.History.{has_key};
ghost use Rattle.s10_index.specs.CallLog.{issuance_at};
ghost use Rattle.s10_index.specs.LastPlace.{passes_at};

use crate::blocks::Blocks;
use crate::compact_call::CompactCall;
use s10_history::{Entry, Issuance};
use s10_wire::Ids;
use std::alloc::{AllocError, Global};
use std::marker::Model;

/// Kept calls in order of arrival, in compact form. It grows by blocks.
#[derive(Drop)]
pub struct CallLog {
    /// The calls, in order of arrival. A sheet is named by its index in `sheets`.
    rows: Blocks<CompactCall>,
    /// The identifiers of each sheet, in order of arrival.
    sheets: Blocks<Ids>,
}

impl Model for CallLog {
    ghost use Rattle.std.specs.Prelude.{◌≤◌, All, length, map, min};
    ghost use Rattle.s10_index.specs.CallLog.{CallList};
    ghost use Rattle.s10_index.specs.CompactOutcomes.{entry_of, NamesSheetOf};

    ghost Value = { CallList };

    ghost view = { λ calls. record {
      items = map (entry_of calls.sheets.items) calls.rows.items;
      room = min calls.rows.room calls.sheets.room;
    } };

    ghost invariant = { λ calls. All (λ row. NamesSheetOf (length calls.sheets.items) row.outcome)
        calls.rows.items
        × (length calls.sheets.items ≤ length calls.rows.items)
        × (length calls.rows.items ≤ 4294967295) };
}

impl CallLog {
    /// Creates an empty log.
    pub fn new(alloc: Global) -> CallLog
        ensures { result.items ≡ [] }
    {
        CallLog {
            rows: Blocks::new(alloc),
            sheets: Blocks::new(alloc),
        }
    }

    /// Returns the number of calls.
    pub fn len(&self) -> usize
        ensures { result ≡ length self.now.items }
    {
        self.rows.len()
    }

    /// Returns the call at an index, counted from 0, or `None` if there is none.
    pub fn get(&self, place: usize) -> Option<Entry>
        ensures { result ≡ slice_get self.now.items place }
    {
        if place >= self.len() {
            return None;
        }
        Some(self.at(place))
    }

    /// Returns the last call, or `None` if there is none.
    pub fn last(&self) -> Option<Entry>
        ensures { result ≡ slice_get self.now.items (length self.now.items - 1) }
    {
        self.get(self.len().saturating_sub(1))
    }

    /// Returns the call at an index, counted from 0. Requires that the index is less than `len()`.
    pub fn at(&self, place: usize) -> Entry
        requires { place < length self.now.items }
        ensures { slice_get self.now.items place ≡ Some result }
    {
        self.rows.at(place).expand(&self.sheets)
    }

    /// Returns whether the call at an index, counted from 0, has this key. False if there is none.
    pub(crate) fn has_key_at(&self, place: usize, customer: u32, number: u32) -> bool
        ensures { result ≡ passes_at (has_key customer number) self.now.items place }
    {
        if place >= self.rows.len() {
            return false;
        }
        let request = self.rows.at(place).request;
        request.customer == customer && request.number == number
    }

    /// Returns the issuance at an index of the call at an index, both counted from 0, or `None` if
    /// there is none.
    pub(crate) fn issuance_at(&self, call: u32, at: u8) -> Option<Issuance>
        ensures { result ≡ issuance_at self.now.items call at }
    {
        let place = call as usize;
        if place >= self.rows.len() {
            return None;
        }
        self.rows.at(place).issue(&self.sheets, call + 1, at)
    }

    /// Reserves memory for a call of any kind. The calls stay the same.
    ///
    /// # Errors
    ///
    /// `AllocError` if the memory cannot be allocated.
    pub fn reserve(&mut self) -> Result<(), AllocError>
        ensures calls { self.new.items ≡ self.old.items }
        ensures room { OnOk result (0 < self.new.room) }
    {
        self.sheets.reserve(1)?;
        self.rows.reserve(1)
    }

    /// Appends a call, in memory reserved by `reserve`.
    pub fn push_reserved(&mut self, entry: Entry)
        requires room { 0 < self.old.room }
        requires few { length self.old.items < 4294967295 }
        ensures { self.new.items ≡ self.old.items ++ entry ∷ [] }
    {
        let row = CompactCall::of(entry, &mut self.sheets);
        self.rows.push_reserved(row);
    }
}
