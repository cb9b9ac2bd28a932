//! Look-ups in the calls of a history.

ghost use Rattle.std.specs.Prelude.{◌≡◌};
ghost use Rattle.s10_history.specs.History.{find_entry, entry_at, withdraws as withdraws_of};
ghost use Rattle.s10_history.specs.History.{is_closed};
ghost use Rattle.s10_history.specs.Issues.{voids, voided_after};

use crate::entry::Entry;
use s10_core::Id;
use s10_wire::{Body, Outcome};

/// Returns the call with this key, if there is one.
pub fn find_in(entries: &[Entry], customer: u32, number: u32) -> Option<Entry>
    ensures { result ≡ find_entry entries.now customer number }
{
    entries
        .iter()
        .find(|e| e.request.customer == customer && e.request.number == number)
        .copied()
}

/// Returns call number `at`, from 1, if there is one.
pub fn entry_in(entries: &[Entry], at: u32) -> Option<Entry>
    ensures { result ≡ entry_at entries.now at }
{
    if at == 0 {
        return None;
    }
    entries.get(at as usize - 1).copied()
}

fn withdraws(entry: &Entry, num: u32) -> bool
    ensures { result ≡ withdraws_of num entry.now.request.body entry.now.outcome }
{
    match (entry.request.body, entry.outcome) {
        (Body::Withdraw { range }, Outcome::Withdrawn) => range == num,
        _ => false,
    }
}

/// Returns whether the range with this number is closed: a Withdraw of it was done.
pub fn closed_in(entries: &[Entry], num: u32) -> bool
    ensures { result ≡ is_closed entries.now num }
{
    entries.iter().any(|e| withdraws(e, num))
}

fn voids_id(entry: &Entry, id: &Id) -> bool
    ensures { result ≡ voids id.now entry.now }
{
    match (entry.request.body, entry.outcome) {
        (Body::Void { id: voided }, Outcome::Voided) => voided == *id,
        _ => false,
    }
}

/// Returns whether a Void of the identifier was done after call number `arrival`.
pub(crate) fn is_voided_after(entries: &[Entry], arrival: u32, id: &Id) -> bool
    ensures { result ≡ voided_after arrival entries.now id.now }
{
    entries
        .iter()
        .skip(arrival as usize)
        .any(|e| voids_id(e, id))
}
