//! Replays the calls of a ledger.

ghost use Rattle.std.specs.Prelude.{◌≡◌, ◌↔◌, ◌<◌, ◌≤◌, pos, length, IfSome, IfNone, IfOk, IfErr};
ghost use Rattle.std.specs.Prelude.{IsTrue, None, OnOk, [], ◌∷◌, ◌++◌};
ghost use Rattle.s10_book.specs.Book.{Unchanged};
ghost use Rattle.s10_book.specs.BookFault.{CountsResult};
ghost use Rattle.s10_history.specs.History.{day_of, find_entry};
ghost use Rattle.s10_replay.specs.RightRows.{IsRightRow, entry_of};
ghost use Rattle.s10_replay.specs.FaultNames.{CountsReplay, IsRowFault};
ghost use Rattle.s10_rows.specs.Selected.{IsCall};

use crate::call_reading::entry_in_row;
use crate::faults::fault_of_book;
use s10_book::{Book, BookFault, decide};
use s10_history::Entry;
use s10_rows::{CallRow, OpenFault};
use s10_wire::same_outcome;

// Returns whether the row has the arrival and the key of the call.
fn has_key_columns(row: &CallRow, arrival: u32, call: &Entry) -> bool
    ensures { IsTrue result
        ↔ ((row.now.arrival ≡ pos arrival) × (row.now.customer ≡ pos call.now.request.customer)
        × (row.now.number ≡ pos call.now.request.number)) }
{
    row.arrival() == i64::from(arrival)
        && row.customer() == i64::from(call.request.customer)
        && row.number() == i64::from(call.request.number)
}

// Returns whether no call of the book has the key of the call.
fn is_new<B: Book>(book: &mut B, call: &Entry) -> Result<bool, BookFault>
    ensures faults { CountsResult result (B.faults book.old) (B.faults book.new) }
    ensures unchanged { Unchanged B.history B.committed B.terms B.honest B.clean B.may_find book.old
        book.new }
    ensures answer { B.honest book.new
        → IfOk result (λ b. IsTrue b
        ↔ (find_entry (B.history book.old) call.now.request.customer call.now.request.number
        ≡ None)) }
{
    let found = book.find(call.request.customer, call.request.number)?;
    Ok(found.is_none())
}

// Returns whether the limit is not reached, the day of the call is not before the book's, and its
// key is new.
fn may_follow<B: Book>(book: &mut B, call: &Entry) -> Result<bool, BookFault>
    ensures faults { CountsResult result (B.faults book.old) (B.faults book.new) }
    ensures unchanged { Unchanged B.history B.committed B.terms B.honest B.clean B.may_find book.old
        book.new }
    ensures answer { B.honest book.new
        → IfOk result (λ b. IsTrue b ↔ ((length (B.history book.old) < (B.terms book.old).limit)
        × (day_of (B.history book.old) ≤ call.now.day)
        × (find_entry (B.history book.old) call.now.request.customer call.now.request.number
        ≡ None))) }
{
    if book.len() < book.settings().limit() && book.day() <= call.day {
        is_new(book, call)
    } else {
        Ok(false)
    }
}

// Returns the call of the row if the row is right after the book's calls. None if it is wrong.
fn right_call<B: Book>(book: &mut B, row: &CallRow) -> Result<Option<Entry>, BookFault>
    ensures faults { CountsResult result (B.faults book.old) (B.faults book.new) }
    ensures unchanged { Unchanged B.history B.committed B.terms B.honest B.clean B.may_find book.old
        book.new }
    ensures right { B.honest book.new
        → IfOk result (λ found. IfSome found (λ e. (e ≡ entry_of row.now) × IsCall e
        × IsRightRow (B.terms book.old) (B.history book.old) row.now)) }
    ensures wrong { B.honest book.new
        → IfOk result (λ found. IfNone found (¬ IsRightRow (B.terms book.old) (B.history book.old)
        row.now)) }
{
    let Some(call) = entry_in_row(row) else {
        return Ok(None);
    };
    if !has_key_columns(row, book.len() + 1, &call) || !may_follow(book, &call)? {
        return Ok(None);
    }
    let outcome = decide(book, &call.request, call.day)?;
    if same_outcome(&outcome, &call.outcome) {
        Ok(Some(call))
    } else {
        Ok(None)
    }
}

/// Executes the call of the row again after the book's calls, and keeps it.
///
/// # Errors
///
/// - `Damaged` with the arrival that the next call has, if the row is wrong.
/// - `Memory` or `Store` if the book fails.
pub fn replay_row<B: Book>(book: &mut B, row: &CallRow) -> Result<(), OpenFault>
    ensures was_honest { B.honest book.new → B.honest book.old }
    ensures same_terms { B.honest book.new → B.terms book.new ≡ B.terms book.old }
    ensures right { B.honest book.new
        → OnOk result (IsRightRow (B.terms book.old) (B.history book.old) row.now) }
    ensures history { B.honest book.new
        → OnOk result (B.history book.new ≡ B.history book.old ++ entry_of row.now ∷ []) }
    ensures err { B.honest book.new
        → IfErr result (IsRowFault (B.terms book.old) (B.history book.old) row.now) }
    ensures faults { CountsReplay result (B.faults book.old) (B.faults book.new) }
{
    let call = match right_call(book, row) {
        Ok(Some(call)) => call,
        Ok(None) => return Err(OpenFault::Damaged(book.len() + 1)),
        Err(fault) => return Err(fault_of_book(fault)),
    };
    match book.keep(call) {
        Ok(()) => Ok(()),
        Err(fault) => Err(fault_of_book(fault)),
    }
}
