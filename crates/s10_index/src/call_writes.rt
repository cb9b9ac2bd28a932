//! What a call writes to the tables after the calls of an index.

ghost use Rattle.std.specs.Prelude.{◌≡◌, ◌≢◌, ℕ, ◌+◌, ◌<◌, ◌++◌, ◌∷◌, [], List, length, All, Err};
ghost use Rattle.std.specs.Prelude.{IfErr, IfOk, IsTrue};
ghost use Rattle.s10_wire.specs.Kind.{fits};
ghost use Rattle.s10_wire.specs.declared.outcome.Outcome.TheVariants.{Granted, Voided};
ghost use Rattle.s10_history.specs.declared.entry.Entry.{Entry};
ghost use Rattle.s10_book.specs.declared.book_fault.BookFault.TheVariants.{Full};
ghost use Rattle.s10_history.specs.Settings.{Terms};
ghost use Rattle.s10_book.specs.Rules.{IsLegal, MayFollow};
ghost use Rattle.s10_ranges.specs.Moves.{AreMoves};
ghost use Rattle.s10_index.specs.CallIndex.{Indexes};
ghost use Rattle.s10_rows.specs.Selected.{IsCall};
ghost use Rattle.s10_rows.specs.RowWrites.{MakesWrites};
ghost use Rattle.s10_rows.specs.Tables.{tables_of};
ghost use Rattle.s10_rows.specs.CallWrite.{Writes};

use crate::call_index::CallIndex;
use crate::issue_writes::issue_writes_of;
use crate::row_writes::RowWrites;
use s10_book::BookFault;
use s10_history::Entry;
use s10_replay::{grant_write, void_write};
use s10_rows::CallWrite;
use s10_wire::{Body, Outcome, Reply, encode_reply};
use std::alloc::Global;

// Returns the writes of a Done Grant.
fn grant_writes(alloc: Global, entry: &Entry) -> Result<RowWrites, BookFault>
    ensures fault { result ≢ Err Full }
    ensures done { (h : List Entry) (t : Terms) (n : ℕ) → MayFollow h t entry.now
        → entry.now.outcome ≡ Granted n → IfErr result (λ f. f ≡ BookFault.Memory) }
    ensures answer { (h : List Entry) (t : Terms) (n : ℕ) → IsLegal h t → MayFollow h t entry.now
        → entry.now.outcome ≡ Granted n
        → IfOk result (λ made. MakesWrites h entry.now made.ranges.items made.serials.items) }
{
    let Some(write) = grant_write(entry) else {
        return Err(BookFault::Store);
    };
    let mut made = RowWrites::new(alloc);
    made.add_range(write)?;
    Ok(made)
}

// Returns the writes of a Done Void, by the last issuance of its identifier.
fn void_writes(alloc: Global, index: &CallIndex, entry: &Entry) -> Result<RowWrites, BookFault>
    ensures fault { result ≢ Err Full }
    ensures done { (h : List Entry) (t : Terms) → IsLegal h t → MayFollow h t entry.now
        → length h < 4294967295 → Indexes index.now h → entry.now.outcome ≡ Voided
        → IfErr result (λ f. f ≡ BookFault.Memory) }
    ensures answer { (h : List Entry) (t : Terms) → IsLegal h t → MayFollow h t entry.now
        → All IsCall h → IsCall entry.now → length h < 4294967295 → Indexes index.now h
        → entry.now.outcome ≡ Voided
        → IfOk result (λ made. MakesWrites h entry.now made.ranges.items made.serials.items) }
{
    let body = entry.request.body;
    let Body::Void { id } = body else {
        return Err(BookFault::Store);
    };
    let Some(issuance) = index.last_issuance(&id) else {
        return Err(BookFault::Store);
    };
    let mut made = RowWrites::new(alloc);
    made.add_serial(void_write(&issuance))?;
    Ok(made)
}

// Returns the writes of the call to ranges and serials after the calls of the index.
fn call_row_writes(
    alloc: Global,
    index: &CallIndex,
    arrival: u32,
    entry: &Entry,
) -> Result<RowWrites, BookFault>
    ensures fault { result ≢ Err Full }
    ensures done { (h : List Entry) (t : Terms) → IsLegal h t → MayFollow h t entry.now
        → length h < 4294967295 → Indexes index.now h → AreMoves h entry.now index.now.moves.items
        → IfErr result (λ f. f ≡ BookFault.Memory) }
    ensures answer { (h : List Entry) (t : Terms) → IsLegal h t → MayFollow h t entry.now
        → All IsCall h → IsCall entry.now → Indexes index.now h → AreMoves h entry.now index.now.moves.items
        → arrival ≡ length h + 1
        → IfOk result (λ made. MakesWrites h entry.now made.ranges.items made.serials.items) }
{
    match entry.outcome {
        Outcome::Granted { .. } => grant_writes(alloc, entry),
        Outcome::Voided => void_writes(alloc, index, entry),
        _ => issue_writes_of(alloc, index.moves(), arrival, entry),
    }
}

/// Returns what the call that was prepared last writes after the calls of the index.
///
/// `arrival` is that of the call: one more than the number of calls in the index.
///
/// # Errors
///
/// - `Memory` if the writes cannot be allocated.
/// - `Store` only if the call may not follow the calls of the index.
pub fn call_write(
    alloc: Global,
    index: &CallIndex,
    arrival: u32,
    entry: &Entry,
) -> Result<CallWrite, BookFault>
    ensures fault { result ≢ Err Full }
    ensures done { (h : List Entry) (t : Terms) → IsLegal h t → MayFollow h t entry.now
        → length h < 4294967295 → Indexes index.now h → AreMoves h entry.now index.now.moves.items
        → IfErr result (λ f. f ≡ BookFault.Memory) }
    ensures same { IfOk result (λ write. write.entry ≡ entry.now) }
    ensures fits { IfOk result (λ write. IsTrue (fits entry.now.request.body entry.now.outcome)) }
    ensures answer { (h : List Entry) (t : Terms) → IsLegal h t → MayFollow h t entry.now
        → All IsCall h → Indexes index.now h → AreMoves h entry.now index.now.moves.items
        → arrival ≡ length h + 1
        → IfOk result (λ write. IsCall entry.now × Writes write (tables_of h t)
        (tables_of (h ++ entry.now ∷ []) t)) }
{
    // Brings day < 2^32 into scope.
    let _day = entry.day;
    let Some(reply) = Reply::new(entry.request, entry.outcome) else {
        return Err(BookFault::Store);
    };
    let made = call_row_writes(alloc, index, arrival, entry)?;
    Ok(CallWrite {
        arrival,
        entry: *entry,
        reply: encode_reply(&reply),
        ranges: made.ranges,
        serials: made.serials,
    })
}
