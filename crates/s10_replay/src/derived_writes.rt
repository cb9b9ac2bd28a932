//! The writes of a call to the derived rows.

ghost use Rattle.std.specs.Prelude.{◌≡◌, ℕ, ◌+◌, pos, true, false, List, [], ◌++◌, ◌∷◌, length};
ghost use Rattle.std.specs.Prelude.{filter, option_to_list, slice_get, All, Contains, Some, None};
ghost use Rattle.std.specs.Prelude.{IfOk, IfErr, IsOk, IsSome};
ghost use Rattle.s10_core.specs.declared.id.Id.{Id};
ghost use Rattle.s10_wire.specs.declared.body.Body.TheVariants.{Void};
ghost use Rattle.s10_wire.specs.declared.outcome.Outcome.TheVariants.{Granted, Voided};
ghost use Rattle.s10_history.specs.declared.entry.Entry.{Entry};
ghost use Rattle.s10_history.specs.declared.range.Range.{Range};
ghost use Rattle.s10_history.specs.Settings.{Terms};
ghost use Rattle.s10_book.specs.Rules.{IsLegal, MayFollow};
ghost use Rattle.s10_history.specs.History.{ranges_of, lies_in};
ghost use Rattle.s10_history.specs.Issues.{issues_at, issues_of, is_issued, last_issuance_of};
ghost use Rattle.s10_history.specs.Issues.{serial_after};
ghost use Rattle.s10_rows.specs.declared.serial_row.SerialRow.{SerialRow};
ghost use Rattle.s10_rows.specs.declared.range_write.RangeWrite.{RangeWrite};
ghost use Rattle.s10_rows.specs.declared.serial_write.SerialWrite.{SerialWrite};
ghost use Rattle.s10_core.specs.Pair.{pair_of};
ghost use Rattle.s10_rows.specs.Tables.{HaveSameRows, serial_row, serial_rows};
ghost use Rattle.s10_rows.specs.Selected.{IsCall, is_within};
ghost use Rattle.s10_rows.specs.RowWrites.{IssueWritesMake, MakesWrites, issues_before, write_of};

use s10_core::Serial;
use s10_history::{Entry, Issuance};
use s10_rows::{PriorIssue, RangeRow, RangeWrite, SerialRow, SerialWrite};
use s10_wire::Outcome;

// Returns the write of the mark of the range with the number `num`.
fn mark_write(num: u32, mark: Serial) -> RangeWrite
    ensures { result ≡ RangeWrite.Mark (pos num) (pos mark) }
{
    RangeWrite::Mark {
        num: i64::from(num),
        mark: i64::from(mark.value()),
    }
}

// Returns the write of an issuance, by whether its identifier was issued before.
fn issue_write(issued: PriorIssue, row: SerialRow) -> SerialWrite
    ensures { result ≡ write_of issued row }
{
    match issued {
        PriorIssue::Never => SerialWrite::New(row),
        PriorIssue::Before => SerialWrite::Again(row),
    }
}

/// Returns the writes of one issuance of a call: the next mark of its range, and its row of
/// `serials`.
///
/// `num` is the number of its range, and `mark` the serial that the range gives next. `issued` is
/// `Never` only if neither the calls before nor the earlier issuances of this call issued the
/// identifier.
pub fn issue_writes(
    num: u32,
    mark: Serial,
    issued: PriorIssue,
    issuance: &Issuance,
) -> (RangeWrite, SerialWrite)
    ensures { (h : List Entry) (t : Terms) (e : Entry) (place : ℕ) (r : Range)
        (ranges : List RangeWrite) (serials : List SerialWrite) → IsLegal h t → MayFollow h t e
        → All IsCall h → IsCall e
        → slice_get (issues_at (1 + length h) e) place ≡ Some issuance.now
        → Contains (ranges_of h) r → lies_in r issuance.now.id ≡ true
        → num ≡ r.num → mark ≡ serial_after r issuance.now.id.serial
        → (issued ≡ PriorIssue.Never → is_issued (issues_before place h e) issuance.now.id ≡ false)
        → IssueWritesMake h e place ranges serials
        → IssueWritesMake h e (place + 1) (ranges ++ result.0 ∷ []) (serials ++ result.1 ∷ []) }
{
    let row = SerialRow::of(issuance, false);
    (mark_write(num, mark), issue_write(issued, row))
}

/// Brings two facts into scope. Before the first issuance of a call no writes are needed. The
/// writes of all its issuances make the rows of the call, unless it is a Done Grant or a Done Void.
pub fn issue_writes_are_complete()
    ensures none { (h : List Entry) (e : Entry) → IssueWritesMake h e 0 [] [] }
    ensures all { (h : List Entry) (e : Entry) (place : ℕ) (ranges : List RangeWrite)
        (serials : List SerialWrite) → ((num : ℕ) → ¬ (e.outcome ≡ Granted num))
        → ¬ (e.outcome ≡ Voided)
        → slice_get (issues_at (1 + length h) e) place ≡ None
        → IssueWritesMake h e place ranges serials → MakesWrites h e ranges serials }
{}

/// Returns the write that inserts the range of a Done Grant, with its first serial as the mark, or
/// `None` for any other call.
pub fn grant_write(entry: &Entry) -> Option<RangeWrite>
    ensures made { (h : List Entry) (t : Terms) (n : ℕ) → IsLegal h t → MayFollow h t entry.now
        → entry.now.outcome ≡ Granted n
        → MakesWrites h entry.now (option_to_list result) [] }
    ensures some { (h : List Entry) (t : Terms) (n : ℕ) → MayFollow h t entry.now
        → entry.now.outcome ≡ Granted n → IsSome result }
    ensures none { ((n : ℕ) → ¬ (entry.now.outcome ≡ Granted n)) → result ≡ None }
{
    let Outcome::Granted { range: num } = entry.outcome else {
        return None;
    };
    let range = entry.range_made(num)?;
    Some(RangeWrite::New(RangeRow::of(&range, range.first.value())))
}

/// Returns the write of a Done Void: the row of the identifier's last issuance, voided.
pub fn void_write(issuance: &Issuance) -> SerialWrite
    ensures { (h : List Entry) (t : Terms) (e : Entry) (id : Id) → IsLegal h t → MayFollow h t e
        → All IsCall h → IsCall e → e.request.body ≡ Void id → e.outcome ≡ Voided
        → last_issuance_of (issues_of h) id ≡ Some issuance.now → MakesWrites h e [] (result ∷ []) }
{
    SerialWrite::Again(SerialRow::of(issuance, true))
}
