//! What the issuances of a call write.

ghost use Rattle.std.specs.Prelude.{◌≡◌, ◌≢◌, ℕ, ◌+◌, ◌++◌, ◌∷◌, [], List, length, take, slice_get};
ghost use Rattle.std.specs.Prelude.{All, Err, Some, IfOk, IfErr, OnOk};
ghost use Rattle.s10_wire.specs.declared.outcome.Outcome.TheVariants.{Granted, Voided};
ghost use Rattle.s10_history.specs.declared.entry.Entry.{Entry};
ghost use Rattle.s10_book.specs.declared.book_fault.BookFault.TheVariants.{Full};
ghost use Rattle.s10_history.specs.Settings.{Terms};
ghost use Rattle.s10_history.specs.History.{ranges_of};
ghost use Rattle.s10_history.specs.Issues.{issues_at, issues_of};
ghost use Rattle.s10_book.specs.Rules.{IsLegal, MayFollow};
ghost use Rattle.s10_ranges.specs.Moves.{AreMoves, IsMoveOf};
ghost use Rattle.s10_rows.specs.Selected.{IsCall};
ghost use Rattle.s10_rows.specs.RowWrites.{IssueWritesMake, MakesWrites};

use crate::row_writes::RowWrites;
use s10_book::BookFault;
use s10_history::{Entry, Issuance};
use s10_ranges::{Lap, MarkMove};
use s10_replay::issue_writes;
use s10_rows::PriorIssue;
use std::alloc::Global;

// Returns whether an identifier that a range in that lap issues may have been issued before.
fn prior_issue_in(lap: Lap) -> PriorIssue
    ensures { result ≡ PriorIssue.Never → lap ≡ Lap.First }
{
    match lap {
        Lap::First => PriorIssue::Never,
        Lap::Later => PriorIssue::Before,
    }
}

// Adds the writes of an issuance, by its move. `Memory` if out of memory.
fn add_issue_writes(
    made: &mut RowWrites,
    next: &MarkMove,
    issuance: &Issuance,
) -> Result<(), BookFault>
    ensures memory { IfErr result (λ f. f ≡ BookFault.Memory) }
    ensures answer { (h : List Entry) (t : Terms) (e : Entry) (place : ℕ) → IsLegal h t
        → MayFollow h t e → All IsCall h → IsCall e
        → slice_get (issues_at (1 + length h) e) place ≡ Some issuance.now
        → IsMoveOf (ranges_of h) (issues_of h ++ take place (issues_at (1 + length h) e))
        issuance.now.id next.now
        → IssueWritesMake h e place made.old.ranges.items made.old.serials.items
        → OnOk result (IssueWritesMake h e (place + 1) made.new.ranges.items
        made.new.serials.items) }
{
    let issued = prior_issue_in(next.lap);
    let (mark, row) = issue_writes(next.num, next.mark.serial, issued, issuance);
    made.add_range(mark)?;
    made.add_serial(row)
}

// Returns the writes of all issuances of a call that is no Done Grant and no Done Void, by their
// moves. `Memory` if out of memory, `Store` if an issuance has no move.
pub(crate) fn issue_writes_of(
    alloc: Global,
    moves: &[MarkMove],
    arrival: u32,
    entry: &Entry,
) -> Result<RowWrites, BookFault>
    ensures fault { result ≢ Err Full }
    ensures done { (h : List Entry) → AreMoves h entry.now moves.now
        → IfErr result (λ f. f ≡ BookFault.Memory) }
    ensures answer { (h : List Entry) (t : Terms) → IsLegal h t → MayFollow h t entry.now
        → All IsCall h → IsCall entry.now → AreMoves h entry.now moves.now → arrival ≡ length h + 1
        → ((num : ℕ) → ¬ (entry.now.outcome ≡ Granted num)) → ¬ (entry.now.outcome ≡ Voided)
        → IfOk result (λ made. MakesWrites h entry.now made.ranges.items made.serials.items) }
{
    let mut made = RowWrites::new(alloc);
    for place in 0..entry.issued() {
        let Some(issuance) = entry.issue(arrival, place) else {
            return Err(BookFault::Store);
        };
        let Some(next) = moves.get(place) else {
            return Err(BookFault::Store);
        };
        add_issue_writes(&mut made, next, &issuance)?;
    }
    Ok(made)
}
