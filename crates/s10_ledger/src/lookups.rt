//! Reads the tables of a book that is in use.

ghost use Rattle.std.specs.Prelude.{◌≡◌, ◌≢◌, ℕ, ◌<◌, ◌^◌, max, List, length, All, Contains, Err};
ghost use Rattle.std.specs.Prelude.{IfErr, IfOk, IsTrue, OnOk};
ghost use Rattle.sqlite.specs.Held.{state};
ghost use Rattle.sqlite.specs.State.{HasCleanDisk};
ghost use Rattle.s10_history.specs.declared.entry.Entry.{Entry};
ghost use Rattle.s10_book.specs.declared.book_fault.BookFault.TheVariants.{Full};
ghost use Rattle.s10_history.specs.Settings.{Terms};
ghost use Rattle.s10_history.specs.History.{day_of, ranges_of};
ghost use Rattle.s10_history.specs.Usage.{usage_of};
ghost use Rattle.s10_book.specs.Rules.{IsLegal};
ghost use Rattle.s10_statements.specs.Shown.{StandsFor};
ghost use Rattle.s10_rows.specs.Selected.{IsCall};
ghost use Rattle.s10_statements.specs.ConnectionState.{AddsNoCrashState};
ghost use Rattle.s10_statements.specs.Statements.{LeavesTables};
ghost use Rattle.s10_ledger.specs.Faults.{IsReasonFor};
ghost use Rattle.s10_ledger.specs.Ledger.{LeavesCommitted, HasFailed};
ghost use Rattle.s10_schema.specs.Schema.{IsLedgerSchema};

use crate::faults::keep_failure;
use s10_book::BookFault;
use s10_core::pair_number;
use s10_history::{Range, Usage};
use s10_replay::usage_among;
use s10_statements::serials_within;
use sqlite::{Alter, Connection, Error};
use std::alloc::Global;

// Compiles a statement, to see whether the connection answers. Runs nothing.
pub(crate) fn ask<S: Alter>(
    conn: &mut Connection<S>,
    last_failure: &mut Option<Error>,
) -> Result<(), BookFault>
    ensures spares { LeavesCommitted S.Store conn.old conn.new }
    ensures leaves { LeavesTables S.Store conn.old conn.new }
    ensures opened { HasCleanDisk (state S.Store conn.new)
        → OnOk result (IsTrue (state S.Store conn.new).is_open) }
    ensures fault { result ≢ Err Full }
    ensures store { HasCleanDisk (state S.Store conn.new) → IsTrue (state S.Store conn.old).is_open
        → IsLedgerSchema (state S.Store conn.old).now.schema → result ≡ Err BookFault.Store
        → HasFailed S.Store conn.old conn.new }
    ensures reason { IfErr result (IsReasonFor last_failure.new) }
{
    match conn.prepare("SELECT one, schema, interval, cap FROM head") {
        Ok(_) => Ok(()),
        Err(error) => Err(keep_failure(last_failure, error)),
    }
}

pub(crate) fn usage_in<S: Alter>(
    alloc: Global,
    conn: &mut Connection<S>,
    last_failure: &mut Option<Error>,
    range: &Range,
    day: u32,
    interval: u32,
) -> Result<Usage, BookFault>
    ensures spares { AddsNoCrashState S.Store conn.old conn.new }
    ensures leaves { LeavesTables S.Store conn.old conn.new }
    ensures opened { HasCleanDisk (state S.Store conn.new)
        → OnOk result (IsTrue (state S.Store conn.new).is_open) }
    ensures fault { result ≢ Err Full }
    ensures answer { HasCleanDisk (state S.Store conn.new) → (h : List Entry) (t : Terms)
        → IsLegal h t → All IsCall h → StandsFor (state S.Store conn.old).now h t
        → length h < 2 ^ 32 → Contains (ranges_of h) range.now → (asked : ℕ)
        → day ≡ max (day_of h) asked
        → IfOk result (λ answer. answer ≡ usage_of h range.now asked interval) }
{
    let pair = pair_number(range.service, range.country);
    let first = range.first.value();
    let last = range.last.value();
    let rows = match serials_within(alloc, conn, pair, first, last) {
        Ok(rows) => rows,
        Err(error) => return Err(keep_failure(last_failure, error)),
    };
    usage_among(&rows, range, day, interval)
}
