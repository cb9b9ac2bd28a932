//! Reads the tables of a ledger. The calls are executed again, and the rows of the other tables
//! compared, while they are read.

ghost use Rattle.std.specs.Prelude.{◌≡◌, ◌≢◌, List, IfOk, OnOk, IsTrue};
ghost use Rattle.std.specs.Ordering.{int_cmp};
ghost use Rattle.std.specs.declared.cmp.Ordering.TheVariants.{Greater};
ghost use Rattle.sqlite_trees.specs.Tree.{IsAscending};
ghost use Rattle.sqlite.specs.Held.{state};
ghost use Rattle.sqlite.specs.State.{HasCleanDisk};
ghost use Rattle.s10_rows.specs.CallRow.{StoredCall};
ghost use Rattle.s10_rows.specs.declared.closed_row.ClosedRow.{ClosedRow};
ghost use Rattle.s10_rows.specs.declared.head_row.HeadRow.{HeadRow};
ghost use Rattle.s10_schema.specs.Schema.{IsLedgerSchema};
ghost use Rattle.s10_statements.specs.ConnectionState.{IsQuiescent, AddsNoCrashState};
ghost use Rattle.s10_statements.specs.ConnectionState.{AddsNoCrashStateWhere};
ghost use Rattle.s10_statements.specs.Statements.{LeavesTables, LeavesTablesWhere};
ghost use Rattle.s10_ledger.specs.TableLayout.{IsOfTableLayout, AreClosed};
ghost use Rattle.s10_ledger.specs.AllRows.{HasCallRows, HasRangeVerdict, HasSerialVerdict};
ghost use Rattle.s10_ledger.specs.AllRows.{HasClosedVerdict, HasVerdicts, AreRead};
ghost use Rattle.s10_ledger.specs.Replaying.{IsReplayOf};

use crate::opening::call_replay::CallReplay;
use crate::opening::row_match::RowMatch;
use crate::opening::table_layout::TableLayout;
use crate::opening::verdicts::Verdicts;
use s10_index::IndexedBook;
use s10_ranges::HashSeed;
use s10_rows::{ClosedRow, OpenFault, RangeRow, SerialRow};
use s10_statements::{
    Observer, RowSink, all_heads, read_calls, read_closed, read_ranges, read_serials,
};
use sqlite::{Alter, Connection, Error};
use std::alloc::Global;

// Executes the stored calls again, with the settings of `head`. Returns the book that results, or
// why the calls are refused.
fn replay_calls<S: Alter, W: Observer>(
    alloc: Global,
    seed: HashSeed,
    conn: &mut Connection<S>,
    observer: &mut W,
) -> Result<Result<IndexedBook, OpenFault>, Error>
    ensures spares { IsQuiescent S.Store conn.old → AddsNoCrashState S.Store conn.old conn.new }
    ensures leaves { LeavesTables S.Store conn.old conn.new }
    ensures opened { HasCleanDisk (state S.Store conn.new)
        → OnOk result (IsTrue (state S.Store conn.new).is_open) }
    ensures rows { HasCleanDisk (state S.Store conn.new) → IsTrue (state S.Store conn.new).is_open
        → IsQuiescent S.Store conn.old → IsLedgerSchema (state S.Store conn.old).now.schema
        → IfOk result (λ made. (heads : List HeadRow) × (calls : List StoredCall)
        × HasCallRows (state S.Store conn.old).now heads calls × IsReplayOf heads calls made) }
{
    let heads = all_heads(alloc, conn)?;
    let mut replay = CallReplay::new(alloc, seed, &heads);
    read_calls(conn, &mut replay, observer)?;
    Ok(replay.into_made())
}

// Returns whether the rows of `ranges` are those of the book.
fn ranges_match<S: Alter, W: Observer>(
    conn: &mut Connection<S>,
    made: &Result<IndexedBook, OpenFault>,
    observer: &mut W,
) -> Result<bool, Error>
    ensures spares { AddsNoCrashState S.Store conn.old conn.new }
    ensures leaves { LeavesTables S.Store conn.old conn.new }
    ensures opened { HasCleanDisk (state S.Store conn.new)
        → OnOk result (IsTrue (state S.Store conn.new).is_open) }
    ensures rows { HasCleanDisk (state S.Store conn.new)
        → IsLedgerSchema (state S.Store conn.old).now.schema
        → IfOk result (HasRangeVerdict (state S.Store conn.old).now made.now) }
{
    let mut ranges = RowMatch::<RangeRow>::new(made);
    read_ranges(conn, &mut ranges, observer)?;
    Ok(ranges.is_complete())
}

// Returns whether the rows of `serials` are those of the book.
fn serials_match<S: Alter, W: Observer>(
    conn: &mut Connection<S>,
    made: &Result<IndexedBook, OpenFault>,
    observer: &mut W,
) -> Result<bool, Error>
    ensures spares { AddsNoCrashState S.Store conn.old conn.new }
    ensures leaves { LeavesTables S.Store conn.old conn.new }
    ensures opened { HasCleanDisk (state S.Store conn.new)
        → OnOk result (IsTrue (state S.Store conn.new).is_open) }
    ensures rows { HasCleanDisk (state S.Store conn.new)
        → IsLedgerSchema (state S.Store conn.old).now.schema
        → IfOk result (HasSerialVerdict (state S.Store conn.old).now made.now) }
{
    let mut serials = RowMatch::<SerialRow>::new(made);
    read_serials(conn, &mut serials, observer)?;
    Ok(serials.is_complete())
}

// Passes the rows of `closed` to the sink: none if the table is missing.
fn read_closed_if_there<S: Alter, W: Observer, K: RowSink<ClosedRow>>(
    conn: &mut Connection<S>,
    form: TableLayout,
    sink: &mut K,
    observer: &mut W,
) -> Result<(), Error>
    ensures spares { AddsNoCrashStateWhere (IsOfTableLayout form) S.Store conn.old conn.new }
    ensures leaves { LeavesTablesWhere (IsOfTableLayout form) S.Store conn.old conn.new }
    ensures opened { HasCleanDisk (state S.Store conn.new)
        → OnOk result (IsTrue (state S.Store conn.old).is_open
        → IsTrue (state S.Store conn.new).is_open) }
    ensures rows { HasCleanDisk (state S.Store conn.new)
        → OnOk result (IsOfTableLayout form (state S.Store conn.old).now.schema
        → (closed : List ClosedRow) × AreClosed form (state S.Store conn.old).now closed
        × IsAscending (λ a b. int_cmp a.num b.num ≢ Greater) closed
        × K.has_taken sink.old closed sink.new) }
{
    match form {
        TableLayout::Whole => read_closed(conn, sink, observer),
        TableLayout::Old => Ok(()),
    }
}

// Returns whether the rows of `closed` are those of the book. It has none if the table is missing.
fn closed_match<S: Alter, W: Observer>(
    conn: &mut Connection<S>,
    made: &Result<IndexedBook, OpenFault>,
    form: TableLayout,
    observer: &mut W,
) -> Result<bool, Error>
    ensures spares { AddsNoCrashStateWhere (IsOfTableLayout form) S.Store conn.old conn.new }
    ensures leaves { LeavesTablesWhere (IsOfTableLayout form) S.Store conn.old conn.new }
    ensures opened { HasCleanDisk (state S.Store conn.new)
        → OnOk result (IsTrue (state S.Store conn.old).is_open
        → IsTrue (state S.Store conn.new).is_open) }
    ensures rows { HasCleanDisk (state S.Store conn.new)
        → IsOfTableLayout form (state S.Store conn.old).now.schema
        → IfOk result (HasClosedVerdict form (state S.Store conn.old).now made.now) }
{
    let mut closed = RowMatch::<ClosedRow>::new(made);
    read_closed_if_there(conn, form, &mut closed, observer)?;
    Ok(closed.is_complete())
}

// Returns whether the rows of the tables that follow from the calls are those of the book.
fn read_derived_rows<S: Alter, W: Observer>(
    conn: &mut Connection<S>,
    made: &Result<IndexedBook, OpenFault>,
    form: TableLayout,
    observer: &mut W,
) -> Result<Verdicts, Error>
    ensures spares { IsQuiescent S.Store conn.old
        → AddsNoCrashStateWhere (IsOfTableLayout form) S.Store conn.old conn.new }
    ensures leaves { LeavesTablesWhere (IsOfTableLayout form) S.Store conn.old conn.new }
    ensures opened { HasCleanDisk (state S.Store conn.new)
        → OnOk result (IsTrue (state S.Store conn.new).is_open) }
    ensures rows { HasCleanDisk (state S.Store conn.new) → IsTrue (state S.Store conn.new).is_open
        → IsQuiescent S.Store conn.old → IsOfTableLayout form (state S.Store conn.old).now.schema
        → IfOk result (HasVerdicts form (state S.Store conn.old).now made.now) }
{
    let has_ranges = ranges_match(conn, made, observer)?;
    let has_serials = serials_match(conn, made, observer)?;
    let has_closed = closed_match(conn, made, form, observer)?;
    Ok(Verdicts {
        has_ranges,
        has_serials,
        has_closed,
    })
}

// Executes the stored calls again. Returns the book that results, and whether the rows of the other
// tables are those of this book.
pub(crate) fn read_tables<S: Alter, W: Observer>(
    alloc: Global,
    seed: HashSeed,
    conn: &mut Connection<S>,
    form: TableLayout,
    observer: &mut W,
) -> Result<(Result<IndexedBook, OpenFault>, Verdicts), Error>
    requires form { IsOfTableLayout form (state S.Store conn.old).now.schema }
    ensures spares { IsQuiescent S.Store conn.old → AddsNoCrashState S.Store conn.old conn.new }
    ensures leaves { LeavesTables S.Store conn.old conn.new }
    ensures opened { HasCleanDisk (state S.Store conn.new)
        → OnOk result (IsTrue (state S.Store conn.new).is_open) }
    ensures rows { HasCleanDisk (state S.Store conn.new) → IsTrue (state S.Store conn.new).is_open
        → IsQuiescent S.Store conn.old
        → IfOk result (λ rows. AreRead form (state S.Store conn.old).now rows.0 rows.1) }
{
    let made = replay_calls(alloc, seed, conn, observer)?;
    let verdicts = read_derived_rows(conn, &made, form, observer)?;
    Ok((made, verdicts))
}
