//! Reads the five tables.

ghost use Rattle.std.specs.Prelude.{◌≡◌, ◌≢◌, pos, List, map, filter, IfOk, OnOk};
ghost use Rattle.std.specs.List.{AllByRecursion};
ghost use Rattle.std.specs.Ordering.{int_cmp};
ghost use Rattle.std.specs.declared.cmp.Ordering.TheVariants as Ordering;
ghost use Rattle.sqlite_trees.specs.Tree.{IsAscending};
ghost use Rattle.sqlite.specs.Held.{state};
ghost use Rattle.sqlite.specs.State.{Shown};
ghost use Rattle.sqlite.specs.Given.{IsPlain};
ghost use Rattle.sqlite.specs.Listing.{understood};
ghost use Rattle.sqlite.specs.Values.{bound};
ghost use Rattle.s10_rows.specs.CallRow.{StoredCall};
ghost use Rattle.s10_rows.specs.declared.closed_row.ClosedRow.{ClosedRow};
ghost use Rattle.s10_rows.specs.declared.range_row.RangeRow.{RangeRow};
ghost use Rattle.s10_rows.specs.declared.serial_row.SerialRow.{SerialRow};
ghost use Rattle.s10_rows.specs.Tables.{Tables, HaveSameRows, serial_row_cmp};
ghost use Rattle.s10_schema.specs.Schema.{IsLedgerSchema, IsClosedSchema};
ghost use Rattle.s10_statements.specs.Shown.{HasTables, shown_head, shown_call, shown_range};
ghost use Rattle.s10_statements.specs.Shown.{shown_serial, shown_closed, head_columns};
ghost use Rattle.s10_statements.specs.Shown.{call_columns, range_columns, serial_columns};
ghost use Rattle.s10_statements.specs.Shown.{closed_columns, HasIntegerRowid};
ghost use Rattle.s10_rows.specs.Selected.{is_within};
ghost use Rattle.s10_statements.specs.ConnectionState.{AddsNoCrashState, AddsNoCrashStateWhere};
ghost use Rattle.s10_statements.specs.ConnectionState.{IsClean, IsOpen};
ghost use Rattle.s10_statements.specs.Statements.{LeavesTables, LeavesTablesWhere};

use crate::observer::Observer;
use crate::row_reading::rows_in;
use crate::row_sink::RowSink;
use crate::streams::stream_rows;
use s10_rows::{CallRow, ClosedRow, HeadRow, RangeRow, SerialRow};
use sqlite::types::ValueRef;
use sqlite::{Alter, Connection, Error, Row, params};
use std::alloc::Global;

// Returns the rows of a query.
fn read<S: Alter>(
    conn: &mut Connection<S>,
    sql: &str,
    params: &[ValueRef<'_>],
) -> Result<Vec<Row>, Error>
    ensures leaves { LeavesTablesWhere (λ schema. IsPlain (understood schema sql.now)) S.Store
        conn.old conn.new }
    ensures spares { AddsNoCrashStateWhere (λ schema. IsPlain (understood schema sql.now)) S.Store
        conn.old conn.new }
    ensures rows { IsClean S.Store conn.new
        → IfOk result (λ rows. Shown sql.now (bound params.now) (state S.Store conn.old)
        (state S.Store conn.new) rows.items) }
    ensures opened { IsClean S.Store conn.new → OnOk result (IsOpen S.Store conn.new) }
{
    conn.query_all(sql, params)
}

/// Returns all rows of `head`.
///
/// # Errors
///
/// The error of the query, or of a value of another type than its column's; `OutOfMemory` if out of
/// memory.
pub fn all_heads<S: Alter>(alloc: Global, conn: &mut Connection<S>) -> Result<Vec<HeadRow>, Error>
    ensures spares { AddsNoCrashState S.Store conn.old conn.new }
    ensures leaves { LeavesTables S.Store conn.old conn.new }
    ensures opened { IsClean S.Store conn.new → OnOk result (IsOpen S.Store conn.new) }
    ensures rows { IsClean S.Store conn.new
        → IfOk result (λ rows. IsLedgerSchema (state S.Store conn.old).now.schema
        → HaveSameRows (map shown_head rows.items)
        (map head_columns ((state S.Store conn.old).now.trees 0))) }
{
    let rows = read(
        conn,
        "SELECT one, schema, interval, cap FROM head ORDER BY one",
        &[],
    )?;
    rows_in(alloc, &rows)
}

/// Passes each row of `calls` to the sink, in order of arrival, and reports it to the observer.
///
/// # Errors
///
/// The error of the query, or of a value of another type than its column's; `OutOfMemory` if out of
/// memory. The sink may have taken some rows.
pub fn read_calls<S: Alter, W: Observer, K: RowSink<CallRow>>(
    conn: &mut Connection<S>,
    sink: &mut K,
    observer: &mut W,
) -> Result<(), Error>
    ensures spares { AddsNoCrashState S.Store conn.old conn.new }
    ensures leaves { LeavesTables S.Store conn.old conn.new }
    ensures opened { IsClean S.Store conn.new → OnOk result (IsOpen S.Store conn.new) }
    ensures rows { IsClean S.Store conn.new
        → OnOk result (IsLedgerSchema (state S.Store conn.old).now.schema
        → (calls : List StoredCall) × HaveSameRows (map shown_call calls)
        (map call_columns ((state S.Store conn.old).now.trees 1))
        × IsAscending (λ a b. int_cmp a.arrival b.arrival ≢ Ordering.Greater) calls
        × K.has_taken sink.old calls sink.new) }
{
    stream_rows(
        conn,
        "SELECT arrival, customer, number, day, reply FROM calls ORDER BY arrival",
        "calls",
        sink,
        observer,
    )
}

/// Passes each row of `ranges` to the sink, in order of their numbers, and reports it to the
/// observer.
///
/// # Errors
///
/// The error of the query, or of a value of another type than its column's; `OutOfMemory` if out of
/// memory. The sink may have taken some rows.
pub fn read_ranges<S: Alter, W: Observer, K: RowSink<RangeRow>>(
    conn: &mut Connection<S>,
    sink: &mut K,
    observer: &mut W,
) -> Result<(), Error>
    ensures spares { AddsNoCrashState S.Store conn.old conn.new }
    ensures leaves { LeavesTables S.Store conn.old conn.new }
    ensures opened { IsClean S.Store conn.new → OnOk result (IsOpen S.Store conn.new) }
    ensures rows { IsClean S.Store conn.new
        → OnOk result (IsLedgerSchema (state S.Store conn.old).now.schema
        → (ranges : List RangeRow) × HaveSameRows (map shown_range ranges)
        (map range_columns ((state S.Store conn.old).now.trees 3))
        × IsAscending (λ a b. int_cmp a.num b.num ≢ Ordering.Greater) ranges
        × K.has_taken sink.old ranges sink.new) }
{
    stream_rows(
        conn,
        "SELECT num, holder, pair, low, high, mark FROM ranges ORDER BY num",
        "ranges",
        sink,
        observer,
    )
}

/// Returns the rows of `serials` with that pair and a serial from `low` to `high`.
///
/// # Errors
///
/// The error of the query, or of a value of another type than its column's; `OutOfMemory` if out of
/// memory.
pub fn serials_within<S: Alter>(
    alloc: Global,
    conn: &mut Connection<S>,
    pair: u32,
    low: u32,
    high: u32,
) -> Result<Vec<SerialRow>, Error>
    ensures spares { AddsNoCrashState S.Store conn.old conn.new }
    ensures leaves { LeavesTables S.Store conn.old conn.new }
    ensures opened { IsClean S.Store conn.new → OnOk result (IsOpen S.Store conn.new) }
    ensures rows { IsClean S.Store conn.new → IfOk result (λ rows. (tables : Tables)
        → HasTables (state S.Store conn.old).now tables
        → HaveSameRows (filter (is_within (pos pair) (pos low) (pos high)) tables.serials)
        rows.items) }
{
    let rows = read(
        conn,
        "SELECT pair, serial, arrival, day, customer, number, voided FROM serials WHERE pair = ?1 AND serial BETWEEN ?2 AND ?3 ORDER BY pair, serial",
        params![pair, low, high],
    )?;
    rows_in(alloc, &rows)
}

/// Passes each row of `serials` to the sink, in order of pair and serial, and reports it to the
/// observer. Their rowids are read too, which shows that they are integers.
///
/// # Errors
///
/// The error of the query, or of a value of another type than its column's; `OutOfMemory` if out of
/// memory. The sink may have taken some rows.
pub fn read_serials<S: Alter, W: Observer, K: RowSink<SerialRow>>(
    conn: &mut Connection<S>,
    sink: &mut K,
    observer: &mut W,
) -> Result<(), Error>
    ensures spares { AddsNoCrashState S.Store conn.old conn.new }
    ensures leaves { LeavesTables S.Store conn.old conn.new }
    ensures opened { IsClean S.Store conn.new → OnOk result (IsOpen S.Store conn.new) }
    ensures rows { IsClean S.Store conn.new
        → OnOk result (IsLedgerSchema (state S.Store conn.old).now.schema
        → (serials : List SerialRow) × HaveSameRows (map shown_serial serials)
        (map serial_columns ((state S.Store conn.old).now.trees 4))
        × IsAscending (λ a b. serial_row_cmp a b ≢ Ordering.Greater) serials
        × K.has_taken sink.old serials sink.new) }
    ensures numbered { IsClean S.Store conn.new
        → OnOk result (IsLedgerSchema (state S.Store conn.old).now.schema
        → AllByRecursion HasIntegerRowid ((state S.Store conn.old).now.trees 4)) }
{
    stream_rows(
        conn,
        "SELECT pair, serial, arrival, day, customer, number, voided, rowid FROM serials ORDER BY pair, serial",
        "serials",
        sink,
        observer,
    )
}

/// Passes each row of `closed` to the sink, in order of the numbers of their ranges, and reports it
/// to the observer.
///
/// # Errors
///
/// The error of the query, or of a value of another type than its column's; `OutOfMemory` if out of
/// memory. The sink may have taken some rows.
pub fn read_closed<S: Alter, W: Observer, K: RowSink<ClosedRow>>(
    conn: &mut Connection<S>,
    sink: &mut K,
    observer: &mut W,
) -> Result<(), Error>
    ensures spares { AddsNoCrashStateWhere IsClosedSchema S.Store conn.old conn.new }
    ensures leaves { LeavesTablesWhere IsClosedSchema S.Store conn.old conn.new }
    ensures opened { IsClean S.Store conn.new → OnOk result (IsOpen S.Store conn.new) }
    ensures rows { IsClean S.Store conn.new
        → OnOk result (IsClosedSchema (state S.Store conn.old).now.schema
        → (closed : List ClosedRow) × HaveSameRows (map shown_closed closed)
        (map closed_columns ((state S.Store conn.old).now.trees 6))
        × IsAscending (λ a b. int_cmp a.num b.num ≢ Ordering.Greater) closed
        × K.has_taken sink.old closed sink.new) }
{
    stream_rows(
        conn,
        "SELECT num, arrival FROM closed ORDER BY num",
        "closed",
        sink,
        observer,
    )
}
