//! Reads the rows of a query one at a time, and passes them on.

ghost use Rattle.std.specs.Prelude.{List, [], OnOk};
ghost use Rattle.std.specs.List.{AllZip};
ghost use Rattle.sqlite_value.specs.Order.{Row};
ghost use Rattle.sqlite.specs.Held.{state};
ghost use Rattle.sqlite.specs.State.{Shown};
ghost use Rattle.sqlite.specs.Given.{IsPlain};
ghost use Rattle.sqlite.specs.Listing.{understood};
ghost use Rattle.s10_statements.specs.ConnectionState.{AddsNoCrashStateWhere, IsClean, IsOpen};
ghost use Rattle.s10_statements.specs.Statements.{LeavesTablesWhere};

use crate::observer::Observer;
use crate::row_sink::RowSink;
use crate::streamed_row::StreamedRow;
use sqlite::{Alter, Connection, Error, ErrorCode};

// The error for more rows than a `u64` can count.
const TOO_MANY: Error = Error::SqliteFailure(ErrorCode::TooBig);

/// Passes each row that a query of a table shows to the sink, and reports it to the observer.
pub(crate) fn stream_rows<S: Alter, W: Observer, T: StreamedRow, K: RowSink<T>>(
    conn: &mut Connection<S>,
    sql: &str,
    table: &str,
    sink: &mut K,
    observer: &mut W,
) -> Result<(), Error>
    ensures leaves { LeavesTablesWhere (λ schema. IsPlain (understood schema sql.now)) S.Store
        conn.old conn.new }
    ensures spares { AddsNoCrashStateWhere (λ schema. IsPlain (understood schema sql.now)) S.Store
        conn.old conn.new }
    ensures opened { IsClean S.Store conn.new → OnOk result (IsOpen S.Store conn.new) }
    ensures rows { IsClean S.Store conn.new
        → OnOk result (IsPlain (understood (state S.Store conn.old).now.schema sql.now)
        → (rows : List Row) × Shown sql.now [] (state S.Store conn.old)
        (state S.Store conn.new) rows × (typed : List T) × AllZip T.is_shown_as typed rows
        × K.has_taken sink.old typed sink.new) }
{
    let mut shown = conn.query(sql, &[])?;
    'rows: for done in 0..u64::MAX {
        shown.advance()?;
        let Some(row) = shown.get() else {
            return Ok(());
        };
        sink.take(T::read(row)?);
        observer.rows_read(table, done + 1);
    }
    Err(TOO_MANY)
}
