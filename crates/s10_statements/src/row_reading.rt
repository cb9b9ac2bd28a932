//! Reads typed rows from the rows of a result.

ghost use Rattle.std.specs.Prelude.{◌≡◌, length, IfOk, map};
ghost use Rattle.s10_statements.specs.Shown.{shown_head, shown_serial, serial_front, ShowsCall};
ghost use Rattle.s10_statements.specs.Shown.{ShowsRange, ShowsSerial, ShowsClosed};

use crate::from_row::FromRow;
use crate::streamed_row::StreamedRow;
use s10_rows::{CallRow, ClosedRow, HeadRow, RangeRow, SerialRow};
use sqlite::{Error, Row};
use std::alloc::Global;

// Fails if the row has another number of columns.
fn check_width(row: &Row, width: usize) -> Result<(), Error>
    ensures { IfOk result (λ _. length row.now ≡ width) }
{
    if row.column_count() == width {
        Ok(())
    } else {
        Err(Error::InvalidColumnIndex(width))
    }
}

impl FromRow for HeadRow {
    ghost shown = { shown_head };

    fn from_row(row: &Row) -> Result<HeadRow, Error>
        ensures { IfOk result (λ head. shown_head head ≡ row.now) }
    {
        check_width(row, 4)?;
        Ok(HeadRow {
            one: row.get(0)?,
            schema: row.get(1)?,
            interval: row.get(2)?,
            cap: row.get(3)?,
        })
    }
}

impl StreamedRow for CallRow {
    ghost is_shown_as = { ShowsCall };

    fn read(row: &Row) -> Result<CallRow, Error>
        ensures { IfOk result (λ call. ShowsCall call row.now) }
    {
        check_width(row, 5)?;
        let arrival: i64 = row.get(0)?;
        let customer: i64 = row.get(1)?;
        let number: i64 = row.get(2)?;
        let day: i64 = row.get(3)?;
        let reply: Vec<u8> = row.get(4)?;
        Ok(CallRow::new(arrival, customer, number, day, reply))
    }
}

impl StreamedRow for RangeRow {
    ghost is_shown_as = { ShowsRange };

    fn read(row: &Row) -> Result<RangeRow, Error>
        ensures { IfOk result (λ range. ShowsRange range row.now) }
    {
        check_width(row, 6)?;
        Ok(RangeRow {
            num: row.get(0)?,
            holder: row.get(1)?,
            pair: row.get(2)?,
            low: row.get(3)?,
            high: row.get(4)?,
            mark: row.get(5)?,
        })
    }
}

// Reads the columns of `serials`, which other columns may follow.
fn serial_columns_in(row: &Row) -> Result<SerialRow, Error>
    ensures { IfOk result (λ serial. shown_serial serial ≡ serial_front row.now) }
{
    Ok(SerialRow {
        pair: row.get(0)?,
        serial: row.get(1)?,
        arrival: row.get(2)?,
        day: row.get(3)?,
        customer: row.get(4)?,
        number: row.get(5)?,
        voided: row.get(6)?,
    })
}

impl FromRow for SerialRow {
    ghost shown = { shown_serial };

    fn from_row(row: &Row) -> Result<SerialRow, Error>
        ensures { IfOk result (λ serial. shown_serial serial ≡ row.now) }
    {
        check_width(row, 7)?;
        serial_columns_in(row)
    }
}

// Reads a row of `serials`, with its rowid after the columns.
impl StreamedRow for SerialRow {
    ghost is_shown_as = { ShowsSerial };

    fn read(row: &Row) -> Result<SerialRow, Error>
        ensures { IfOk result (λ serial. ShowsSerial serial row.now) }
    {
        let _rowid: i64 = row.get(7)?;
        serial_columns_in(row)
    }
}

impl StreamedRow for ClosedRow {
    ghost is_shown_as = { ShowsClosed };

    fn read(row: &Row) -> Result<ClosedRow, Error>
        ensures { IfOk result (λ closed. ShowsClosed closed row.now) }
    {
        check_width(row, 2)?;
        Ok(ClosedRow {
            num: row.get(0)?,
            arrival: row.get(1)?,
        })
    }
}

/// Reads each row of a result as a typed row.
pub(crate) fn rows_in<T: FromRow>(alloc: Global, rows: &[Row]) -> Result<Vec<T>, Error>
    ensures { IfOk result (λ typed. map T.shown typed.items ≡ rows.now) }
{
    let mut typed = Vec::new(alloc);
    for row in rows {
        typed.push(T::from_row(row)?)?;
    }
    Ok(typed)
}
