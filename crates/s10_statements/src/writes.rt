//! Writes the rows of kept calls.

ghost use Rattle.std.specs.Prelude.{◌≡◌, ◌≢◌, ◌≤◌, ◌⊎◌, ◌++◌, ◌∷◌, [], pos, List, length};
ghost use Rattle.std.specs.Prelude.{filter, option_to_list, OnOk, OnErr};
ghost use Rattle.sqlite_trees.specs.Tree.{Trees};
ghost use Rattle.sqlite.specs.Held.{state};
ghost use Rattle.s10_rows.specs.CallRow.{StoredCall};
ghost use Rattle.s10_rows.specs.Tables.{Tables, closing};
ghost use Rattle.s10_statements.specs.Shown.{HasTables};
ghost use Rattle.s10_statements.specs.ConnectionState.{IsQuiescent, IsClean, IsOpen, StaysUnclean};
ghost use Rattle.s10_statements.specs.Steps.{IsStep, EditsTables, EditsFittingTables};
ghost use Rattle.s10_rows.specs.RowWrites.{FindAtMostOne, is_at, row_of, with_range, with_ranges};
ghost use Rattle.s10_rows.specs.RowWrites.{with_serial, with_serials};
ghost use Rattle.s10_rows.specs.CallWrite.{AreWritten, with_call};
ghost use Rattle.s10_statements.specs.LaterMarks.{range_writes, HasTablesBut};

use crate::later_marks::is_set_again;
use s10_history::Entry;
use s10_rows::{CallWrite, ClosedRow, RangeRow, RangeWrite, SerialRow, SerialWrite};
use sqlite::{Alter, Connection, Error, Transaction, params};

fn insert_call<S: Alter>(
    tx: &mut Transaction<'_, S>,
    arrival: u32,
    entry: &Entry,
    reply: &[u8],
) -> Result<(), Error>
    ensures { let row : StoredCall = record {
      arrival = pos arrival;
      customer = pos entry.now.request.customer;
      number = pos entry.now.request.number;
      day = pos entry.now.day;
      reply = reply.now;
    } in
        IsStep S.Store tx.old.conn tx.new.conn result (IsOpen S.Store tx.old.conn.now
        × EditsTables S.Store tx.old.conn tx.new.conn (λ tables. record tables {
          calls = tables.calls ++ row ∷ [];
        })) }
{
    tx.execute(
        "INSERT INTO calls (arrival, customer, number, day, reply) VALUES (?1, ?2, ?3, ?4, ?5)",
        params![
            arrival,
            entry.request.customer,
            entry.request.number,
            entry.day,
            reply
        ],
    )?;
    Ok(())
}

fn insert_range<S: Alter>(tx: &mut Transaction<'_, S>, range: &RangeRow) -> Result<(), Error>
    ensures { IsStep S.Store tx.old.conn tx.new.conn result
        (EditsTables S.Store tx.old.conn tx.new.conn (λ tables. record tables {
          ranges = with_range (RangeWrite.New range.now) tables.ranges;
        })) }
{
    let RangeRow {
        num,
        holder,
        pair,
        low,
        high,
        mark,
    } = *range;
    tx.execute(
        "INSERT INTO ranges (num, holder, pair, low, high, mark) VALUES (?1, ?2, ?3, ?4, ?5, ?6)",
        params![num, holder, pair, low, high, mark],
    )?;
    Ok(())
}

// Sets the mark of the range with the number `num`. Fails unless exactly one row changes.
fn update_mark<S: Alter>(tx: &mut Transaction<'_, S>, num: i64, mark: i64) -> Result<(), Error>
    ensures { IsStep S.Store tx.old.conn tx.new.conn result
        (EditsTables S.Store tx.old.conn tx.new.conn (λ tables. record tables {
          ranges = with_range (RangeWrite.Mark num mark) tables.ranges;
        })) }
{
    let changed = tx.execute(
        "UPDATE ranges SET mark = ?2 WHERE num = ?1",
        params![num, mark],
    )?;
    if changed == 1 {
        Ok(())
    } else {
        Err(Error::QueryReturnedNoRows)
    }
}

fn apply_range_write<S: Alter>(tx: &mut Transaction<'_, S>, write: &RangeWrite) -> Result<(), Error>
    ensures { IsStep S.Store tx.old.conn tx.new.conn result
        (EditsTables S.Store tx.old.conn tx.new.conn (λ tables. record tables {
          ranges = with_range write.now tables.ranges;
        })) }
{
    match *write {
        RangeWrite::New(row) => insert_range(tx, &row),
        RangeWrite::Mark { num, mark } => update_mark(tx, num, mark),
    }
}

fn insert_serial<S: Alter>(tx: &mut Transaction<'_, S>, serial: &SerialRow) -> Result<(), Error>
    ensures { IsStep S.Store tx.old.conn tx.new.conn result
        (EditsTables S.Store tx.old.conn tx.new.conn (λ tables. record tables {
          serials = with_serial (SerialWrite.New serial.now) tables.serials;
        })) }
{
    let SerialRow {
        pair,
        serial,
        arrival,
        day,
        customer,
        number,
        voided,
    } = *serial;
    tx.execute(
        "INSERT INTO serials (pair, serial, arrival, day, customer, number, voided) VALUES (?1, ?2, ?3, ?4, ?5, ?6, ?7)",
        params![pair, serial, arrival, day, customer, number, voided],
    )?;
    Ok(())
}

// Inserts the row, or updates the row of its identifier. Fails unless exactly one row changes.
fn upsert_serial<S: Alter>(tx: &mut Transaction<'_, S>, serial: &SerialRow) -> Result<(), Error>
    ensures { IsStep S.Store tx.old.conn tx.new.conn result
        (EditsFittingTables S.Store tx.old.conn tx.new.conn (λ tables. length (filter (is_at serial.now.pair serial.now.serial) tables.serials) ≤ 1)
        (λ tables. record tables {
          serials = with_serial (SerialWrite.Again serial.now) tables.serials;
        })) }
{
    let SerialRow {
        pair,
        serial,
        arrival,
        day,
        customer,
        number,
        voided,
    } = *serial;
    let changed = tx.execute(
        "INSERT INTO serials (pair, serial, arrival, day, customer, number, voided) VALUES (?1, ?2, ?3, ?4, ?5, ?6, ?7) ON CONFLICT (pair, serial) DO UPDATE SET arrival = ?3, day = ?4, customer = ?5, number = ?6, voided = ?7",
        params![pair, serial, arrival, day, customer, number, voided],
    )?;
    if changed == 1 {
        Ok(())
    } else {
        Err(Error::QueryReturnedNoRows)
    }
}

fn apply_serial_write<S: Alter>(
    tx: &mut Transaction<'_, S>,
    write: &SerialWrite,
) -> Result<(), Error>
    ensures { IsStep S.Store tx.old.conn tx.new.conn result
        (EditsFittingTables S.Store tx.old.conn tx.new.conn (λ tables. length (filter (is_at (row_of write.now).pair (row_of write.now).serial) tables.serials) ≤ 1)
        (λ tables. record tables {
          serials = with_serial write.now tables.serials;
        })) }
{
    match *write {
        SerialWrite::New(row) => insert_serial(tx, &row),
        SerialWrite::Again(row) => upsert_serial(tx, &row),
    }
}

// Applies the write, unless the rest of its call's writes or a later call sets its mark again.
fn apply_unless_set_again<S: Alter>(
    tx: &mut Transaction<'_, S>,
    write: &RangeWrite,
    rest: &[RangeWrite],
    later: &[CallWrite],
) -> Result<(), Error>
    ensures { let to_come : List RangeWrite = rest.now ++ range_writes later.now in
        IsStep S.Store tx.old.conn tx.new.conn result ((tables : Tables)
        → HasTablesBut (write.now ∷ to_come) (state S.Store tx.old.conn.now).now tables
        → HasTablesBut to_come (state S.Store tx.new.conn.now).now (record tables {
          ranges = with_range write.now tables.ranges;
        })) }
{
    if is_set_again(write, rest, later) {
        return Ok(());
    }
    apply_range_write(tx, write)
}

// Applies the writes in their order, without the marks that they or the later calls set again.
fn apply_range_writes<S: Alter>(
    tx: &mut Transaction<'_, S>,
    ranges: &[RangeWrite],
    later: &[CallWrite],
) -> Result<(), Error>
    ensures { let to_come : List RangeWrite = range_writes later.now in
        IsStep S.Store tx.old.conn tx.new.conn result ((tables : Tables)
        → HasTablesBut (ranges.now ++ to_come) (state S.Store tx.old.conn.now).now tables
        → HasTablesBut to_come (state S.Store tx.new.conn.now).now (record tables {
          ranges = with_ranges ranges.now tables.ranges;
        })) }
{
    for (place, write) in ranges.iter().enumerate() {
        apply_unless_set_again(tx, write, &ranges[place + 1..], later)?;
    }
    Ok(())
}

// Applies the writes in their order.
fn apply_serial_writes<S: Alter>(
    tx: &mut Transaction<'_, S>,
    serials: &[SerialWrite],
) -> Result<(), Error>
    ensures { IsStep S.Store tx.old.conn tx.new.conn result
        (EditsFittingTables S.Store tx.old.conn tx.new.conn (λ tables. FindAtMostOne serials.now tables.serials)
        (λ tables. record tables {
          serials = with_serials serials.now tables.serials;
        })) }
{
    for write in serials {
        apply_serial_write(tx, write)?;
    }
    Ok(())
}

fn insert_closed<S: Alter>(tx: &mut Transaction<'_, S>, closed: &ClosedRow) -> Result<(), Error>
    ensures { IsStep S.Store tx.old.conn tx.new.conn result
        (EditsTables S.Store tx.old.conn tx.new.conn (λ tables. record tables {
          closed = tables.closed ++ closed.now ∷ [];
        })) }
{
    let ClosedRow { num, arrival } = *closed;
    tx.execute(
        "INSERT INTO closed (num, arrival) VALUES (?1, ?2)",
        params![num, arrival],
    )?;
    Ok(())
}

// Inserts the row of the range that the call closes, if the call is a Done Withdraw.
fn insert_if_closed<S: Alter>(
    tx: &mut Transaction<'_, S>,
    arrival: u32,
    entry: &Entry,
) -> Result<(), Error>
    ensures { IsStep S.Store tx.old.conn tx.new.conn result
        (EditsTables S.Store tx.old.conn tx.new.conn (λ tables. record tables {
          closed = tables.closed ++ option_to_list
              (closing arrival entry.now.request.body entry.now.outcome);
        })) }
{
    match ClosedRow::made_by(arrival, entry) {
        Some(row) => insert_closed(tx, &row),
        None => Ok(()),
    }
}

// Inserts the row of the call, and writes its rows of the other tables, without the marks that the
// later calls set again.
fn insert_call_and_writes<S: Alter>(
    tx: &mut Transaction<'_, S>,
    write: &CallWrite,
    later: &[CallWrite],
) -> Result<(), Error>
    ensures { let to_come : List RangeWrite = range_writes later.now in
        IsStep S.Store tx.old.conn tx.new.conn result (IsOpen S.Store tx.old.conn.now
        × ((tables : Tables) → FindAtMostOne write.now.serials.items tables.serials
        → HasTablesBut (write.now.ranges.items ++ to_come) (state S.Store tx.old.conn.now).now tables
        → HasTablesBut to_come (state S.Store tx.new.conn.now).now (with_call write.now tables))) }
{
    insert_call(tx, write.arrival, &write.entry, write.reply.bytes())?;
    apply_range_writes(tx, &write.ranges, later)?;
    apply_serial_writes(tx, &write.serials)?;
    insert_if_closed(tx, write.arrival, &write.entry)
}

// Writes the calls in their order, each mark once.
fn insert_calls<S: Alter>(tx: &mut Transaction<'_, S>, writes: &[CallWrite]) -> Result<(), Error>
    ensures { IsStep S.Store tx.old.conn tx.new.conn result ((writes.now ≢ [] → IsOpen S.Store tx.old.conn.now)
        × ((before after : Tables) → AreWritten writes.now before after
        → HasTables (state S.Store tx.old.conn.now).now before
        → HasTables (state S.Store tx.new.conn.now).now after)) }
{
    for (place, write) in writes.iter().enumerate() {
        insert_call_and_writes(tx, write, &writes[place + 1..])?;
    }
    Ok(())
}

/// Writes the rows of the calls to all tables in one transaction: all of them, or none.
///
/// # Errors
///
/// The error of the statement or of the commit that failed; `OutOfMemory` if out of memory. If the
/// disk is clean and the connection open, no row was written.
pub fn commit_rows<S: Alter>(conn: &mut Connection<S>, writes: &[CallWrite]) -> Result<(), Error>
    requires settled { IsQuiescent S.Store conn.old }
    ensures settled { IsQuiescent S.Store conn.new }
    ensures opened { IsClean S.Store conn.new → OnOk result (IsOpen S.Store conn.new) }
    ensures all { IsClean S.Store conn.new → OnOk result ((before after : Tables)
        → AreWritten writes.now before after
        → HasTables (state S.Store conn.old).now before → HasTables (state S.Store conn.new).now
        after) }
    ensures none { IsClean S.Store conn.new → IsOpen S.Store conn.new
        → OnErr result ((state S.Store conn.new).now ≡ (state S.Store conn.old).now) }
    ensures was_open { IsClean S.Store conn.new → IsOpen S.Store conn.new
        → IsOpen S.Store conn.old }
    ensures clean { StaysUnclean S.Store conn.old conn.new }
    ensures crash { IsClean S.Store conn.new → (db : Trees) → (state S.Store conn.new).may_leave db
        → (state S.Store conn.old).may_leave db ⊎ ((writes.now ≢ [] → IsOpen S.Store conn.old)
        × ((before after : Tables) → AreWritten writes.now before after
        → HasTables (state S.Store conn.old).now before
        → HasTables (record (state S.Store conn.old).now { trees = db }) after)) }
{
    let mut tx = conn.transaction();
    insert_calls(&mut tx, writes)?;
    tx.commit()
}
