//! Adds the table that a ledger of an earlier build lacks.

ghost use Rattle.std.specs.Prelude.{◌≡◌, ◌⊎◌, OnOk, OnErr};
ghost use Rattle.sqlite_trees.specs.Tree.{Trees};
ghost use Rattle.sqlite.specs.Held.{state};
ghost use Rattle.s10_rows.specs.Tables.{Tables};
ghost use Rattle.s10_schema.specs.Schema.{ledger_schema};
ghost use Rattle.s10_statements.specs.Shown.{HasTables, HasOldTables};
ghost use Rattle.s10_statements.specs.ConnectionState.{IsQuiescent, IsClean, IsOpen, StaysUnclean};

use crate::creating::{CLOSED, run};
use sqlite::{Alter, Connection, Error};

/// Creates `closed`, empty, after the four tables of an earlier build, in one transaction. The rows
/// of the four stay the same.
///
/// # Errors
///
/// The error of the statement or of the commit that failed; `OutOfMemory` if out of memory. If the
/// disk is clean and the connection open, the four tables are as before.
pub fn create_closed<S: Alter>(conn: &mut Connection<S>) -> Result<(), Error>
    requires settled { IsQuiescent S.Store conn.old }
    ensures settled { IsQuiescent S.Store conn.new }
    ensures opened { IsClean S.Store conn.new → OnOk result (IsOpen S.Store conn.new) }
    ensures all { IsClean S.Store conn.new
        → OnOk result ((tables : Tables) → HasOldTables (state S.Store conn.old).now tables
        → HasTables (state S.Store conn.new).now tables) }
    ensures none { IsClean S.Store conn.new → IsOpen S.Store conn.new
        → OnErr result ((state S.Store conn.new).now ≡ (state S.Store conn.old).now) }
    ensures was_open { IsClean S.Store conn.new → IsOpen S.Store conn.new
        → IsOpen S.Store conn.old }
    ensures clean { StaysUnclean S.Store conn.old conn.new }
    ensures crash { IsClean S.Store conn.new → (db : Trees) → (state S.Store conn.new).may_leave db
        → (state S.Store conn.old).may_leave db
        ⊎ (IsOpen S.Store conn.old × ((tables : Tables) → HasOldTables (state S.Store conn.old).now
        tables
        → HasTables (record { schema = ledger_schema; trees = db }) tables)) }
{
    let mut tx = conn.transaction();
    run(&mut tx, CLOSED)?;
    tx.commit()
}
