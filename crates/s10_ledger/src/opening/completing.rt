//! Completes the tables of an earlier build.

ghost use Rattle.std.specs.Prelude.{◌≡◌, ◌⊎◌, OnOk, OnErr, IsTrue};
ghost use Rattle.sqlite_trees.specs.Tree.{Trees};
ghost use Rattle.sqlite.specs.Held.{state};
ghost use Rattle.sqlite.specs.State.{HasCleanDisk};
ghost use Rattle.s10_rows.specs.Tables.{Tables};
ghost use Rattle.s10_schema.specs.Schema.{ledger_schema};
ghost use Rattle.s10_statements.specs.Shown.{HasTables, HasOldTables};
ghost use Rattle.s10_statements.specs.ConnectionState.{IsQuiescent, WasSound};
ghost use Rattle.s10_ledger.specs.declared.opening.table_layout.TableLayout.TheVariants.{Whole, Old};
ghost use Rattle.s10_ledger.specs.TableLayout.{HasTableLayout};

use crate::opening::table_layout::TableLayout;
use s10_statements::create_closed;
use sqlite::{Alter, Connection, Error};

// Creates `closed` if the tables are those of an earlier build.
pub(crate) fn complete<S: Alter>(conn: &mut Connection<S>, form: TableLayout) -> Result<(), Error>
    requires settled { IsQuiescent S.Store conn.old }
    ensures settled { IsQuiescent S.Store conn.new }
    ensures was { WasSound S.Store conn.old conn.new }
    ensures opened { HasCleanDisk (state S.Store conn.new)
        → OnOk result (IsTrue (state S.Store conn.old).is_open
        → IsTrue (state S.Store conn.new).is_open) }
    ensures whole { HasCleanDisk (state S.Store conn.new)
        → OnOk result ((tables : Tables) → HasTableLayout form (state S.Store conn.old).now tables
        → HasTables (state S.Store conn.new).now tables) }
    ensures same { form ≡ Whole → (state S.Store conn.new).now ≡ (state S.Store conn.old).now }
    ensures none { HasCleanDisk (state S.Store conn.new) → IsTrue (state S.Store conn.new).is_open
        → OnErr result ((state S.Store conn.new).now ≡ (state S.Store conn.old).now) }
    ensures crash { HasCleanDisk (state S.Store conn.new) → (db : Trees)
        → (state S.Store conn.new).may_leave db → (state S.Store conn.old).may_leave db
        ⊎ ((form ≡ Old) × IsTrue (state S.Store conn.old).is_open
        × ((tables : Tables) → HasOldTables (state S.Store conn.old).now tables
        → HasTables (record { schema = ledger_schema; trees = db }) tables)) }
{
    match form {
        TableLayout::Whole => Ok(()),
        TableLayout::Old => create_closed(conn),
    }
}
