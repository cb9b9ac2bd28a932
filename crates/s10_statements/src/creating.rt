//! Creates the five tables of a new ledger.

ghost use Rattle.std.specs.Prelude.{◌≡◌, ◌⊎◌, ℕ, ◌++◌, ◌∷◌, [], codes, false, IsSome, IfSome, None};
ghost use Rattle.std.specs.Prelude.{Ok, OnOk, OnErr};
ghost use Rattle.sqlite_trees.specs.Tree.{Trees};
ghost use Rattle.sqlite.specs.Held.{state};
ghost use Rattle.sqlite.specs.State.{Executes};
ghost use Rattle.sqlite_schema.specs.Names.{table_named};
ghost use Rattle.s10_statements.specs.Creating.{HasOneOfTheNames, IsCreateRefusal};
ghost use Rattle.s10_schema.specs.Schema.{no_schema, ledger_schema};
ghost use Rattle.s10_rows.specs.Tables.{Tables, no_rows, head_row};
ghost use Rattle.s10_statements.specs.Shown.{HasTables, StandsFor};
ghost use Rattle.s10_statements.specs.ConnectionState.{IsQuiescent, WasSound, IsClean, IsOpen};
ghost use Rattle.s10_statements.specs.Steps.{IsStep, EditsTables};

use s10_history::Settings;
use s10_rows::OpenFault;
use sqlite::{Alter, Connection, Error, Transaction, params};

const HEAD: &str =
    "CREATE TABLE head (one INTEGER NOT NULL PRIMARY KEY CHECK (one = 1), schema INTEGER NOT NULL, interval INTEGER NOT NULL, cap INTEGER NOT NULL) STRICT";

const CALLS: &str =
    "CREATE TABLE calls (arrival INTEGER NOT NULL PRIMARY KEY, customer INTEGER NOT NULL, number INTEGER NOT NULL, day INTEGER NOT NULL, reply BLOB NOT NULL, UNIQUE (customer, number)) STRICT";

const RANGES: &str =
    "CREATE TABLE ranges (num INTEGER NOT NULL PRIMARY KEY, holder INTEGER NOT NULL, pair INTEGER NOT NULL, low INTEGER NOT NULL, high INTEGER NOT NULL, mark INTEGER NOT NULL) STRICT";

const SERIALS: &str =
    "CREATE TABLE serials (pair INTEGER NOT NULL, serial INTEGER NOT NULL, arrival INTEGER NOT NULL, day INTEGER NOT NULL, customer INTEGER NOT NULL, number INTEGER NOT NULL, voided INTEGER NOT NULL, PRIMARY KEY (pair, serial)) STRICT";

pub(crate) const CLOSED: &str =
    "CREATE TABLE closed (num INTEGER NOT NULL PRIMARY KEY, arrival INTEGER NOT NULL) STRICT";

// Runs a statement without parameters.
pub(crate) fn run<S: Alter>(tx: &mut Transaction<'_, S>, sql: &str) -> Result<(), Error>
    ensures { IsStep S.Store tx.old.conn tx.new.conn result
        (IsOpen S.Store tx.old.conn.now × ((count : ℕ) × Executes sql.now []
        (state S.Store tx.old.conn.now) (state S.Store tx.new.conn.now) (Ok count))) }
{
    tx.execute(sql, &[])?;
    Ok(())
}

fn create_each_table<S: Alter>(tx: &mut Transaction<'_, S>) -> Result<(), Error>
    ensures { IsStep S.Store tx.old.conn tx.new.conn result
        ((state S.Store tx.old.conn.now).now.schema ≡ no_schema
        → HasTables (state S.Store tx.new.conn.now).now no_rows
        × ((state S.Store tx.new.conn.now).now.schema ≡ ledger_schema)) }
{
    run(tx, HEAD)?;
    run(tx, CALLS)?;
    run(tx, RANGES)?;
    run(tx, SERIALS)?;
    run(tx, CLOSED)
}

// Inserts the row of the settings.
fn insert_head<S: Alter>(tx: &mut Transaction<'_, S>, settings: Settings) -> Result<(), Error>
    ensures { IsStep S.Store tx.old.conn tx.new.conn result
        (EditsTables S.Store tx.old.conn tx.new.conn (λ tables. record tables {
          heads = tables.heads ++ head_row settings ∷ [];
        }) × ((tables : Tables) → HasTables (state S.Store tx.old.conn.now).now tables
        → (state S.Store tx.new.conn.now).now.schema
        ≡ (state S.Store tx.old.conn.now).now.schema)) }
{
    let interval = settings.interval();
    let limit = settings.limit();
    tx.execute(
        "INSERT INTO head (one, schema, interval, cap) VALUES (1, 1, ?1, ?2)",
        params![interval, limit],
    )?;
    Ok(())
}

/// Creates the tables of a ledger without calls in an empty database, in one transaction.
///
/// # Errors
///
/// The error of the statement or of the commit that failed; `OutOfMemory` if out of memory. If the
/// disk is clean and the connection open, no table was created.
pub fn create_tables<S: Alter>(conn: &mut Connection<S>, settings: Settings) -> Result<(), Error>
    requires idle { conn.old.in_transaction ≡ false }
    ensures settled { IsQuiescent S.Store conn.new }
    ensures was { WasSound S.Store conn.old conn.new }
    ensures opened { IsClean S.Store conn.new → OnOk result (IsOpen S.Store conn.new) }
    ensures all { IsClean S.Store conn.new → (state S.Store conn.old).now.schema ≡ no_schema
        → OnOk result (StandsFor (state S.Store conn.new).now [] settings) }
    ensures alone { IsClean S.Store conn.new → (state S.Store conn.old).now.schema ≡ no_schema
        → OnOk result ((state S.Store conn.new).now.schema ≡ ledger_schema) }
    ensures none { IsClean S.Store conn.new → IsOpen S.Store conn.new
        → OnErr result ((state S.Store conn.new).now ≡ (state S.Store conn.old).now) }
    ensures crash { IsClean S.Store conn.new → (state S.Store conn.old).now.schema ≡ no_schema
        → (db : Trees) → (state S.Store conn.new).may_leave db
        → (state S.Store conn.old).may_leave db
        ⊎ StandsFor (record { schema = ledger_schema; trees = db }) [] settings }
{
    // Brings into scope that a connection in no transaction has nothing to commit.
    prove!(conn.is_autocommit());
    let mut tx = conn.transaction();
    create_each_table(&mut tx)?;
    insert_head(&mut tx, settings)?;
    tx.commit()
}

/// Returns why no ledger can be created in the database, or `None` if the database is empty.
///
/// The fault is `NotEmpty` if a table has one of the five names, and `Store` if there is any other
/// table, index or view.
pub fn refusal_of<S: Alter>(conn: &Connection<S>) -> Option<OpenFault>
    ensures refusal { IfSome result (IsCreateRefusal (state S.Store conn.now).now.schema) }
    ensures none { result ≡ None → (state S.Store conn.now).now.schema ≡ no_schema }
    ensures empty { (state S.Store conn.now).now.schema ≡ no_schema → result ≡ None }
    ensures fresh { result ≡ None → ¬ HasOneOfTheNames (state S.Store conn.now).now.schema }
    ensures fault { IfSome result (λ f. (f ≡ OpenFault.NotEmpty) ⊎ (f ≡ OpenFault.Store)) }
{
    let schema = conn.schema();
    if schema.table_named(b"head").is_some()
        || schema.table_named(b"calls").is_some()
        || schema.table_named(b"ranges").is_some()
        || schema.table_named(b"serials").is_some()
        || schema.table_named(b"closed").is_some()
    {
        return Some(OpenFault::NotEmpty);
    }
    if schema.tables.is_empty() && schema.indexes.is_empty() && schema.views.is_empty() {
        None
    } else {
        Some(OpenFault::Store)
    }
}
