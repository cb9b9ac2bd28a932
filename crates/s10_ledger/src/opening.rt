//! Opens the ledger of a connection.
//!
//! An opening reads the tables (`reading`). While it reads, it executes the calls again
//! (`call_replay`) and compares the rows of the other tables with what results (`row_match`). It
//! refuses the ledger if one of them is wrong (`verdicts`), and completes the tables of an earlier
//! build (`completing`).

ghost use Rattle.std.specs.Prelude.{◌≡◌, ◌≢◌, None, length, IfOk, IfErr, IfSome, OnOk, OnErr, IsTrue};
ghost use Rattle.s10_history.specs.History.{day_of};
ghost use Rattle.sqlite.specs.Held.{state};
ghost use Rattle.sqlite.specs.State.{HasCleanDisk};
ghost use Rattle.s10_schema.specs.Schema.{IsClosedSchema};
ghost use Rattle.s10_statements.specs.ConnectionState.{IsQuiescent, WasSound, AddsNoCrashState};
ghost use Rattle.s10_statements.specs.Statements.{LeavesTables};
ghost use Rattle.s10_ledger.specs.Faults.{IsFaultOf};
ghost use Rattle.s10_ledger.specs.TableLayout.{IsOfTableLayout};
ghost use Rattle.s10_ledger.specs.AllRows.{IsFound};
ghost use Rattle.s10_ledger.specs.Ledger.{IsLedger, IsAnyLedger, IsIndexed, history_in};
ghost use Rattle.s10_ledger.specs.Ledger.{MayComplete};
ghost use Rattle.s10_ledger.specs.Refusals.{IsOpeningRefusal, HasSomeTableLayout};

mod call_replay;
mod completing;
mod derived_row;
mod reading;
mod row_match;
mod table_layout;
mod verdicts;

use crate::opening::completing::complete;
use crate::opening::reading::read_tables;
use crate::opening::table_layout::{TableLayout, table_layout_of};
use crate::refusal::Refusal;
use crate::refused::Refused;
use crate::sql_book::SqlBook;
use s10_book::Book;
use s10_index::IndexedBook;
use s10_ranges::HashSeed;
use s10_rows::OpenFault;
use s10_statements::Observer;
use sqlite::{Alter, Connection};
use std::alloc::Global;

// Executes the calls of the tables again. Returns the book that results, if the other tables are
// those of its calls.
fn replay_tables<S: Alter, W: Observer>(
    alloc: Global,
    seed: HashSeed,
    conn: &mut Connection<S>,
    form: TableLayout,
    observer: &mut W,
) -> Result<IndexedBook, Refusal>
    requires settled { IsQuiescent S.Store conn.old }
    requires form { IsOfTableLayout form (state S.Store conn.old).now.schema }
    ensures spares { AddsNoCrashState S.Store conn.old conn.new }
    ensures leaves { LeavesTables S.Store conn.old conn.new }
    ensures opened { HasCleanDisk (state S.Store conn.new)
        → OnOk result (IsTrue (state S.Store conn.new).is_open) }
    ensures found { HasCleanDisk (state S.Store conn.new) → IsTrue (state S.Store conn.new).is_open
        → IfOk result (IsFound form (state S.Store conn.old).now) }
    ensures refused { HasCleanDisk (state S.Store conn.new)
        → IsTrue (state S.Store conn.new).is_open
        → IfErr result (λ r. IsOpeningRefusal (state S.Store conn.old).now r.fault) }
    ensures cause { IfErr result (λ r. IfSome r.cause (λ error. IsFaultOf error r.fault)) }
    ensures no_cause { HasCleanDisk (state S.Store conn.new)
        → IsTrue (state S.Store conn.new).is_open
        → IfErr result (λ r. r.cause ≡ None → r.fault ≢ OpenFault.Store) }
{
    let (made, verdicts) = read_tables(alloc, seed, conn, form, observer)?;
    let book = made?;
    verdicts.check()?;
    Ok(book)
}

// Returns the book of the ledger in the tables. Completes the tables of an earlier build.
fn ledger_in<S: Alter, W: Observer>(
    alloc: Global,
    seed: HashSeed,
    conn: &mut Connection<S>,
    observer: &mut W,
) -> Result<IndexedBook, Refusal>
    requires settled { IsQuiescent S.Store conn.old }
    ensures settled { IsQuiescent S.Store conn.new }
    ensures was { WasSound S.Store conn.old conn.new }
    ensures opened { HasCleanDisk (state S.Store conn.new)
        → OnOk result (IsTrue (state S.Store conn.new).is_open) }
    ensures same { HasCleanDisk (state S.Store conn.new) → IsTrue (state S.Store conn.new).is_open
        → IsClosedSchema (state S.Store conn.old).now.schema → (state S.Store conn.new).now
        ≡ (state S.Store conn.old).now }
    ensures kept { HasCleanDisk (state S.Store conn.new) → IsTrue (state S.Store conn.new).is_open
        → OnErr result ((state S.Store conn.new).now ≡ (state S.Store conn.old).now) }
    ensures history { HasCleanDisk (state S.Store conn.new)
        → IsTrue (state S.Store conn.new).is_open
        → OnOk result (history_in (state S.Store conn.new).now
        ≡ history_in (state S.Store conn.old).now) }
    ensures ledger { HasCleanDisk (state S.Store conn.new) → IsTrue (state S.Store conn.new).is_open
        → IfOk result (λ book. IsLedger (state S.Store conn.new).now book.settings
        (length book.index.entries.items) (day_of book.index.entries.items)) }
    ensures found { HasCleanDisk (state S.Store conn.new) → IsTrue (state S.Store conn.new).is_open
        → IfOk result (λ book. IsAnyLedger (state S.Store conn.old).now book.settings
        (length book.index.entries.items) (day_of book.index.entries.items)) }
    ensures indexed { IfOk result (λ book. IsIndexed S.Store conn.new book.index) }
    ensures crash { MayComplete S.Store conn.old conn.new }
    ensures refused { HasCleanDisk (state S.Store conn.new)
        → IsTrue (state S.Store conn.new).is_open
        → IfErr result (λ r. IsOpeningRefusal (state S.Store conn.old).now r.fault) }
    ensures cause { IfErr result (λ r. IfSome r.cause (λ error. IsFaultOf error r.fault)) }
    ensures no_cause { HasCleanDisk (state S.Store conn.new)
        → IsTrue (state S.Store conn.new).is_open
        → IfErr result (λ r. r.cause ≡ None → r.fault ≢ OpenFault.Store) }
    ensures no_tables { ¬ HasSomeTableLayout (state S.Store conn.old).now.schema
        → IfErr result (λ r. r.fault ≡ OpenFault.NotALedger) }
{
    let Some(form) = table_layout_of(conn.schema()) else {
        return Err(Refusal::from(OpenFault::NotALedger));
    };
    let book = replay_tables(alloc, seed, conn, form, observer)?;
    complete(conn, form)?;
    Ok(book)
}

impl<S: Alter> SqlBook<S> {
    ghost use Rattle.std.specs.Prelude.{◌≡◌, ◌≢◌, ◌⊎◌, ℕ, [], None, IfOk, IfErr, IfSome, IsTrue, false};
    ghost use Rattle.sqlite.specs.Held.{state};
    ghost use Rattle.sqlite.specs.State.{HasCleanDisk};
    ghost use Rattle.s10_history.specs.Settings.{Terms, AreTerms};
    ghost use Rattle.s10_book.specs.BookFault.{no_faults};
    ghost use Rattle.s10_statements.specs.ConnectionState.{WasSound};
    ghost use Rattle.s10_schema.specs.Schema.{IsClosedSchema};
    ghost use Rattle.s10_ledger.specs.Faults.{IsFaultOf};
    ghost use Rattle.s10_ledger.specs.Ledger.{IsAnyLedger, IsHonest, history_in, history_of};
    ghost use Rattle.s10_ledger.specs.Ledger.{committed_of, MayComplete};
    ghost use Rattle.s10_ledger.specs.Refusals.{IsOpeningRefusal, HasSomeTableLayout};

    /// Opens a ledger: executes all its calls again, and compares the rows of the other tables with
    /// the derived ones. The hashes of its index have this seed.
    ///
    /// The ledger has its five tables, which other tables may follow, or the four of an earlier
    /// build and nothing else. In the second case `closed` is created once everything is found
    /// right.
    ///
    /// # Errors
    ///
    /// - `NotALedger` if the tables are not those of a ledger, another table refers to one of them,
    ///   or another index is on one. Also if `head` is not one row with settings in their limits.
    /// - `Schema` with the schema number if that is not 1.
    /// - `Damaged` with the arrival of the first wrong call, or with 0 if all calls are right and a
    ///   derived row is wrong.
    /// - `Memory` if out of memory.
    /// - `Store` if a statement fails for another reason.
    ///
    /// The cause is the error of a statement that failed. A refusal returns the connection. Its
    /// tables are as before, if its disk is clean and it is open.
    pub fn open<W: Observer>(
        alloc: Global,
        seed: HashSeed,
        mut conn: Connection<S>,
        observer: &mut W,
    ) -> Result<SqlBook<S>, Refused<S>>
        requires idle { conn.in_transaction ≡ false }
        ensures new { IfOk result (λ b. b.faults ≡ no_faults) }
        ensures idle { IfOk result (λ b. b.conn.in_transaction ≡ false) }
        ensures opened { IfOk result (λ b. HasCleanDisk (state S.Store b.conn)
            → IsTrue (state S.Store b.conn).is_open) }
        ensures was { IfOk result (λ b. WasSound S.Store conn b.conn) }
        ensures honest { IfOk result (λ b. HasCleanDisk (state S.Store b.conn)
            → IsTrue (state S.Store b.conn).is_open → IsHonest S.Store b) }
        ensures found { IfOk result (λ b. IsHonest S.Store b → IsAnyLedger (state S.Store conn).now
            b.terms b.len b.day) }
        ensures same { IfOk result (λ b. IsHonest S.Store b
            → IsClosedSchema (state S.Store conn).now.schema → (state S.Store b.conn).now
            ≡ (state S.Store conn).now) }
        ensures history { IfOk result (λ b. IsHonest S.Store b
            → history_in (state S.Store b.conn).now ≡ history_in (state S.Store conn).now) }
        ensures completed { IfOk result (λ b. IsHonest S.Store b
            → IsClosedSchema (state S.Store b.conn).now.schema) }
        ensures committed { IfOk result (λ b. IsHonest S.Store b → (state S.Store b.conn).committed
            ≡ (state S.Store b.conn).now) }
        ensures crash { IfOk result (λ b. MayComplete S.Store conn b.conn) }
        ensures none_pending { IfOk result (λ b. b.pending ≡ []) }
        ensures whole { IfOk result (λ b. IsHonest S.Store b → committed_of S.Store b
            ≡ history_of S.Store b) }
        ensures left_idle { IfErr result (λ r. r.connection.in_transaction ≡ false) }
        ensures was_refused { IfErr result (λ r. WasSound S.Store conn r.connection) }
        ensures crash_refused { IfErr result (λ r. MayComplete S.Store conn r.connection) }
        ensures refused { IfErr result (λ r. HasCleanDisk (state S.Store r.connection)
            → IsTrue (state S.Store r.connection).is_open
            → IsOpeningRefusal (state S.Store conn).now r.refusal.fault) }
        ensures cause { IfErr result (λ r. IfSome r.refusal.cause (λ error. IsFaultOf error
            r.refusal.fault)) }
        ensures no_cause { IfErr result (λ r. HasCleanDisk (state S.Store r.connection)
            → IsTrue (state S.Store r.connection).is_open → r.refusal.cause ≡ None
            → r.refusal.fault ≢ OpenFault.Store) }
        ensures kept { IfErr result (λ r. HasCleanDisk (state S.Store r.connection)
            → IsTrue (state S.Store r.connection).is_open → (state S.Store r.connection).now
            ≡ (state S.Store conn).now) }
        ensures accepted { IfErr result (λ r. HasCleanDisk (state S.Store r.connection)
            → IsTrue (state S.Store r.connection).is_open
            → (t : Terms) (len day : ℕ) → AreTerms t → IsAnyLedger (state S.Store conn).now t len
            day → (r.refusal.fault ≡ OpenFault.Memory) ⊎ (r.refusal.fault ≡ OpenFault.Store)) }
        ensures no_tables { ¬ HasSomeTableLayout (state S.Store conn).now.schema
            → IfErr result (λ r. r.refusal.fault ≡ OpenFault.NotALedger) }
    {
        // Brings into scope that a connection in no transaction has nothing to commit.
        prove!(conn.is_autocommit());
        match ledger_in(alloc, seed, &mut conn, observer) {
            Ok(book) => {
                let settings = book.settings();
                Ok(SqlBook::over(alloc, conn, settings, book.into_index()))
            }
            Err(refusal) => Err(Refused::new(refusal, conn, observer)),
        }
    }
}
