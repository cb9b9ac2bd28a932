//! A book over the tables of a database.

ghost use Rattle.std.specs.Prelude.{◌≡◌, ◌≢◌, [], Err};
ghost use Rattle.s10_book.specs.declared.book_fault.BookFault.TheVariants.{Full};
ghost use Rattle.s10_book.specs.BookFault.{CountsResult, no_faults};
ghost use Rattle.sqlite.specs.Held.{state};
ghost use Rattle.s10_ledger.specs.Ledger.{history_in, IsHonest};

use crate::closed_book::ClosedBook;
use crate::lookups::{ask, usage_in};
use crate::pending::{append_pending, commit_calls, commit_first, halved, is_pending, keep_call};
use crate::refusal::Refusal;
use crate::refused::Refused;
use s10_book::{Book, BookFault, Faults, GroupCommit, LastFailure, MAX_BATCH};
use s10_core::Id;
use s10_history::{Candidate, Entry, HolderKey, Issue, Range, SerialSpan, Settings, Usage};
use s10_index::CallIndex;
use s10_ranges::HashSeed;
use s10_rows::{CallWrite, OpenFault};
use s10_statements::{NoObserver, Observer, create_tables, refusal_of};
use sqlite::{Alter, Connection, Error, MemStore};
use std::alloc::Global;
use std::marker::Model;

/// A book over the tables of a connection.
///
/// A call that the book keeps is committed, in one transaction with all pending calls. A call that
/// it appends is pending in the process until the book commits. A pending call is in the history
/// but is lost if the process dies.
pub struct SqlBook<S: Alter> {
    // The allocator of the index and of the rows that are read.
    alloc: Global,
    // The connection, in no transaction between two calls.
    conn: Connection<S>,
    // The reuse interval in days and the limit.
    settings: Settings,
    // The faults counted.
    faults: Faults,
    // The calls of the tables, followed by the pending ones.
    index: CallIndex,
    // What each pending call writes.
    pending: Vec<CallWrite>,
    // Whether the connection answered the last statement. If not, a read asks it again before it
    // returns.
    answered: bool,
    // Why a statement failed last, until a commit succeeds.
    last_failure: Option<Error>,
}

impl<S: Alter> Model for SqlBook<S> {
    ghost use Rattle.std.specs.Prelude.{length};
    ghost use Rattle.s10_history.specs.History.{day_of};
    ghost use Rattle.s10_ledger.specs.Ledger.{Ledger, ledger_code};
    ghost use Rattle.s10_ledger.specs.Pending.{IsSound, calls_of, committed_among};

    ghost Value = { Ledger S };

    ghost coded = { ledger_code S.code };

    ghost view = { λ b. let kept = committed_among b.pending.items b.index.entries.items in
        record {
          conn = b.conn;
          terms = b.settings;
          len = length kept;
          day = day_of kept;
          faults = b.faults;
          pending = calls_of b.pending.items;
        } };

    ghost invariant = { λ b. IsSound S.Store b.conn b.settings b.index b.pending.items b.answered };
}

impl<S: Alter> SqlBook<S> {
    ghost use Rattle.std.specs.Prelude.{◌≡◌, ◌≤◌, IfOk, IfErr, OnOk, OnErr, IsTrue, [], length};
    ghost use Rattle.std.specs.Prelude.{◌↔◌, false, None, IfSome};
    ghost use Rattle.s10_history.specs.History.{day_of};
    ghost use Rattle.s10_history.specs.declared.settings.TheConstants.{MAX_LIMIT};
    ghost use Rattle.sqlite.specs.Held.{state};
    ghost use Rattle.sqlite.specs.State.{HasCleanDisk};
    ghost use Rattle.s10_ledger.specs.Faults.{IsFaultOf};
    ghost use Rattle.s10_ledger.specs.Ledger.{Ledger, IsLedger, IsIndexed, IsHonest, history_in};
    ghost use Rattle.s10_ledger.specs.Ledger.{history_of, committed_of, MayCreate, MayFindAlso};
    ghost use Rattle.s10_statements.specs.ConnectionState.{IsQuiescent, WasSound};
    ghost use Rattle.s10_statements.specs.Creating.{HasOneOfTheNames, IsCreateRefusal};
    ghost use Rattle.s10_schema.specs.Schema.{no_schema, ledger_schema};

    /// Creates an empty ledger with these settings in an empty database, in one transaction. The
    /// hashes of its index have this seed.
    ///
    /// # Errors
    ///
    /// - `NotEmpty` if a table with one of the five names exists.
    /// - `Store`, without a cause, if the database has anything else in it.
    /// - `Memory` if out of memory.
    /// - `Store` if a statement fails for another reason.
    ///
    /// The cause is the error of a statement that failed. There is none if the database is not
    /// empty. A refusal returns the connection. Its tables are as before, if its disk is clean and
    /// it is open.
    pub fn create<W: Observer>(
        alloc: Global,
        seed: HashSeed,
        conn: Connection<S>,
        settings: Settings,
        observer: &mut W,
    ) -> Result<SqlBook<S>, Refused<S>>
        requires idle { conn.in_transaction ≡ false }
        ensures new { IfOk result (λ b. (b.terms ≡ settings) × (b.faults ≡ no_faults)) }
        ensures fresh { IfOk result (λ _. ¬ HasOneOfTheNames (state S.Store conn).now.schema) }
        ensures idle { IfOk result (λ b. b.conn.in_transaction ≡ false) }
        ensures opened { IfOk result (λ b. HasCleanDisk (state S.Store b.conn)
            → IsTrue (state S.Store b.conn).is_open) }
        ensures was { IfOk result (λ b. WasSound S.Store conn b.conn) }
        ensures empty { IfOk result (λ b. IsHonest S.Store b → history_in (state S.Store b.conn).now
            ≡ []) }
        ensures alone { IfOk result (λ b. IsHonest S.Store b → (state S.Store b.conn).now.schema
            ≡ ledger_schema) }
        ensures committed { IfOk result (λ b. IsHonest S.Store b → (state S.Store b.conn).committed
            ≡ (state S.Store b.conn).now) }
        ensures honest { IfOk result (λ b. HasCleanDisk (state S.Store b.conn)
            → IsTrue (state S.Store b.conn).is_open → IsHonest S.Store b) }
        ensures crash { IfOk result (λ b. MayCreate S.Store settings conn b.conn) }
        ensures none_pending { IfOk result (λ b. b.pending ≡ []) }
        ensures whole { IfOk result (λ b. IsHonest S.Store b → committed_of S.Store b
            ≡ history_of S.Store b) }
        ensures left_idle { IfErr result (λ r. r.connection.in_transaction ≡ false) }
        ensures was_refused { IfErr result (λ r. WasSound S.Store conn r.connection) }
        ensures crash_refused { IfErr result (λ r. MayCreate S.Store settings conn r.connection) }
        ensures refused { IfErr result (λ r. IsCreateRefusal (state S.Store conn).now.schema
            r.refusal.fault) }
        ensures cause { IfErr result (λ r. IfSome r.refusal.cause (λ error. IsFaultOf error
            r.refusal.fault)) }
        ensures no_cause { IfErr result (λ r. (r.refusal.cause ≡ None)
            ↔ ((state S.Store conn).now.schema ≢ no_schema)) }
        ensures kept { IfErr result (λ r. HasCleanDisk (state S.Store r.connection)
            → IsTrue (state S.Store r.connection).is_open → (state S.Store r.connection).now
            ≡ (state S.Store conn).now) }
        ensures not_empty { HasOneOfTheNames (state S.Store conn).now.schema
            → IfErr result (λ r. r.refusal.fault ≡ OpenFault.NotEmpty) }
        ensures other_tables { ¬ HasOneOfTheNames (state S.Store conn).now.schema
            → (state S.Store conn).now.schema ≢ no_schema
            → IfErr result (λ r. r.refusal.fault ≡ OpenFault.Store) }
    {
        let mut connection = conn;
        if let Some(fault) = refusal_of(&connection) {
            return Err(Refused::new(Refusal::from(fault), connection, observer));
        }
        if let Err(error) = create_tables(&mut connection, settings) {
            return Err(Refused::new(Refusal::from(error), connection, observer));
        }
        let index = CallIndex::new(alloc, seed);
        Ok(SqlBook::over(alloc, connection, settings, index))
    }

    // Returns the book over a connection whose tables stand for the calls of the index.
    pub(crate) fn over(
        alloc: Global,
        conn: Connection<S>,
        settings: Settings,
        index: CallIndex,
    ) -> SqlBook<S>
        requires few { length index.entries.items ≤ MAX_LIMIT }
        requires settled { IsQuiescent S.Store conn }
        requires ledger { HasCleanDisk (state S.Store conn) → IsTrue (state S.Store conn).is_open
            → IsLedger (state S.Store conn).now settings (length index.entries.items)
            (day_of index.entries.items) }
        requires indexed { IsIndexed S.Store conn index }
        requires opened { HasCleanDisk (state S.Store conn) → IsTrue (state S.Store conn).is_open }
        ensures { let book : Ledger S = record {
          conn = conn;
          terms = settings;
          len = length index.entries.items;
          day = day_of index.entries.items;
          faults = no_faults;
          pending = [];
        } in result ≡ book }
    {
        SqlBook {
            alloc,
            conn,
            settings,
            faults: Faults::none(),
            index,
            pending: Vec::new(alloc),
            answered: true,
            last_failure: None,
        }
    }

    /// Returns the connection between two calls.
    ///
    /// If it is open and its disk is clean, the book is honest, and the tables stand for the
    /// committed calls.
    pub fn connection(&self) -> &Connection<S>
        ensures same { result.now ≡ self.now.conn }
        ensures idle { self.now.conn.in_transaction ≡ false }
        ensures committed { HasCleanDisk (state S.Store self.now.conn)
            → IsTrue (state S.Store self.now.conn).is_open → (state S.Store self.now.conn).committed
            ≡ (state S.Store self.now.conn).now }
        ensures honest { HasCleanDisk (state S.Store self.now.conn)
            → IsTrue (state S.Store self.now.conn).is_open → IsHonest S.Store self.now }
    {
        &self.conn
    }

    /// Commits the pending calls and closes the book.
    ///
    /// Returns the connection and the result of the commit. If no call is pending, the connection
    /// is unchanged. After an error the tables stand for the calls that were committed before, and
    /// the pending calls are lost.
    pub fn close(mut self) -> ClosedBook<S>
        ensures idle { result.connection.in_transaction ≡ false }
        ensures committed { HasCleanDisk (state S.Store result.connection)
            → IsTrue (state S.Store result.connection).is_open
            → (state S.Store result.connection).committed ≡ (state S.Store result.connection).now }
        ensures ledger { HasCleanDisk (state S.Store result.connection)
            → IsTrue (state S.Store result.connection).is_open
            → let db = (state S.Store result.connection).now in
            IsLedger db self.terms (length (history_in db)) (day_of (history_in db)) }
        ensures honest { HasCleanDisk (state S.Store result.connection)
            → IsTrue (state S.Store result.connection).is_open → IsHonest S.Store self }
        ensures whole { HasCleanDisk (state S.Store result.connection)
            → IsTrue (state S.Store result.connection).is_open
            → OnOk result.committed (history_in (state S.Store result.connection).now
            ≡ history_of S.Store self) }
        ensures left { HasCleanDisk (state S.Store result.connection)
            → IsTrue (state S.Store result.connection).is_open
            → OnErr result.committed (history_in (state S.Store result.connection).now
            ≡ committed_of S.Store self) }
        ensures same { self.pending ≡ [] → result.connection ≡ self.conn }
        ensures none_pending { self.pending ≡ [] → OnErr result.committed ⊥ }
        ensures fault { result.committed ≢ Err Full }
        ensures stop { MayFindAlso S.Store self (record self { conn = result.connection })
            (history_of S.Store self) }
    {
        let committed = self.commit_rest();
        let connection = self.into_connection();
        ClosedBook {
            connection,
            committed,
        }
    }

    // Returns the connection, unchanged.
    fn into_connection(self) -> Connection<S>
        ensures same { result ≡ self.conn }
        ensures idle { result.in_transaction ≡ false }
        ensures committed { HasCleanDisk (state S.Store result)
            → IsTrue (state S.Store result).is_open → (state S.Store result).committed
            ≡ (state S.Store result).now }
        ensures honest { HasCleanDisk (state S.Store result) → IsTrue (state S.Store result).is_open
            → IsHonest S.Store self }
    {
        let SqlBook {
            alloc: _,
            conn,
            settings: _,
            faults: _,
            index: _,
            pending: _,
            answered: _,
            last_failure: _,
        } = self;
        conn
    }
}

impl SqlBook<MemStore> {
    ghost use Rattle.std.specs.Prelude.{◌≡◌, ◌⊎◌, IfOk, IfErr, IfSome, None, [], false};
    ghost use Rattle.sqlite.specs.Held.{state};
    ghost use Rattle.sqlite.specs.Steps.{over_memory};
    ghost use Rattle.s10_ledger.specs.Faults.{IsFaultOf};
    ghost use Rattle.s10_ledger.specs.Ledger.{IsHonest, history_in, history_of, committed_of};
    ghost use Rattle.s10_schema.specs.Schema.{ledger_schema};

    /// Creates an empty ledger with these settings in memory. The hashes of its index have this
    /// seed.
    ///
    /// # Errors
    ///
    /// - `Memory` if out of memory.
    /// - `Store` if a statement fails for another reason, which is the cause.
    pub fn in_memory(
        alloc: Global,
        seed: HashSeed,
        settings: Settings,
    ) -> Result<SqlBook<MemStore>, Refusal>
        ensures new { IfOk result (λ b. (b.terms ≡ settings) × (b.faults ≡ no_faults)) }
        ensures idle { IfOk result (λ b. b.conn.in_transaction ≡ false) }
        ensures committed { IfOk result (λ b. (state over_memory b.conn).committed
            ≡ (state over_memory b.conn).now) }
        ensures honest { IfOk result (IsHonest over_memory) }
        ensures empty { IfOk result (λ b. history_in (state over_memory b.conn).now ≡ []) }
        ensures alone { IfOk result (λ b. (state over_memory b.conn).now.schema ≡ ledger_schema) }
        ensures none_pending { IfOk result (λ b. b.pending ≡ []) }
        ensures whole { IfOk result (λ b. IsHonest over_memory b → committed_of over_memory b
            ≡ history_of over_memory b) }
        ensures refused { IfErr result (λ r. (r.fault ≡ OpenFault.Memory)
            ⊎ (r.fault ≡ OpenFault.Store)) }
        ensures cause { IfErr result (λ r. IfSome r.cause (λ error. IsFaultOf error r.fault)) }
        ensures no_cause { IfErr result (λ r. r.cause ≡ None → r.fault ≡ OpenFault.Memory) }
    {
        let Ok(conn) = Connection::open_in_memory(alloc) else {
            return Err(Refusal::from(OpenFault::Memory));
        };
        match SqlBook::create(alloc, seed, conn, settings, &mut NoObserver) {
            Ok(book) => Ok(book),
            Err(
                Refused {
                    refusal,
                    connection: _,
                },
            ) => Err(refusal),
        }
    }
}

// Counts the fault, if the result is one, and returns the result.
fn counted<T>(faults: &mut Faults, answer: Result<T, BookFault>) -> Result<T, BookFault>
    requires { answer ≢ Err Full }
    ensures same { result ≡ answer }
    ensures faults { CountsResult result faults.old faults.new }
{
    if let Err(fault) = &answer {
        faults.add(*fault);
    }
    answer
}

impl<S: Alter> SqlBook<S> {
    ghost use Rattle.std.specs.Prelude.{◌++◌, ◌∷◌, ◌<◌, length, IfOk, IfErr, IsTrue, OnErr, OnOk};
    ghost use Rattle.std.specs.Prelude.{drop, min};
    ghost use Rattle.std.specs.Prelude.{Contains};
    ghost use Rattle.s10_history.specs.History.{ranges_of};
    ghost use Rattle.s10_history.specs.Usage.{usage_of};
    ghost use Rattle.s10_book.specs.Rules.{MayFollow};
    ghost use Rattle.s10_book.specs.Book.{Grows};
    ghost use Rattle.s10_ledger.specs.Ledger.{history_of, committed_of, IsOverCleanDisk};
    ghost use Rattle.s10_ledger.specs.Ledger.{LeavesUnchanged, IsOpenIfClean, MayFindAlso};
    ghost use Rattle.s10_ledger.specs.Ledger.{HasFailed, CommitsSomeOf};

    // Asks the connection if it did not answer the last statement, so that no statement runs and no
    // look-up answers over a closed connection.
    fn ask_again(&mut self) -> Result<(), BookFault>
        ensures faults { CountsResult result self.old.faults self.new.faults }
        ensures unchanged { LeavesUnchanged S.Store self.old self.new }
        ensures same_terms { self.new.terms ≡ self.old.terms }
        ensures opened { IsOverCleanDisk S.Store self.new
            → OnOk result (IsHonest S.Store self.new) }
        ensures same_pending { self.new.pending ≡ self.old.pending }
        ensures same { IsHonest S.Store self.new → (state S.Store self.new.conn).now
            ≡ (state S.Store self.old.conn).now }
        ensures store { IsHonest S.Store self.old → IsOverCleanDisk S.Store self.new
            → result ≡ Err BookFault.Store → HasFailed S.Store self.old.conn self.new.conn }
    {
        if self.answered {
            return Ok(());
        }
        let asked = ask(&mut self.conn, &mut self.last_failure);
        let answered = asked.is_ok();
        self.answered = answered;
        counted(&mut self.faults, asked)
    }

    // Commits the pending calls in one transaction.
    fn commit_pending(&mut self) -> Result<(), BookFault>
        requires { IsOpenIfClean S.Store self.old.conn }
        ensures faults { CountsResult result self.old.faults self.new.faults }
        ensures unchanged { LeavesUnchanged S.Store self.old self.new }
        ensures same_terms { self.new.terms ≡ self.old.terms }
        ensures opened { IsOverCleanDisk S.Store self.new
            → OnOk result (IsHonest S.Store self.new) }
        ensures left { IsHonest S.Store self.new
            → OnErr result (committed_of S.Store self.new ≡ committed_of S.Store self.old) }
        ensures none_pending { OnOk result (self.new.pending ≡ []) }
    {
        let written = commit_calls(&mut self.conn, &mut self.pending, &mut self.last_failure);
        let answered = written.is_ok();
        self.answered = answered;
        counted(&mut self.faults, written)
    }

    // Asks the connection, and commits the pending calls, if there are any.
    fn commit_all(&mut self) -> Result<(), BookFault>
        ensures faults { CountsResult result self.old.faults self.new.faults }
        ensures unchanged { LeavesUnchanged S.Store self.old self.new }
        ensures same_terms { self.new.terms ≡ self.old.terms }
        ensures opened { IsOverCleanDisk S.Store self.new
            → OnOk result (IsHonest S.Store self.new) }
        ensures done { IsHonest S.Store self.new
            → OnOk result (committed_of S.Store self.new ≡ history_of S.Store self.new) }
        ensures left { IsHonest S.Store self.new
            → OnErr result (committed_of S.Store self.new ≡ committed_of S.Store self.old) }
        ensures none_pending { OnOk result (self.new.pending ≡ []) }
    {
        self.ask_again()?;
        if self.pending.is_empty() {
            return Ok(());
        }
        self.commit_pending()
    }

    // Commits the pending calls, if there are any.
    fn commit_rest(&mut self) -> Result<(), BookFault>
        ensures faults { CountsResult result self.old.faults self.new.faults }
        ensures unchanged { LeavesUnchanged S.Store self.old self.new }
        ensures same_terms { self.new.terms ≡ self.old.terms }
        ensures done { IsHonest S.Store self.new
            → OnOk result (committed_of S.Store self.new ≡ history_of S.Store self.new) }
        ensures left { IsHonest S.Store self.new
            → OnErr result (committed_of S.Store self.new ≡ committed_of S.Store self.old) }
        ensures same { self.old.pending ≡ [] → self.new.conn ≡ self.old.conn }
        ensures none_pending { self.old.pending ≡ [] → OnErr result ⊥ }
    {
        if !self.pending.is_empty() {
            return self.commit_all();
        }
        Ok(())
    }

    // Commits the first pending calls, at most `most`, in one transaction. Counts no fault.
    fn write_first(&mut self, most: usize) -> Result<(), BookFault>
        requires { IsOpenIfClean S.Store self.old.conn }
        ensures same_faults { self.new.faults ≡ self.old.faults }
        ensures same_terms { self.new.terms ≡ self.old.terms }
        ensures commits_some { CommitsSomeOf S.Store self.old self.new }
        ensures opened { IsOverCleanDisk S.Store self.new
            → OnOk result (IsHonest S.Store self.new) }
        ensures rest { OnOk result
            (self.new.pending ≡ drop (min most (length self.old.pending)) self.old.pending) }
        ensures left { OnErr result (self.new.pending ≡ self.old.pending) }
        ensures fault { result ≢ Err Full }
    {
        let count = most.min(self.pending.len());
        let written = commit_first(
            &mut self.conn,
            &mut self.pending,
            &mut self.last_failure,
            count,
        );
        let answered = written.is_ok();
        self.answered = answered;
        written
    }

    // Commits the pending calls in portions, each in one transaction. The first portion is all of
    // them. After a failure half as many are tried, so that what fits is committed.
    fn commit_in_portions(&mut self) -> Result<(), BookFault>
        ensures faults { CountsResult result self.old.faults self.new.faults }
        ensures commits_some { CommitsSomeOf S.Store self.old self.new }
        ensures opened { IsOverCleanDisk S.Store self.new
            → OnOk result (IsHonest S.Store self.new) }
        ensures none_pending { OnOk result (self.new.pending ≡ []) }
    {
        self.ask_again()?;
        let mut most = self.pending.len().max(1);
        while !self.pending.is_empty() {
            if let Err(fault) = self.write_first(most) {
                let Some(fewer) = halved(most) else {
                    return counted(&mut self.faults, Err(fault));
                };
                most = fewer;
                self.ask_again()?;
            }
        }
        Ok(())
    }

    // Commits if `MAX_BATCH` calls are pending. Otherwise asks the connection, as the reads do.
    fn make_room(&mut self) -> Result<(), BookFault>
        ensures faults { CountsResult result self.old.faults self.new.faults }
        ensures unchanged { LeavesUnchanged S.Store self.old self.new }
        ensures opened { IsOverCleanDisk S.Store self.new
            → OnOk result (IsHonest S.Store self.new) }
        ensures room { OnOk result (length self.new.pending < 64) }
        ensures uncommitted { IsHonest S.Store self.new → length self.old.pending < 64
            → ((state S.Store self.new.conn).now ≡ (state S.Store self.old.conn).now)
            × (self.new.pending ≡ self.old.pending) }
        ensures store { IsHonest S.Store self.old → IsOverCleanDisk S.Store self.new
            → length self.old.pending < 64 → result ≡ Err BookFault.Store
            → HasFailed S.Store self.old.conn self.new.conn }
    {
        if self.pending.len() >= MAX_BATCH as usize {
            return self.commit_all();
        }
        self.ask_again()
    }

    // Appends the call to the pending ones.
    fn append_call(&mut self, entry: &Entry) -> Result<(), BookFault>
        requires room { length self.old.pending < 64 }
        requires follows { IsHonest S.Store self.old → MayFollow (history_of S.Store self.old)
            self.old.terms entry.now }
        ensures faults { CountsResult result self.old.faults self.new.faults }
        ensures same_conn { self.new.conn ≡ self.old.conn }
        ensures same_terms { self.new.terms ≡ self.old.terms }
        ensures was_honest { IsHonest S.Store self.new → IsHonest S.Store self.old }
        ensures honest { IsOverCleanDisk S.Store self.new
            → IsTrue (state S.Store self.new.conn).is_open → IsHonest S.Store self.new }
        ensures ok { OnOk result (self.new.pending ≡ self.old.pending ++ entry.now ∷ []) }
        ensures err { OnErr result (self.new.pending ≡ self.old.pending) }
        ensures memory { IsHonest S.Store self.old → IfErr result (λ f. f ≡ BookFault.Memory) }
    {
        let limit = self.settings.limit();
        let held = append_pending(self.alloc, &mut self.index, &mut self.pending, limit, entry);
        counted(&mut self.faults, held)
    }

    // Commits the call, in one transaction with all pending calls before it. On an error an honest
    // book has committed none of them.
    fn keep_with_pending(&mut self, entry: Entry) -> Result<(), BookFault>
        requires { IsHonest S.Store self.old → MayFollow (history_of S.Store self.old)
            self.old.terms entry }
        ensures faults { CountsResult result self.old.faults self.new.faults }
        ensures was_honest { IsHonest S.Store self.new → IsHonest S.Store self.old }
        ensures same_terms { self.new.terms ≡ self.old.terms }
        ensures opened { IsOverCleanDisk S.Store self.new
            → OnOk result (IsHonest S.Store self.new) }
        ensures stop { IsOpenIfClean S.Store self.old.conn → MayFindAlso S.Store self.old self.new
            (history_of S.Store self.old ++ entry ∷ []) }
        ensures ok { IsHonest S.Store self.new
            → OnOk result (history_of S.Store self.new ≡ history_of S.Store self.old ++ entry
            ∷ []) }
        ensures err { IsHonest S.Store self.new
            → OnErr result (history_of S.Store self.new ≡ history_of S.Store self.old) }
        ensures stays_committed { IsHonest S.Store self.new
            → Grows (committed_of S.Store self.old) (committed_of S.Store self.new) }
        ensures committed { IsHonest S.Store self.new
            → OnOk result (committed_of S.Store self.new ≡ history_of S.Store self.new) }
        ensures left { IsHonest S.Store self.new
            → OnErr result (committed_of S.Store self.new ≡ committed_of S.Store self.old) }
    {
        let limit = self.settings.limit();
        let kept = keep_call(
            self.alloc,
            &mut self.conn,
            &mut self.index,
            &mut self.pending,
            &mut self.last_failure,
            limit,
            entry,
        );
        let answered = kept.is_ok();
        self.answered = answered;
        counted(&mut self.faults, kept)
    }

    // Counts the usage of a range in the tables, when no call is pending.
    fn usage_committed(&mut self, range: &Range, day: u32) -> Result<Usage, BookFault>
        requires none_pending { self.old.pending ≡ [] }
        requires opened { IsOpenIfClean S.Store self.old.conn }
        requires there { IsHonest S.Store self.old
            → Contains (ranges_of (history_of S.Store self.old)) range.now }
        ensures faults { CountsResult result self.old.faults self.new.faults }
        ensures unchanged { LeavesUnchanged S.Store self.old self.new }
        ensures opened { IsOverCleanDisk S.Store self.new
            → OnOk result (IsHonest S.Store self.new) }
        ensures answer { IsHonest S.Store self.new
            → IfOk result (λ u. u ≡ usage_of (history_of S.Store self.old) range.now day
            self.old.terms.interval) }
    {
        let interval = self.settings.interval();
        let day = self.index.day().max(day);
        let found = usage_in(
            self.alloc,
            &mut self.conn,
            &mut self.last_failure,
            range,
            day,
            interval,
        );
        let answered = found.is_ok();
        self.answered = answered;
        counted(&mut self.faults, found)
    }
}

impl<S: Alter> GroupCommit for SqlBook<S> {
    ghost use Rattle.s10_ledger.specs.Pending.{Appends};

    ghost appends = { Appends S.Store };

    /// Appends the call to the pending ones, in the process. If `MAX_BATCH` calls are pending,
    /// commits these first. If fewer are pending, the database is unchanged.
    fn append(&mut self, entry: Entry) -> Result<(), BookFault> {
        if let Err(fault) = self.make_room() {
            return Err(fault);
        }
        self.append_call(&entry)
    }

    /// Commits all pending calls in one transaction. If that fails, tries fewer at a time: half as
    /// many after each failure, down to one. On an error a book that is honest has committed the
    /// first of them, or none. The others stay pending.
    fn commit(&mut self) -> Result<(), BookFault> {
        self.commit_in_portions()
    }

    fn is_committed(&self, customer: u32, number: u32) -> bool {
        !is_pending(&self.pending, customer, number)
    }
}

impl<S: Alter> Book for SqlBook<S> {
    ghost use Rattle.std.specs.Prelude.{⊤, refl};
    ghost use Rattle.s10_ledger.specs.Ledger.{history_of, committed_of};
    ghost use Rattle.s10_ledger.specs.Ledger.{IsOverCleanDisk, MayFind};
    ghost use Rattle.s10_ledger.specs.Found.{finds_committed};

    ghost history = { history_of S.Store };

    ghost committed = { committed_of S.Store };

    ghost durable = { ⊤ };

    ghost terms = { λ b. b.terms };

    ghost faults = { λ b. b.faults };

    ghost honest = { IsHonest S.Store };

    ghost clean = { IsOverCleanDisk S.Store };

    ghost may_find = { MayFind S.Store };

    ghost legal = { λ b h. h.legal };

    ghost first = { λ b honest. (b.pending, refl) };

    ghost found = { finds_committed _ S.Store.settled };

    fn settings(&self) -> Settings {
        self.settings
    }

    fn len(&self) -> u32 {
        self.index.calls().len() as u32
    }

    fn day(&self) -> u32 {
        self.index.day()
    }

    fn find(&mut self, customer: u32, number: u32) -> Result<Option<Entry>, BookFault> {
        self.ask_again()?;
        Ok(self.index.find(customer, number))
    }

    fn entry(&mut self, at: u32) -> Result<Option<Entry>, BookFault> {
        self.ask_again()?;
        Ok(self.index.entry(at))
    }

    fn range(&mut self, num: u32) -> Result<Option<Range>, BookFault> {
        self.ask_again()?;
        Ok(self.index.ranges().range_by_number(num))
    }

    fn closed(&mut self, num: u32) -> Result<bool, BookFault> {
        self.ask_again()?;
        Ok(self.index.ranges().is_closed(num))
    }

    fn next_range(&mut self, held: &HolderKey, after: u32) -> Result<Option<Range>, BookFault> {
        self.ask_again()?;
        let next = self
            .index
            .ranges()
            .next_open_range(held.holder, held.service, held.country, after);
        Ok(next)
    }

    fn next_free_range(
        &mut self,
        held: &HolderKey,
        after: u32,
        day: u32,
    ) -> Result<Option<Range>, BookFault> {
        self.ask_again()?;
        let interval = self.settings.interval();
        Ok(self.index.next_free_range(held, after, day, interval))
    }

    fn covering(&mut self, span: &SerialSpan) -> Result<Option<Range>, BookFault> {
        self.ask_again()?;
        let found = self
            .index
            .ranges()
            .covering_range(span.service, span.country, span.first, span.last);
        Ok(found)
    }

    fn last_issue(&mut self, id: &Id) -> Result<Option<Issue>, BookFault> {
        self.ask_again()?;
        Ok(self.index.last_issue(id))
    }

    fn candidate(&mut self, range: &Range) -> Result<Candidate, BookFault> {
        self.ask_again()?;
        Ok(self.index.candidate_after(range, 0))
    }

    fn candidate_after(&mut self, range: &Range, issued: u8) -> Result<Candidate, BookFault> {
        self.ask_again()?;
        Ok(self.index.candidate_after(range, issued))
    }

    /// Commits the pending calls first, since the usage is counted in the tables.
    fn usage(&mut self, range: &Range, day: u32) -> Result<Usage, BookFault> {
        if let Err(fault) = self.commit_all() {
            return Err(fault);
        }
        self.usage_committed(range, day)
    }

    /// Commits the call, in one transaction with all pending calls before it. On an error the
    /// history and the pending calls are unchanged, and an honest book has committed none of them.
    fn keep(&mut self, entry: Entry) -> Result<(), BookFault> {
        match self.ask_again() {
            Ok(()) => self.keep_with_pending(entry),
            Err(fault) => Err(fault),
        }
    }
}

impl<S: Alter> LastFailure for SqlBook<S> {
    type Reason = Error;

    fn last_failure(&self) -> Option<Error> {
        self.last_failure
    }
}
