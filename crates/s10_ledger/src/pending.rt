//! The pending calls: appends a call to them, and commits them, with one more call or without.

ghost use Rattle.std.specs.Prelude.{◌≡◌, ◌≢◌, ◌⊎◌, ◌<◌, ◌≤◌, ◌++◌, ◌∷◌, [], List, length, Err, None};
ghost use Rattle.std.specs.Prelude.{Some, IfSome, ◌/◌};
ghost use Rattle.std.specs.Prelude.{IsTrue, IfOk, IfErr, OnOk, OnErr, take, drop};
ghost use Rattle.std.specs.List.{list_any};
ghost use Rattle.sqlite_trees.specs.Tree.{Trees};
ghost use Rattle.sqlite_trees.specs.View.{doubt};
ghost use Rattle.sqlite.specs.Held.{state};
ghost use Rattle.sqlite.specs.State.{HasCleanDisk};
ghost use Rattle.s10_history.specs.declared.entry.Entry.{Entry};
ghost use Rattle.s10_book.specs.declared.book_fault.BookFault.TheVariants.{Full};
ghost use Rattle.s10_history.specs.History.{has_key};
ghost use Rattle.s10_history.specs.Settings.{Terms};
ghost use Rattle.s10_history.specs.declared.settings.TheConstants.{MAX_LIMIT};
ghost use Rattle.s10_book.specs.Rules.{IsLegal, MayFollow};
ghost use Rattle.s10_ranges.specs.Moves.{AreMoves};
ghost use Rattle.s10_index.specs.CallIndex.{Indexes, HasRoomFor};
ghost use Rattle.s10_rows.specs.declared.call_write.CallWrite.{CallWrite};
ghost use Rattle.s10_rows.specs.CallWrite.{AreWritten};
ghost use Rattle.s10_rows.specs.Tables.{Tables};
ghost use Rattle.s10_wire.specs.Kind.{fits};
ghost use Rattle.s10_statements.specs.ConnectionState.{IsQuiescent};
ghost use Rattle.s10_statements.specs.Shown.{HasTables};
ghost use Rattle.s10_ledger.specs.Faults.{IsReasonFor};
ghost use Rattle.s10_ledger.specs.Pending.{calls_of, IsWriteOf, IsWrittenWith};

use crate::faults::keep_failure;
use s10_book::BookFault;
use s10_history::Entry;
use s10_index::{CallIndex, call_write};
use s10_rows::CallWrite;
use s10_statements::commit_rows;
use sqlite::{Alter, Connection, Error};
use std::alloc::Global;

// Commits the pending calls in one transaction: all of them, and then none is pending, or none of
// them. The last failure is then the reason.
pub(crate) fn commit_calls<S: Alter>(
    conn: &mut Connection<S>,
    pending: &mut Vec<CallWrite>,
    last_failure: &mut Option<Error>,
) -> Result<(), BookFault>
    requires settled { IsQuiescent S.Store conn.old }
    ensures settled { IsQuiescent S.Store conn.new }
    ensures opened { HasCleanDisk (state S.Store conn.new)
        → OnOk result (IsTrue (state S.Store conn.new).is_open) }
    ensures fault { result ≢ Err Full }
    ensures clean { doubt (state S.Store conn.old).is_clean
        ≤ doubt (state S.Store conn.new).is_clean }
    ensures was_open { HasCleanDisk (state S.Store conn.new)
        → IsTrue (state S.Store conn.new).is_open → IsTrue (state S.Store conn.old).is_open }
    ensures emptied { OnOk result (pending.new.items ≡ []) }
    ensures left { OnErr result (pending.new.items ≡ pending.old.items) }
    ensures ok { HasCleanDisk (state S.Store conn.new) → OnOk result ((before after : Tables)
        → AreWritten pending.old.items before after
        → HasTables (state S.Store conn.old).now before → HasTables (state S.Store conn.new).now
        after) }
    ensures err { HasCleanDisk (state S.Store conn.new) → IsTrue (state S.Store conn.new).is_open
        → OnErr result ((state S.Store conn.new).now ≡ (state S.Store conn.old).now) }
    ensures crash { HasCleanDisk (state S.Store conn.new) → (db : Trees)
        → (state S.Store conn.new).may_leave db
        → (state S.Store conn.old).may_leave db
        ⊎ ((before after : Tables) → AreWritten pending.old.items before after
        → HasTables (state S.Store conn.old).now before
        → HasTables (record (state S.Store conn.old).now { trees = db }) after) }
    ensures works { OnOk result (last_failure.new ≡ None) }
    ensures reason { IfErr result (IsReasonFor last_failure.new) }
{
    let all = pending.len();
    commit_first(conn, pending, last_failure, all)
}

// Commits the first `count` pending calls in one transaction, and then they are not pending, or none
// of them. The last failure is then the reason.
pub(crate) fn commit_first<S: Alter>(
    conn: &mut Connection<S>,
    pending: &mut Vec<CallWrite>,
    last_failure: &mut Option<Error>,
    count: usize,
) -> Result<(), BookFault>
    requires settled { IsQuiescent S.Store conn.old }
    requires within { count ≤ length pending.old.items }
    ensures settled { IsQuiescent S.Store conn.new }
    ensures opened { HasCleanDisk (state S.Store conn.new)
        → OnOk result (IsTrue (state S.Store conn.new).is_open) }
    ensures fault { result ≢ Err Full }
    ensures clean { doubt (state S.Store conn.old).is_clean
        ≤ doubt (state S.Store conn.new).is_clean }
    ensures was_open { HasCleanDisk (state S.Store conn.new)
        → IsTrue (state S.Store conn.new).is_open → IsTrue (state S.Store conn.old).is_open }
    ensures rest { OnOk result (pending.new.items ≡ drop count pending.old.items) }
    ensures left { OnErr result (pending.new.items ≡ pending.old.items) }
    ensures ok { HasCleanDisk (state S.Store conn.new) → OnOk result ((before after : Tables)
        → AreWritten (take count pending.old.items) before after
        → HasTables (state S.Store conn.old).now before → HasTables (state S.Store conn.new).now
        after) }
    ensures err { HasCleanDisk (state S.Store conn.new) → IsTrue (state S.Store conn.new).is_open
        → OnErr result ((state S.Store conn.new).now ≡ (state S.Store conn.old).now) }
    ensures crash { HasCleanDisk (state S.Store conn.new) → (db : Trees)
        → (state S.Store conn.new).may_leave db
        → (state S.Store conn.old).may_leave db
        ⊎ ((before after : Tables) → AreWritten (take count pending.old.items) before after
        → HasTables (state S.Store conn.old).now before
        → HasTables (record (state S.Store conn.old).now { trees = db }) after) }
    ensures works { OnOk result (last_failure.new ≡ None) }
    ensures reason { IfErr result (IsReasonFor last_failure.new) }
{
    match commit_rows(conn, &pending[..count]) {
        Ok(()) => {
            remove_first(pending, count);
            *last_failure = None;
            Ok(())
        }
        Err(error) => Err(keep_failure(last_failure, error)),
    }
}

// Removes the first `count` pending calls. Does not allocate, since it follows a commit.
fn remove_first(pending: &mut Vec<CallWrite>, count: usize)
    requires { count ≤ length pending.old.items }
    ensures { pending.new.items ≡ drop count pending.old.items }
{
    drop(pending.drain(..count));
}

// Returns how many calls a commit tries after a failure with `tried` calls: half as many, or `None`
// after a failure with one.
pub(crate) fn halved(tried: usize) -> Option<usize>
    ensures half { 2 ≤ tried → result ≡ Some (tried / 2) }
    ensures one { tried < 2 → result ≡ None }
    ensures fewer { IfSome result (λ n. (1 ≤ n) × (n < tried)) }
{
    if tried < 2 {
        return None;
    }
    Some(tried / 2)
}

// Prepares the index, whose calls are unchanged, for the call, and returns what the call writes after
// them. `Store` if the limit is reached, `Memory` if out of memory.
fn prepare_call(
    alloc: Global,
    index: &mut CallIndex,
    limit: u32,
    entry: &Entry,
) -> Result<CallWrite, BookFault>
    requires limit { limit ≤ MAX_LIMIT }
    ensures fault { result ≢ Err Full }
    ensures same_calls { index.new.entries.items ≡ index.old.entries.items }
    ensures same_index { (h : List Entry) → Indexes index.old h → Indexes index.new h }
    ensures few { OnOk result (length index.new.entries.items < MAX_LIMIT) }
    ensures room { OnOk result (HasRoomFor index.new entry.now) }
    ensures fits { OnOk result (IsTrue (fits entry.now.request.body entry.now.outcome)) }
    ensures entry { IfOk result (λ write. write.entry ≡ entry.now) }
    ensures writes { IfOk result (IsWriteOf index.old entry.now) }
    ensures moves { (h : List Entry) (t : Terms) → IsLegal h t → MayFollow h t entry.now
        → Indexes index.old h → OnOk result (AreMoves h entry.now index.new.moves.items) }
    ensures memory { (h : List Entry) (t : Terms) → IsLegal h t → MayFollow h t entry.now
        → Indexes index.old h → t.limit ≤ limit → IfErr result (λ f. f ≡ BookFault.Memory) }
{
    let held = index.calls().len();
    if held >= limit as usize {
        return Err(BookFault::Store);
    }
    if index.prepare(entry).is_err() {
        return Err(BookFault::Memory);
    }
    call_write(alloc, index, held as u32 + 1, entry)
}

// Appends the call to the index and to the pending calls, or leaves both as they are. `Store` if
// the limit is reached, `Memory` if out of memory.
pub(crate) fn append_pending(
    alloc: Global,
    index: &mut CallIndex,
    pending: &mut Vec<CallWrite>,
    limit: u32,
    entry: &Entry,
) -> Result<(), BookFault>
    requires limit { limit ≤ MAX_LIMIT }
    ensures fault { result ≢ Err Full }
    ensures few { length index.old.entries.items ≤ MAX_LIMIT → length index.new.entries.items
        ≤ MAX_LIMIT }
    ensures calls { OnOk result (index.new.entries.items ≡ index.old.entries.items ++ entry.now
        ∷ []) }
    ensures same_calls { OnErr result (index.new.entries.items ≡ index.old.entries.items) }
    ensures written { OnOk result ((write : CallWrite)
        × (pending.new.items ≡ pending.old.items ++ write ∷ []) × (write.entry ≡ entry.now)
        × IsWriteOf index.old entry.now write) }
    ensures left { OnErr result (pending.new.items ≡ pending.old.items) }
    ensures followed { (h : List Entry) (t : Terms) → IsLegal h t → MayFollow h t entry.now
        → Indexes index.old h → OnOk result (Indexes index.new (h ++ entry.now ∷ [])) }
    ensures same_index { (h : List Entry) → Indexes index.old h
        → OnErr result (Indexes index.new h) }
    ensures memory { (h : List Entry) (t : Terms) → IsLegal h t → MayFollow h t entry.now
        → Indexes index.old h → t.limit ≤ limit → IfErr result (λ f. f ≡ BookFault.Memory) }
{
    let write = prepare_call(alloc, index, limit, entry)?;
    if pending.push(write).is_err() {
        return Err(BookFault::Memory);
    }
    index.follow(*entry);
    Ok(())
}

// Commits the pending calls and then this one in one transaction, after which none is pending. On
// an error none of them is committed, and the index and the pending calls are unchanged. The index
// follows only after the commit, since no call can be removed from it.
pub(crate) fn keep_call<S: Alter>(
    alloc: Global,
    conn: &mut Connection<S>,
    index: &mut CallIndex,
    pending: &mut Vec<CallWrite>,
    last_failure: &mut Option<Error>,
    limit: u32,
    entry: Entry,
) -> Result<(), BookFault>
    requires limit { limit ≤ MAX_LIMIT }
    requires settled { IsQuiescent S.Store conn.old }
    ensures fault { result ≢ Err Full }
    ensures few { length index.old.entries.items ≤ MAX_LIMIT → length index.new.entries.items
        ≤ MAX_LIMIT }
    ensures calls { OnOk result (index.new.entries.items ≡ index.old.entries.items ++ entry
        ∷ []) }
    ensures same_calls { OnErr result (index.new.entries.items ≡ index.old.entries.items) }
    ensures followed { (h : List Entry) (t : Terms) → IsLegal h t → MayFollow h t entry
        → Indexes index.old h → OnOk result (Indexes index.new (h ++ entry ∷ [])) }
    ensures same_index { (h : List Entry) → Indexes index.old h
        → OnErr result (Indexes index.new h) }
    ensures emptied { OnOk result (pending.new.items ≡ []) }
    ensures left { OnErr result (pending.new.items ≡ pending.old.items) }
    ensures settled { IsQuiescent S.Store conn.new }
    ensures opened { HasCleanDisk (state S.Store conn.new)
        → OnOk result (IsTrue (state S.Store conn.new).is_open) }
    ensures clean { doubt (state S.Store conn.old).is_clean
        ≤ doubt (state S.Store conn.new).is_clean }
    ensures was_open { HasCleanDisk (state S.Store conn.new)
        → IsTrue (state S.Store conn.new).is_open → IsTrue (state S.Store conn.old).is_open }
    ensures ok { HasCleanDisk (state S.Store conn.new)
        → OnOk result (IsWrittenWith (state S.Store conn.old).now (state S.Store conn.new).now
        index.old pending.old.items entry) }
    ensures err { HasCleanDisk (state S.Store conn.new) → IsTrue (state S.Store conn.new).is_open
        → OnErr result ((state S.Store conn.new).now ≡ (state S.Store conn.old).now) }
    ensures crash { HasCleanDisk (state S.Store conn.new) → (db : Trees)
        → (state S.Store conn.new).may_leave db
        → (state S.Store conn.old).may_leave db
        ⊎ IsWrittenWith (state S.Store conn.old).now
        (record (state S.Store conn.old).now { trees = db }) index.old pending.old.items
        entry }
    ensures works { OnOk result (last_failure.new ≡ None) }
{
    let last = prepare_call(alloc, index, limit, &entry)?;
    if pending.push(last).is_err() {
        return Err(BookFault::Memory);
    }
    if let Err(fault) = commit_calls(conn, pending, last_failure) {
        let _ = pending.pop();
        return Err(fault);
    }
    index.follow(entry);
    Ok(())
}

// Returns whether a call with that key is pending.
pub(crate) fn is_pending(pending: &[CallWrite], customer: u32, number: u32) -> bool
    ensures { result ≡ list_any (has_key customer number) (calls_of pending.now) }
{
    pending.iter().any(|w| w.entry.request.customer == customer && w.entry.request.number == number)
}
