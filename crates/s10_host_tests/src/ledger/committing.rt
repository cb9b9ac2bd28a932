//! Pending calls, and their commit.

use crate::ledger::books::first_wrong_step_in;
use crate::ledger::calls::{closed, ledger, settings};
use crate::ledger::tables::found;
use s10_book::{Batched, Book, BookFault, GroupCommit};
use s10_history::Settings;
use s10_ledger::{HashSeed, NoObserver, Refused, SqlBook};
use s10_test_help::answered::Answered;
use s10_test_help::asked::Asked;
use s10_test_help::expect::same;
use s10_test_help::steps::{Step, answer, first_wrong_step, request};
use sqlite::{Alter, Connection, MemStore};
use std::alloc::Global;
use std::ops::Range;
use std::process::Abort;

const GRANT: &'static [Step] = &[(0, 1, Asked::Grant(7, 0, 999), 20000, Answered::Granted(1))];

/// Returns the first of these numbers with which a Draw fails, if any.
fn first_refused<B: Book>(book: &mut B, numbers: Range<u32>) -> Option<u32> {
    for number in numbers {
        if answer(book, &request(7, number, Asked::Draw), 20000).is_err() {
            return Some(number);
        }
    }
    None
}

/// Returns whether the book keeps a Grant, and `draws` Draws after it.
fn keeps<B: Book>(book: &mut B, draws: u32) -> bool {
    first_wrong_step(book, GRANT).is_none() && first_refused(book, 0..draws).is_none()
}

/// Returns a new ledger, and whether it appends a Grant and `draws` Draws.
fn appended<R: Abort + AllocGlobal>(rt: &R, draws: u32) -> (SqlBook<MemStore>, bool) {
    let mut book = Batched::new(ledger(rt, settings(rt, 1000)));
    let is_appended = keeps(&mut book, draws);
    (book.into_inner(), is_appended)
}

/// Closes a ledger, and returns how many calls an opening then finds.
fn calls_found(alloc: Global, book: SqlBook<MemStore>) -> Option<u32> {
    let (answer, _conn) = found(alloc, closed(book))?;
    match answer {
        Ok(opened) => Some(opened.len),
        Err(_) => None,
    }
}

/// Returns how many calls of a Grant and `draws` Draws are committed.
fn committed_calls<B: GroupCommit>(book: &B, draws: u32) -> u32 {
    let mut count = u32::from(book.is_committed(0, 1));
    for number in 0..draws {
        count = count.saturating_add(u32::from(book.is_committed(7, number)));
    }
    count
}

/// Returns whether a Grant and `draws` Draws are appended and committed, how many calls are
/// committed, and how many are found after closing.
fn committed<R: Abort + AllocGlobal>(rt: &R, draws: u32) -> (bool, u32, Option<u32>) {
    let (mut book, is_appended) = appended(rt, draws);
    let is_committed = book.commit().is_ok();
    let calls = committed_calls(&book, draws);
    (
        is_appended && is_committed,
        calls,
        calls_found(rt.alloc(), book),
    )
}

/// Number of Draws after a Grant, and number of calls that are committed.
const COMMITTED_CALLS: &[(u32, u32)] = &[(0, 1), (1, 2), (63, 64), (64, 65)];

#[test]
fn committed_calls_are_found_after_reopening(rt: HostRuntime) {
    for (draws, calls) in COMMITTED_CALLS {
        let wanted = (true, *calls, Some(*calls));
        assert!(rt; same(&rt, draws, &committed(&rt, *draws), &wanted));
    }
}

/// Returns whether a Grant and `draws` Draws are appended, how many are committed without a commit,
/// and how many calls are found after closing.
fn closed_uncommitted<R: Abort + AllocGlobal>(rt: &R, draws: u32) -> (bool, u32, Option<u32>) {
    let (book, is_appended) = appended(rt, draws);
    let calls = committed_calls(&book, draws);
    (is_appended, calls, calls_found(rt.alloc(), book))
}

/// Number of Draws after a Grant, and number of calls that are committed since no more may be
/// pending.
const FULL_BATCHES: &[(u32, u32)] = &[(0, 0), (1, 0), (63, 0), (64, 64), (127, 64), (128, 128)];

#[test]
fn pending_calls_are_committed_by_the_first_beyond_the_maximum_and_by_closing(rt: HostRuntime) {
    for (draws, calls) in FULL_BATCHES {
        let wanted = (true, *calls, Some(draws.saturating_add(1)));
        assert!(rt; same(&rt, draws, &closed_uncommitted(&rt, *draws), &wanted));
    }
}

/// Returns whether the book keeps Draw `number`, and whether it is committed then.
fn keeps_draw<B: GroupCommit>(book: &mut B, number: u32) -> (bool, bool) {
    let is_kept = answer(book, &request(7, number, Asked::Draw), 20000).is_ok();
    (is_kept, book.is_committed(7, number))
}

/// Keeps the Draw, or appends it if `is_kept` is false. Returns the ledger, whether it did so, and
/// whether the Draw is committed then.
fn adds_draw(
    mut book: SqlBook<MemStore>,
    number: u32,
    is_kept: bool,
) -> (SqlBook<MemStore>, (bool, bool)) {
    if is_kept {
        let done = keeps_draw(&mut book, number);
        return (book, done);
    }
    let mut book = Batched::new(book);
    let done = keeps_draw(&mut book, number);
    (book.into_inner(), done)
}

/// Which of two Draws are kept, the others being appended, and which are committed before the
/// ledger is closed.
type Order = ([bool; 2], [bool; 2]);

const ORDERS: &[Order] = &[
    ([true, true], [true, true]),
    ([false, true], [true, true]),
    ([true, false], [true, false]),
    ([false, false], [false, false]),
];

/// Returns which of two Draws after a kept Grant are committed at once, which before the ledger is
/// closed, and how many calls are found after closing. Returns `None` if a call fails.
fn added_in_order<R: Abort + AllocGlobal>(
    rt: &R,
    are_kept: [bool; 2],
) -> Option<([bool; 2], [bool; 2], Option<u32>)> {
    let (book, is_granted) = granted(rt);
    let (book, (first, first_committed)) = adds_draw(book, 1, are_kept[0]);
    let (book, (second, second_committed)) = adds_draw(book, 2, are_kept[1]);
    let committed = [book.is_committed(7, 1), book.is_committed(7, 2)];
    let calls = calls_found(rt.alloc(), book);
    if !(is_granted && first && second) {
        return None;
    }
    Some(([first_committed, second_committed], committed, calls))
}

/// Returns a new ledger, and whether it keeps a Grant.
fn granted<R: Abort + AllocGlobal>(rt: &R) -> (SqlBook<MemStore>, bool) {
    let mut book = ledger(rt, settings(rt, 1000));
    let is_granted = first_wrong_step_in(&mut book, GRANT).is_none();
    (book, is_granted)
}

#[test]
fn a_kept_call_is_committed_with_the_pending_ones_before_it(rt: HostRuntime) {
    for (are_kept, committed) in ORDERS {
        let wanted = Some((*are_kept, *committed, Some(3)));
        assert!(rt; same(&rt, are_kept, &added_in_order(&rt, *are_kept), &wanted));
    }
}

const REPEATED: &'static [Step] = &[(7, 1, Asked::Draw, 20001, Answered::Drawn(20000, 1))];

/// Returns whether three Draws are appended and the pending second one is repeated. Also returns
/// the number of calls of the ledger, how many are committed, and the number found after closing.
fn repeated<R: Abort + AllocGlobal>(rt: &R) -> (bool, u32, u32, Option<u32>) {
    let (mut book, is_appended) = appended(rt, 3);
    let is_repeated = first_wrong_step_in(&mut book, REPEATED).is_none();
    let calls = book.len();
    let committed = committed_calls(&book, 3);
    let left = calls_found(rt.alloc(), book);
    (is_appended && is_repeated, calls, committed, left)
}

#[test]
fn a_pending_call_is_found(rt: HostRuntime) {
    assert!(rt; same(&rt, &"repeated", &repeated(&rt), &(true, 4, 0, Some(4))));
}

/// What is reported for a commit: which of four calls are committed before it, its result, which
/// are committed after it, and the number of calls of the book then.
pub(crate) type CommitReport = ([bool; 4], Result<(), BookFault>, [bool; 4], u32);

/// The commit succeeds, and the third call is committed.
pub(crate) const COMMITTED: CommitReport = ([true, true, false, true], Ok(()), [true; 4], 5);

/// The commit fails, and the third call stays pending.
pub(crate) const UNCOMMITTED: CommitReport = (
    [true, true, false, true],
    Err(BookFault::Store),
    [true, true, false, true],
    5,
);

/// Returns whether the calls of these keys are committed. There is no call with the last key, so it
/// counts as committed.
fn committed_keys<B: GroupCommit>(book: &B) -> [bool; 4] {
    [
        book.is_committed(0, 1),
        book.is_committed(7, 1),
        book.is_committed(7, 2),
        book.is_committed(7, 5),
    ]
}

const GRANT_OF_TEN: &'static [Step] = &[(0, 1, Asked::Grant(7, 0, 9), 20000, Answered::Granted(1))];

/// Returns whether the book commits a Grant and a Draw, and appends three Draws after them.
fn appends_three<B: GroupCommit>(book: &mut Batched<B>) -> bool {
    first_wrong_step(book, GRANT_OF_TEN).is_none()
        && first_refused(book, 1..2).is_none()
        && book.commit().is_ok()
        && first_refused(book, 2..5).is_none()
}

/// Commits three Draws after two committed calls, and returns what is reported, or `None` if the
/// book does not append them.
fn commits_three<B: GroupCommit>(book: &mut Batched<B>) -> Option<CommitReport> {
    if !appends_three(book) {
        return None;
    }
    let before = committed_keys(book);
    let answer = book.commit();
    Some((before, answer, committed_keys(book), book.len()))
}

/// The same for a new ledger in this connection, which is returned. `None` also if the ledger is
/// not created.
pub(crate) fn commits_three_in<S: Alter>(
    alloc: Global,
    settings: Settings,
    conn: Connection<S>,
) -> (Option<CommitReport>, Connection<S>) {
    if !conn.is_autocommit() {
        return (None, conn);
    }
    match SqlBook::create(alloc, HashSeed::fixed(), conn, settings, &mut NoObserver) {
        Ok(book) => {
            let mut book = Batched::new(book);
            let report = commits_three(&mut book);
            (report, closed(book.into_inner()))
        }
        Err(
            Refused {
                refusal: _,
                connection,
            },
        ) => (None, connection),
    }
}

/// Returns how many calls of a Grant and four Draws a new ledger in this connection keeps before it
/// fails to keep one, and the connection. The count is `None` if the ledger is not created.
pub(crate) fn keeps_five_in<S: Alter>(
    alloc: Global,
    settings: Settings,
    conn: Connection<S>,
) -> (Option<u32>, Connection<S>) {
    if !conn.is_autocommit() {
        return (None, conn);
    }
    match SqlBook::create(alloc, HashSeed::fixed(), conn, settings, &mut NoObserver) {
        Ok(mut book) => {
            let kept = kept_of_five(&mut book);
            (Some(kept), closed(book))
        }
        Err(
            Refused {
                refusal: _,
                connection,
            },
        ) => (None, connection),
    }
}

/// Returns how many calls of a Grant and four Draws a book keeps before it fails to keep one.
fn kept_of_five<B: Book>(book: &mut B) -> u32 {
    if first_wrong_step(book, GRANT_OF_TEN).is_some() {
        return 0;
    }
    first_refused(book, 1..5).unwrap_or(5)
}

/// Commits three Draws in a new ledger in memory, and returns what is reported.
fn reported_in_memory(alloc: Global, settings: Settings) -> Option<CommitReport> {
    let conn = Connection::open_in_memory(alloc).ok()?;
    let (report, _conn) = commits_three_in(alloc, settings, conn);
    report
}

#[test]
fn a_call_is_committed_after_a_commit(rt: HostRuntime) {
    assert!(rt; reported_in_memory(rt.alloc(), settings(&rt, 100)) == Some(COMMITTED));
}
