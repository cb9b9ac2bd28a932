//! The nine calls over the book with an index and the book without.

use crate::book::both_books::{have_equal_calls_and_reports, indexed_book, plain_book};
use s10_book::Book;
use s10_test_help::answered::Answered;
use s10_test_help::asked::Asked;
use s10_test_help::expect::same;
use s10_test_help::steps::{NINE_CALLS, Step, answer, first_wrong_step, request};
use s10_wire::Status;

/// Executes the nine calls. Returns the index of the first whose answer differs from its row, if
/// any, and the number of kept calls.
fn nine_calls_of<B: Book>(book: &mut B) -> (Option<usize>, u32) {
    (first_wrong_step(book, NINE_CALLS), book.len())
}

/// The same for a new book.
fn nine_calls_of_new<B: Book + Drop>(mut book: B) -> (Option<usize>, u32) {
    nine_calls_of(&mut book)
}

/// The days on which reports are compared.
const DAYS: &[u32] = &[20000, 20029, 20030, 20060];

#[test]
fn nine_calls_are_answered_as_worked_by_hand(rt: HostRuntime) {
    let mut plain = plain_book(rt.alloc());
    let mut indexed = indexed_book(rt.alloc());
    let found = (nine_calls_of(&mut plain), nine_calls_of(&mut indexed));
    assert!(rt; same(&rt, &"answers", &found, &((None, 9), (None, 9))));
    have_equal_calls_and_reports(&rt, plain, indexed, 10, DAYS);
}

/// Queries by the post on day 20030, with the status of each serial.
const REPORTED: &[Step] = &[
    (
        0,
        100,
        Asked::Query(0),
        20030,
        Answered::Told(Status::Issued { day: 20030 }),
    ),
    (
        0,
        101,
        Asked::Query(1),
        20030,
        Answered::Told(Status::Issued { day: 20030 }),
    ),
    (
        0,
        102,
        Asked::Query(2),
        20030,
        Answered::Told(Status::Issued { day: 20000 }),
    ),
    (
        0,
        103,
        Asked::Query(3),
        20030,
        Answered::Told(Status::Unknown),
    ),
];

/// Executes the nine calls, then the Queries by the post. Returns the result of the nine calls, and
/// the index of the first Query whose answer differs from its row, if any.
fn reported_after_nine_calls<B: Book + Drop>(mut book: B) -> ((Option<usize>, u32), Option<usize>) {
    let found = nine_calls_of(&mut book);
    (found, first_wrong_step(&mut book, REPORTED))
}

#[test]
fn the_last_issue_of_each_serial_is_reported(rt: HostRuntime) {
    let found = reported_after_nine_calls(indexed_book(rt.alloc()));
    assert!(rt; same(&rt, &"serial", &found, &((None, 9), None)));
}

#[test]
fn nine_calls_with_ample_memory_are_kept_at_once(rt: HostRuntime) {
    let found = nine_calls_of_new(indexed_book(rt.alloc()));
    assert!(rt; same(&rt, &"at once", &found, &(None, 9)));
}

/// Executes a step, and again if it failed and no call was kept. Returns whether the answer is that
/// of its row.
fn is_right_after_retry<B: Book>(book: &mut B, step: &Step) -> bool {
    let (customer, number, asked, day, answered) = step;
    let request = request(*customer, *number, *asked);
    let kept = book.len();
    let mut found = answer(book, &request, *day);
    if found.is_err() && book.len() == kept {
        found = answer(book, &request, *day);
    }
    answered.is(&found)
}

/// Executes the nine calls, each again if it failed. Returns the index of the first whose answer
/// differs from its row, if any, and the number of kept calls.
fn nine_calls_with_retries<B: Book + Drop>(mut book: B) -> (Option<usize>, u32) {
    for (place, step) in NINE_CALLS.iter().enumerate() {
        if !is_right_after_retry(&mut book, step) {
            return (Some(place), book.len());
        }
    }
    (None, book.len())
}

#[test]
fn a_retry_succeeds_after_a_failed_allocation(rt: HostRuntime) {
    let found = nine_calls_with_retries(indexed_book(rt.alloc()));
    assert!(rt; same(&rt, &"at last", &found, &(None, 9)));
}
