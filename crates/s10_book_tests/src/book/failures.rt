//! Books that fail at one of their calls, and succeed when the request is repeated.

use crate::book::books::empty_book;
use s10_book::{Book, BookFault, PlainBook, TripBook};
use s10_test_help::answered::Answered;
use s10_test_help::asked::Asked;
use s10_test_help::steps::{
    FOUR_CALLS, ONE_CALL, OPENING, Step, THREE_CALLS, TWO_CALLS, answer, request,
};
use s10_wire::Status;
use std::alloc::Global;
use std::process::Abort;

/// Returns a book that fails at call `at`, counted from 0.
fn failing_book(alloc: Global, at: u64) -> TripBook<PlainBook> {
    TripBook::new(empty_book(alloc, 100), at)
}

/// Returns whether of four reads only read `at` fails, counted from 0.
fn fails_once(alloc: Global, at: u64) -> bool {
    let mut book = failing_book(alloc, at);
    for call in 0..4u64 {
        let expected = if call == at {
            Err(BookFault::Store)
        } else {
            Ok(None)
        };
        if book.len() != 0 || book.find(0, 1) != expected {
            return false;
        }
    }
    true
}

/// Executes a step, and again if the store failed. Returns whether the answer is that of its row,
/// and whether the store failed.
fn is_answered_after_retry<B: Book>(book: &mut B, step: &Step) -> (bool, bool) {
    let (customer, number, asked, day, answered) = *step;
    let request = request(customer, number, asked);
    let first = answer(book, &request, day);
    if first == Err(BookFault::Store) {
        (answered.is(&answer(book, &request, day)), true)
    } else {
        (answered.is(&first), false)
    }
}

/// Executes the steps, each again if the store failed. Returns the number of failures, or `None` if
/// an answer or the number of kept calls is wrong.
fn failures_retried<B: Book + Drop>(mut book: B, steps: &[Step]) -> Option<u32> {
    let mut failures: u32 = 0;
    for step in steps {
        let (right, failed) = is_answered_after_retry(&mut book, step);
        if !right {
            return None;
        }
        if failed {
            failures = failures.saturating_add(1);
        }
    }
    if book.len() as usize == steps.len() {
        Some(failures)
    } else {
        None
    }
}

/// Returns whether the steps make exactly n calls of the book: a failure at each of them occurs
/// once, and a failure at the next call never occurs.
fn make(alloc: Global, steps: &[Step], calls: u64) -> bool {
    for at in 0..=calls {
        let failures = failures_retried(failing_book(alloc, at), steps);
        if failures != Some(u32::from(at < calls)) {
            return false;
        }
    }
    true
}

/// Asserts for each row that its steps make n calls of the book.
fn all_make<R: Abort + AllocGlobal>(rt: &R, rows: &[(&[Step], u64)]) {
    for (steps, calls) in rows {
        assert!(rt; make(rt.alloc(), steps, *calls));
    }
}

// The first Grant reads its key and the range that it overlaps, and is kept. A Draw reads its key,
// a range and its candidate, and is kept. A Void reads its key, the range of the identifier and its
// last issue, and is kept.
const FIRST_CALLS: &'static [(&'static [Step], u64)] = &[
    (ONE_CALL, 3),
    (TWO_CALLS, 7),
    (THREE_CALLS, 11),
    (FOUR_CALLS, 15),
];

#[test]
fn a_retry_succeeds_after_a_failed_book_call(rt: HostRuntime) {
    for at in 0..3u64 {
        assert!(rt; fails_once(rt.alloc(), at));
    }
    all_make(&rt, FIRST_CALLS);
}

/// The customer who holds the range queries a serial that was never issued.
const QUERY: Step = (7, 1, Asked::Query(0), 20000, Answered::Told(Status::Never));

/// The post queries it.
const QUERY_OF_THE_POST: Step = (0, 2, Asked::Query(0), 20000, Answered::Told(Status::Never));

/// Another customer queries it.
const QUERY_OF_ANOTHER: Step = (8, 1, Asked::Query(0), 20000, Answered::NotYours);

/// The post withdraws range 1.
const WITHDRAW: Step = (0, 2, Asked::Withdraw(1), 20000, Answered::Withdrawn);

/// The post withdraws a range that does not exist.
const WITHDRAW_OF_NONE: Step = (0, 2, Asked::Withdraw(2), 20000, Answered::NoSuchRange);

/// A customer withdraws range 1.
const WITHDRAW_BY_A_CUSTOMER: Step = (7, 1, Asked::Withdraw(1), 20000, Answered::NotThePost);

/// The post withdraws range 1 again.
const SECOND_WITHDRAW: Step = (0, 3, Asked::Withdraw(1), 20000, Answered::Closed);

// A Withdraw reads its key. If the post asks, it also reads the range and, if there is one, whether
// it is closed. Then it is kept. The first Grant makes three calls before it.
const WITHDRAWALS: &'static [(&'static [Step], u64)] = &[
    (&[OPENING, WITHDRAW], 3 + 4),
    (&[OPENING, WITHDRAW_OF_NONE], 3 + 3),
    (&[OPENING, WITHDRAW_BY_A_CUSTOMER], 3 + 2),
    (&[OPENING, WITHDRAW, SECOND_WITHDRAW], 3 + 4 + 4),
];

#[test]
fn a_retry_succeeds_after_a_failed_withdrawal(rt: HostRuntime) {
    all_make(&rt, WITHDRAWALS);
}

// A Query reads its key and, once, the range of the identifier. If the customer holds that range or
// is the post, it also reads the last issue. Then it is kept.
const QUERIES: &'static [(&'static [Step], u64)] = &[
    (&[OPENING, QUERY], 3 + 4),
    (&[OPENING, QUERY_OF_THE_POST], 3 + 4),
    (&[OPENING, QUERY_OF_ANOTHER], 3 + 3),
];

#[test]
fn a_query_looks_once_for_the_range_of_its_identifier(rt: HostRuntime) {
    all_make(&rt, QUERIES);
}
