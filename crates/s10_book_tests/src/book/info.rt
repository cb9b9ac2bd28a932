//! The report of a ledger as a whole.

use crate::book::books::book_after;
use s10_book::{BookFault, TripBook};
use s10_reports::{ReportFault, write_info};
use s10_test_help::answered::Answered::{Drawn, Granted, Voided, Withdrawn};
use s10_test_help::asked::Asked::{Draw, Grant, Void, Withdraw};
use s10_test_help::expect::holds;
use s10_test_help::hiccup::Hiccup;
use s10_test_help::steps::{NINE_CALLS, OPENING, SIX_CALLS, Step};
use std::alloc::Global;

const EMPTY: &str = "schema 1\ninterval 30\nlimit 100\ncalls 0\nlast-day 0\nranges 0\nclosed 0\n\
used 0\nvoided 0\nfree 0\n";

const GRANTED: &str = "schema 1\ninterval 30\nlimit 100\ncalls 1\nlast-day 20000\nranges 1\n\
closed 0\nused 0\nvoided 0\nfree 3\n";

const SIX: &str = "schema 1\ninterval 30\nlimit 100\ncalls 6\nlast-day 20000\nranges 1\nclosed 0\n\
used 3\nvoided 1\nfree 0\n";

const NINE: &str = "schema 1\ninterval 30\nlimit 100\ncalls 9\nlast-day 20030\nranges 1\nclosed 0\n\
used 3\nvoided 0\nfree 1\n";

const NINE_LATER: &str = "schema 1\ninterval 30\nlimit 100\ncalls 9\nlast-day 20030\nranges 1\n\
closed 0\nused 3\nvoided 0\nfree 3\n";

const CLOSED: &str = "schema 1\ninterval 30\nlimit 100\ncalls 5\nlast-day 20000\nranges 2\n\
closed 1\nused 1\nvoided 1\nfree 1\n";

/// A range is closed, and another one is granted after it.
const CLOSED_RANGE: &'static [Step] = &[
    OPENING,
    (7, 1, Draw, 20000, Drawn(20000, 0)),
    (0, 2, Withdraw(1), 20000, Withdrawn),
    (7, 2, Void(0), 20000, Voided),
    (0, 3, Grant(8, 3, 3), 20000, Granted(2)),
];

/// Steps, a day, and the report on that day after them.
type Case = (&'static str, &'static [Step], u32, &'static str);

const CASES: &[Case] = &[
    ("no call", &[], 20000, EMPTY),
    ("one grant", &[OPENING], 0, GRANTED),
    ("six calls", SIX_CALLS, 20000, SIX),
    // A day before the ledger's last one is that one.
    ("nine calls", NINE_CALLS, 0, NINE),
    ("nine calls, on the last day", NINE_CALLS, 20030, NINE),
    ("nine calls, a day too early", NINE_CALLS, 20059, NINE),
    (
        "nine calls, an interval later",
        NINE_CALLS,
        20060,
        NINE_LATER,
    ),
    // Its serials are used and voided, but none of them is free.
    ("a closed range", CLOSED_RANGE, 20000, CLOSED),
];

#[test]
fn the_numbers_of_a_ledger_are_as_worked_by_hand(rt: HostRuntime) {
    for (name, steps, day, text) in CASES {
        let mut book = book_after(&rt, name, steps);
        let mut out = Vec::new(rt.alloc());
        let is_done = write_info(&mut book, 1, *day, &mut out) == Ok(());
        assert!(rt; holds(&rt, name, is_done && out.as_slice() == text.as_bytes()));
    }
}

#[test]
fn a_book_that_fails_leaves_nothing(rt: HostRuntime) {
    for at in 0..3u64 {
        let mut book = TripBook::new(book_after(&rt, "nine calls", NINE_CALLS), at);
        let mut out = Vec::new(rt.alloc());
        let fault = write_info(&mut book, 1, 20030, &mut out);
        let is_store = fault == Err(ReportFault::Book(BookFault::Store));
        assert!(rt; holds(&rt, &at, is_store && out.is_empty()));
    }
}

/// Returns whether a writer that accepts `room` bytes has these, and the report fails.
fn is_cut(alloc: Global, book: &mut s10_book::PlainBook, room: usize) -> bool {
    let mut out = Hiccup::new(alloc, room);
    let told = write_info(book, 1, 20030, &mut out);
    told == Err(ReportFault::Write) && NINE.as_bytes().starts_with(out.bytes.as_slice())
}

#[test]
fn a_writer_that_fails_ends_the_report(rt: HostRuntime) {
    let mut book = book_after(&rt, "nine calls", NINE_CALLS);
    for room in 0..NINE.len() {
        assert!(rt; holds(&rt, &room, is_cut(rt.alloc(), &mut book, room)));
    }
}
