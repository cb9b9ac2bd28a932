//! Reads of a book.

use crate::book::books::{book_after, execute_steps};
use s10_book::{Book, PlainBook};
use s10_history::{Candidate, Entry, HolderKey, Issuance, Issue, Range, SerialSpan, Usage};
use s10_test_help::asked::Asked;
use s10_test_help::samples::{gb, id, ra, serial};
use s10_test_help::steps::{SIX_CALLS, THREE_MORE, request};
use s10_wire::Outcome;
use std::process::Abort;

/// Returns the range of the opening.
fn first_range() -> Range {
    Range {
        num: 1,
        holder: 7,
        service: ra(),
        country: gb(),
        first: serial(0),
        last: serial(2),
    }
}

fn issue(day: u32, voided: bool, number: u32) -> Issue {
    Issue {
        day,
        voided,
        customer: 7,
        number,
    }
}

/// Returns the sixth call: a Draw of the last serial.
fn sixth() -> Entry {
    Entry {
        request: request(7, 5, Asked::Draw),
        day: 20000,
        outcome: Outcome::Drawn {
            day: 20000,
            id: id(2),
        },
    }
}

/// Returns the usage of range 1 on a day.
fn usage_of_first(book: &mut PlainBook, day: u32) -> Option<Usage> {
    match book.range(1) {
        Ok(Some(range)) => book.usage(&range, day).ok(),
        _ => None,
    }
}

/// Returns the candidate of range 1.
fn candidate_of_first(book: &mut PlainBook) -> Option<Candidate> {
    match book.range(1) {
        Ok(Some(range)) => book.candidate(&range).ok(),
        _ => None,
    }
}

/// Returns whether range 1 has this usage on a day.
fn is_used(book: &mut PlainBook, day: u32, used: u32, voided: u32, free: u32) -> bool {
    usage_of_first(book, day) == Some(Usage { used, voided, free })
}

/// Returns whether this is the last issue of serial 1.
fn was_last_issued(book: &mut PlainBook, issue: Issue) -> bool {
    book.last_issue(&id(1)) == Ok(Some(issue))
}

/// Returns whether this is the call of the customer with this number.
fn finds(book: &mut PlainBook, customer: u32, number: u32, entry: Option<Entry>) -> bool {
    book.find(customer, number) == Ok(entry)
}

/// Returns whether this is call number `at`.
fn holds(book: &mut PlainBook, at: u32, entry: Option<Entry>) -> bool {
    book.entry(at) == Ok(entry)
}

/// Returns whether range 1 is the only range, and customer 7 holds it.
fn has_one_range(book: &mut PlainBook) -> bool {
    let held = HolderKey {
        holder: 7,
        service: ra(),
        country: gb(),
    };
    book.range(1) == Ok(Some(first_range()))
        && book.range(2) == Ok(None)
        && book.next_range(&held, 0) == Ok(Some(first_range()))
        && book.next_range(&held, 1) == Ok(None)
}

/// Returns whether this is the range found by these serials.
fn has_covering(book: &mut PlainBook, first: u32, last: u32, range: Option<Range>) -> bool {
    let span = SerialSpan {
        service: ra(),
        country: gb(),
        first: serial(first),
        last: serial(last),
    };
    book.covering(&span) == Ok(range)
}

/// Returns whether range 1 gives this serial next, and this is its last issue.
fn gives_next(book: &mut PlainBook, value: u32, issue: Issue) -> bool {
    let candidate = Candidate {
        serial: serial(value),
        issue: Some(issue),
    };
    candidate_of_first(book) == Some(candidate)
}

/// Returns whether the book has nine calls, the last on day 20030.
fn is_of_nine_calls(book: &PlainBook) -> bool {
    let settings = book.settings();
    book.len() == 9 && book.day() == 20030 && settings.interval() == 30 && settings.limit() == 100
}

/// Days on which 3 serials of range 1 are used and none is voided, and how many are free.
const FREE: &[(u32, u32)] = &[(0, 1), (20030, 1), (20059, 1), (20060, 3)];

fn usages_are_read(rt: &impl Abort, book: &mut PlainBook) {
    for (day, free) in FREE {
        assert!(rt; is_used(book, *day, 3, 0, *free));
    }
}

fn calls_are_read(rt: &impl Abort, book: &mut PlainBook) {
    assert!(rt; finds(book, 7, 5, Some(sixth())));
    assert!(rt; finds(book, 5, 7, None));
    assert!(rt; holds(book, 6, Some(sixth())));
    assert!(rt; holds(book, 0, None));
    assert!(rt; holds(book, 10, None));
}

/// The last of the nine calls issued serial 1 again, and serial 2 is next.
fn ranges_are_read(rt: &impl Abort, book: &mut PlainBook) {
    assert!(rt; has_covering(book, 2, 5, Some(first_range())));
    assert!(rt; has_covering(book, 3, 5, None));
    assert!(rt; has_covering(book, 2, 1, None));
    assert!(rt; has_one_range(book));
    assert!(rt; was_last_issued(book, issue(20030, false, 8)));
    assert!(rt; gives_next(book, 2, issue(20000, false, 5)));
}

fn six_calls_are_read(rt: &impl Abort, book: &mut PlainBook) {
    assert!(rt; was_last_issued(book, issue(20000, true, 2)));
    assert!(rt; is_used(book, 20000, 3, 1, 0));
}

fn nine_calls_are_read(rt: &impl Abort, mut book: PlainBook) {
    assert!(rt; is_of_nine_calls(&book));
    usages_are_read(rt, &mut book);
    calls_are_read(rt, &mut book);
    ranges_are_read(rt, &mut book);
}

#[test]
fn reads_answer_from_the_kept_calls(rt: HostRuntime) {
    let mut book = book_after(&rt, "six calls", SIX_CALLS);
    six_calls_are_read(&rt, &mut book);
    execute_steps(&rt, "three more", &mut book, THREE_MORE);
    nine_calls_are_read(&rt, book);
}

/// Returns the one issuance of the sixth call.
fn sixth_issue() -> Issuance {
    Issuance {
        id: id(2),
        day: 20000,
        customer: 7,
        number: 5,
        arrival: 6,
    }
}

/// Returns whether this call, as number 6, issued only this.
fn issued_one(entry: &Entry, issuance: Issuance) -> bool {
    entry.issued() == 1 && entry.issue(6, 0) == Some(issuance) && entry.issue(6, 1).is_none()
}

/// Returns whether this call, as number 6, issued nothing.
fn issued_none(entry: &Entry) -> bool {
    entry.issued() == 0 && entry.issue(6, 0).is_none()
}

#[test]
fn a_done_draw_issues_once_and_a_refused_one_never(rt: HostRuntime) {
    let drawn = sixth();
    let refused = Entry {
        outcome: Outcome::NoneFree,
        ..drawn
    };
    assert!(rt; issued_one(&drawn, sixth_issue()));
    assert!(rt; issued_none(&refused));
}
