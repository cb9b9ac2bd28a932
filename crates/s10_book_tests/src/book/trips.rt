//! Which call of a `TripBook` fails.

use crate::book::books::book_after;
use crate::book::reports::ALL_RANGES;
use s10_book::{Batched, Book, BookFault, GroupCommit, TripBook, decide, successive_draws};
use s10_core::Id;
use s10_history::{HolderKey, SerialSpan};
use s10_reports::{ReportFault, ReportFormat, write_ranges};
use s10_test_help::expect::same;
use s10_test_help::samples::{id, sheet};
use s10_test_help::steps::{OPENING, answer};
use s10_wire::{Body, Request};
use std::alloc::Global;
use std::process::Abort;

/// A read of a book.
#[derive(Clone, Copy)]
enum Read {
    Find,
    Entry,
    Range,
    Closed,
    NextRange,
    Covering,
    LastIssue,
}

/// A question to a book, of one call or more.
#[derive(Clone, Copy)]
enum Question {
    Read(Read),
    Commit,
    /// The outcome of a Draw: reads the customer's range and its candidate.
    Candidate,
    /// The identifiers of a sheet of one: reads the customer's range and its first pick.
    Sheet,
    /// The report of the ranges: reads range 1, its usage, and whether it is closed.
    Usage,
    /// The outcome of a Withdraw: reads the range and whether it is closed.
    Withdraw,
    /// A Query by the post with a new number: reads its key, the range of the identifier and its
    /// last issue, and keeps the call.
    Keep,
    /// The same Query to a book whose `keep` appends.
    Append,
}

/// Name of each question, and the number of calls of the book that it makes.
const QUESTIONS: &[(&str, Question, u64)] = &[
    ("find", Question::Read(Read::Find), 1),
    ("entry", Question::Read(Read::Entry), 1),
    ("range", Question::Read(Read::Range), 1),
    ("closed", Question::Read(Read::Closed), 1),
    ("next range", Question::Read(Read::NextRange), 1),
    ("covering", Question::Read(Read::Covering), 1),
    ("last issue", Question::Read(Read::LastIssue), 1),
    ("commit", Question::Commit, 1),
    ("candidate", Question::Candidate, 2),
    ("sheet", Question::Sheet, 2),
    ("usage", Question::Usage, 3),
    ("withdraw", Question::Withdraw, 2),
    ("keep", Question::Keep, 4),
    ("append", Question::Append, 4),
];

fn asked(customer: u32, number: u32, body: Body) -> Request {
    Request {
        customer,
        number,
        body,
    }
}

/// Returns a Draw of the service and country of an identifier.
fn draw_of(id: &Id) -> Body {
    Body::Draw {
        service: id.service,
        country: id.country,
    }
}

/// Returns the fault of an answer, if it is one.
fn told<T: Copy>(answer: Result<T, BookFault>) -> Result<(), BookFault> {
    match answer {
        Ok(_) => Ok(()),
        Err(fault) => Err(fault),
    }
}

fn next_range<B: Book>(book: &mut B, id: &Id) -> Result<(), BookFault> {
    let held = HolderKey {
        holder: 7,
        service: id.service,
        country: id.country,
    };
    told(book.next_range(&held, 0))
}

fn covering<B: Book>(book: &mut B, id: &Id) -> Result<(), BookFault> {
    let span = SerialSpan::of(id);
    told(book.covering(&span))
}

/// Decides a new request and ignores the outcome.
fn decided<B: Book>(book: &mut B, request: &Request) -> Result<(), BookFault> {
    let day = book.day().max(20_000);
    told(decide(book, request, day))
}

fn report<B: Book>(alloc: Global, book: &mut B) -> Result<(), BookFault> {
    let mut out = Vec::new(alloc);
    match write_ranges(book, &ALL_RANGES, ReportFormat::Lines, 20_000, &mut out) {
        Ok(()) => Ok(()),
        Err(ReportFault::Book(fault)) => Err(fault),
        Err(ReportFault::Write) => Err(BookFault::Memory),
    }
}

fn sheet_of_one<B: Book>(book: &mut B, id: &Id) -> Result<(), BookFault> {
    let one = sheet(1);
    told(successive_draws(book, 7, id.service, id.country, one, 20_000))
}

fn look_up<B: Book>(book: &mut B, read: Read, id: &Id) -> Result<(), BookFault> {
    match read {
        Read::Find => told(book.find(0, 1)),
        Read::Entry => told(book.entry(1)),
        Read::Range => told(book.range(1)),
        Read::Closed => told(book.closed(1)),
        Read::NextRange => next_range(book, id),
        Read::Covering => covering(book, id),
        Read::LastIssue => told(book.last_issue(id)),
    }
}

fn keep<B: Book>(book: &mut B, id: &Id, number: u32) -> Result<(), BookFault> {
    let query = asked(0, number, Body::Query { id: *id });
    told(answer(book, &query, 20_000))
}

fn ask<B: GroupCommit>(
    alloc: Global,
    book: &mut B,
    question: Question,
    id: &Id,
    number: u32,
) -> Result<(), BookFault> {
    match question {
        Question::Read(read) => look_up(book, read, id),
        Question::Commit => book.commit(),
        Question::Candidate => decided(book, &asked(7, number, draw_of(id))),
        Question::Sheet => sheet_of_one(book, id),
        Question::Usage => report(alloc, book),
        Question::Withdraw => decided(book, &asked(0, number, Body::Withdraw { range: 1 })),
        Question::Keep | Question::Append => keep(book, id, number),
    }
}

/// Returns whether a question fails with `Store`, or `None` if it fails with another fault.
fn is_refused<B: GroupCommit>(
    alloc: Global,
    book: &mut B,
    question: Question,
    id: &Id,
    number: u32,
) -> Option<bool> {
    match ask(alloc, book, question, id, number) {
        Ok(()) => Some(false),
        Err(BookFault::Store) => Some(true),
        Err(_) => None,
    }
}

/// Asks two questions of a kind, then one of a single call. Returns which of them fail, or `None`
/// if one fails with another fault than `Store`.
fn refused<B: GroupCommit + Drop>(
    alloc: Global,
    mut book: B,
    question: Question,
) -> Option<[bool; 3]> {
    let id = id(0);
    let first = is_refused(alloc, &mut book, question, &id, 2)?;
    let second = is_refused(alloc, &mut book, question, &id, 3)?;
    let third = is_refused(alloc, &mut book, Question::Read(Read::Entry), &id, 4)?;
    Some([first, second, third])
}

/// The same for a book that fails at call `at`, counted from 0.
fn refused_at<R: Abort + Eprint + AllocGlobal>(
    rt: &R,
    question: Question,
    at: u64,
) -> Option<[bool; 3]> {
    let inner = book_after(rt, "opening", &[OPENING]);
    let book = TripBook::new(inner, at);
    match question {
        Question::Append => refused(rt.alloc(), Batched::new(book), question),
        _ => refused(rt.alloc(), book, question),
    }
}

/// Returns the first call, counted from 0, whose failure does not show in the one question that
/// makes it, if any. Each of the two questions makes n calls, and the third makes one.
fn first_without_failure<R: Abort + Eprint + AllocGlobal>(
    rt: &R,
    question: Question,
    calls: u64,
) -> Option<u64> {
    let both = calls.saturating_mul(2);
    for at in 0..both.saturating_add(2) {
        let expected = [at < calls, calls <= at && at < both, at == both];
        if refused_at(rt, question, at) != Some(expected) {
            return Some(at);
        }
    }
    None
}

#[test]
fn a_trip_book_fails_only_at_its_call(rt: HostRuntime) {
    for (name, question, calls) in QUESTIONS {
        let passed_over = first_without_failure(&rt, *question, *calls);
        assert!(rt; same(&rt, name, &passed_over, &None));
    }
}
