//! The same calls over a book in memory and over a ledger in tables.

use crate::ledger::calls::{closed, ledger, settings};
use s10_book::{Book, BookFault, PlainBook};
use s10_history::{Candidate, Entry, HolderKey, Issue, Range, SerialSpan, Settings, Usage};
use s10_ledger::SqlBook;
use s10_test_help::answered::Answered::{AlreadyVoid, Drawn, NoneFree, Told, Voided};
use s10_test_help::asked::Asked::{Draw, Query, Void};
use s10_test_help::expect::same;
use s10_test_help::samples::{gb, id, ra, serial};
use s10_test_help::steps::{
    FIRST_DRAW, NINE_CALLS, OPENING, SIX_CALLS, Step, first_wrong_step, request,
};
use s10_test_help::worked::{FULL_LEDGER, INTERVAL, LAST_SERIALS, REFUSED_GRANTS, WHO_MAY};
use s10_wire::{Outcome, Status};
use sqlite::{Connection, MemStore};
use std::process::Abort;

/// A read of a book, and what it must find.
#[derive(Clone, Copy)]
pub(crate) enum Read {
    /// The number of calls, and the day of the last.
    Calls(u32, u32),
    /// The call of a customer with a number: the sixth if true, otherwise none.
    Find(u32, u32, bool),
    /// The call with this arrival: the sixth if true, otherwise none.
    Entry(u32, bool),
    /// The range with this number: the first if true, otherwise none.
    Range(u32, bool),
    /// The next range of a holder after a number: the first if true, otherwise none.
    NextRange(u32, u32, bool),
    /// The range with a serial from the first value to the second: the first if true, otherwise
    /// none.
    Covering(u32, u32, bool),
    /// A serial, and its last issue.
    LastIssue(u32, Option<Issue>),
    /// The serial that range 1 gives next, and its last issue.
    Candidate(u32, Issue),
    /// A day, and the usage of range 1 on it.
    Usage(u32, Usage),
}

/// No reads.
const UNREAD: &'static [Read] = &[];

/// What is found in a book: the index of the first step with a wrong answer and of the first wrong
/// read, the number of calls, the day of the last, and the settings.
pub(crate) type Found = (Option<usize>, Option<usize>, u32, u32, Settings);

fn found<B: Book>(book: &mut B, steps: &[Step], reads: &[Read]) -> Found {
    let step = first_wrong_step(book, steps);
    let read = first_unread(book, reads);
    (step, read, book.len(), book.day(), book.settings())
}

fn found_in_memory<R: AllocGlobal>(
    rt: &R,
    settings: Settings,
    steps: &[Step],
    reads: &[Read],
) -> Found {
    let mut book = PlainBook::new(rt.alloc(), settings);
    found(&mut book, steps, reads)
}

/// Executes the steps and the reads over a ledger, and returns what is found.
pub(crate) fn found_in(book: &mut SqlBook<MemStore>, steps: &[Step], reads: &[Read]) -> Found {
    found(book, steps, reads)
}

/// Executes the steps and returns the index of the first whose answer differs from its row, if any.
pub(crate) fn first_wrong_step_in(book: &mut SqlBook<MemStore>, steps: &[Step]) -> Option<usize> {
    let (step, _, _, _, _) = found_in(book, steps, UNREAD);
    step
}

/// Returns the same for a new ledger with this limit, and its connection.
pub(crate) fn first_wrong_step_of<R: Abort + AllocGlobal>(
    rt: &R,
    limit: u32,
    steps: &[Step],
) -> (Option<usize>, Connection<MemStore>) {
    let mut book = ledger(rt, settings(rt, limit));
    let unlike = first_wrong_step_in(&mut book, steps);
    (unlike, closed(book))
}

/// Asserts that a ledger and a book in memory answer the steps and the reads as the rows say.
/// Returns the connection of the ledger.
fn both_after<R: Abort + Eprint + AllocGlobal>(
    rt: &R,
    name: &str,
    limit: u32,
    steps: &[Step],
    reads: &[Read],
) -> Connection<MemStore> {
    let settings = settings(rt, limit);
    let plain = found_in_memory(rt, settings, steps, reads);
    let mut tables = ledger(rt, settings);
    let found = found_in(&mut tables, steps, reads);
    assert!(rt; same(rt, &name, &(plain.0, plain.1, found), &(None, None, plain)));
    closed(tables)
}

/// The same for a ledger with a limit of 100 calls, without reads.
pub(crate) fn tables_after<R: Abort + Eprint + AllocGlobal>(
    rt: &R,
    name: &str,
    steps: &[Step],
) -> Connection<MemStore> {
    both_after(rt, name, 100, steps, UNREAD)
}

/// Asserts that both books answer the steps and the reads as the rows say.
fn both_answer<R: Abort + Eprint + AllocGlobal>(
    rt: &R,
    name: &str,
    limit: u32,
    steps: &[Step],
    reads: &[Read],
) {
    let _ = both_after(rt, name, limit, steps, reads);
}

const VOID_IS_REPEATED: &'static [Step] = &[
    OPENING,
    FIRST_DRAW,
    (7, 2, Draw, 20000, Drawn(20000, 1)),
    (7, 3, Void(1), 20000, Voided),
    (7, 3, Void(1), 20000, Voided),
    (7, 4, Void(1), 20000, AlreadyVoid),
    (7, 9, Query(1), 20000, Told(Status::Voided { day: 20000 })),
    (7, 5, Draw, 20000, Drawn(20000, 2)),
    (7, 6, Draw, 20000, NoneFree),
    (7, 7, Draw, 20030, Drawn(20030, 0)),
    (7, 8, Draw, 20030, Drawn(20030, 1)),
    (7, 10, Query(1), 20030, Told(Status::Issued { day: 20030 })),
];

#[test]
fn both_books_give_equal_answers_to_draws_and_voids(rt: HostRuntime) {
    both_answer(
        &rt,
        "the interval ends on its thirtieth day; a repeat is not executed and changes no day",
        100,
        INTERVAL,
        UNREAD,
    );
    both_answer(
        &rt,
        "a void is repeated, and voided again",
        100,
        VOID_IS_REPEATED,
        UNREAD,
    );
    both_answer(
        &rt,
        "the last serials, and a void that frees nothing",
        100,
        LAST_SERIALS,
        UNREAD,
    );
    both_answer(
        &rt,
        "a full ledger repeats its kept replies",
        3,
        FULL_LEDGER,
        UNREAD,
    );
}

#[test]
fn both_books_give_equal_answers_to_grants(rt: HostRuntime) {
    both_answer(
        &rt,
        "grants are refused in their order, and a draw stays in its own ranges",
        100,
        REFUSED_GRANTS,
        UNREAD,
    );
}

#[test]
fn both_books_give_equal_refusals(rt: HostRuntime) {
    both_answer(
        &rt,
        "who may draw, void and query what",
        100,
        WHO_MAY,
        UNREAD,
    );
}

/// Returns the range of the opening, or `None` if `is_there` is false.
fn first_range(is_there: bool) -> Option<Range> {
    let range = Range {
        num: 1,
        holder: 7,
        service: ra(),
        country: gb(),
        first: serial(0),
        last: serial(2),
    };
    if is_there { Some(range) } else { None }
}

/// Returns the sixth call, a Draw of the last serial, or `None` if `is_there` is false.
fn sixth(is_there: bool) -> Option<Entry> {
    let entry = Entry {
        request: request(7, 5, Draw),
        day: 20000,
        outcome: Outcome::Drawn {
            day: 20000,
            id: id(2),
        },
    };
    if is_there { Some(entry) } else { None }
}

/// Returns the usage of range 1 on a day, if the range exists.
fn usage_of_first<B: Book>(book: &mut B, day: u32) -> Result<Option<Usage>, BookFault> {
    let found = book.range(1)?;
    let Some(range) = found else {
        return Ok(None);
    };
    let usage = book.usage(&range, day)?;
    Ok(Some(usage))
}

/// Returns the candidate of range 1, if the range exists.
fn candidate_of_first<B: Book>(book: &mut B) -> Result<Option<Candidate>, BookFault> {
    let found = book.range(1)?;
    let Some(range) = found else {
        return Ok(None);
    };
    let candidate = book.candidate(&range)?;
    Ok(Some(candidate))
}

/// Returns whether the sixth call was found, or none if `is_there` is false.
fn is_sixth(found: &Result<Option<Entry>, BookFault>, is_there: bool) -> bool {
    *found == Ok(sixth(is_there))
}

/// Returns whether range 1 was found, or none if `is_there` is false.
fn is_first(found: &Result<Option<Range>, BookFault>, is_there: bool) -> bool {
    *found == Ok(first_range(is_there))
}

/// Returns whether the next range of a holder after number `after` is range 1, or none if
/// `is_there` is false.
fn has_after<B: Book>(book: &mut B, holder: u32, after: u32, is_there: bool) -> bool {
    let held = HolderKey {
        holder,
        service: ra(),
        country: gb(),
    };
    is_first(&book.next_range(&held, after), is_there)
}

/// Returns whether the range with one of these serials is range 1, or none if `is_there` is false.
fn has_covering<B: Book>(book: &mut B, first: u32, last: u32, is_there: bool) -> bool {
    let span = SerialSpan {
        service: ra(),
        country: gb(),
        first: serial(first),
        last: serial(last),
    };
    is_first(&book.covering(&span), is_there)
}

/// Returns whether range 1 gives this serial next, and this is its last issue.
fn gives_next<B: Book>(book: &mut B, value: u32, issue: Issue) -> bool {
    let candidate = Candidate {
        serial: serial(value),
        issue: Some(issue),
    };
    candidate_of_first(book) == Ok(Some(candidate))
}

/// Returns whether a read of the book finds what its row says.
fn is_as_read<B: Book>(book: &mut B, read: Read) -> bool {
    match read {
        Read::Calls(calls, day) => book.len() == calls && book.day() == day,
        Read::Find(customer, number, is_there) => is_sixth(&book.find(customer, number), is_there),
        Read::Entry(at, is_there) => is_sixth(&book.entry(at), is_there),
        Read::Range(number, is_there) => is_first(&book.range(number), is_there),
        Read::NextRange(holder, after, is_there) => has_after(book, holder, after, is_there),
        Read::Covering(first, last, is_there) => has_covering(book, first, last, is_there),
        Read::LastIssue(value, issue) => book.last_issue(&id(value)) == Ok(issue),
        Read::Candidate(value, issue) => gives_next(book, value, issue),
        Read::Usage(day, usage) => usage_of_first(book, day) == Ok(Some(usage)),
    }
}

/// Returns the index of the first read that finds something else than its row says, if any.
fn first_unread<B: Book>(book: &mut B, reads: &[Read]) -> Option<usize> {
    for (place, read) in reads.iter().enumerate() {
        if !is_as_read(book, *read) {
            return Some(place);
        }
    }
    None
}

/// The last issue of serial 1 after six calls.
const VOIDED: Issue = Issue {
    day: 20000,
    voided: true,
    customer: 7,
    number: 2,
};

/// The last issue of serial 0 after six calls.
const FIRST: Issue = Issue {
    day: 20000,
    voided: false,
    customer: 7,
    number: 1,
};

/// The last issue of serial 2 after nine calls.
const LAST: Issue = Issue {
    day: 20000,
    voided: false,
    customer: 7,
    number: 5,
};

/// The last issue of serial 1 after nine calls.
const AGAIN: Issue = Issue {
    day: 20030,
    voided: false,
    customer: 7,
    number: 8,
};

const ONE_VOIDED: Usage = Usage {
    used: 3,
    voided: 1,
    free: 0,
};

const ONE_FREE: Usage = Usage {
    used: 3,
    voided: 0,
    free: 1,
};

const THREE_FREE: Usage = Usage {
    used: 3,
    voided: 0,
    free: 3,
};

/// What is read after six calls.
const SIX_CALLS_READ: &'static [Read] = &[
    Read::LastIssue(1, Some(VOIDED)),
    Read::Usage(20000, ONE_VOIDED),
    Read::Candidate(0, FIRST),
];

/// What is read after nine calls.
const NINE_CALLS_READ: &'static [Read] = &[
    Read::Find(7, 5, true),
    Read::Find(5, 7, false),
    Read::Entry(6, true),
    Read::Entry(0, false),
    Read::Entry(10, false),
    Read::LastIssue(1, Some(AGAIN)),
    Read::LastIssue(3, None),
    Read::Candidate(2, LAST),
    Read::Usage(0, ONE_FREE),
    Read::Usage(20030, ONE_FREE),
    Read::Usage(20059, ONE_FREE),
    Read::Usage(20060, THREE_FREE),
    Read::Range(1, true),
    Read::Range(2, false),
    Read::NextRange(7, 0, true),
    Read::NextRange(7, 1, false),
    Read::NextRange(8, 0, false),
    Read::Covering(2, 5, true),
    Read::Covering(3, 5, false),
    Read::Covering(2, 1, false),
    Read::Calls(9, 20030),
];

#[test]
fn reads_of_both_books_are_equal(rt: HostRuntime) {
    both_answer(&rt, "six calls", 100, SIX_CALLS, SIX_CALLS_READ);
    both_answer(&rt, "nine calls", 100, NINE_CALLS, NINE_CALLS_READ);
}
