//! Withdraws, and calls after them.

use crate::book::books::{all_are_answered, are_answered, book_after};
use s10_book::{Book, BookFault};
use s10_history::{HolderKey, Range, SerialSpan};
use s10_test_help::answered::Answered::{
    AlreadyVoid, Closed, Drawn, DrawnMany, Full, Granted, NoRange, NoSuchRange, NoneFree,
    NotIssued, NotThePost, NotYours, NumberReused, Overlap, Told, Voided, Withdrawn,
};
use s10_test_help::asked::Asked::{
    Draw, DrawMany, DrawOfRb, Grant, GrantOfRb, Query, Void, Withdraw,
};
use s10_test_help::samples::{gb, id, ra};
use s10_test_help::steps::{OPENING, Step};
use s10_wire::Status;
use std::process::Abort;

/// Customer 7 is granted range 2: the serials 4 to 6.
const SECOND_GRANT: Step = (0, 2, Grant(7, 4, 6), 20000, Granted(2));

/// Customer 7 is granted range 3: the serials 8 and 9.
const THIRD_GRANT: Step = (0, 3, Grant(7, 8, 9), 20000, Granted(3));

/// A Withdraw checks first who asks, then whether the range exists, then whether it is closed.
const ORDER_OF_THE_RULE: &'static [Step] = &[
    OPENING,
    (7, 1, Withdraw(1), 20000, NotThePost),
    (7, 2, Withdraw(9), 20000, NotThePost),
    (0, 2, Withdraw(2), 20000, NoSuchRange),
    (0, 3, Withdraw(0), 20000, NoSuchRange),
    (0, 4, Withdraw(1), 20000, Withdrawn),
    (0, 4, Withdraw(1), 20000, Withdrawn),
    (0, 5, Withdraw(1), 20000, Closed),
    (0, 5, Withdraw(1), 20000, Closed),
    (7, 3, Withdraw(1), 20000, NotThePost),
    (0, 4, Withdraw(2), 20000, NumberReused),
    (0, 4, Grant(8, 3, 3), 20000, NumberReused),
    (0, 6, Withdraw(2), 20000, NoSuchRange),
];

/// The serials and the number of a closed range are not granted again.
const CLOSED_RANGE: &'static [Step] = &[
    OPENING,
    (0, 2, Withdraw(1), 20000, Withdrawn),
    (0, 3, Grant(8, 0, 2), 20000, Overlap),
    (0, 4, Grant(8, 3, 3), 20000, Granted(2)),
    (0, 5, Withdraw(2), 20000, Withdrawn),
    (0, 6, Withdraw(1), 20000, Closed),
    (0, 7, Withdraw(2), 20000, Closed),
    (0, 8, Withdraw(3), 20000, NoSuchRange),
];

/// A full ledger executes no Withdraw.
const FULL_LEDGER: &'static [Step] = &[OPENING, (0, 2, Withdraw(1), 20000, Full)];

const WITHDRAWALS: &'static [(&'static str, &'static [Step])] = &[
    (
        "who asks comes first, then whether there is such a range, then whether it is closed",
        ORDER_OF_THE_RULE,
    ),
    (
        "a closed range keeps its serials and its number",
        CLOSED_RANGE,
    ),
];

#[test]
fn withdrawals_are_answered_in_the_order_of_the_rule(rt: HostRuntime) {
    all_are_answered(&rt, WITHDRAWALS);
    are_answered(&rt, "a full ledger withdraws nothing", 1, FULL_LEDGER);
}

/// An identifier of a closed range is voided and queried as before.
const VOIDED_AS_BEFORE: &'static [Step] = &[
    OPENING,
    (7, 1, Draw, 20000, Drawn(20000, 0)),
    (0, 2, Withdraw(1), 20000, Withdrawn),
    (7, 1, Draw, 20000, Drawn(20000, 0)),
    (7, 2, Draw, 20000, NoRange),
    (7, 3, DrawMany(1), 20000, NoRange),
    (7, 4, Void(0), 20000, Voided),
    (7, 5, Void(0), 20000, AlreadyVoid),
    (7, 6, Void(1), 20000, NotIssued),
    (7, 7, Query(0), 20000, Told(Status::Voided { day: 20000 })),
    (7, 8, Query(1), 20000, Told(Status::Never)),
    (8, 1, Query(0), 20000, NotYours),
    (7, 9, Draw, 20030, NoRange),
];

/// Ranges of other customers and of other services stay open.
const OTHER_RANGES: &'static [Step] = &[
    OPENING,
    (0, 2, Grant(8, 4, 6), 20000, Granted(2)),
    (0, 3, GrantOfRb(7, 0, 2), 20000, Granted(3)),
    (0, 4, Withdraw(3), 20000, Withdrawn),
    (7, 1, DrawOfRb, 20000, NoRange),
    (7, 2, Draw, 20000, Drawn(20000, 0)),
    (0, 5, Withdraw(1), 20000, Withdrawn),
    (7, 3, Draw, 20000, NoRange),
    (8, 1, Draw, 20000, Drawn(20000, 4)),
    (8, 2, DrawMany(2), 20000, DrawnMany(20000, (5, 7), (0, 0))),
];

const AFTER_A_WITHDRAWAL: &'static [(&'static str, &'static [Step])] = &[
    (
        "what it gave is voided and queried as before",
        VOIDED_AS_BEFORE,
    ),
    (
        "ranges of others, and of another service, are as open as before",
        OTHER_RANGES,
    ),
];

#[test]
fn a_closed_range_gives_no_more_identifiers(rt: HostRuntime) {
    all_are_answered(&rt, AFTER_A_WITHDRAWAL);
}

/// A Draw is refused with none free if a range is open, and with no range if all are closed.
const OPEN_RANGES: &'static [Step] = &[
    OPENING,
    SECOND_GRANT,
    (7, 1, Draw, 20000, Drawn(20000, 0)),
    (0, 3, Withdraw(1), 20000, Withdrawn),
    (7, 2, Draw, 20000, Drawn(20000, 4)),
    (7, 3, DrawMany(3), 20000, NoneFree),
    (7, 4, DrawMany(2), 20000, DrawnMany(20000, (5, 7), (0, 0))),
    (7, 5, Draw, 20000, NoneFree),
    (7, 6, DrawMany(1), 20000, NoneFree),
    (0, 4, Withdraw(2), 20000, Withdrawn),
    (7, 7, Draw, 20000, NoRange),
    (7, 8, DrawMany(1), 20000, NoRange),
];

/// A sheet of three is from the open range only, and not dated before the withdrawal.
const SHEET_OF_AN_OPEN_RANGE: &'static [Step] = &[
    OPENING,
    SECOND_GRANT,
    (7, 1, Draw, 20000, Drawn(20000, 0)),
    (0, 3, Withdraw(1), 20010, Withdrawn),
    (7, 2, DrawMany(3), 20000, DrawnMany(20010, (4, 7), (0, 0))),
];

/// A sheet skips a closed range between two open ones.
const SHEET_OVER_A_CLOSED_RANGE: &'static [Step] = &[
    OPENING,
    SECOND_GRANT,
    THIRD_GRANT,
    (0, 4, Withdraw(2), 20000, Withdrawn),
    (7, 1, DrawMany(4), 20000, DrawnMany(20000, (0, 3), (8, 9))),
    (7, 2, DrawMany(2), 20000, NoneFree),
    (7, 3, Draw, 20000, Drawn(20000, 9)),
];

const DRAWS: &'static [(&'static str, &'static [Step])] = &[
    (
        "none is free where an open range has none, and there is no range where all are closed",
        OPEN_RANGES,
    ),
    (
        "a sheet of three is of the open range alone, and not before the day of the withdrawal",
        SHEET_OF_AN_OPEN_RANGE,
    ),
    (
        "a sheet skips a closed range between two others",
        SHEET_OVER_A_CLOSED_RANGE,
    ),
];

#[test]
fn draws_continue_in_the_open_ranges(rt: HostRuntime) {
    all_are_answered(&rt, DRAWS);
}

/// Returns whether the range with this number was found, or none if no number is named.
fn has_number(found: Result<Option<Range>, BookFault>, num: Option<u32>) -> bool {
    match (found, num) {
        (Ok(Some(range)), Some(num)) => range.num == num,
        (Ok(None), None) => true,
        _ => false,
    }
}

/// Returns whether the book reports range `num` as closed, or as open if `closed` is false.
fn has_closed<B: Book>(book: &mut B, num: u32, closed: bool) -> bool {
    book.closed(num) == Ok(closed)
}

/// Returns whether the next open range of customer 7 after number `after` has this number.
fn has_open<B: Book>(book: &mut B, after: u32, num: Option<u32>) -> bool {
    let held = HolderKey {
        holder: 7,
        service: ra(),
        country: gb(),
    };
    has_number(book.next_range(&held, after), num)
}

/// Returns whether the range that contains this serial has this number.
fn has_covering<B: Book>(book: &mut B, value: u32, num: Option<u32>) -> bool {
    has_number(book.covering(&SerialSpan::of(&id(value))), num)
}

/// Numbers of ranges, and whether each is closed.
const CLOSED: &[(u32, bool)] = &[(0, false), (1, false), (2, true), (3, false), (4, false)];

fn are_closed_as_reported<B: Book>(rt: &impl Abort, book: &mut B) {
    for (num, closed) in CLOSED {
        assert!(rt; has_closed(book, *num, *closed));
    }
}

/// Numbers of ranges, and the number of the next open range after each.
const NEXT: &[(u32, Option<u32>)] = &[(0, Some(1)), (1, Some(3)), (2, Some(3)), (3, None)];

fn open_ranges_are_next<B: Book>(rt: &impl Abort, book: &mut B) {
    for (after, num) in NEXT {
        assert!(rt; has_open(book, *after, *num));
    }
}

/// Serials, and the number of the range that contains each.
const COVERING: &[(u32, Option<u32>)] = &[(2, Some(1)), (4, Some(2)), (8, Some(3)), (7, None)];

fn all_ranges_cover_their_serials<B: Book>(rt: &(impl Abort + Eprint), book: &mut B) {
    for (value, num) in COVERING {
        assert!(rt; has_covering(book, *value, *num));
    }
}

/// Asserts that range 2 of three is closed: only the look-up for a Draw skips it.
fn second_is_closed<B: Book + Drop>(rt: &(impl Abort + Eprint), mut book: B) {
    are_closed_as_reported(rt, &mut book);
    open_ranges_are_next(rt, &mut book);
    all_ranges_cover_their_serials(rt, &mut book);
}

/// The second of three ranges is closed. Refused Withdraws close none.
const SECOND_OF_THREE_CLOSED: &'static [Step] = &[
    OPENING,
    SECOND_GRANT,
    THIRD_GRANT,
    (0, 4, Withdraw(2), 20000, Withdrawn),
    (7, 1, Withdraw(3), 20000, NotThePost),
    (0, 5, Withdraw(4), 20000, NoSuchRange),
];

#[test]
fn only_a_draw_skips_a_closed_range(rt: HostRuntime) {
    let book = book_after(
        &rt,
        "the second of three ranges is closed",
        SECOND_OF_THREE_CLOSED,
    );
    second_is_closed(&rt, book);
}
