//! Answers of books, worked by hand.

use crate::book::books::{all_are_answered, are_answered};
use s10_test_help::answered::Answered::{
    Drawn, DrawnMany, Granted, NoRange, NoneFree, NumberReused, Overlap, Told, Voided,
};
use s10_test_help::asked::Asked::{Draw, DrawMany, Grant, Query, Void};
use s10_test_help::steps::{OPENING, Step};
use s10_test_help::worked::{FULL_LEDGER, INTERVAL, LAST_SERIALS, REFUSED_GRANTS, WHO_MAY};
use s10_wire::Status;

/// A call on an earlier day than the last call gets the day of the last call.
const FALLING_DAY: &'static [Step] = &[
    OPENING,
    (7, 1, Draw, 20010, Drawn(20010, 0)),
    (7, 2, Draw, 19000, Drawn(20010, 1)),
];

const DRAWS_AND_VOIDS: &'static [(&'static str, &'static [Step])] = &[
    (
        "the interval ends on its thirtieth day; a repeat is not executed and changes no day",
        INTERVAL,
    ),
    ("a day that falls counts as the last one", FALLING_DAY),
    (
        "the last serials, and a void that frees nothing",
        LAST_SERIALS,
    ),
];

#[test]
fn draws_and_voids_are_answered_as_worked_by_hand(rt: HostRuntime) {
    all_are_answered(&rt, DRAWS_AND_VOIDS);
    are_answered(
        &rt,
        "a full ledger repeats its kept replies",
        3,
        FULL_LEDGER,
    );
}

/// Ranges have no serial in common, and a draw gives only serials of the customer's own ranges.
const RANGES_APART: &'static [Step] = &[
    (0, 1, Grant(7, 10, 12), 20000, Granted(1)),
    (0, 2, Grant(8, 12, 15), 20000, Overlap),
    (0, 3, Grant(8, 8, 10), 20000, Overlap),
    (0, 4, Grant(8, 11, 11), 20000, Overlap),
    (0, 5, Grant(8, 9, 13), 20000, Overlap),
    (0, 6, Grant(8, 13, 13), 20000, Granted(2)),
    (0, 7, Grant(7, 8, 9), 20000, Granted(3)),
    (7, 1, Draw, 20000, Drawn(20000, 10)),
    (7, 2, Draw, 20000, Drawn(20000, 11)),
    (7, 3, Draw, 20000, Drawn(20000, 12)),
    (7, 4, Draw, 20000, Drawn(20000, 8)),
    (7, 5, Draw, 20000, Drawn(20000, 9)),
    (7, 6, Draw, 20000, NoneFree),
    (8, 1, Draw, 20000, Drawn(20000, 13)),
];

const GRANTS_AND_REFUSALS: &'static [(&'static str, &'static [Step])] = &[
    (
        "no two ranges have a serial in common, and a draw stays in its own",
        RANGES_APART,
    ),
    ("grants are refused in their order", REFUSED_GRANTS),
    ("who may draw, void and query what", WHO_MAY),
];

#[test]
fn grants_and_refusals_are_answered_as_worked_by_hand(rt: HostRuntime) {
    all_are_answered(&rt, GRANTS_AND_REFUSALS);
}

/// A sheet has all identifiers that were asked for, or none is issued.
const ALL_OR_NONE: &'static [Step] = &[
    OPENING,
    (7, 1, DrawMany(2), 20000, DrawnMany(20000, (0, 2), (0, 0))),
    (7, 1, DrawMany(2), 20001, DrawnMany(20000, (0, 2), (0, 0))),
    (7, 1, DrawMany(1), 20001, NumberReused),
    (7, 1, Draw, 20001, NumberReused),
    (7, 2, DrawMany(2), 20000, NoneFree),
    (7, 3, Draw, 20000, Drawn(20000, 2)),
    (7, 4, DrawMany(3), 20030, DrawnMany(20030, (0, 3), (0, 0))),
    (7, 5, DrawMany(1), 20030, NoneFree),
    (8, 1, DrawMany(1), 20030, NoRange),
    (8, 2, DrawMany(16), 20030, NoRange),
    (7, 6, Query(1), 20030, Told(Status::Issued { day: 20030 })),
    (7, 7, Void(1), 20030, Voided),
    (7, 8, DrawMany(1), 20059, NoneFree),
    (7, 9, DrawMany(1), 20060, DrawnMany(20060, (0, 1), (0, 0))),
];

/// A sheet continues in the customer's next range, and is refused if all ranges have too few.
const RANGE_AFTER_RANGE: &'static [Step] = &[
    OPENING,
    (0, 2, Grant(7, 4, 5), 20000, Granted(2)),
    (7, 9, DrawMany(6), 20000, NoneFree),
    (7, 1, DrawMany(5), 20000, DrawnMany(20000, (0, 3), (4, 6))),
    (7, 2, Draw, 20000, NoneFree),
];

/// A sheet of sixteen wraps from the last serial of its range to the first.
const SHEET_OF_SIXTEEN: &'static [Step] = &[
    (0, 1, Grant(7, 0, 15), 20000, Granted(1)),
    (7, 1, Draw, 20000, Drawn(20000, 0)),
    (7, 2, DrawMany(16), 20029, NoneFree),
    (7, 3, DrawMany(16), 20030, DrawnMany(20030, (1, 16), (0, 1))),
];

const SHEETS: &'static [(&'static str, &'static [Step])] = &[
    (
        "all that are asked for or none, and nothing is issued for none",
        ALL_OR_NONE,
    ),
    (
        "one range after the other, and no more than they have",
        RANGE_AFTER_RANGE,
    ),
    ("a sheet of sixteen wraps around", SHEET_OF_SIXTEEN),
];

#[test]
fn sheets_are_answered_as_worked_by_hand(rt: HostRuntime) {
    all_are_answered(&rt, SHEETS);
}
