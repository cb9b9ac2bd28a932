//! What an opening finds in the rows of a ledger's tables.

use crate::ledger::tables::{
    Change, NINE_CALLS, NINE_FOUND, NINE_WITHOUT_SERIALS, NO_LEDGER, THREE_SERIALS, TURNED_SERIALS,
    are_found,
};
use s10_ledger::OpenFault;

/// The serials of the nine calls, in one order and in another.
const SERIALS: &[Change] = &[(THREE_SERIALS, NINE_FOUND), (TURNED_SERIALS, NINE_FOUND)];

#[test]
fn nine_calls_are_a_ledger(rt: HostRuntime) {
    are_found(&rt, NINE_WITHOUT_SERIALS, SERIALS);
}

/// A change of a call, and what is found after it.
const CALLS: &[Change] = &[
    (
        "UPDATE calls SET customer = 8 WHERE arrival = 4",
        Err(OpenFault::Damaged(4)),
    ),
    (
        "UPDATE calls SET day = 19999 WHERE arrival = 6",
        Err(OpenFault::Damaged(6)),
    ),
    (
        "UPDATE calls SET day = 20029 WHERE arrival = 8",
        Err(OpenFault::Damaged(8)),
    ),
    (
        "UPDATE calls SET day = 20029 WHERE arrival = 9",
        Err(OpenFault::Damaged(9)),
    ),
    (
        "UPDATE calls SET arrival = 10 WHERE arrival = 9",
        Err(OpenFault::Damaged(9)),
    ),
];

#[test]
fn first_wrong_call_is_named(rt: HostRuntime) {
    are_found(&rt, NINE_CALLS, CALLS);
}

/// A change of the head, and what is found after it.
const HEADS: &[Change] = &[
    ("UPDATE head SET interval = 31", Err(OpenFault::Damaged(8))),
    ("UPDATE head SET cap = 8", Err(OpenFault::Damaged(9))),
    ("UPDATE head SET schema = 2", Err(OpenFault::Schema(2))),
    ("UPDATE head SET interval = 0", NO_LEDGER),
    ("DELETE FROM head", NO_LEDGER),
];

#[test]
fn calls_are_checked_under_the_settings_of_the_head(rt: HostRuntime) {
    are_found(&rt, NINE_CALLS, HEADS);
}

/// A change of the other tables, and what is found after it.
const OTHERS: &[Change] = &[
    ("UPDATE ranges SET high = 3", Err(OpenFault::Damaged(0))),
    ("UPDATE ranges SET mark = 0", Err(OpenFault::Damaged(0))),
    ("UPDATE ranges SET num = 2", Err(OpenFault::Damaged(0))),
    ("UPDATE ranges SET num = 0", Err(OpenFault::Damaged(0))),
    ("DELETE FROM ranges", Err(OpenFault::Damaged(0))),
    (
        "INSERT INTO ranges (num, holder, pair, low, high, mark) VALUES (2, 7, 1380009794, 3, 4, 3)",
        Err(OpenFault::Damaged(0)),
    ),
    (
        "INSERT INTO ranges (num, holder, pair, low, high, mark) VALUES (-1, 7, 1380009794, 3, 4, 3)",
        Err(OpenFault::Damaged(0)),
    ),
    (
        "UPDATE serials SET voided = 1 WHERE serial = 1",
        Err(OpenFault::Damaged(0)),
    ),
    (
        "DELETE FROM serials WHERE serial = 2",
        Err(OpenFault::Damaged(0)),
    ),
    (
        "INSERT INTO serials (pair, serial, arrival, day, customer, number, voided) VALUES (1380009794, 3, 6, 20000, 7, 5, 0)",
        Err(OpenFault::Damaged(0)),
    ),
];

#[test]
fn stored_rows_that_differ_from_the_derived_ones_are_damage(rt: HostRuntime) {
    are_found(&rt, NINE_CALLS, OTHERS);
}
