//! A ledger with a sheet, created by statements, and what an opening finds if a row of it is
//! damaged.

use crate::ledger::tables::{
    CALLS_TABLE, CLOSED_TABLE, Change, HEAD, HEAD_TABLE, RANGES_TABLE, SERIALS_TABLE, are_found,
};
use s10_ledger::OpenFault;

/// The post grants RA GB 0 to 2 and 4 to 5 to customer 7, who draws a sheet of five.
const THREE_REPLIES: &str = "INSERT INTO calls (arrival, customer, number, day, reply) VALUES
(1, 0, 1, 20000, x'533101810000000000000001000000075241474200000000000000020000000001'),
(2, 0, 2, 20000, x'533101810000000000000002000000075241474200000004000000050000000002'),
(3, 7, 1, 20000, x'53310285000000070000000152414742050000004e205241303030303030303035474252413030303030303031344742524130303030303030323847425241303030303030303435474252413030303030303035394742');";

/// Both ranges have given their last serial, and give their first one next.
const TWO_RANGES: &str = "INSERT INTO ranges (num, holder, pair, low, high, mark) VALUES
(1, 7, 1380009794, 0, 2, 0),
(2, 7, 1380009794, 4, 5, 4);";

const FIVE_SERIALS: &str =
    "INSERT INTO serials (pair, serial, arrival, day, customer, number, voided) VALUES
(1380009794, 0, 3, 20000, 7, 1, 0),
(1380009794, 1, 3, 20000, 7, 1, 0),
(1380009794, 2, 3, 20000, 7, 1, 0),
(1380009794, 4, 3, 20000, 7, 1, 0),
(1380009794, 5, 3, 20000, 7, 1, 0);";

const SHEET_LEDGER: &[&str] = &[
    HEAD_TABLE,
    CALLS_TABLE,
    RANGES_TABLE,
    SERIALS_TABLE,
    CLOSED_TABLE,
    HEAD,
    THREE_REPLIES,
    TWO_RANGES,
    FIVE_SERIALS,
];

#[test]
fn a_ledger_with_a_sheet_opens(rt: HostRuntime) {
    are_found(&rt, SHEET_LEDGER, &[("", Ok((30, 100, 3, 20000)))]);
}

/// A damage, and what is found after it.
const DAMAGES: &[Change] = &[
    (
        "UPDATE serials SET day = 20001 WHERE serial = 0",
        Err(OpenFault::Damaged(0)),
    ),
    (
        "UPDATE serials SET arrival = 2 WHERE serial = 1",
        Err(OpenFault::Damaged(0)),
    ),
    (
        "UPDATE serials SET number = 2 WHERE serial = 2",
        Err(OpenFault::Damaged(0)),
    ),
    (
        "UPDATE serials SET voided = 1 WHERE serial = 4",
        Err(OpenFault::Damaged(0)),
    ),
    (
        "UPDATE serials SET customer = 8 WHERE serial = 5",
        Err(OpenFault::Damaged(0)),
    ),
    (
        "DELETE FROM serials WHERE serial = 4",
        Err(OpenFault::Damaged(0)),
    ),
    (
        "UPDATE ranges SET mark = 1 WHERE num = 1",
        Err(OpenFault::Damaged(0)),
    ),
    (
        "UPDATE ranges SET mark = 5 WHERE num = 2",
        Err(OpenFault::Damaged(0)),
    ),
    (
        "UPDATE calls SET reply = x'53310285000000070000000152414742050000004e205241303030303030303134474252413030303030303030354742524130303030303030323847425241303030303030303435474252413030303030303035394742' WHERE arrival = 3",
        Err(OpenFault::Damaged(3)),
    ),
    (
        "UPDATE calls SET reply = x'533102850000000700000001524147420505' WHERE arrival = 3",
        Err(OpenFault::Damaged(3)),
    ),
    (
        "DELETE FROM calls WHERE arrival = 3",
        Err(OpenFault::Damaged(0)),
    ),
];

#[test]
fn each_row_of_a_sheet_is_compared(rt: HostRuntime) {
    are_found(&rt, SHEET_LEDGER, DAMAGES);
}
