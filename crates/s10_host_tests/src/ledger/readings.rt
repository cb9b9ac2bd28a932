//! Calls and usage that are read from rows.

use s10_book::{BookFault, PlainBook};
use s10_core::{Country, Serial, Service, pair_number};
use s10_history::{Range, Settings, Usage};
use s10_replay::{replay_row, usage_among};
use s10_rows::{CallRow, OpenFault, SerialRow};
use s10_test_help::datagrams::{DRAW, DRAWN, GRANTED};
use s10_test_help::expect::same;
use std::alloc::Global;
use std::process::Abort;

const RA_GB: i64 = 1380009794;

#[test]
fn pairs_are_four_letters_as_a_number(rt: HostRuntime) {
    let ra = Service::new(*b"RA").unwrap();
    let gb = Country::new(*b"GB").unwrap();
    assert!(rt; same(&rt, &"RA GB", &pair_number(ra, gb), &1380009794));
}

// Replays the row of customer 7's first Draw, with this day and this reply, as the second call of a
// ledger. Returns the result, or `None` if memory is refused.
fn replayed(alloc: Global, day: i64, reply: &[u8]) -> Option<Result<(), OpenFault>> {
    let Ok(grant) = Vec::from_slice(alloc, GRANTED) else {
        return None;
    };
    let first = CallRow::new(1, 0, 1, 20000, grant);
    let Ok(reply) = Vec::from_slice(alloc, reply) else {
        return None;
    };
    let rows = [first, CallRow::new(2, 7, 1, day, reply)];
    let mut book = PlainBook::new(alloc, Settings::new(30, 100).unwrap());
    for row in &rows {
        if let Err(fault) = replay_row(&mut book, row) {
            return Some(Err(fault));
        }
    }
    Some(Ok(()))
}

const LONG: &[u8] =
    b"S1\x01\x82\x00\x00\x00\x07\x00\x00\x00\x01RAGB\x00\x00\x00\x4e\x20RA000000005GB\x00";

/// The day and the reply of a row, and the result of its replay.
const ROWS: &[(i64, &[u8], Result<(), OpenFault>)] = &[
    (20000, DRAWN, Ok(())),
    (20000, LONG, Err(OpenFault::Damaged(2))),
    (20000, DRAW, Err(OpenFault::Damaged(2))),
    (-1, DRAWN, Err(OpenFault::Damaged(2))),
    (4294967296, DRAWN, Err(OpenFault::Damaged(2))),
];

#[test]
fn rows_that_cannot_be_decoded_are_damage(rt: HostRuntime) {
    for (day, reply, told) in ROWS {
        let found = replayed(rt.alloc(), *day, reply);
        assert!(rt; same(&rt, &(*day, reply.len()), &found, &Some(*told)));
    }
}

/// Serial 0, as customer 7 drew it first.
const FIRST: SerialRow = SerialRow {
    pair: RA_GB,
    serial: 0,
    arrival: 2,
    day: 20000,
    customer: 7,
    number: 1,
    voided: 0,
};

/// Serial 1, as customer 7 drew it first and voided it.
const VOIDED: SerialRow = SerialRow {
    pair: RA_GB,
    serial: 1,
    arrival: 3,
    day: 20000,
    customer: 7,
    number: 2,
    voided: 1,
};

/// Serial 0, as customer 7 drew it again on day 20030.
const FIRST_AGAIN: SerialRow = SerialRow {
    pair: RA_GB,
    serial: 0,
    arrival: 8,
    day: 20030,
    customer: 7,
    number: 7,
    voided: 0,
};

/// Serial 1, as customer 7 drew it again on day 20030.
const SECOND_AGAIN: SerialRow = SerialRow {
    pair: RA_GB,
    serial: 1,
    arrival: 9,
    day: 20030,
    customer: 7,
    number: 8,
    voided: 0,
};

/// Serial 2, drawn once.
const THIRD: SerialRow = SerialRow {
    pair: RA_GB,
    serial: 2,
    arrival: 6,
    day: 20000,
    customer: 7,
    number: 5,
    voided: 0,
};

/// Rows of the range RA GB 0 to 2, a day, and the usage of the range: after three draws, one of
/// them voided; after two more, 30 days later; and without a row.
const USED: &[(&[SerialRow], u32, Result<Usage, BookFault>)] = &[
    (
        &[FIRST, VOIDED, THIRD],
        20000,
        Ok(Usage {
            used: 3,
            voided: 1,
            free: 0,
        }),
    ),
    (
        &[FIRST_AGAIN, SECOND_AGAIN, THIRD],
        20030,
        Ok(Usage {
            used: 3,
            voided: 0,
            free: 1,
        }),
    ),
    (
        &[],
        20000,
        Ok(Usage {
            used: 0,
            voided: 0,
            free: 3,
        }),
    ),
];

#[test]
fn usage_is_counted_from_the_rows(rt: HostRuntime) {
    let range = Range {
        num: 1,
        holder: 7,
        service: Service::new(*b"RA").unwrap(),
        country: Country::new(*b"GB").unwrap(),
        first: Serial::new(0).unwrap(),
        last: Serial::new(2).unwrap(),
    };
    for (rows, day, usage) in USED {
        let found = usage_among(rows, &range, *day, 30);
        assert!(rt; same(&rt, &(rows.len(), *day), &found, usage));
    }
}
