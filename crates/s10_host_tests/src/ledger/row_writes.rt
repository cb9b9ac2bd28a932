//! The rows that calls write.

use s10_core::{Country, Id, Serial, Service};
use s10_history::{Entry, Issuance, Range};
use s10_replay::{grant_write, issue_writes, void_write};
use s10_rows::{ClosedRow, PriorIssue, RangeRow, RangeWrite, SerialRow, SerialWrite};
use s10_test_help::expect::same;
use s10_wire::{Body, Outcome, Request};
use std::process::Abort;

const RA_GB: i64 = 1380009794;

/// Returns the serial of this value, or the last serial for greater values.
fn serial(value: u32) -> Serial {
    Serial::new(value.min(99_999_999)).unwrap()
}

/// Returns range 1: RA GB 0 to 2 of customer 7.
fn first_range() -> Range {
    Range {
        num: 1,
        holder: 7,
        service: Service::new(*b"RA").unwrap(),
        country: Country::new(*b"GB").unwrap(),
        first: serial(0),
        last: serial(2),
    }
}

/// The row of that range before it has given a serial.
const NEW_RANGE: RangeRow = RangeRow {
    num: 1,
    holder: 7,
    pair: RA_GB,
    low: 0,
    high: 2,
    mark: 0,
};

/// Returns an issuance of a serial of that range to customer 7.
fn issuance(range: &Range, value: u32, arrival: u32, day: u32, number: u32) -> Issuance {
    Issuance {
        id: Id {
            service: range.service,
            serial: serial(value),
            country: range.country,
        },
        day,
        customer: 7,
        number,
        arrival,
    }
}

#[test]
fn new_range_gives_its_first_serial_next(rt: HostRuntime) {
    let range = first_range();
    let grant = Entry {
        request: Request {
            customer: 0,
            number: 1,
            body: Body::Grant {
                holder: 7,
                service: range.service,
                country: range.country,
                first: range.first,
                last: range.last,
            },
        },
        day: 20000,
        outcome: Outcome::Granted { range: 1 },
    };
    let made = Some(RangeWrite::New(NEW_RANGE));
    assert!(rt; same(&rt, &"range 1", &grant_write(&grant), &made));
}

#[test]
fn only_a_done_withdraw_writes_a_closed_row(rt: HostRuntime) {
    let rows = [
        (Outcome::Withdrawn, Some(ClosedRow { num: 1, arrival: 3 })),
        (Outcome::NotThePost, None),
        (Outcome::NoSuchRange, None),
        (Outcome::Closed, None),
    ];
    for (outcome, row) in &rows {
        let withdraw = Entry {
            request: Request {
                customer: 0,
                number: 2,
                body: Body::Withdraw { range: 1 },
            },
            day: 20000,
            outcome: *outcome,
        };
        assert!(rt; same(&rt, outcome, &ClosedRow::made_by(3, &withdraw), row));
    }
}

/// Each drawn serial, its arrival, day and request number, and the mark after it.
const DRAWN: &[(u32, u32, u32, u32, i64)] = &[
    (0, 2, 20000, 1, 1),
    (1, 3, 20000, 2, 2),
    (2, 6, 20000, 5, 0),
    (0, 8, 20030, 7, 1),
    (1, 9, 20030, 8, 2),
];

#[test]
fn mark_advances_by_one_and_wraps_after_the_last(rt: HostRuntime) {
    let range = first_range();
    for (value, arrival, day, number, mark) in DRAWN {
        let issuance = issuance(&range, *value, *arrival, *day, *number);
        let next = range.serial_after(serial(*value), 1);
        let row = SerialRow {
            pair: RA_GB,
            serial: i64::from(*value),
            arrival: i64::from(*arrival),
            day: i64::from(*day),
            customer: 7,
            number: i64::from(*number),
            voided: 0,
        };
        let marked = RangeWrite::Mark {
            num: 1,
            mark: *mark,
        };
        let found = (
            issue_writes(1, next, PriorIssue::Never, &issuance),
            issue_writes(1, next, PriorIssue::Before, &issuance),
        );
        let wanted = (
            (marked, SerialWrite::New(row)),
            (marked, SerialWrite::Again(row)),
        );
        assert!(rt; same(&rt, arrival, &found, &wanted));
    }
}

#[test]
fn void_keeps_the_row_and_marks_it_as_voided(rt: HostRuntime) {
    let issuance = issuance(&first_range(), 1, 3, 20000, 2);
    let write = SerialWrite::Again(SerialRow {
        pair: RA_GB,
        serial: 1,
        arrival: 3,
        day: 20000,
        customer: 7,
        number: 2,
        voided: 1,
    });
    assert!(rt; same(&rt, &"voided", &void_write(&issuance), &write));
}
