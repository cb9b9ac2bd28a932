//! The dates of days. Those up to year 9999 are Python's.

use s10_dates::{Date, date_of};
use s10_test_help::expect::same;
use std::process::Abort;

/// A day, and the year, month and day of its date.
type Row = (u32, (u32, u8, u8));

const DATES: &[Row] = &[
    (0, (1970, 1, 1)),
    (30, (1970, 1, 31)),
    (31, (1970, 2, 1)),
    (58, (1970, 2, 28)),
    (59, (1970, 3, 1)),
    (119, (1970, 4, 30)),
    (120, (1970, 5, 1)),
    (364, (1970, 12, 31)),
    (365, (1971, 1, 1)),
    (788, (1972, 2, 28)),
    (789, (1972, 2, 29)),
    (790, (1972, 3, 1)),
    (1095, (1972, 12, 31)),
    (10_956, (1999, 12, 31)),
    (11_016, (2000, 2, 29)),
    (11_017, (2000, 3, 1)),
    (20_000, (2024, 10, 4)),
    (20_027, (2024, 10, 31)),
    (20_028, (2024, 11, 1)),
    (47_540, (2100, 2, 28)),
    (47_541, (2100, 3, 1)),
    (146_096, (2369, 12, 31)),
    (146_097, (2370, 1, 1)),
    (157_113, (2400, 2, 29)),
    (2_932_896, (9999, 12, 31)),
    (4_294_967_295, (11_761_191, 1, 20)),
];

fn has_date<R: Abort + Eprint + AllocGlobal>(rt: &R, row: &Row) {
    let (number, (year, month, day)) = *row;
    assert!(rt; same(rt, &number, &date_of(number), &Date { year, month, day }));
}

#[test]
fn days_have_the_dates_of_the_calendar(rt: HostRuntime) {
    for row in DATES {
        has_date(&rt, row);
    }
}
