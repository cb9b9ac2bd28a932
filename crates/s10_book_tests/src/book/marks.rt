//! Marks of ranges.

use crate::book::granted::{all_granted, draw, serial, withdraw};
use s10_ranges::{Lap, Mark, Ranges};
use s10_test_help::expect::same;
use s10_wire::Outcome;
use std::process::Abort;

fn has_mark(rt: &(impl Abort + Eprint), ranges: &Ranges, num: u32, mark: u32, lap: Lap) {
    let mark = Mark {
        serial: serial(rt, mark),
        lap,
    };
    assert!(rt; same(rt, &num, &ranges.mark(num), &Some(mark)));
}

/// Asserts the mark of each range, all in their first lap.
fn have_marks(rt: &(impl Abort + Eprint), ranges: &Ranges, marks: &[(u32, u32)]) {
    for (num, mark) in marks {
        has_mark(rt, ranges, *num, *mark, Lap::First);
    }
}

/// The number of each range, and its first serial.
const FIRST: &[(u32, u32)] = &[(1, 50), (2, 10), (3, 30), (4, 90), (5, 0), (6, 20), (7, 10)];

#[test]
fn new_range_is_marked_at_its_first_serial(rt: HostRuntime) {
    let ranges = all_granted(&rt);
    have_marks(&rt, &ranges, FIRST);
    assert!(rt; ranges.mark(0).is_none());
    assert!(rt; ranges.mark(8).is_none());
}

/// Each drawn serial, the number of its range, and the mark and lap after it. After the last serial
/// the mark is the first serial, and the range stays in the later lap.
const DRAWN: &[(u32, u32, u32, Lap)] = &[
    (10, 2, 11, Lap::First),
    (18, 2, 19, Lap::First),
    (19, 2, 10, Lap::Later),
    (10, 2, 11, Lap::Later),
    (30, 3, 30, Lap::Later),
    (30, 3, 30, Lap::Later),
    (50, 1, 51, Lap::First),
    (0, 5, 0, Lap::Later),
    (19, 2, 10, Lap::Later),
];

#[test]
fn mark_is_one_after_the_drawn_serial(rt: HostRuntime) {
    let mut ranges = all_granted(&rt);
    for (value, num, mark, lap) in DRAWN {
        draw(&rt, &mut ranges, *value);
        has_mark(&rt, &ranges, *num, *mark, *lap);
    }
    have_marks(&rt, &ranges, &[(4, 90), (6, 20), (7, 10)]);
}

#[test]
fn draw_of_a_serial_in_no_range_sets_no_mark(rt: HostRuntime) {
    let mut ranges = all_granted(&rt);
    draw(&rt, &mut ranges, 40);
    have_marks(&rt, &ranges, FIRST);
}

/// The marks after one serial of range 2 was drawn.
const ONE_DRAWN: &[(u32, u32)] = &[(1, 50), (2, 11), (3, 30), (4, 90), (5, 0), (6, 20), (7, 10)];

#[test]
fn closed_range_keeps_its_mark(rt: HostRuntime) {
    let mut ranges = all_granted(&rt);
    draw(&rt, &mut ranges, 10);
    withdraw(&rt, &mut ranges, 2, Outcome::Withdrawn);
    have_marks(&rt, &ranges, ONE_DRAWN);
}
