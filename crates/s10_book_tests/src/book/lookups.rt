//! Look-ups of ranges.

use crate::book::granted::{
    Granted, all_granted, country, grant, numbered, range, serial, service, withdraw,
};
use s10_ranges::{HashSeed, Ranges};
use s10_test_help::expect::same;
use s10_wire::Outcome;
use std::process::Abort;

/// Asserts that the numbers 1 to 7 give the ranges that were granted, and 0 and 8 give none.
fn are_numbered(rt: &(impl Abort + Eprint), ranges: &Ranges) {
    for num in 0..9u32 {
        assert!(rt; same(rt, &num, &ranges.range_by_number(num), &numbered(rt, num)));
    }
}

/// Asserts that the next open range of RA GB of the customer after `after` is range `want`, 0 for
/// none.
fn has_next(rt: &(impl Abort + Eprint), ranges: &Ranges, customer: u32, after: u32, want: u32) {
    let ra = service(rt, *b"RA");
    let gb = country(rt, *b"GB");
    let found = ranges.next_open_range(customer, ra, gb, after);
    assert!(rt; same(rt, &(customer, after), &found, &numbered(rt, want)));
}

/// Asserts it for each row: customer, number after which to look, and expected number.
fn have_next(rt: &(impl Abort + Eprint), ranges: &Ranges, wanted: &[(u32, u32, u32)]) {
    for (customer, after, want) in wanted {
        has_next(rt, ranges, *customer, *after, *want);
    }
}

/// Asserts that the range of least number with a serial from `first` to `last` is range `want`, 0
/// for none.
fn has_covering(
    rt: &(impl Abort + Eprint),
    ranges: &Ranges,
    letters: [u8; 2],
    code: [u8; 2],
    first: u32,
    last: u32,
    want: u32,
) {
    let service = service(rt, letters);
    let country = country(rt, code);
    let found = ranges.covering_range(service, country, serial(rt, first), serial(rt, last));
    assert!(rt; same(rt, &(first, last), &found, &numbered(rt, want)));
}

#[test]
fn ranges_are_found_by_number(rt: HostRuntime) {
    are_numbered(&rt, &all_granted(&rt));
}

/// Customer, number after which to look, and number of the next range, 0 for none.
const NEXT: &[(u32, u32, u32)] = &[
    (7, 0, 2),
    (7, 1, 2),
    (7, 2, 4),
    (7, 4, 0),
    (8, 0, 1),
    (8, 1, 3),
    (8, 3, 6),
    (8, 6, 0),
    (9, 0, 5),
    (9, 5, 0),
    (6, 0, 0),
    (7, 4_294_967_295, 0),
];

#[test]
fn ranges_of_a_holder_are_found_in_order_of_their_numbers(rt: HostRuntime) {
    have_next(&rt, &all_granted(&rt), NEXT);
}

/// Returns the seven ranges after ranges 3, 2 and 5 were withdrawn. A refused Withdraw closes none.
fn three_closed<R: Abort + AllocGlobal>(rt: &R) -> Ranges {
    let mut ranges = all_granted(rt);
    withdraw(rt, &mut ranges, 3, Outcome::Withdrawn);
    withdraw(rt, &mut ranges, 2, Outcome::Withdrawn);
    withdraw(rt, &mut ranges, 2, Outcome::Closed);
    withdraw(rt, &mut ranges, 1, Outcome::NotThePost);
    withdraw(rt, &mut ranges, 8, Outcome::NoSuchRange);
    withdraw(rt, &mut ranges, 5, Outcome::Withdrawn);
    ranges
}

/// Asserts that only ranges 2, 3 and 5 are closed.
fn are_closed(rt: &(impl Abort + Eprint), ranges: &Ranges) {
    for num in 0..9u32 {
        let is_closed = num == 2 || num == 3 || num == 5;
        assert!(rt; same(rt, &num, &ranges.is_closed(num), &is_closed));
    }
}

#[test]
fn closed_ranges_are_found_by_number_and_by_serials(rt: HostRuntime) {
    let ranges = three_closed(&rt);
    are_numbered(&rt, &ranges);
    are_closed(&rt, &ranges);
    are_covering(&rt, &ranges);
}

/// Customer, number after which to look, and number of the next open range, 0 for none.
const NEXT_OPEN: &[(u32, u32, u32)] = &[
    (7, 0, 4),
    (7, 1, 4),
    (7, 2, 4),
    (7, 4, 0),
    (8, 0, 1),
    (8, 1, 6),
    (8, 3, 6),
    (8, 6, 0),
    (9, 0, 0),
    (6, 0, 0),
];

#[test]
fn only_open_ranges_are_found_by_holder(rt: HostRuntime) {
    have_next(&rt, &three_closed(&rt), NEXT_OPEN);
}

/// First and last serial to look for, and number of the range, 0 for none.
const COVERING: &[(u32, u32, u32)] = &[
    (10, 10, 2),
    (19, 19, 2),
    (9, 9, 0),
    (20, 20, 6),
    (30, 30, 3),
    (31, 49, 0),
    (31, 50, 1),
    (60, 89, 0),
    (0, 0, 5),
    (99, 99, 4),
    (100, 99_999_999, 0),
    (0, 99_999_999, 1),
    (15, 35, 2),
    (25, 55, 1),
    (20, 35, 3),
    (29, 19, 0),
];

/// Asserts that the ranges of RA GB are found by their serials, as `COVERING` says.
fn are_covering(rt: &(impl Abort + Eprint), ranges: &Ranges) {
    for (first, last, want) in COVERING {
        has_covering(rt, ranges, *b"RA", *b"GB", *first, *last, *want);
    }
}

#[test]
fn the_range_of_least_number_covering_a_span_is_found(rt: HostRuntime) {
    are_covering(&rt, &all_granted(&rt));
}

#[test]
fn ranges_of_another_service_or_country_are_not_found(rt: HostRuntime) {
    let ranges = all_granted(&rt);
    has_covering(&rt, &ranges, *b"RB", *b"GB", 0, 99, 7);
    has_covering(&rt, &ranges, *b"RC", *b"GB", 0, 99, 0);
    has_covering(&rt, &ranges, *b"RA", *b"US", 0, 99, 0);
}

#[test]
fn no_range_is_found_without_ranges(rt: HostRuntime) {
    let ranges = Ranges::new(rt.alloc(), HashSeed::fixed());
    assert!(rt; ranges.range_by_number(1).is_none());
    assert!(rt; !ranges.is_closed(1));
    has_next(&rt, &ranges, 7, 0, 0);
    has_covering(&rt, &ranges, *b"RA", *b"GB", 0, 99_999_999, 0);
}

/// Asserts that after this Grant there is no range 8.
fn is_left_out<R: Abort + Eprint + AllocGlobal>(rt: &R, num: u32, granted: Granted) {
    let mut ranges = all_granted(rt);
    grant(rt, &mut ranges, &range(rt, num, granted));
    assert!(rt; same(rt, &granted, &ranges.range_by_number(8), &None));
}

// A Grant that overlaps, one whose number is not the next, and one whose last serial is below its
// first.
#[test]
fn ranges_that_no_ledger_grants_are_left_out(rt: HostRuntime) {
    is_left_out(&rt, 8, (7, *b"RA", 29, 31));
    is_left_out(&rt, 9, (7, *b"RA", 31, 40));
    is_left_out(&rt, 8, (7, *b"RA", 40, 31));
}

/// How many ranges are granted so that each order of them has several blocks.
const MANY: u32 = 2_000;

/// Returns the serial of range `num` of `MANY`: all serials below `MANY`, in an order that `step`
/// gives. 1 gives an ascending order, `MANY - 1` a descending one.
fn serial_of(num: u32, step: u32) -> u32 {
    num.wrapping_mul(step) % MANY
}

/// Returns the ranges after `MANY` grants of a serial each, to customers 7 and 8 in turn.
fn many_granted<R: Abort + AllocGlobal>(rt: &R, step: u32) -> Ranges {
    let mut ranges = Ranges::new(rt.alloc(), HashSeed::fixed());
    for num in 1..MANY + 1 {
        let value = serial_of(num, step);
        let granted = (7 + num % 2, *b"RA", value, value);
        grant(rt, &mut ranges, &range(rt, num, granted));
    }
    ranges
}

/// Returns the least number of a range with a serial from `first` to `last`, by trying each.
fn least_with(step: u32, first: u32, last: u32) -> Option<u32> {
    for num in 1..MANY + 1 {
        let value = serial_of(num, step);
        if first <= value && value <= last {
            return Some(num);
        }
    }
    None
}

/// First and last serial: of one range, of some within a block, and of several blocks.
const SPANS: &[(u32, u32)] = &[
    (0, 0),
    (1_999, 1_999),
    (255, 257),
    (511, 513),
    (300, 900),
    (100, 1_500),
    (700, 5_000),
    (0, 1_999),
    (2_000, 2_001),
];

/// Asserts that the least number of each span is found.
fn have_least(rt: &(impl Abort + Eprint), ranges: &Ranges, step: u32) {
    let ra = service(rt, *b"RA");
    let gb = country(rt, *b"GB");
    for (first, last) in SPANS {
        let found = ranges.covering_range(ra, gb, serial(rt, *first), serial(rt, *last));
        let num = found.map(|range| range.num);
        assert!(rt;
            same(
                rt,
                &(step, *first, *last),
                &num,
                &least_with(step, *first, *last)
            )
        );
    }
}

/// Asserts that the ranges of customer 7 are every second one, in order of their numbers.
fn are_every_second(rt: &(impl Abort + Eprint), ranges: &Ranges, step: u32) {
    let ra = service(rt, *b"RA");
    let gb = country(rt, *b"GB");
    let mut after = 0u32;
    for num in 1..MANY + 1 {
        if num % 2 == 0 {
            let found = ranges.next_open_range(7, ra, gb, after);
            after = found.map_or(0, |range| range.num);
            assert!(rt; same(rt, &(step, num), &after, &num));
        }
    }
    assert!(rt; ranges.next_open_range(7, ra, gb, after).is_none());
}

/// Asserts both for `MANY` ranges whose serials are in the order of the step.
fn are_found_in_blocks<R: Abort + Eprint + AllocGlobal>(rt: &R, step: u32) {
    let ranges = many_granted(rt, step);
    have_least(rt, &ranges, step);
    are_every_second(rt, &ranges, step);
}

// Serials in ascending, descending and mixed order.
#[test]
fn ranges_granted_in_any_order_are_found(rt: HostRuntime) {
    are_found_in_blocks(&rt, 1);
    are_found_in_blocks(&rt, MANY - 1);
    are_found_in_blocks(&rt, 777);
}
