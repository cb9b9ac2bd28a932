//! The size of a range, and its serials in order.

use s10_history::Range;
use s10_test_help::expect::same;
use s10_test_help::samples::{gb, ra, serial};

fn range(first: u32, last: u32) -> Range {
    Range {
        num: 1,
        holder: 7,
        service: ra(),
        country: gb(),
        first: serial(first),
        last: serial(last),
    }
}

/// Returns the serial `count` after `from`, if `from` is in the range and `count` is below its
/// size.
fn serial_after(first: u32, last: u32, from: u32, count: u8) -> Option<u32> {
    let range = range(first, last);
    let from = serial(from);
    let is_own = range.first.value() <= from.value() && from.value() <= range.last.value();
    if is_own && u32::from(count) < range.size() {
        Some(range.serial_after(from, count).value())
    } else {
        None
    }
}

/// First and last serial of a range, and its size.
const SIZES: &[(u32, u32, u32)] = &[
    (5, 5, 1),
    (4, 6, 3),
    (0, 99_999_999, 100_000_000),
    (99_999_999, 99_999_999, 1),
];

#[test]
fn a_range_has_its_last_serial_too(rt: HostRuntime) {
    for (first, last, size) in SIZES {
        assert!(rt; same(&rt, &(first, last), &range(*first, *last).size(), size));
    }
}

/// First and last serial of a range, one of its serials, `count`, and the serial `count` after it.
const AFTER: &[(u32, u32, u32, u8, u32)] = &[
    (5, 5, 5, 0, 5),
    (4, 6, 4, 0, 4),
    (4, 6, 4, 1, 5),
    (4, 6, 4, 2, 6),
    (4, 6, 5, 2, 4),
    (4, 6, 6, 0, 6),
    (4, 6, 6, 1, 4),
    (4, 6, 6, 2, 5),
    (0, 255, 0, 255, 255),
    (0, 255, 1, 255, 0),
    (0, 255, 255, 255, 254),
    (0, 99_999_999, 99_999_998, 1, 99_999_999),
    (0, 99_999_999, 99_999_999, 1, 0),
    (0, 99_999_999, 99_999_999, 255, 254),
];

#[test]
fn after_its_last_serial_a_range_gives_its_first(rt: HostRuntime) {
    for (first, last, from, count, serial) in AFTER {
        let found = serial_after(*first, *last, *from, *count);
        assert!(rt; same(&rt, &(first, last, from, count), &found, &Some(*serial)));
    }
}
