//! Days of calls, and the reuse interval of a serial.

use crate::ends::scripts::{Part, is_played};
use s10_test_help::deliveries::Want::Reply;
use s10_test_help::deliveries::{DRAW, GRANT};

/// Three serials are drawn on day 20000. None is free 29 days later, and the first is drawn again
/// 30 days later.
const INTERVAL: &'static [Part] = &[(
    &[
        GRANT,
        DRAW,
        (
            20000,
            b"S1\x01\x02\0\0\0\x07\0\0\0\x02RAGB",
            Reply(b"S1\x01\x82\0\0\0\x07\0\0\0\x02RAGB\0\0\0\x4e\x20RA000000014GB"),
        ),
        (
            20000,
            b"S1\x01\x02\0\0\0\x07\0\0\0\x03RAGB",
            Reply(b"S1\x01\x82\0\0\0\x07\0\0\0\x03RAGB\0\0\0\x4e\x20RA000000028GB"),
        ),
        (
            20029,
            b"S1\x01\x02\0\0\0\x07\0\0\0\x04RAGB",
            Reply(b"S1\x01\x82\0\0\0\x07\0\0\0\x04RAGB\x05"),
        ),
        (
            20030,
            b"S1\x01\x02\0\0\0\x07\0\0\0\x05RAGB",
            Reply(b"S1\x01\x82\0\0\0\x07\0\0\0\x05RAGB\0\0\0\x4e\x3eRA000000005GB"),
        ),
    ],
    6,
    20030,
)];

#[test]
fn interval_ends_on_the_thirtieth_day(rt: HostRuntime) {
    assert!(rt; is_played(rt.alloc(), 100, INTERVAL));
}

/// A call arrives with an earlier day than the one before it.
const FALLING: &'static [Part] = &[(
    &[
        GRANT,
        (
            20010,
            b"S1\x01\x02\0\0\0\x07\0\0\0\x01RAGB",
            Reply(b"S1\x01\x82\0\0\0\x07\0\0\0\x01RAGB\0\0\0\x4e\x2aRA000000005GB"),
        ),
        (
            19000,
            b"S1\x01\x02\0\0\0\x07\0\0\0\x02RAGB",
            Reply(b"S1\x01\x82\0\0\0\x07\0\0\0\x02RAGB\0\0\0\x4e\x2aRA000000014GB"),
        ),
    ],
    3,
    20010,
)];

#[test]
fn days_that_fall_are_raised_to_the_latest(rt: HostRuntime) {
    assert!(rt; is_played(rt.alloc(), 100, FALLING));
}

/// A serial is drawn, voided, and drawn again when its interval has ended.
const VOIDED: &'static [Part] = &[
    (
        &[
            GRANT,
            DRAW,
            (
                20000,
                b"S1\x01\x02\0\0\0\x07\0\0\0\x02RAGB",
                Reply(b"S1\x01\x82\0\0\0\x07\0\0\0\x02RAGB\0\0\0\x4e\x20RA000000014GB"),
            ),
            (
                20000,
                b"S1\x01\x03\0\0\0\x07\0\0\0\x03RA000000014GB",
                Reply(b"S1\x01\x83\0\0\0\x07\0\0\0\x03RA000000014GB\0"),
            ),
            (
                20000,
                b"S1\x01\x03\0\0\0\x07\0\0\0\x03RA000000014GB",
                Reply(b"S1\x01\x83\0\0\0\x07\0\0\0\x03RA000000014GB\0"),
            ),
            (
                20000,
                b"S1\x01\x03\0\0\0\x07\0\0\0\x04RA000000014GB",
                Reply(b"S1\x01\x83\0\0\0\x07\0\0\0\x04RA000000014GB\x08"),
            ),
            (
                20000,
                b"S1\x01\x02\0\0\0\x07\0\0\0\x05RAGB",
                Reply(b"S1\x01\x82\0\0\0\x07\0\0\0\x05RAGB\0\0\0\x4e\x20RA000000028GB"),
            ),
            (
                20000,
                b"S1\x01\x02\0\0\0\x07\0\0\0\x06RAGB",
                Reply(b"S1\x01\x82\0\0\0\x07\0\0\0\x06RAGB\x05"),
            ),
            (
                20030,
                b"S1\x01\x02\0\0\0\x07\0\0\0\x07RAGB",
                Reply(b"S1\x01\x82\0\0\0\x07\0\0\0\x07RAGB\0\0\0\x4e\x3eRA000000005GB"),
            ),
            (
                20030,
                b"S1\x01\x02\0\0\0\x07\0\0\0\x08RAGB",
                Reply(b"S1\x01\x82\0\0\0\x07\0\0\0\x08RAGB\0\0\0\x4e\x3eRA000000014GB"),
            ),
        ],
        9,
        20030,
    ),
    (
        &[(
            20030,
            b"S1\x01\x04\0\0\0\x07\0\0\0\x09RA000000014GB",
            Reply(b"S1\x01\x84\0\0\0\x07\0\0\0\x09RA000000014GB\0\x02\0\0\x4e\x3e"),
        )],
        10,
        20030,
    ),
];

#[test]
fn void_frees_nothing_before_the_interval_ends(rt: HostRuntime) {
    assert!(rt; is_played(rt.alloc(), 100, VOIDED));
}
