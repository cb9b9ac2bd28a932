//! Datagrams that arrive again.

use crate::ends::scripts::{Part, is_played};
use s10_test_help::deliveries::Want::{Dropped, Reply};
use s10_test_help::deliveries::{DRAW, Delivered, GRANT};
use s10_wire::WireFault;

/// The first Draw, on a later day.
const LATE_DRAW: Delivered = (
    20400,
    b"S1\x01\x02\0\0\0\x07\0\0\0\x01RAGB",
    Reply(b"S1\x01\x82\0\0\0\x07\0\0\0\x01RAGB\0\0\0\x4e\x20RA000000005GB"),
);

/// A Grant, five Draws of which two arrive twice, and a datagram that is cut short.
const NINE: &'static [Part] = &[(
    &[
        GRANT,
        DRAW,
        LATE_DRAW,
        (
            20000,
            b"S1\x01\x02\0\0\0\x07\0\0\0\x02RAGB",
            Reply(b"S1\x01\x82\0\0\0\x07\0\0\0\x02RAGB\0\0\0\x4e\x20RA000000014GB"),
        ),
        (
            20000,
            b"S1\x01\x02\0\0\0\x07\0\0\0\x03RAGB",
            Reply(b"S1\x01\x82\0\0\0\x07\0\0\0\x03RAGB\0\0\0\x4e\x20RA000000028GB"),
        ),
        (
            20029,
            b"S1\x01\x02\0\0\0\x07\0\0\0\x04RAGB",
            Reply(b"S1\x01\x82\0\0\0\x07\0\0\0\x04RAGB\x05"),
        ),
        (
            20030,
            b"S1\x01\x02\0\0\0\x07\0\0\0\x04RAGB",
            Reply(b"S1\x01\x82\0\0\0\x07\0\0\0\x04RAGB\x05"),
        ),
        (
            20030,
            b"S1\x01\x02\0\0\0\x07\0\0\0\x05RAGB",
            Reply(b"S1\x01\x82\0\0\0\x07\0\0\0\x05RAGB\0\0\0\x4e\x3eRA000000005GB"),
        ),
        (
            20030,
            b"S1\x01\x02\0\0\0\x07\0\0\0\x06RAG",
            Dropped(WireFault::Length),
        ),
    ],
    6,
    20030,
)];

#[test]
fn nine_deliveries_get_their_replies(rt: HostRuntime) {
    assert!(rt; is_played(rt.alloc(), 100, NINE));
}

/// A Draw arrives again after its interval, and the day of the book stays the same.
const LATER: &'static [Part] = &[
    (&[GRANT, DRAW, LATE_DRAW], 2, 20000),
    (
        &[(
            20000,
            b"S1\x01\x02\0\0\0\x07\0\0\0\x02RAGB",
            Reply(b"S1\x01\x82\0\0\0\x07\0\0\0\x02RAGB\0\0\0\x4e\x20RA000000014GB"),
        )],
        3,
        20000,
    ),
];

#[test]
fn repeat_on_a_later_day_gets_the_kept_reply(rt: HostRuntime) {
    assert!(rt; is_played(rt.alloc(), 100, LATER));
}

/// A refused Draw arrives again on a day on which a new Draw is done.
const REFUSED: &'static [Part] = &[
    (
        &[
            GRANT,
            DRAW,
            (
                20000,
                b"S1\x01\x02\0\0\0\x07\0\0\0\x02RAGB",
                Reply(b"S1\x01\x82\0\0\0\x07\0\0\0\x02RAGB\0\0\0\x4e\x20RA000000014GB"),
            ),
            (
                20000,
                b"S1\x01\x02\0\0\0\x07\0\0\0\x03RAGB",
                Reply(b"S1\x01\x82\0\0\0\x07\0\0\0\x03RAGB\0\0\0\x4e\x20RA000000028GB"),
            ),
            (
                20029,
                b"S1\x01\x02\0\0\0\x07\0\0\0\x04RAGB",
                Reply(b"S1\x01\x82\0\0\0\x07\0\0\0\x04RAGB\x05"),
            ),
            (
                20030,
                b"S1\x01\x02\0\0\0\x07\0\0\0\x04RAGB",
                Reply(b"S1\x01\x82\0\0\0\x07\0\0\0\x04RAGB\x05"),
            ),
        ],
        5,
        20029,
    ),
    (
        &[(
            20030,
            b"S1\x01\x02\0\0\0\x07\0\0\0\x05RAGB",
            Reply(b"S1\x01\x82\0\0\0\x07\0\0\0\x05RAGB\0\0\0\x4e\x3eRA000000005GB"),
        )],
        6,
        20030,
    ),
];

#[test]
fn repeat_of_a_refused_draw_gets_the_same_refusal(rt: HostRuntime) {
    assert!(rt; is_played(rt.alloc(), 100, REFUSED));
}

/// A number arrives again with another request, and then with its own.
const REUSED: &'static [Part] = &[
    (
        &[
            GRANT,
            DRAW,
            (
                20000,
                b"S1\x01\x04\0\0\0\x07\0\0\0\x01RA000000005GB",
                Reply(b"S1\x01\x84\0\0\0\x07\0\0\0\x01RA000000005GB\x09"),
            ),
        ],
        2,
        20000,
    ),
    (&[DRAW], 2, 20000),
];

#[test]
fn number_reused_is_not_kept(rt: HostRuntime) {
    assert!(rt; is_played(rt.alloc(), 100, REUSED));
}
