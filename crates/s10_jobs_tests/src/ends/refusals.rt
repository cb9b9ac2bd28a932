//! Bytes that are no requests, and calls to a full book.

use crate::ends::scripts::{Part, is_played};
use s10_book::BookFault;
use s10_test_help::deliveries::Want::{Dropped, Faulted, Reply};
use s10_test_help::deliveries::{DRAW, GRANT};
use s10_wire::WireFault;

/// Bytes that are no requests, with the fault of each.
const DROPPED: &'static [Part] = &[(
    &[
        (
            20000,
            b"S1\x01\x02\0\0\0\x07\0\0\0\x01RAG",
            Dropped(WireFault::Length),
        ),
        (
            20000,
            b"S1\x01\x02\0\0\0\x07\0\0\0\x01RAGB\0",
            Dropped(WireFault::Length),
        ),
        (
            20000,
            b"S1\x09\x02\0\0\0\x07\0\0\0\x01RAGB",
            Dropped(WireFault::Version),
        ),
        (
            20000,
            b"S1\x01\0\0\0\0\x07\0\0\0\x01RAGB",
            Dropped(WireFault::Kind),
        ),
        (
            20000,
            b"S1\x01\x82\0\0\0\x07\0\0\0\x01RAGB\0\0\0\x4e\x20RA000000005GB",
            Dropped(WireFault::Kind),
        ),
        (
            20000,
            b"S1\x01\x02\0\0\0\x07\0\0\0\x01raGB",
            Dropped(WireFault::Field(12)),
        ),
        (
            20000,
            b"S1\x01\x01\0\0\0\0\0\0\0\x01\0\0\0\x07RAGB\0\0\0\0\x05\xf5\xe1\0",
            Dropped(WireFault::Field(24)),
        ),
        (
            20000,
            b"S0\x01\x02\0\0\0\x07\0\0\0\x01RAGB",
            Dropped(WireFault::Magic),
        ),
        (
            20000,
            b"S1\x01\x02\0\0\0\x07\0\0\0",
            Dropped(WireFault::Short),
        ),
        (20000, b"", Dropped(WireFault::Short)),
    ],
    0,
    0,
)];

#[test]
fn bytes_that_ask_nothing_are_dropped(rt: HostRuntime) {
    assert!(rt; is_played(rt.alloc(), 100, DROPPED));
}

/// A book with a limit of three calls, and datagrams that arrive when it is full.
const FULL: &'static [Part] = &[(
    &[
        GRANT,
        DRAW,
        (
            20000,
            b"S1\x01\x02\0\0\0\x07\0\0\0\x02RAGB",
            Reply(b"S1\x01\x82\0\0\0\x07\0\0\0\x02RAGB\0\0\0\x4e\x20RA000000014GB"),
        ),
        (
            20000,
            b"S1\x01\x02\0\0\0\x07\0\0\0\x03RAGB",
            Faulted(BookFault::Full),
        ),
        DRAW,
        (
            20000,
            b"S1\x01\x04\0\0\0\x07\0\0\0\x01RA000000005GB",
            Reply(b"S1\x01\x84\0\0\0\x07\0\0\0\x01RA000000005GB\x09"),
        ),
    ],
    3,
    20000,
)];

#[test]
fn a_full_book_answers_only_kept_calls(rt: HostRuntime) {
    assert!(rt; is_played(rt.alloc(), 3, FULL));
}
