//! Withdrawals, datagram by datagram, over a book in memory and over a ledger in tables.

use crate::ledger::sheets::are_answered;
use s10_test_help::deliveries::{DRAW, Delivered, GRANT, Want};

const WITHDRAW: Delivered = (
    20_000,
    b"S1\x02\x06\0\0\0\0\0\0\0\x02\0\0\0\x01",
    Want::Reply(b"S1\x02\x86\0\0\0\0\0\0\0\x02\0\0\0\x01\0"),
);

/// Range 1 is withdrawn. Then come other withdrawals, draws, a Void and a Query of its identifier,
/// and Grants.
const WITHDRAWN: &[Delivered] = &[
    GRANT,
    DRAW,
    WITHDRAW,
    WITHDRAW,
    (
        20_000,
        b"S1\x02\x06\0\0\0\0\0\0\0\x03\0\0\0\x01",
        Want::Reply(b"S1\x02\x86\0\0\0\0\0\0\0\x03\0\0\0\x01\x0b"),
    ),
    (
        20_000,
        b"S1\x02\x06\0\0\0\0\0\0\0\x04\0\0\0\x02",
        Want::Reply(b"S1\x02\x86\0\0\0\0\0\0\0\x04\0\0\0\x02\x0a"),
    ),
    (
        20_000,
        b"S1\x02\x06\0\0\0\0\0\0\0\x05\0\0\0\0",
        Want::Reply(b"S1\x02\x86\0\0\0\0\0\0\0\x05\0\0\0\0\x0a"),
    ),
    (
        20_000,
        b"S1\x02\x06\0\0\0\x07\0\0\0\x02\0\0\0\x01",
        Want::Reply(b"S1\x02\x86\0\0\0\x07\0\0\0\x02\0\0\0\x01\x01"),
    ),
    (
        20_000,
        b"S1\x01\x02\0\0\0\x07\0\0\0\x03RAGB",
        Want::Reply(b"S1\x01\x82\0\0\0\x07\0\0\0\x03RAGB\x04"),
    ),
    (
        20_000,
        b"S1\x02\x05\0\0\0\x07\0\0\0\x04RAGB\x01",
        Want::Reply(b"S1\x02\x85\0\0\0\x07\0\0\0\x04RAGB\x01\x04"),
    ),
    (
        20_000,
        b"S1\x01\x03\0\0\0\x07\0\0\0\x05RA000000005GB",
        Want::Reply(b"S1\x01\x83\0\0\0\x07\0\0\0\x05RA000000005GB\0"),
    ),
    (
        20_000,
        b"S1\x01\x04\0\0\0\x07\0\0\0\x06RA000000005GB",
        Want::Reply(b"S1\x01\x84\0\0\0\x07\0\0\0\x06RA000000005GB\0\x03\0\0\x4e\x20"),
    ),
    (
        20_000,
        b"S1\x01\x01\0\0\0\0\0\0\0\x06\0\0\0\x08RAGB\0\0\0\0\0\0\0\x02",
        Want::Reply(b"S1\x01\x81\0\0\0\0\0\0\0\x06\0\0\0\x08RAGB\0\0\0\0\0\0\0\x02\x03"),
    ),
    (
        20_000,
        b"S1\x01\x01\0\0\0\0\0\0\0\x07\0\0\0\x08RAGB\0\0\0\x03\0\0\0\x03",
        Want::Reply(b"S1\x01\x81\0\0\0\0\0\0\0\x07\0\0\0\x08RAGB\0\0\0\x03\0\0\0\x03\0\0\0\0\x02"),
    ),
];

const WITHDRAWN_RANGES: &[u8] = b"range customer service country first last used voided free\n\
1 7 RA GB 00000000 00000002 1 1 2 closed\n\
2 8 RA GB 00000003 00000003 0 0 1\n";

/// The number of the withdrawal is used for another range and for a Grant, then again for the
/// withdrawal.
const REUSED: &[Delivered] = &[
    GRANT,
    DRAW,
    WITHDRAW,
    (
        20_000,
        b"S1\x02\x06\0\0\0\0\0\0\0\x02\0\0\0\x02",
        Want::Reply(b"S1\x02\x86\0\0\0\0\0\0\0\x02\0\0\0\x02\x09"),
    ),
    (
        20_000,
        b"S1\x01\x01\0\0\0\0\0\0\0\x02\0\0\0\x08RAGB\0\0\0\x03\0\0\0\x03",
        Want::Reply(b"S1\x01\x81\0\0\0\0\0\0\0\x02\0\0\0\x08RAGB\0\0\0\x03\0\0\0\x03\x09"),
    ),
    WITHDRAW,
];

const REUSED_RANGES: &[u8] = b"range customer service country first last used voided free\n\
1 7 RA GB 00000000 00000002 1 0 2 closed\n";

/// The number of the Grant is used for a withdrawal.
const NOT_WITHDRAWN: &[Delivered] = &[
    GRANT,
    (
        20_000,
        b"S1\x02\x06\0\0\0\0\0\0\0\x01\0\0\0\x01",
        Want::Reply(b"S1\x02\x86\0\0\0\0\0\0\0\x01\0\0\0\x01\x09"),
    ),
    DRAW,
];

const NOT_WITHDRAWN_RANGES: &[u8] = b"range customer service country first last used voided free\n\
1 7 RA GB 00000000 00000002 1 0 2\n";

#[test]
fn withdrawals_are_answered_as_worked_by_hand(rt: HostRuntime) {
    are_answered(&rt, "withdrawn", WITHDRAWN, Some((13, WITHDRAWN_RANGES)));
    are_answered(&rt, "number reused", REUSED, Some((3, REUSED_RANGES)));
    are_answered(
        &rt,
        "number of a Grant",
        NOT_WITHDRAWN,
        Some((2, NOT_WITHDRAWN_RANGES)),
    );
}
