//! Ranges that are granted, and what is drawn from them and refused.

use crate::ends::scripts::{Part, is_played};
use s10_test_help::deliveries::GRANT;
use s10_test_help::deliveries::Want::Reply;

/// Grants are done and refused. Then each customer draws only from its own range.
const RANGES: &'static [Part] = &[
    (
        &[
            GRANT,
            (
                20000,
                b"S1\x01\x01\0\0\0\0\0\0\0\x02\0\0\0\x08RAGB\0\0\0\x02\0\0\0\x05",
                Reply(b"S1\x01\x81\0\0\0\0\0\0\0\x02\0\0\0\x08RAGB\0\0\0\x02\0\0\0\x05\x03"),
            ),
            (
                20000,
                b"S1\x01\x01\0\0\0\0\0\0\0\x03\0\0\0\x08RAGB\0\0\0\x03\0\0\0\x03",
                Reply(
                    b"S1\x01\x81\0\0\0\0\0\0\0\x03\0\0\0\x08RAGB\0\0\0\x03\0\0\0\x03\0\0\0\0\x02",
                ),
            ),
            (
                20000,
                b"S1\x01\x01\0\0\0\0\0\0\0\x04\0\0\0\x08RBGB\0\0\0\0\0\0\0\x02",
                Reply(b"S1\x01\x81\0\0\0\0\0\0\0\x04\0\0\0\x08RBGB\0\0\0\0\0\0\0\x02\0\0\0\0\x03"),
            ),
            (
                20000,
                b"S1\x01\x01\0\0\0\0\0\0\0\x05\0\0\0\x08RAGB\0\0\0\x09\0\0\0\x08",
                Reply(b"S1\x01\x81\0\0\0\0\0\0\0\x05\0\0\0\x08RAGB\0\0\0\x09\0\0\0\x08\x02"),
            ),
            (
                20000,
                b"S1\x01\x01\0\0\0\0\0\0\0\x06\0\0\0\0RAGB\0\0\0\x04\0\0\0\x05",
                Reply(b"S1\x01\x81\0\0\0\0\0\0\0\x06\0\0\0\0RAGB\0\0\0\x04\0\0\0\x05\x02"),
            ),
            (
                20000,
                b"S1\x01\x01\0\0\0\x07\0\0\0\x01\0\0\0\x07RAGB\0\0\0\x04\0\0\0\x05",
                Reply(b"S1\x01\x81\0\0\0\x07\0\0\0\x01\0\0\0\x07RAGB\0\0\0\x04\0\0\0\x05\x01"),
            ),
        ],
        7,
        20000,
    ),
    (
        &[
            (
                20000,
                b"S1\x01\x02\0\0\0\x07\0\0\0\x02RAGB",
                Reply(b"S1\x01\x82\0\0\0\x07\0\0\0\x02RAGB\0\0\0\x4e\x20RA000000005GB"),
            ),
            (
                20000,
                b"S1\x01\x02\0\0\0\x07\0\0\0\x03RAGB",
                Reply(b"S1\x01\x82\0\0\0\x07\0\0\0\x03RAGB\0\0\0\x4e\x20RA000000014GB"),
            ),
            (
                20000,
                b"S1\x01\x02\0\0\0\x07\0\0\0\x04RAGB",
                Reply(b"S1\x01\x82\0\0\0\x07\0\0\0\x04RAGB\0\0\0\x4e\x20RA000000028GB"),
            ),
            (
                20000,
                b"S1\x01\x02\0\0\0\x07\0\0\0\x05RAGB",
                Reply(b"S1\x01\x82\0\0\0\x07\0\0\0\x05RAGB\x05"),
            ),
            (
                20000,
                b"S1\x01\x02\0\0\0\x08\0\0\0\x01RAGB",
                Reply(b"S1\x01\x82\0\0\0\x08\0\0\0\x01RAGB\0\0\0\x4e\x20RA000000031GB"),
            ),
        ],
        12,
        20000,
    ),
];

#[test]
fn ranges_with_a_serial_in_common_are_refused(rt: HostRuntime) {
    assert!(rt; is_played(rt.alloc(), 100, RANGES));
}

/// Customer 7 draws from a range of the last two serials.
const LAST_SERIALS: &'static [Part] = &[(
    &[
        (
            20000,
            b"S1\x01\x01\0\0\0\0\0\0\0\x01\0\0\0\x07RAGB\x05\xf5\xe0\xfe\x05\xf5\xe0\xff",
            Reply(
                b"S1\x01\x81\0\0\0\0\0\0\0\x01\0\0\0\x07RAGB\x05\xf5\xe0\xfe\x05\xf5\xe0\xff\0\0\0\0\x01",
            ),
        ),
        (
            20000,
            b"S1\x01\x02\0\0\0\x07\0\0\0\x01RAGB",
            Reply(b"S1\x01\x82\0\0\0\x07\0\0\0\x01RAGB\0\0\0\x4e\x20RA999999987GB"),
        ),
        (
            20000,
            b"S1\x01\x02\0\0\0\x07\0\0\0\x02RAGB",
            Reply(b"S1\x01\x82\0\0\0\x07\0\0\0\x02RAGB\0\0\0\x4e\x20RA999999995GB"),
        ),
        (
            20000,
            b"S1\x01\x02\0\0\0\x07\0\0\0\x03RAGB",
            Reply(b"S1\x01\x82\0\0\0\x07\0\0\0\x03RAGB\x05"),
        ),
        (
            20000,
            b"S1\x01\x03\0\0\0\x07\0\0\0\x04RA999999987GB",
            Reply(b"S1\x01\x83\0\0\0\x07\0\0\0\x04RA999999987GB\0"),
        ),
        (
            20000,
            b"S1\x01\x02\0\0\0\x07\0\0\0\x05RAGB",
            Reply(b"S1\x01\x82\0\0\0\x07\0\0\0\x05RAGB\x05"),
        ),
    ],
    6,
    20000,
)];

#[test]
fn the_last_serials_are_drawn_and_no_more(rt: HostRuntime) {
    assert!(rt; is_played(rt.alloc(), 100, LAST_SERIALS));
}

/// Each call gets the refusal of its rule, or the status that it asks for.
const REFUSALS: &'static [Part] = &[(
    &[
        GRANT,
        // Customer 8 asks for an identifier of customer 7.
        (
            20000,
            b"S1\x01\x04\0\0\0\x08\0\0\0\x01RA000000005GB",
            Reply(b"S1\x01\x84\0\0\0\x08\0\0\0\x01RA000000005GB\x06"),
        ),
        (
            20000,
            b"S1\x01\x03\0\0\0\x08\0\0\0\x02RA000000005GB",
            Reply(b"S1\x01\x83\0\0\0\x08\0\0\0\x02RA000000005GB\x06"),
        ),
        // The post may query every identifier, and has no range of its own.
        (
            20000,
            b"S1\x01\x04\0\0\0\0\0\0\0\x02RA473124829US",
            Reply(b"S1\x01\x84\0\0\0\0\0\0\0\x02RA473124829US\0\0\0\0\0\0"),
        ),
        (
            20000,
            b"S1\x01\x04\0\0\0\0\0\0\0\x03RA000000005GB",
            Reply(b"S1\x01\x84\0\0\0\0\0\0\0\x03RA000000005GB\0\x01\0\0\0\0"),
        ),
        (
            20000,
            b"S1\x01\x02\0\0\0\0\0\0\0\x04RAGB",
            Reply(b"S1\x01\x82\0\0\0\0\0\0\0\x04RAGB\x04"),
        ),
        (
            20000,
            b"S1\x01\x03\0\0\0\0\0\0\0\x05RA000000005GB",
            Reply(b"S1\x01\x83\0\0\0\0\0\0\0\x05RA000000005GB\x06"),
        ),
        // Customer 7 voids an identifier that was not issued, and one that is not its own. It draws
        // of a service in which it has no range.
        (
            20000,
            b"S1\x01\x03\0\0\0\x07\0\0\0\x01RA000000028GB",
            Reply(b"S1\x01\x83\0\0\0\x07\0\0\0\x01RA000000028GB\x07"),
        ),
        (
            20000,
            b"S1\x01\x03\0\0\0\x07\0\0\0\x02RA000000031GB",
            Reply(b"S1\x01\x83\0\0\0\x07\0\0\0\x02RA000000031GB\x06"),
        ),
        (
            20000,
            b"S1\x01\x02\0\0\0\x07\0\0\0\x03RBGB",
            Reply(b"S1\x01\x82\0\0\0\x07\0\0\0\x03RBGB\x04"),
        ),
    ],
    10,
    20000,
)];

#[test]
fn each_refusal_has_its_reply(rt: HostRuntime) {
    assert!(rt; is_played(rt.alloc(), 100, REFUSALS));
}
