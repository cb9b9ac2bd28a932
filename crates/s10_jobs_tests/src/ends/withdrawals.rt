//! A world in which the post withdraws a customer's range.

use crate::ends::odd_worlds::{Expected, ends_as_expected};
use s10_test_help::asked::Asked;
use s10_test_help::datagrams::{DRAWN, GRANTED};
use s10_test_help::story::Happens;

const WITHDRAWN: &[u8] = b"S1\x02\x86\0\0\0\0\0\0\0\x02\0\0\0\x01\0";

const NO_RANGE_2: &[u8] = b"S1\x01\x82\0\0\0\x07\0\0\0\x02RAGB\x04";

const NO_RANGE_10: &[u8] = b"S1\x01\x82\0\0\0\x07\0\0\0\x0aRAGB\x04";

/// Customer 7 draws. The post's Withdraw then overtakes customer 7's next Draw. The Withdraw is
/// lost once and arrives twice, and its first reply is late. The first Draw arrives again, and
/// customer 7's second client draws.
const OVERTAKEN: &'static [Happens] = &[
    Happens::Submit(0, Asked::Grant(7, 0, 2)),
    Happens::Resend(0),
    Happens::ToServer(0, 20_000),
    Happens::ToClient(0, 0),
    Happens::Submit(1, Asked::Draw),
    Happens::Resend(1),
    Happens::ToServer(1, 20_000),
    Happens::ToClient(1, 1),
    Happens::Submit(1, Asked::Draw),
    Happens::Resend(1),
    Happens::Submit(0, Asked::Withdraw(1)),
    Happens::Resend(0),
    Happens::Resend(0),
    Happens::ToServer(4, 20_001),
    Happens::ToServer(2, 20_001),
    Happens::ToServer(4, 20_002),
    Happens::ToServer(1, 20_002),
    Happens::ToClient(0, 4),
    Happens::ToClient(0, 2),
    Happens::ToClient(1, 3),
    Happens::Submit(2, Asked::Draw),
    Happens::Resend(2),
    Happens::ToClient(2, 3),
    Happens::ToServer(5, 20_002),
    Happens::ToClient(2, 6),
];

const ONE_RANGE: Expected<'static> = Expected {
    replied: &[
        GRANTED,
        DRAWN,
        WITHDRAWN,
        NO_RANGE_2,
        WITHDRAWN,
        DRAWN,
        NO_RANGE_10,
    ],
    submitted: 5,
    accepted: 5,
    calls: 5,
};

#[test]
fn a_range_is_withdrawn_once_and_gives_no_more_identifiers(rt: HostRuntime) {
    assert!(rt; ends_as_expected(rt.alloc(), 100, OVERTAKEN, &ONE_RANGE));
}
