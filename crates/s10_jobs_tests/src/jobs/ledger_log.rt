//! What standard error shows of the calls and the days of a ledger.

use crate::jobs::day_guard::Listed;
use crate::jobs::turns::Listening;
use crate::links::{Meets, link_of};
use s10_book::PlainBook;
use s10_ends::Server;
use s10_history::Settings;
use s10_jobs::{AtCount, JobStatus, TurnOptions, serve_turns, share_kept};
use s10_link::{Peer, ScriptLink};
use s10_test_help::datagrams::GRANT;
use s10_test_help::expect::holds;
use std::alloc::Global;

const PEER: Peer = Peer {
    ip: [10, 0, 0, 7],
    port: 4711,
};

/// A grant and 17 draws together, then two draws, each in a batch of its own.
const TWENTY: &[Meets] = &[
    Meets::Bytes(PEER, GRANT),
    Meets::Bytes(PEER, b"S1\x01\x02\0\0\0\x07\0\0\0\x01RAGB"),
    Meets::Bytes(PEER, b"S1\x01\x02\0\0\0\x07\0\0\0\x02RAGB"),
    Meets::Bytes(PEER, b"S1\x01\x02\0\0\0\x07\0\0\0\x03RAGB"),
    Meets::Bytes(PEER, b"S1\x01\x02\0\0\0\x07\0\0\0\x04RAGB"),
    Meets::Bytes(PEER, b"S1\x01\x02\0\0\0\x07\0\0\0\x05RAGB"),
    Meets::Bytes(PEER, b"S1\x01\x02\0\0\0\x07\0\0\0\x06RAGB"),
    Meets::Bytes(PEER, b"S1\x01\x02\0\0\0\x07\0\0\0\x07RAGB"),
    Meets::Bytes(PEER, b"S1\x01\x02\0\0\0\x07\0\0\0\x08RAGB"),
    Meets::Bytes(PEER, b"S1\x01\x02\0\0\0\x07\0\0\0\x09RAGB"),
    Meets::Bytes(PEER, b"S1\x01\x02\0\0\0\x07\0\0\0\x0aRAGB"),
    Meets::Bytes(PEER, b"S1\x01\x02\0\0\0\x07\0\0\0\x0bRAGB"),
    Meets::Bytes(PEER, b"S1\x01\x02\0\0\0\x07\0\0\0\x0cRAGB"),
    Meets::Bytes(PEER, b"S1\x01\x02\0\0\0\x07\0\0\0\x0dRAGB"),
    Meets::Bytes(PEER, b"S1\x01\x02\0\0\0\x07\0\0\0\x0eRAGB"),
    Meets::Bytes(PEER, b"S1\x01\x02\0\0\0\x07\0\0\0\x0fRAGB"),
    Meets::Bytes(PEER, b"S1\x01\x02\0\0\0\x07\0\0\0\x10RAGB"),
    Meets::Bytes(PEER, b"S1\x01\x02\0\0\0\x07\0\0\0\x11RAGB"),
    Meets::Nothing,
    Meets::Bytes(PEER, b"S1\x01\x02\0\0\0\x07\0\0\0\x12RAGB"),
    Meets::Nothing,
    Meets::Bytes(PEER, b"S1\x01\x02\0\0\0\x07\0\0\0\x13RAGB"),
    Meets::Nothing,
    Meets::Nothing,
];

/// A grant, and then nothing.
const ONE: &[Meets] = &[
    Meets::Bytes(PEER, GRANT),
    Meets::Nothing,
    Meets::Nothing,
    Meets::Nothing,
    Meets::Nothing,
    Meets::Nothing,
];

/// Returns whether standard error shows this over turns on these days.
fn is_told(
    alloc: Global,
    server: &mut Server<PlainBook>,
    link: &mut ScriptLink,
    count: u32,
    days: &[u32],
    told: &str,
) -> bool {
    let rt = Listening::new(alloc, 0);
    let mut days = Listed { days };
    let mut out = Vec::new(alloc);
    let options = TurnOptions {
        count,
        day: None,
        most_days_ahead: None,
        senders: false,
    };
    let served = serve_turns(
        &rt,
        alloc,
        server,
        link,
        &mut days,
        &mut AtCount,
        options,
        &mut out,
    );
    served == Ok(JobStatus::Done) && rt.told.into_inner().as_slice() == told.as_bytes()
}

#[test]
fn a_ledger_near_its_limit_is_named_thrice(rt: HostRuntime) {
    let Ok(mut link) = link_of(rt.alloc(), TWENTY, &[true; 20]) else {
        panic!(rt; "no link");
    };
    let mut server = Server::new(PlainBook::new(rt.alloc(), Settings::new(30, 20).unwrap()));
    let days = [20_000, 20_000, 20_000, 20_000];
    let told = "calls 0 of 20, last day 0, today 20000
90 of 100 calls of the limit are kept: 18 of 20
95 of 100 calls of the limit are kept: 19 of 20
99 of 100 calls of the limit are kept: 20 of 20
";
    assert!(rt; is_told(rt.alloc(), &mut server, &mut link, 21, &days, told));
    let Ok(mut link) = link_of(rt.alloc(), ONE, &[true; 2]) else {
        panic!(rt; "no link");
    };
    let told = "calls 20 of 20, last day 20000, today 20001
99 of 100 calls of the limit are kept: 20 of 20
";
    assert!(rt; is_told(rt.alloc(), &mut server, &mut link, 1, &[20_001], told));
}

#[test]
fn a_last_day_past_today_is_named_once_a_day(rt: HostRuntime) {
    let Ok(mut link) = link_of(rt.alloc(), ONE, &[true; 2]) else {
        panic!(rt; "no link");
    };
    let mut server = Server::new(PlainBook::new(rt.alloc(), Settings::new(30, 2).unwrap()));
    let told = "calls 0 of 2, last day 0, today 20000
the last day of the ledger, 20000, is past today, 19999
the last day of the ledger, 20000, is past today, 19998
";
    let days = [20_000, 19_999, 19_999, 19_998];
    assert!(rt; is_told(rt.alloc(), &mut server, &mut link, 4, &days, told));
    let told = "calls 1 of 2, last day 20000, today 19999
the last day of the ledger, 20000, is past today, 19999
";
    assert!(rt; is_told(rt.alloc(), &mut server, &mut link, 1, &[19_999], told));
}

/// The calls, the limit, and the share that is kept.
const SHARES: &[(u32, u32, u32)] = &[
    (0, 1, 0),
    (1, 1, 99),
    (1, 2, 0),
    (89, 100, 0),
    (90, 100, 90),
    (94, 100, 90),
    (95, 100, 95),
    (98, 100, 95),
    (99, 100, 99),
    (100, 100, 99),
    (899_999_999, 1_000_000_000, 0),
    (900_000_000, 1_000_000_000, 90),
    (949_999_999, 1_000_000_000, 90),
    (989_999_999, 1_000_000_000, 95),
    (990_000_000, 1_000_000_000, 99),
    (u32::MAX, u32::MAX, 99),
];

#[test]
fn shares_of_a_limit_are_reached_in_full(rt: HostRuntime) {
    for (calls, limit, share) in SHARES {
        assert!(rt; holds(&rt, calls, share_kept(*calls, *limit) == *share));
    }
}
