//! A script of datagrams that a server handles in one run over a ledger, which is then reopened.

use crate::ledger::calls::{LedgerSummary, closed, ledger, settings, whole};
use crate::ledger::sheets::first_wrong_step;
use crate::ledger::tables::found;
use s10_ends::Server;
use s10_ledger::OpenFault;
use s10_test_help::datagrams;
use s10_test_help::deliveries::{DRAW, Delivered, GRANT, Want};
use s10_test_help::expect::same;
use s10_wire::WireFault;
use std::alloc::{AllocError, Global};
use std::process::Abort;

const DRAW_4: &[u8] = b"S1\x01\x02\0\0\0\x07\0\0\0\x04RAGB";

const NONE_FREE: &[u8] = b"S1\x01\x82\0\0\0\x07\0\0\0\x04RAGB\x05";

/// The first Draw again, 400 days later.
const REPEATED: Delivered = (20_400, datagrams::DRAW, Want::Reply(datagrams::DRAWN));

const SECOND: Delivered = (
    20_000,
    b"S1\x01\x02\0\0\0\x07\0\0\0\x02RAGB",
    Want::Reply(b"S1\x01\x82\0\0\0\x07\0\0\0\x02RAGB\0\0\0\x4e\x20RA000000014GB"),
);

const THIRD: Delivered = (
    20_000,
    b"S1\x01\x02\0\0\0\x07\0\0\0\x03RAGB",
    Want::Reply(b"S1\x01\x82\0\0\0\x07\0\0\0\x03RAGB\0\0\0\x4e\x20RA000000028GB"),
);

/// Each serial was issued less than 30 days before, so none is free.
const FOURTH: Delivered = (20_029, DRAW_4, Want::Reply(NONE_FREE));

/// The fourth Draw again, on the day on which serials are free.
const FOURTH_AGAIN: Delivered = (20_030, DRAW_4, Want::Reply(NONE_FREE));

const FIFTH: Delivered = (
    20_030,
    b"S1\x01\x02\0\0\0\x07\0\0\0\x05RAGB",
    Want::Reply(b"S1\x01\x82\0\0\0\x07\0\0\0\x05RAGB\0\0\0\x4e\x3eRA000000005GB"),
);

/// A Draw without its last byte.
const SHORT: Delivered = (
    20_030,
    b"S1\x01\x02\0\0\0\x07\0\0\0\x06RAG",
    Want::Dropped(WireFault::Length),
);

const SCRIPT: &[Delivered] = &[
    GRANT,
    DRAW,
    REPEATED,
    SECOND,
    THIRD,
    FOURTH,
    FOURTH_AGAIN,
    FIFTH,
    SHORT,
];

/// The index of the first step with a wrong answer, if any, and what an opening finds afterwards.
type Served = (
    Result<Option<usize>, AllocError>,
    Option<Result<LedgerSummary, OpenFault>>,
);

/// Runs the script over a new ledger, closes it, and opens it again.
fn served<R: Abort + Eprint + AllocGlobal>(rt: &R) -> Served {
    let alloc: Global = rt.alloc();
    let mut server = Server::new(ledger(rt, settings(rt, 100)));
    let wrong = first_wrong_step(alloc, &mut server, SCRIPT);
    let opened = match found(alloc, closed(server.into_book())) {
        Some((answer, _conn)) => Some(answer),
        None => None,
    };
    (wrong, opened)
}

#[test]
fn each_call_of_a_run_is_found_after_reopening(rt: HostRuntime) {
    let wanted = (Ok(None), Some(Ok(whole(6, 20_030))));
    assert!(rt; same(&rt, &"script", &served(&rt), &wanted));
}
