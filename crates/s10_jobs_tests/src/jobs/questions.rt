//! Calls over links, and what is printed about them.

ghost use Rattle.std.specs.Prelude.{◌≤◌};

use crate::links::{Meets, link_of};
use s10_ends::Client;
use s10_jobs::{JobStatus, ask};
use s10_lines::WriteFault;
use s10_link::{Link, Peer, ScriptLink};
use s10_test_help::asked::Asked;
use s10_test_help::datagrams::DRAWN;
use s10_test_help::expect::{holds, is_text};
use s10_test_help::refusing::Refusing;
use s10_wire::Body;
use std::alloc::Global;

const SERVER: Peer = Peer {
    ip: [10, 0, 0, 1],
    port: 4711,
};

// NoneFree, in reply to customer 7's first Draw.
const NONE_FREE: &[u8] = b"S1\x01\x82\0\0\0\x07\0\0\0\x01RAGB\x05";

/// Returns whether a call has this status and prints this line, in 1 to 100 tries.
fn is_reported<L: Link>(
    alloc: Global,
    client: &mut Client,
    link: &mut L,
    body: Body,
    tries: u32,
    status: JobStatus,
    line: &str,
) -> bool
    requires least { 1 ≤ tries }
    requires most { tries ≤ 100 }
{
    let mut out = Vec::new(alloc);
    let asked = ask(client, link, SERVER, body, tries, &mut out);
    is_text(out, line.as_bytes()) && asked == Ok(status)
}

/// Returns whether customer 7's first call over this script, in two tries, has this status and
/// prints this line. The next call must send nothing, since the number is spent even if the call
/// failed.
fn is_asked_once(
    alloc: Global,
    receipts: &[Meets],
    sends: &[bool],
    status: JobStatus,
    line: &str,
) -> bool {
    let Ok(mut link) = link_of(alloc, receipts, sends) else {
        return false;
    };
    let mut client = Client::new(7, 1, 1).unwrap();
    let then = JobStatus::CommandLine;
    is_reported(
        alloc,
        &mut client,
        &mut link,
        Asked::Draw.body(),
        2,
        status,
        line,
    ) && is_reported(
        alloc,
        &mut client,
        &mut link,
        Asked::Draw.body(),
        2,
        then,
        "",
    )
}

/// Which sends succeed, and what is printed.
const UNANSWERED: &[(&[bool], &str)] = &[
    (&[true, true], "gave-up\n"),
    (&[false], "link send\n"),
    (&[true], "link spent\n"),
];

#[test]
fn a_call_without_a_reply_prints_its_fault(rt: HostRuntime) {
    for (sends, line) in UNANSWERED {
        let is_asked = is_asked_once(rt.alloc(), &[], sends, JobStatus::Failed, line);
        assert!(rt; holds(&rt, line, is_asked));
    }
}

#[test]
fn a_receive_that_fails_is_printed(rt: HostRuntime) {
    let (receipts, line) = (&[Meets::Fault], "link receive\n");
    assert!(rt; is_asked_once(rt.alloc(), receipts, &[true], JobStatus::Failed, line));
}

/// What the receives give if the reply arrives in the first try, what they give if it arrives in
/// the second, and the status and the line of both calls.
type Answered = (&'static [Meets], &'static [Meets], JobStatus, &'static str);

const ANSWERS: &[Answered] = &[
    (
        &[Meets::Bytes(SERVER, DRAWN)],
        &[Meets::Nothing, Meets::Bytes(SERVER, DRAWN)],
        JobStatus::Done,
        "reply draw customer 7 number 1 RA GB done day 20000 RA000000005GB\n",
    ),
    (
        &[Meets::Bytes(SERVER, NONE_FREE)],
        &[Meets::Nothing, Meets::Bytes(SERVER, NONE_FREE)],
        JobStatus::Refused,
        "reply draw customer 7 number 1 RA GB none-free\n",
    ),
];

#[test]
fn the_reply_to_a_call_is_printed(rt: HostRuntime) {
    for (at_once, late, status, line) in ANSWERS {
        let is_first = is_asked_once(rt.alloc(), at_once, &[true], *status, line);
        let is_second = is_asked_once(rt.alloc(), late, &[true, true], *status, line);
        assert!(rt; holds(&rt, line, is_first && is_second));
    }
}

/// The post's Withdraw of range 1 with number 2.
const WITHDRAW: &[u8] = b"S1\x02\x06\0\0\0\0\0\0\0\x02\0\0\0\x01";

/// Returns whether the link sent only these bytes, to the server.
fn has_sent(link: &ScriptLink, bytes: &[u8]) -> bool {
    match link.log() {
        [(to, frame)] => *to == SERVER && frame.bytes() == bytes,
        _ => false,
    }
}

/// Returns whether a Withdraw with this reply sends its datagram once, has this status and prints
/// this line.
fn is_withdrawn(alloc: Global, reply: &'static [u8], status: JobStatus, line: &str) -> bool {
    let Ok(mut link) = link_of(alloc, &[Meets::Bytes(SERVER, reply)], &[true]) else {
        return false;
    };
    let mut client = Client::new(0, 2, 2).unwrap();
    let body = Body::Withdraw { range: 1 };
    is_reported(alloc, &mut client, &mut link, body, 1, status, line) && has_sent(&link, WITHDRAW)
}

/// Replies to it, and the status and the line of each.
const WITHDRAWALS: &[(&[u8], JobStatus, &str)] = &[
    (
        b"S1\x02\x86\0\0\0\0\0\0\0\x02\0\0\0\x01\0",
        JobStatus::Done,
        "reply withdraw customer 0 number 2 1 done\n",
    ),
    (
        b"S1\x02\x86\0\0\0\0\0\0\0\x02\0\0\0\x01\x01",
        JobStatus::Refused,
        "reply withdraw customer 0 number 2 1 not-the-post\n",
    ),
    (
        b"S1\x02\x86\0\0\0\0\0\0\0\x02\0\0\0\x01\x09",
        JobStatus::Refused,
        "reply withdraw customer 0 number 2 1 number-reused\n",
    ),
    (
        b"S1\x02\x86\0\0\0\0\0\0\0\x02\0\0\0\x01\x0a",
        JobStatus::Refused,
        "reply withdraw customer 0 number 2 1 no-such-range\n",
    ),
    (
        b"S1\x02\x86\0\0\0\0\0\0\0\x02\0\0\0\x01\x0b",
        JobStatus::Refused,
        "reply withdraw customer 0 number 2 1 closed\n",
    ),
    // An overlap does not fit a Withdraw.
    (
        b"S1\x02\x86\0\0\0\0\0\0\0\x02\0\0\0\x01\x03",
        JobStatus::Failed,
        "gave-up\n",
    ),
];

#[test]
fn the_reply_to_a_withdrawal_is_printed(rt: HostRuntime) {
    for (reply, status, line) in WITHDRAWALS {
        assert!(rt; holds(&rt, line, is_withdrawn(rt.alloc(), reply, *status, line)));
    }
}

/// Returns whether a call is complete although its line cannot be written.
fn is_made_unwritten(alloc: Global) -> bool {
    let Ok(mut link) = link_of(alloc, &[Meets::Bytes(SERVER, DRAWN)], &[true]) else {
        return false;
    };
    let mut client = Client::new(7, 1, 1).unwrap();
    ask(
        &mut client,
        &mut link,
        SERVER,
        Asked::Draw.body(),
        1,
        &mut Refusing,
    ) == Err(WriteFault)
        && link.log().len() == 1
        && client.pending().is_none()
}

#[test]
fn a_failed_write_is_reported_after_the_call(rt: HostRuntime) {
    assert!(rt; is_made_unwritten(rt.alloc()));
}
