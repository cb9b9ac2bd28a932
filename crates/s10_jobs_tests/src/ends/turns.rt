//! Turns of a server over links that follow a script.

use crate::ends::fixtures::{Sent, granted_server, has_sent, new_server};
use crate::ends::turn_ends::{Ends, is_expected_turn};
use crate::links::{Meets, link_of, link_with_failure};
use s10_book::{Book, BookFault, GroupCommit, PlainBook};
use s10_ends::{Server, serve_batch_of_one, serve_one};
use s10_link::{Link, LinkFault, Peer, ScriptLink};
use s10_test_help::datagrams::{DRAW, DRAWN, GRANT, GRANTED, SECOND_DRAW, SECOND_DRAWN};
use s10_test_help::expect::holds;
use s10_wire::WireFault;
use std::alloc::Global;
use std::process::Abort;

const PEER: Peer = Peer {
    ip: [10, 0, 0, 7],
    port: 4711,
};

const OTHER: Peer = Peer {
    ip: [10, 0, 0, 8],
    port: 4712,
};

/// Returns whether the next turn of a server ends as expected.
fn serves<B: GroupCommit, L: Link>(server: &mut Server<B>, link: &mut L, ends: &Ends) -> bool {
    is_expected_turn(&serve_batch_of_one(server, link, 20_000), ends)
}

/// A script of a link, and what is expected of the turns over it.
#[derive(Clone, Copy)]
struct Script {
    /// What each receive gives.
    receipts: &'static [Meets],
    /// Whether each send succeeds.
    sends: &'static [bool],
    turns: &'static [Ends],
    /// The datagrams that are sent, in order.
    sent: &'static [Sent],
    /// The number of calls of the book at the end.
    calls: u32,
}

/// Asserts that the turns of a server over a script end as expected.
fn follow_script<B: GroupCommit + Drop>(
    rt: &(impl Abort + Eprint),
    alloc: Global,
    mut server: Server<B>,
    script: &Script,
) {
    let Ok(mut link) = link_of(alloc, script.receipts, script.sends) else {
        panic!(rt; "no link");
    };
    for (at, ends) in script.turns.iter().enumerate() {
        assert!(rt; holds(rt, &at, serves(&mut server, &mut link, ends)));
    }
    assert!(rt; has_sent(&link, script.sent));
    assert!(rt; server.book().len() == script.calls);
}

/// Asserts that the single turns of a server over a durable book end as expected.
fn follow_script_by_turns(
    rt: &(impl Abort + Eprint),
    alloc: Global,
    mut server: Server<PlainBook>,
    script: &Script,
) {
    let Ok(mut link) = link_of(alloc, script.receipts, script.sends) else {
        panic!(rt; "no link");
    };
    for (at, ends) in script.turns.iter().enumerate() {
        let turn = serve_one(&mut server, &mut link, 20_000);
        assert!(rt; holds(rt, &at, is_expected_turn(&turn, ends)));
    }
    assert!(rt; has_sent(&link, script.sent));
    assert!(rt; server.book().len() == script.calls);
}

/// A Draw arrives again after its reply could not be sent.
const UNSENT: Script = Script {
    receipts: &[Meets::Bytes(PEER, DRAW), Meets::Bytes(PEER, DRAW)],
    sends: &[false, true],
    turns: &[Ends::Failed(LinkFault::Send), Ends::Replied(PEER, DRAWN)],
    sent: &[(PEER, DRAWN)],
    calls: 2,
};

#[test]
fn reply_that_was_not_sent_is_kept(rt: HostRuntime) {
    let server = granted_server(rt.alloc(), 100);
    follow_script(&rt, rt.alloc(), server, &UNSENT);
    let server = granted_server(rt.alloc(), 100);
    follow_script_by_turns(&rt, rt.alloc(), server, &UNSENT);
}

/// Nothing, two datagrams that are no requests, a new Draw to a full book, and the first Grant
/// again, with no send left.
const UNANSWERED: Script = Script {
    receipts: &[
        Meets::Nothing,
        Meets::Bytes(PEER, b"S1"),
        Meets::Bytes(OTHER, DRAWN),
        Meets::Bytes(PEER, DRAW),
        Meets::Bytes(OTHER, GRANT),
    ],
    sends: &[],
    turns: &[
        Ends::Quiet,
        Ends::Dropped(PEER, WireFault::Short),
        Ends::Dropped(OTHER, WireFault::Kind),
        Ends::Faulted(PEER, BookFault::Full),
        Ends::Failed(LinkFault::Spent),
        Ends::Quiet,
    ],
    sent: &[],
    calls: 1,
};

#[test]
fn turns_without_a_reply_send_nothing(rt: HostRuntime) {
    let server = granted_server(rt.alloc(), 1);
    follow_script(&rt, rt.alloc(), server, &UNANSWERED);
    let server = granted_server(rt.alloc(), 1);
    follow_script_by_turns(&rt, rt.alloc(), server, &UNANSWERED);
}

/// Customer 7's third Draw.
const THIRD_DRAW: &[u8] = b"S1\x01\x02\0\0\0\x07\0\0\0\x03RAGB";

/// The reply to it on day 20000.
const THIRD_DRAWN: &[u8] = b"S1\x01\x82\0\0\0\x07\0\0\0\x03RAGB\0\0\0\x4e\x20RA000000028GB";

/// Customer 7's fourth Draw.
const FOURTH_DRAW: &[u8] = b"S1\x01\x02\0\0\0\x07\0\0\0\x04RAGB";

/// The reply to it on day 20000.
const FOURTH_DRAWN: &[u8] = b"S1\x01\x82\0\0\0\x07\0\0\0\x04RAGB\x05";

/// A Grant of three serials and four Draws, each twice in a row.
const TEN_RECEIPTS: &'static [Meets] = &[
    Meets::Bytes(PEER, GRANT),
    Meets::Bytes(PEER, GRANT),
    Meets::Bytes(PEER, DRAW),
    Meets::Bytes(PEER, DRAW),
    Meets::Bytes(PEER, SECOND_DRAW),
    Meets::Bytes(PEER, SECOND_DRAW),
    Meets::Bytes(PEER, THIRD_DRAW),
    Meets::Bytes(PEER, THIRD_DRAW),
    Meets::Bytes(PEER, FOURTH_DRAW),
    Meets::Bytes(PEER, FOURTH_DRAW),
];

/// The replies to them.
const TEN_TURNS: &'static [Ends] = &[
    Ends::Replied(PEER, GRANTED),
    Ends::Replied(PEER, GRANTED),
    Ends::Replied(PEER, DRAWN),
    Ends::Replied(PEER, DRAWN),
    Ends::Replied(PEER, SECOND_DRAWN),
    Ends::Replied(PEER, SECOND_DRAWN),
    Ends::Replied(PEER, THIRD_DRAWN),
    Ends::Replied(PEER, THIRD_DRAWN),
    Ends::Replied(PEER, FOURTH_DRAWN),
    Ends::Replied(PEER, FOURTH_DRAWN),
];

/// Returns whether the ten turns send each reply, and one turn fails: instead of its reply if the
/// send fails, before it if the receive fails.
fn is_survived<B: GroupCommit, L: Link>(
    server: &mut Server<B>,
    link: &mut L,
    failing: usize,
    fault: LinkFault,
) -> bool {
    for (at, ends) in TEN_TURNS.iter().enumerate() {
        let fails = at == failing;
        if fails && !serves(server, link, &Ends::Failed(fault)) {
            return false;
        }
        let is_sent = !fails || fault == LinkFault::Receive;
        if is_sent && !serves(server, link, ends) {
            return false;
        }
    }
    true
}

/// Returns whether a server over an empty book continues after this failure, and then has all five
/// calls.
fn survives(alloc: Global, link: &mut ScriptLink, failing: usize, fault: LinkFault) -> bool {
    let mut server = new_server(alloc, 100);
    is_survived(&mut server, link, failing, fault) && server.book().len() == 5
}

/// Returns whether a server continues after the send of this reply fails.
fn survives_a_lost_reply(alloc: Global, failing: usize) -> bool {
    let mut sends = [true; 10];
    if let Some(send) = sends.get_mut(failing) {
        *send = false;
    }
    match link_of(alloc, TEN_RECEIPTS, &sends) {
        Ok(mut link) => {
            survives(alloc, &mut link, failing, LinkFault::Send) && link.log().len() == 9
        }
        Err(_) => false,
    }
}

#[test]
fn any_one_reply_may_be_lost(rt: HostRuntime) {
    for failing in 0..10usize {
        assert!(rt; holds(&rt, &failing, survives_a_lost_reply(rt.alloc(), failing)));
    }
}

/// Returns whether a server continues after this receive fails.
fn survives_a_failed_receive(alloc: Global, failing: usize) -> bool {
    match link_with_failure(alloc, TEN_RECEIPTS, failing, &[true; 10]) {
        Ok(mut link) => {
            survives(alloc, &mut link, failing, LinkFault::Receive) && link.log().len() == 10
        }
        Err(_) => false,
    }
}

#[test]
fn any_one_receive_may_fail(rt: HostRuntime) {
    for failing in 0..10usize {
        assert!(rt;
            holds(
                &rt,
                &failing,
                survives_a_failed_receive(rt.alloc(), failing)
            )
        );
    }
}
