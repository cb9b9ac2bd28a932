//! Calls of a client over links that follow a script.

use crate::ends::fixtures::{Sent, has_sent, is_answered, request};
use crate::links::{Meets, link_of};
use s10_ends::{CallFault, Client, SubmitFault, call};
use s10_link::{Link, LinkFault, Peer, ScriptLink};
use s10_test_help::asked::Asked;
use s10_test_help::datagrams::{DRAW, DRAWN};
use s10_test_help::expect::holds;
use std::alloc::Global;

const SERVER: Peer = Peer {
    ip: [10, 0, 0, 1],
    port: 4711,
};

const STRANGER: Peer = Peer {
    ip: [10, 9, 9, 9],
    port: 9,
};

/// A reply to another request: NoneFree to customer 7's Draw of RA GB with number 2.
const OTHER: Meets = Meets::Bytes(SERVER, b"S1\x01\x82\0\0\0\x07\0\0\0\x02RAGB\x05");

/// The Draw with number 1, sent to the server.
const ASKED: Sent = (SERVER, DRAW);

/// How a call fails. Its request, if it has one, is the Draw with number 1.
#[derive(Clone, Copy)]
enum Fails {
    Submit(SubmitFault),
    GaveUp,
    Link(LinkFault),
}

fn fault(fails: Fails) -> CallFault {
    match fails {
        Fails::Submit(fault) => CallFault::Submit(fault),
        Fails::GaveUp => CallFault::GaveUp(request(1)),
        Fails::Link(fault) => CallFault::Link(request(1), fault),
    }
}

/// Returns whether a call fails in this way and leaves no request pending.
fn has_failed(client: &mut Client, link: &mut ScriptLink, tries: u32, fails: Fails) -> bool {
    match call(
        client,
        link,
        SERVER,
        Asked::Draw.body(),
        tries.max(1).min(100),
    ) {
        Ok(_) => false,
        Err(found) => found == fault(fails) && client.pending().is_none(),
    }
}

/// Returns whether a call sends the Draw twice and accepts its reply, and the next call has no
/// number left. The link counts five calls then.
fn is_answered_once(alloc: Global, receipts: &[Meets]) -> bool {
    let Ok(mut link) = link_of(alloc, receipts, &[true, true]) else {
        return false;
    };
    let mut client = Client::new(7, 1, 1).unwrap();
    is_answered(&mut client, &mut link, SERVER, Asked::Draw.body(), 2, DRAWN)
        && client.pending().is_none()
        && has_sent(&link, &[ASKED, ASKED])
        && has_failed(
            &mut client,
            &mut link,
            2,
            Fails::Submit(SubmitFault::NumbersSpent),
        )
        && link.counts().calls == 5
}

/// Nothing, a reply to another request, the right reply from a stranger, and a failure that no
/// receive reaches.
const OWN_REPLY: &'static [Meets] = &[
    Meets::Nothing,
    OTHER,
    Meets::Bytes(STRANGER, DRAWN),
    Meets::Fault,
];

#[test]
fn request_is_sent_until_its_own_reply_comes(rt: HostRuntime) {
    assert!(rt; is_answered_once(rt.alloc(), OWN_REPLY));
}

/// A script of a link that gives no reply, and what is expected of a call over it.
#[derive(Clone, Copy)]
struct Unanswered {
    /// What each receive gives.
    receipts: &'static [Meets],
    /// Whether each send succeeds.
    sends: &'static [bool],
    tries: u32,
    fails: Fails,
    /// The datagrams that are sent, in order.
    sent: &'static [Sent],
    /// The number of calls of the link.
    calls: u64,
    /// The number of datagrams received.
    received: u64,
}

/// Returns whether a call fails as expected, and the next request has the next number.
fn is_unanswered(alloc: Global, told: &Unanswered) -> bool {
    let Ok(mut link) = link_of(alloc, told.receipts, told.sends) else {
        return false;
    };
    let mut client = Client::new(7, 1, 2).unwrap();
    has_failed(&mut client, &mut link, told.tries, told.fails)
        && has_sent(&link, told.sent)
        && link.counts().calls == told.calls
        && link.counts().received == told.received
        && client.submit(Asked::Draw.body()) == Ok(request(2))
}

/// One try, in which no datagram arrives.
const NO_REPLY: Unanswered = Unanswered {
    receipts: &[],
    sends: &[true],
    tries: 1,
    fails: Fails::GaveUp,
    sent: &[ASKED],
    calls: 2,
    received: 0,
};

#[test]
fn call_without_a_reply_is_given_up(rt: HostRuntime) {
    assert!(rt; is_unanswered(rt.alloc(), &NO_REPLY));
}

/// Two tries, and one datagram more than they receive.
const SEVENTEEN: Unanswered = Unanswered {
    receipts: &[OTHER; 17],
    sends: &[true, true],
    tries: 2,
    fails: Fails::GaveUp,
    sent: &[ASKED, ASKED],
    calls: 18,
    received: 16,
};

#[test]
fn a_try_receives_eight_datagrams(rt: HostRuntime) {
    assert!(rt; is_unanswered(rt.alloc(), &SEVENTEEN));
}

/// The first send fails, a receive fails, the second send fails, or no second send is left.
const FAILING_LINKS: &'static [Unanswered] = &[
    Unanswered {
        receipts: &[],
        sends: &[false],
        tries: 1,
        fails: Fails::Link(LinkFault::Send),
        sent: &[],
        calls: 1,
        received: 0,
    },
    Unanswered {
        receipts: &[Meets::Fault],
        sends: &[true],
        tries: 2,
        fails: Fails::Link(LinkFault::Receive),
        sent: &[ASKED],
        calls: 2,
        received: 0,
    },
    Unanswered {
        receipts: &[Meets::Nothing],
        sends: &[true, false],
        tries: 2,
        fails: Fails::Link(LinkFault::Send),
        sent: &[ASKED],
        calls: 3,
        received: 0,
    },
    Unanswered {
        receipts: &[Meets::Nothing],
        sends: &[true],
        tries: 2,
        fails: Fails::Link(LinkFault::Spent),
        sent: &[ASKED],
        calls: 2,
        received: 0,
    },
];

#[test]
fn failing_links_end_a_call(rt: HostRuntime) {
    for (at, told) in FAILING_LINKS.iter().enumerate() {
        assert!(rt; holds(&rt, &at, is_unanswered(rt.alloc(), told)));
    }
}

/// Returns whether a fault has this text.
fn has_text(alloc: Global, fails: Fails, text: &str) -> bool {
    match fault(fails).to_string(alloc) {
        Ok(found) => found.as_str() == text,
        Err(_) => false,
    }
}

const TEXTS: &'static [(Fails, &'static str)] = &[
    (Fails::Submit(SubmitFault::Busy), "a request is pending"),
    (Fails::GaveUp, "no reply came"),
    (Fails::Link(LinkFault::Send), "sending failed"),
];

#[test]
fn call_faults_have_their_texts(rt: HostRuntime) {
    for (at, (fails, text)) in TEXTS.iter().enumerate() {
        assert!(rt; holds(&rt, &at, has_text(rt.alloc(), *fails, text)));
    }
}
