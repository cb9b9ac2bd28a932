//! Links that follow a script.

use s10_core::{Country, Service};
use s10_link::{Counts, Link, LinkFault, Packet, Peer, Receipt, ScriptLink};
use s10_test_help::expect::same;
use s10_wire::{Body, Frame, Request, encode_request};
use std::alloc::{AllocError, Global};
use std::process::Abort;
use std::test::Fail;

const FAR: Peer = Peer {
    ip: [10, 0, 0, 2],
    port: 4712,
};

/// Returns the frame of a Draw of RA GB with this number.
fn draw(number: u32) -> Frame {
    encode_request(&Request {
        customer: 7,
        number,
        body: Body::Draw {
            service: Service::new(*b"RA").unwrap(),
            country: Country::new(*b"GB").unwrap(),
        },
    })
}

/// Returns a link that receives this packet, nothing and a failure, and sends once.
fn new_script(alloc: Global, packet: Packet) -> Result<ScriptLink, AllocError> {
    let receipts = vec![in alloc;
        Receipt::Deliver(FAR, packet),
        Receipt::Nothing,
        Receipt::Fail,
    ]?;
    let sends = vec![in alloc; true, false]?;
    ScriptLink::new(alloc, receipts, sends)
}

/// Returns that link, and aborts if there is no memory for it.
fn new_link<R: Abort + AllocGlobal>(rt: &R, packet: Packet) -> ScriptLink {
    new_script(rt.alloc(), packet).expect(rt, "a link")
}

/// The counts of a link without calls.
const NO_CALLS: Counts = Counts {
    calls: 0,
    failures: 0,
    sends: 0,
    received: 0,
};

/// Returns whether the link's counts and log are these.
fn has_met(link: &ScriptLink, counts: Counts, log: &[(Peer, Frame)]) -> bool {
    link.counts() == counts && link.log() == log
}

/// Asserts that the link's counts and log are these, and drops the link.
fn ends_with(rt: &impl Abort, link: ScriptLink, counts: Counts, log: &[(Peer, Frame)]) {
    assert!(rt; has_met(&link, counts, log));
}

/// Returns whether four receives give the packet, nothing, a failure, and nothing.
fn receives_in_turn(link: &mut ScriptLink, packet: Packet) -> bool {
    link.receive() == Ok(Some((FAR, packet)))
        && link.receive() == Ok(None)
        && link.receive() == Err(LinkFault::Receive)
        && link.receive() == Ok(None)
}

/// Numbers of the Draws that are sent to the far peer one after another, and the result of each.
const SENDS: &[(u32, Result<(), LinkFault>)] = &[
    (1, Ok(())),
    (2, Err(LinkFault::Send)),
    (2, Err(LinkFault::Spent)),
];

/// Asserts that the sends end as `SENDS` says.
fn sends_end(rt: &(impl Abort + Eprint), link: &mut ScriptLink) {
    for (number, end) in SENDS {
        assert!(rt; same(rt, number, &link.send(FAR, &draw(*number)), end));
    }
}

#[test]
fn calls_follow_the_script(rt: HostRuntime) {
    let packet = Packet::new(b"a datagram");
    let mut link = new_link(&rt, packet);
    let is_new = has_met(&link, NO_CALLS, &[]);
    assert!(rt; is_new && receives_in_turn(&mut link, packet));
    sends_end(&rt, &mut link);
    let first = draw(1);
    let counts = Counts {
        calls: 6,
        failures: 2,
        sends: 1,
        received: 1,
    };
    ends_with(&rt, link, counts, &[(FAR, first)]);
}

/// Returns whether receives that wait and receives that do not wait follow the one script.
fn receives_at_once(link: &mut ScriptLink, packet: Packet) -> bool {
    link.try_receive() == Ok(Some((FAR, packet)))
        && link.receive() == Ok(None)
        && link.try_receive() == Err(LinkFault::Receive)
        && link.try_receive() == Ok(None)
}

#[test]
fn try_receive_gives_the_next_receipt(rt: HostRuntime) {
    let packet = Packet::new(b"a datagram");
    let mut link = new_link(&rt, packet);
    assert!(rt; receives_at_once(&mut link, packet));
    let counts = Counts {
        calls: 4,
        failures: 1,
        received: 1,
        ..NO_CALLS
    };
    ends_with(&rt, link, counts, &[]);
}

const TEXTS: &[(LinkFault, &str)] = &[
    (LinkFault::Bind, "the address cannot be bound"),
    (LinkFault::Receive, "receiving failed"),
    (LinkFault::Send, "sending failed"),
    (LinkFault::Spent, "the link is spent"),
];

#[test]
fn link_faults_have_their_texts(rt: HostRuntime) -> Result<(), Fail> {
    for (fault, text) in TEXTS {
        assert!(rt; same(&rt, fault, &fault.to_string(rt.alloc())?.as_str(), text));
    }
    Ok(())
}
