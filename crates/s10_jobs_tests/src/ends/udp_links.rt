//! Links of two sockets of this machine.

use crate::ends::fixtures::{ANY_PORT, bound, request};
use s10_link::{Counts, Link, LinkFault, Packet, UdpLink};
use s10_test_help::datagrams::DRAW;
use s10_test_help::expect::holds;
use s10_wire::{Frame, encode_request};
use std::net::Net;
use std::process::Abort;

/// The counts of a link without calls.
const NO_CALLS: Counts = Counts {
    calls: 0,
    failures: 0,
    sends: 0,
    received: 0,
};

/// Returns whether two unused links are bound to two ports of this machine.
fn are_apart(near: &UdpLink, far: &UdpLink) -> bool {
    near.local().ip == ANY_PORT.ip
        && near.local().port != 0
        && near.local() != far.local()
        && near.counts() == NO_CALLS
}

/// Sends the frame from one link to the other. Returns whether it arrives as this packet.
fn passes(from: &mut UdpLink, to: &mut UdpLink, frame: &Frame, packet: Packet) -> bool {
    from.send(to.local(), frame) == Ok(()) && to.receive() == Ok(Some((from.local(), packet)))
}

/// Returns whether a send to port 0 fails.
fn is_refused(link: &mut UdpLink, frame: &Frame) -> bool {
    link.send(ANY_PORT, frame) == Err(LinkFault::Send)
}

/// Returns whether the frame arrives as this packet in both directions, and a send to port 0 fails.
fn passes_both_ways(near: &mut UdpLink, far: &mut UdpLink, frame: &Frame, packet: Packet) -> bool {
    passes(near, far, frame, packet) && passes(far, near, frame, packet) && is_refused(near, frame)
}

/// Returns whether a link sent one frame, received one datagram, and failed in a third call.
fn has_counted(link: &UdpLink) -> bool {
    link.counts()
        == Counts {
            calls: 3,
            failures: 1,
            sends: 1,
            received: 1,
        }
}

#[test]
fn datagrams_pass_over_loopback(rt: HostRuntime) {
    let mut near = bound(&rt, 1_000);
    let mut far = bound(&rt, 1_000);
    assert!(rt; are_apart(&near, &far));

    let frame = encode_request(&request(1));
    let packet = Packet::new(DRAW);
    assert!(rt; passes_both_ways(&mut near, &mut far, &frame, packet));
    assert!(rt; has_counted(&near));
}

/// Returns whether receives that do not wait give the frame only after it was sent, and a receive
/// that waits gives the next one.
fn receives_what_has_arrived(
    from: &mut UdpLink,
    to: &mut UdpLink,
    frame: &Frame,
    packet: Packet,
) -> bool {
    to.try_receive() == Ok(None)
        && from.send(to.local(), frame) == Ok(())
        && to.try_receive() == Ok(Some((from.local(), packet)))
        && to.try_receive() == Ok(None)
        && passes(from, to, frame, packet)
}

/// Returns whether the link counts these calls and received datagrams.
fn has_received(link: &UdpLink, calls: u64, received: u64) -> bool {
    let counts = link.counts();
    counts.calls == calls && counts.received == received
}

// A receive that waits would take longer than a test may.
#[test]
fn what_has_arrived_is_received_without_waiting(rt: HostRuntime) {
    let mut near = bound(&rt, 100_000);
    let mut far = bound(&rt, 100_000);
    let packet = Packet::new(DRAW);
    let frame = encode_request(&request(1));
    assert!(rt; receives_what_has_arrived(&mut near, &mut far, &frame, packet));
    assert!(rt; has_received(&far, 4, 2));
}

/// Returns whether a receive that waits `wait_ms` milliseconds gets nothing and does not fail.
fn hears_nothing<R: Abort + Net>(rt: &R, wait_ms: u32) -> bool {
    let mut link = bound(rt, wait_ms);
    link.receive() == Ok(None) && link.counts().calls == 1 && link.counts().failures == 0
}

#[test]
fn a_wait_without_a_datagram_is_no_failure(rt: HostRuntime) {
    assert!(rt; holds(&rt, &0, hears_nothing(&rt, 0)));
    assert!(rt; holds(&rt, &1, hears_nothing(&rt, 1)));
    assert!(rt; holds(&rt, &20, hears_nothing(&rt, 20)));
}

#[test]
fn port_in_use_cannot_be_bound(rt: HostRuntime) {
    let first = bound(&rt, 1);
    assert!(rt; UdpLink::bind(&rt, first.local(), 1).err() == Some(LinkFault::Bind));
}
