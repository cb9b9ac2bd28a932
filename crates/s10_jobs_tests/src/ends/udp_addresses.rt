//! Sockets at addresses of this machine: where frames go, whose packets come, and how long a
//! receive waits.

use crate::ends::fixtures::{ANY_PORT, bound, request};
use s10_link::{Link, Packet, Peer, UdpLink};
use s10_test_help::expect::holds;
use s10_wire::{Frame, encode_request};
use std::net::{Ipv4Addr, Net, SocketAddr, SocketAddrV4, UdpSocket};
use std::time::{Clock, Duration};

/// Another address of this machine, which is not the one that sockets send from by default.
const SECOND: [u8; 4] = [127, 0, 0, 2];

/// Returns the same port at the second address.
fn second(at: Peer) -> Peer {
    Peer {
        ip: SECOND,
        port: at.port,
    }
}

/// Returns whether the frame arrives at `to` as its only packet, from the sender's address.
fn arrives(from: &mut UdpLink, to: &mut UdpLink, frame: &Frame) -> bool {
    from.send(to.local(), frame) == Ok(())
        && to.receive() == Ok(Some((from.local(), Packet::new(frame.bytes()))))
        && to.try_receive() == Ok(None)
}

/// Returns whether two links at one port of two addresses get the frames sent to them, and no
/// others.
fn are_told_apart<N: Net>(net: &N, one: &mut UdpLink, frame: &Frame) -> bool {
    let Ok(mut other) = UdpLink::bind(net, second(one.local()), 1_000) else {
        return false;
    };
    let Ok(mut sender) = UdpLink::bind(net, second(ANY_PORT), 1_000) else {
        return false;
    };
    arrives(&mut sender, &mut other, frame)
        && one.try_receive() == Ok(None)
        && arrives(&mut sender, one, frame)
        && other.try_receive() == Ok(None)
        && arrives(&mut other, &mut sender, frame)
}

#[test]
fn a_frame_goes_to_its_address_alone(rt: HostRuntime) {
    let mut one = bound(&rt, 1_000);
    let frame = encode_request(&request(1));
    assert!(rt; are_told_apart(&rt, &mut one, &frame));
}

/// Returns whether three frames that were sent are received in their order, waiting and not.
fn keeps_each(from: &mut UdpLink, to: &mut UdpLink) -> bool {
    let mut all = true;
    for number in 1..4u32 {
        all = all && from.send(to.local(), &encode_request(&request(number))) == Ok(());
    }
    for number in 1..4u32 {
        let came = if number == 2 {
            to.receive()
        } else {
            to.try_receive()
        };
        let packet = Packet::new(encode_request(&request(number)).bytes());
        all = all && came == Ok(Some((from.local(), packet)));
    }
    all
}

#[test]
fn no_packet_is_taken_and_lost(rt: HostRuntime) {
    let mut near = bound(&rt, 1_000);
    let mut far = bound(&rt, 1_000);
    assert!(rt; keeps_each(&mut near, &mut far));
}

/// Returns whether a datagram of this length is received as its first `kept` bytes.
fn is_kept<N: Net>(net: &N, to: &mut UdpLink, len: usize, kept: usize) -> bool {
    let [a, b, c, d] = ANY_PORT.ip;
    let at = |port| SocketAddr::V4(SocketAddrV4::new(Ipv4Addr::new(a, b, c, d), port));
    let bytes = [7u8; 600];
    let Ok(socket) = UdpSocket::bind(net, at(0)) else {
        return false;
    };
    socket
        .send_to(&bytes[..len.min(600)], at(to.local().port))
        .is_ok()
        && match to.receive() {
            Ok(Some((_, packet))) => packet == Packet::new(&bytes[..kept.min(600)]),
            _ => false,
        }
}

/// The lengths of datagrams, and how many bytes of each a packet has.
const LENGTHS: &[(usize, usize)] = &[(0, 0), (1, 1), (511, 511), (512, 512), (513, 512)];

#[test]
fn a_packet_has_room_for_512_bytes(rt: HostRuntime) {
    let mut link = bound(&rt, 1_000);
    for (len, kept) in LENGTHS {
        assert!(rt; holds(&rt, len, is_kept(&rt, &mut link, *len, *kept)));
    }
}

/// How many milliseconds a receive waits.
const WAIT_MS: u32 = 200;

/// Returns whether a receive gets nothing, and takes at least half of its wait by the clock: the
/// system's steps are up to ten milliseconds.
fn waits<C: Clock>(clock: &C, link: &mut UdpLink) -> bool {
    let start = clock.monotonic();
    let came = link.receive();
    match (start, clock.monotonic()) {
        (Ok(start), Ok(end)) => {
            came == Ok(None)
                && end.saturating_sub(start) >= Duration::from_millis(u64::from(WAIT_MS / 2))
        }
        _ => false,
    }
}

#[test]
fn a_receive_waits_after_one_that_did_not(rt: HostRuntime) {
    let mut link = bound(&rt, WAIT_MS);
    assert!(rt; holds(&rt, &0, waits(&rt, &mut link)));
    assert!(rt;
        holds(
            &rt,
            &1,
            link.try_receive() == Ok(None) && waits(&rt, &mut link),
        )
    );
    let mut far = bound(&rt, WAIT_MS);
    let frame = encode_request(&request(1));
    assert!(rt;
        holds(
            &rt,
            &2,
            arrives(&mut far, &mut link, &frame) && waits(&rt, &mut link),
        )
    );
}
