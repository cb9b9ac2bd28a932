//! Packets, which are equal if their bytes are equal.

use s10_link::Packet;
use s10_test_help::expect::same;
use std::process::Abort;

/// Length of a datagram, and the number of its bytes that a packet keeps.
const LENGTHS: &[(usize, usize)] = &[
    (0, 0),
    (1, 1),
    (511, 511),
    (512, 512),
    (513, 512),
    (600, 512),
];

/// Asserts that the packet of the first `len` bytes has the first `kept` of them.
fn keeps(rt: &(impl Abort + Eprint), datagram: &[u8; 600], len: usize, kept: usize) {
    let packet = Packet::new(&datagram[..len.min(600)]);
    assert!(rt; same(rt, &len, &packet.bytes(), &&datagram[..kept.min(600)]));
}

#[test]
fn a_packet_keeps_512_bytes(rt: HostRuntime) {
    let mut datagram = [0u8; 600];
    for at in 0..600 {
        datagram[at] = (at % 251) as u8;
    }
    for (len, kept) in LENGTHS {
        keeps(&rt, &datagram, *len, *kept);
    }
}

/// Returns whether two packets are equal, of `one` and of `other` bytes. All bytes are equal,
/// except that of index `changed` in the second packet, if it is below 600.
fn are_equal(byte: u8, one: usize, other: usize, changed: usize) -> bool {
    let bytes = [byte; 600];
    let mut others = bytes;
    if changed < 600 {
        others[changed] = 8;
    }
    Packet::new(&bytes[..one.min(600)]) == Packet::new(&others[..other.min(600)])
}

/// The byte, the lengths of the two datagrams, the index of the changed byte, and whether the
/// packets are equal.
const PAIRS: &[(u8, usize, usize, usize, bool)] = &[
    (7, 600, 600, 599, true),
    (7, 600, 512, 600, true),
    (7, 600, 600, 511, false),
    (7, 600, 511, 600, false),
    (0, 3, 2, 600, false),
    (0, 1, 0, 600, false),
];

#[test]
fn packets_are_equal_if_their_bytes_are(rt: HostRuntime) {
    for (byte, one, other, changed, equal) in PAIRS {
        let found = are_equal(*byte, *one, *other, *changed);
        assert!(rt; same(&rt, &(byte, one, other, changed), &found, equal));
    }
}
