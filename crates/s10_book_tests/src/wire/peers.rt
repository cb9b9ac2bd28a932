//! Addresses as texts.

use s10_link::Peer;
use s10_test_help::expect::same;
use std::alloc::Global;

const ADDRESSES: &[(&str, Peer)] = &[
    (
        "0.0.0.0:0",
        Peer {
            ip: [0, 0, 0, 0],
            port: 0,
        },
    ),
    (
        "255.255.255.255:65535",
        Peer {
            ip: [255, 255, 255, 255],
            port: 65535,
        },
    ),
    (
        "127.0.0.1:4711",
        Peer {
            ip: [127, 0, 0, 1],
            port: 4711,
        },
    ),
    (
        "10.0.100.9:80",
        Peer {
            ip: [10, 0, 100, 9],
            port: 80,
        },
    ),
];

/// Returns whether the address is written as this text.
fn is_written(alloc: Global, peer: &Peer, text: &str) -> bool {
    match peer.to_string(alloc) {
        Ok(written) => written.as_str() == text,
        Err(_) => false,
    }
}

#[test]
fn addresses_are_read_and_written(rt: HostRuntime) {
    for (text, peer) in ADDRESSES {
        let found = (
            Peer::read(text.as_bytes()),
            is_written(rt.alloc(), peer, text),
        );
        assert!(rt; same(&rt, text, &found, &(Some(*peer), true)));
    }
}

const OTHER_TEXTS: &[&str] = &[
    "",
    "127.0.0.1",
    "127.0.0.1:",
    ":80",
    "127.0.0:80",
    "127.0.0.0.1:80",
    "127.0.0.:80",
    ".127.0.0.1:80",
    "127..0.1:80",
    "127.0.0.1.:80",
    "127.0.0.1:80:",
    "01.0.0.1:80",
    "127.00.0.1:80",
    "127.0.0.1:080",
    "127.0.0.1:00",
    "256.0.0.1:80",
    "127.0.0.256:80",
    "127.0.0.1:65536",
    "127.0.0.1:4294967376",
    " 127.0.0.1:80",
    "127.0.0.1:80 ",
    "127.0.0. 1:80",
    "127.0.0.+1:80",
    "127.0.0.1:+80",
    "127.0.0.-1:80",
    "localhost:80",
];

#[test]
fn other_texts_are_no_addresses(rt: HostRuntime) {
    for text in OTHER_TEXTS {
        assert!(rt; same(&rt, text, &Peer::read(text.as_bytes()), &None));
    }
}
