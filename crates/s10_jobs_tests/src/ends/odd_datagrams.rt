//! Datagrams that arrive twice, and one that no client sends.

use crate::ends::fixtures::{bound, is_answered, new_server, request};
use s10_book::{Book, PlainBook};
use s10_ends::{Client, Server, ServerTurn, serve_one};
use s10_link::{Link, Packet, Peer, UdpLink};
use s10_test_help::asked::Asked;
use s10_test_help::expect::holds;
use s10_wire::{WireFault, decode_reply, encode_reply, encode_request};
use std::net::{Ipv4Addr, Net, SocketAddr, SocketAddrV4, UdpSocket};
use std::process::Abort;
use std::time::Duration;

/// Sends a reply twice. Returns whether both sends succeed.
fn is_sent_twice<L: Link>(link: &mut L, to: Peer, datagram: &[u8]) -> bool {
    let Ok(reply) = decode_reply(datagram) else {
        return false;
    };
    let frame = encode_reply(&reply);
    link.send(to, &frame) == Ok(()) && link.send(to, &frame) == Ok(())
}

/// Sends a reply twice to the client. Returns whether the client's next Draw accepts it.
fn is_answered_twice<L: Link>(
    client: &mut Client,
    near: (&mut L, Peer),
    far: (&mut L, Peer),
    datagram: &[u8],
) -> bool {
    is_sent_twice(far.0, near.1, datagram)
        && is_answered(client, near.0, far.1, Asked::Draw.body(), 2, datagram)
}

/// Returns whether the next datagram is customer 7's Draw with this number.
fn has_come<L: Link>(link: &mut L, from: Peer, number: u32) -> bool {
    let packet = Packet::new(encode_request(&request(number)).bytes());
    link.receive() == Ok(Some((from, packet)))
}

fn nothing_comes<L: Link>(link: &mut L) -> bool {
    link.receive() == Ok(None)
}

/// Asserts that customer 7's Draws with the numbers 1 to 3 arrive, and nothing after them.
fn three_draws_come<L: Link>(rt: &(impl Abort + Eprint), link: &mut L, from: Peer) {
    for number in 1..4u32 {
        assert!(rt; holds(rt, &number, has_come(link, from, number)));
    }
    assert!(rt; nothing_comes(link));
}

/// The replies to customer 7's first three Draws.
const THREE_REPLIES: &'static [&'static [u8]] = &[
    b"S1\x01\x82\0\0\0\x07\0\0\0\x01RAGB\0\0\0\x4e\x20RA000000005GB",
    b"S1\x01\x82\0\0\0\x07\0\0\0\x02RAGB\0\0\0\x4e\x20RA000000014GB",
    b"S1\x01\x82\0\0\0\x07\0\0\0\x03RAGB\x05",
];

#[test]
fn a_client_that_gets_each_datagram_twice_sends_each_frame_once(rt: HostRuntime) {
    let mut near = bound(&rt, 1_000);
    let mut far = bound(&rt, 100);
    let (here, there) = (near.local(), far.local());
    let mut client = Client::new(7, 1, 3).unwrap();
    for (at, reply) in THREE_REPLIES.iter().enumerate() {
        let is_answered = is_answered_twice(
            &mut client,
            (&mut near, here),
            (&mut far, there),
            reply,
        );
        assert!(rt; holds(&rt, &at, is_answered));
    }
    three_draws_come(&rt, &mut far, here);
}

/// Lets receives of a socket wait `wait_ms` milliseconds. Returns whether that succeeds.
fn waits(socket: &UdpSocket, wait_ms: u64) -> bool {
    let wait = Some(Duration::from_millis(wait_ms));
    socket.set_read_timeout(wait).is_ok()
}

/// Returns a socket of this machine whose receives wait `wait_ms` milliseconds.
fn raw_socket<R: Abort + Net>(rt: &R, wait_ms: u64) -> UdpSocket {
    let any = SocketAddr::V4(SocketAddrV4::new(Ipv4Addr::LOCALHOST, 0));
    let socket = UdpSocket::bind(rt, any).expect(rt, "a socket");
    assert!(rt; waits(&socket, wait_ms));
    socket
}

/// Returns the address of a socket.
fn peer_of(socket: &UdpSocket) -> Option<Peer> {
    match socket.local_addr() {
        Ok(SocketAddr::V4(at)) => Some(Peer {
            ip: at.ip().octets(),
            port: at.port(),
        }),
        _ => None,
    }
}

/// The first Grant with one byte more at its end.
const LONGER_GRANT: [u8; 29] = *b"S1\x01\x01\0\0\0\0\0\0\0\x01\0\0\0\x07RAGB\0\0\0\0\0\0\0\x02\0";

/// Sends bytes to a port of this machine. Returns whether all of them were sent.
fn sends_raw(socket: &UdpSocket, port: u16, bytes: &[u8]) -> bool {
    let to = SocketAddr::V4(SocketAddrV4::new(Ipv4Addr::LOCALHOST, port));
    socket.send_to(bytes, to).ok() == Some(bytes.len())
}

/// Returns whether the server's next turn drops a datagram of this sender for its length.
fn drops(server: &mut Server<PlainBook>, link: &mut UdpLink, from: Peer) -> bool {
    serve_one(server, link, 20_000) == Ok(ServerTurn::Dropped(from, WireFault::Length))
        && server.book().len() == 0
}

/// Returns whether the server drops the longer Grant of a socket for its length and sends it
/// nothing.
fn is_dropped(server: &mut Server<PlainBook>, link: &mut UdpLink, socket: &UdpSocket) -> bool {
    match peer_of(socket) {
        Some(from) => {
            sends_raw(socket, link.local().port, &LONGER_GRANT)
                && drops(server, link, from)
                && socket.recv_from(&mut [0u8; 512]).is_err()
        }
        None => false,
    }
}

#[test]
fn a_grant_of_29_bytes_is_dropped_unanswered(rt: HostRuntime) {
    let mut far = bound(&rt, 1_000);
    let socket = raw_socket(&rt, 100);
    let mut server = new_server(rt.alloc(), 100);
    assert!(rt; is_dropped(&mut server, &mut far, &socket));
}
