//! Servers over books, scripted links, and calls, for several of these tests.

use s10_book::{Book, PlainBook};
use s10_ends::{Client, Server, call};
use s10_history::Settings;
use s10_link::{Link, Peer, ScriptLink, UdpLink};
use s10_test_help::asked::Asked;
use s10_test_help::datagrams::GRANT;
use s10_wire::{Body, Request, encode_reply};
use std::alloc::Global;
use std::net::Net;
use std::process::Abort;

/// A port of this machine that the operating system chooses.
pub const ANY_PORT: Peer = Peer {
    ip: [127, 0, 0, 1],
    port: 0,
};

/// Returns a link of a socket of this machine whose receives wait `wait_ms` milliseconds.
pub(crate) fn bound<R: Abort + Net>(rt: &R, wait_ms: u32) -> UdpLink {
    UdpLink::bind(rt, ANY_PORT, wait_ms).expect(rt, "a socket")
}

/// Returns customer 7's Draw of RA GB with this number.
pub(crate) fn request(number: u32) -> Request {
    Request {
        customer: 7,
        number,
        body: Asked::Draw.body(),
    }
}

/// Returns an empty book with an interval of 30 days and a limit clamped to 1 to 100 calls.
pub(crate) fn empty_book(alloc: Global, limit: u32) -> PlainBook {
    PlainBook::new(alloc, Settings::new(30, limit.max(1).min(100)).unwrap())
}

/// Returns a server over an empty book.
pub(crate) fn new_server(alloc: Global, limit: u32) -> Server<PlainBook> {
    Server::new(empty_book(alloc, limit))
}

/// Returns a server that has executed the first Grant.
pub(crate) fn granted_server(alloc: Global, limit: u32) -> Server<PlainBook> {
    let mut server = new_server(alloc, limit);
    let _ = server.handle(GRANT, 20_000);
    server
}

/// Returns whether two books are equal in length and in their first six calls.
pub(crate) fn have_one_history<B: Book>(one: &mut B, other: &mut B) -> bool {
    for at in 1..7u32 {
        let (Ok(entry), Ok(same)) = (one.entry(at), other.entry(at)) else {
            return false;
        };
        if entry != same {
            return false;
        }
    }
    one.len() == other.len()
}

/// The address that a datagram is sent to, and its bytes.
pub type Sent = (Peer, &'static [u8]);

/// Returns whether the link sent exactly these datagrams, in this order.
pub(crate) fn has_sent(link: &ScriptLink, sent: &[Sent]) -> bool {
    let log = link.log();
    if log.len() != sent.len() {
        return false;
    }
    for at in 0..log.len() {
        if log[at].0 != sent[at].0 || log[at].1.bytes() != sent[at].1 {
            return false;
        }
    }
    true
}

/// Returns whether the client's next call accepts this datagram as its reply, in 1 to 100 tries.
pub(crate) fn is_answered<L: Link>(
    client: &mut Client,
    link: &mut L,
    to: Peer,
    body: Body,
    tries: u32,
    datagram: &[u8],
) -> bool {
    match call(client, link, to, body, tries.max(1).min(100)) {
        Ok(reply) => encode_reply(&reply).bytes() == datagram,
        Err(_) => false,
    }
}
