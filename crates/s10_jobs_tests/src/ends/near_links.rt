//! Calls over a link with a server in the same process.

use crate::ends::fixtures::{bound, is_answered, new_server};
use s10_book::Book;
use s10_ends::{Client, NearLink};
use s10_link::{Link, Peer};
use s10_test_help::asked::Asked;
use s10_test_help::datagrams::{DRAWN, GRANTED};
use s10_wire::encode_request;

/// Returns whether the post's Grant and customer 7's Draw get their replies over this link, each in
/// one try, so the server serves before the client receives.
fn both_are_answered<L: Link>(link: &mut L, to: Peer) -> bool {
    let mut post = Client::new(0, 1, 1).unwrap();
    let mut customer = Client::new(7, 1, 1).unwrap();
    is_answered(
        &mut post,
        link,
        to,
        Asked::Grant(7, 0, 2).body(),
        1,
        GRANTED,
    ) && is_answered(&mut customer, link, to, Asked::Draw.body(), 1, DRAWN)
}

/// Returns whether the first receive that does not wait gives the reply to the post's Grant.
fn is_answered_without_waiting<L: Link>(link: &mut L, to: Peer) -> bool {
    let mut post = Client::new(0, 1, 1).unwrap();
    let Ok(request) = post.submit(Asked::Grant(7, 0, 2).body()) else {
        return false;
    };
    let Ok(()) = link.send(to, &encode_request(&request)) else {
        return false;
    };
    match link.try_receive() {
        Ok(Some((_, packet))) => packet.bytes() == GRANTED,
        _ => false,
    }
}

#[test]
fn calls_are_served_over_loopback(rt: HostRuntime) {
    let far = bound(&rt, 1_000);
    let to = far.local();
    let mut link = NearLink {
        server: new_server(rt.alloc(), 100),
        far,
        near: bound(&rt, 1_000),
        day: 20_000,
    };
    assert!(rt; both_are_answered(&mut link, to));
    assert!(rt; link.server.book().len() == 2);
}

#[test]
fn a_near_link_serves_before_it_receives(rt: HostRuntime) {
    let far = bound(&rt, 1_000);
    let to = far.local();
    let mut link = NearLink {
        server: new_server(rt.alloc(), 100),
        far,
        near: bound(&rt, 1_000),
        day: 20_000,
    };
    assert!(rt; is_answered_without_waiting(&mut link, to));
}
