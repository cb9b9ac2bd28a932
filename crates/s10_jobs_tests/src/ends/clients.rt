//! Clients, and the datagrams that they accept as replies.

use crate::ends::fixtures::request;
use s10_ends::{BadNumbers, Client, Received, SubmitFault};
use s10_test_help::asked::Asked;
use s10_test_help::expect::holds;
use s10_wire::{WireFault, encode_reply};
use std::process::Abort;

/// The datagram of customer 7's Draw of RA GB with number 5.
const REQUEST: &[u8] = b"S1\x01\x02\0\0\0\x07\0\0\0\x05RAGB";

/// The reply to it: RA000000005GB, issued on day 20000.
const REPLY: &[u8] = b"S1\x01\x82\0\0\0\x07\0\0\0\x05RAGB\0\0\0\x4e\x20RA000000005GB";

/// A reply to another request: NoRange to customer 8's Draw of RA GB with number 5.
const OTHER: &[u8] = b"S1\x01\x82\0\0\0\x08\0\0\0\x05RAGB\x04";

/// A step of a client of customer 7.
#[derive(Clone, Copy)]
enum Step {
    /// It has used no number and has nothing to send.
    IsUnused,
    /// It submits a Draw, which gets this number.
    Takes(u32),
    /// It submits no Draw, with this fault.
    Refuses(SubmitFault),
    /// It sends this datagram for its pending Draw with this number.
    Sends(u32, &'static [u8]),
    /// It receives a malformed datagram with this fault, and the same request stays pending.
    Drops(&'static [u8], WireFault),
    /// It receives a reply to another request, and the same request stays pending.
    PassesOver(&'static [u8]),
    /// It receives a datagram while idle, and stays idle.
    Ignores(&'static [u8]),
    /// It accepts this datagram as its reply, and is idle then.
    Accepts(&'static [u8]),
    /// It gives up the Draw with this number, and is idle then.
    GivesUp(u32),
}

fn is_sending(client: &Client, number: u32, datagram: &[u8]) -> bool {
    match client.resend() {
        Some(frame) => {
            !client.is_new()
                && client.pending() == Some(request(number))
                && frame.bytes() == datagram
        }
        None => false,
    }
}

fn passes_over(client: &mut Client, datagram: &[u8], received: Received) -> bool {
    let pending = client.pending();
    client.receive(datagram) == received && client.pending() == pending
}

fn accepts(client: &mut Client, datagram: &[u8]) -> bool {
    match client.receive(datagram) {
        Received::Accepted(reply) => {
            encode_reply(&reply).bytes() == datagram && client.pending().is_none()
        }
        _ => false,
    }
}

fn goes(client: &mut Client, step: Step) -> bool {
    match step {
        Step::IsUnused => client.is_new() && client.customer() == 7 && client.resend().is_none(),
        Step::Takes(number) => client.submit(Asked::Draw.body()) == Ok(request(number)),
        Step::Refuses(fault) => client.submit(Asked::Draw.body()) == Err(fault),
        Step::Sends(number, datagram) => is_sending(client, number, datagram),
        Step::Drops(datagram, fault) => passes_over(client, datagram, Received::Malformed(fault)),
        Step::PassesOver(datagram) => passes_over(client, datagram, Received::NotMine),
        Step::Ignores(datagram) => passes_over(client, datagram, Received::Idle),
        Step::Accepts(datagram) => accepts(client, datagram),
        Step::GivesUp(number) => {
            client.give_up() == Some(request(number)) && client.give_up().is_none()
        }
    }
}

/// Asserts that a client of customer 7 with the numbers `first` to `last` performs the steps.
fn go_through(rt: &(impl Abort + Eprint), first: u32, last: u32, steps: &[Step]) {
    let Ok(mut client) = Client::new(7, first, last) else {
        panic!(rt; "no client");
    };
    for (at, step) in steps.iter().enumerate() {
        assert!(rt; holds(rt, &at, goes(&mut client, *step)));
    }
}

/// A reply arrives before its request is submitted, after other datagrams, and again.
const OWN_CALL: &'static [Step] = &[
    Step::IsUnused,
    Step::Ignores(REPLY),
    Step::Takes(5),
    Step::Refuses(SubmitFault::Busy),
    Step::Sends(5, REQUEST),
    Step::PassesOver(OTHER),
    Step::Drops(b"S1", WireFault::Short),
    Step::Drops(REQUEST, WireFault::Kind),
    Step::Sends(5, REQUEST),
    Step::Accepts(REPLY),
    Step::Ignores(REPLY),
    Step::Refuses(SubmitFault::NumbersSpent),
];

#[test]
fn a_reply_is_accepted_only_by_its_own_call(rt: HostRuntime) {
    go_through(&rt, 5, 5, OWN_CALL);
}

const GIVEN_UP: &'static [Step] = &[
    Step::Takes(5),
    Step::GivesUp(5),
    Step::Ignores(REPLY),
    Step::Takes(6),
    Step::GivesUp(6),
    Step::Refuses(SubmitFault::NumbersSpent),
];

#[test]
fn a_number_given_up_stays_spent(rt: HostRuntime) {
    go_through(&rt, 5, 6, GIVEN_UP);
}

const LAST_NUMBER: &'static [Step] = &[
    Step::Takes(4_294_967_295),
    Step::GivesUp(4_294_967_295),
    Step::Refuses(SubmitFault::NumbersSpent),
];

#[test]
fn numbers_end_with_the_last(rt: HostRuntime) {
    assert!(rt; matches!(&Client::new(7, 6, 5), Err(BadNumbers)));
    go_through(&rt, 4_294_967_295, 4_294_967_295, LAST_NUMBER);
}
