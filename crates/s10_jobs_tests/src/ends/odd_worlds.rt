//! Worlds with strange bytes and with a full book.

use crate::ends::fixtures::empty_book;
use crate::ends::story::world_after;
use s10_book::Book;
use s10_test_help::asked::Asked;
use s10_test_help::datagrams::{DRAW, DRAWN, GRANTED};
use s10_test_help::story::{Happens, STORY};
use s10_wire::{Frame, Reply};
use s10_world::World;
use std::alloc::Global;

/// Bytes that are no request, and a Draw of customer 7 that no client submitted, before the
/// client's own with that number.
const STRANGE_BYTES: &'static [Happens] = &[
    Happens::Strange(b"S1", 20_000),
    Happens::Submit(0, Asked::Grant(7, 0, 2)),
    Happens::Resend(0),
    Happens::ToServer(0, 20_000),
    Happens::ToClient(0, 0),
    Happens::Strange(DRAW, 20_000),
    Happens::Submit(1, Asked::Draw),
    Happens::Resend(1),
    Happens::ToServer(1, 20_001),
    Happens::ToClient(1, 2),
];

/// What is expected of a world after its events.
#[derive(Clone, Copy)]
pub struct Expected<'a> {
    /// The server's replies, in order.
    pub replied: &'a [&'a [u8]],
    /// The number of requests submitted.
    pub submitted: usize,
    /// The number of replies accepted.
    pub accepted: usize,
    /// The number of calls of the book.
    pub calls: u32,
}

/// Returns whether these are the frames, in order.
pub(crate) fn are_frames(frames: &[Frame], datagrams: &[&[u8]]) -> bool {
    if frames.len() != datagrams.len() {
        return false;
    }
    for at in 0..frames.len() {
        if frames[at].bytes() != datagrams[at] {
            return false;
        }
    }
    true
}

/// Returns whether the client accepted a reply with this number.
fn has_accepted(accepted: &[(u32, Reply)], client: u32, number: u32) -> bool {
    for (by, reply) in accepted {
        if *by == client && reply.request().number == number {
            return true;
        }
    }
    false
}

/// Returns whether no client accepted two replies with one number.
fn are_accepted_once(accepted: &[(u32, Reply)]) -> bool {
    for at in 0..accepted.len() {
        let (client, reply) = &accepted[at];
        if has_accepted(&accepted[..at], *client, reply.request().number) {
            return false;
        }
    }
    true
}

/// Returns whether a world is as expected.
fn is_as_expected<B: Book>(world: &World<B>, expected: &Expected<'_>) -> bool {
    are_frames(world.replied(), expected.replied)
        && are_accepted_once(world.accepted())
        && world.submitted().len() == expected.submitted
        && world.accepted().len() == expected.accepted
        && world.server().book().len() == expected.calls
}

/// Returns whether a world is as expected after a story over an empty book with this limit.
pub(crate) fn ends_as_expected(
    alloc: Global,
    limit: u32,
    story: &[Happens],
    expected: &Expected<'_>,
) -> bool {
    match &world_after(alloc, empty_book(alloc, limit), story) {
        Some(world) => is_as_expected(world, expected),
        None => false,
    }
}

/// The Draw in strange bytes is executed, and the client's own is a repeat of it.
const ASKED_ONCE: Expected<'static> = Expected {
    replied: &[GRANTED, DRAWN, DRAWN],
    submitted: 2,
    accepted: 2,
    calls: 2,
};

#[test]
fn strange_bytes_that_are_a_request_are_executed_once(rt: HostRuntime) {
    assert!(rt; ends_as_expected(rt.alloc(), 100, STRANGE_BYTES, &ASKED_ONCE));
}

/// A book with a limit of one call keeps only the Grant.
const FULL: Expected<'static> = Expected {
    replied: &[GRANTED],
    submitted: 3,
    accepted: 1,
    calls: 1,
};

#[test]
fn a_full_book_keeps_no_new_call(rt: HostRuntime) {
    assert!(rt; ends_as_expected(rt.alloc(), 1, STORY, &FULL));
}
