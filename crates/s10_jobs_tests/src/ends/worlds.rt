//! Worlds in which the story happens.

use crate::ends::fixtures::empty_book;
use crate::ends::odd_worlds::are_frames;
use crate::ends::story::world_after;
use s10_book::{Book, TripBook};
use s10_test_help::datagrams::{DRAW, DRAW_10, DRAWN_1, DRAWN_10, GRANT, GRANTED, STORY_REPLIES};
use s10_test_help::story::STORY;
use s10_wire::{Reply, Request, encode_reply, encode_request};
use s10_world::World;
use std::alloc::{AllocError, Global};
use std::process::Abort;

/// The clients that submitted, and the datagrams of their requests.
const SUBMITTED: &'static [(u32, &'static [u8])] = &[(0, GRANT), (1, DRAW), (2, DRAW_10)];

/// The clients that accepted, and the datagrams of their replies.
const ACCEPTED: &'static [(u32, &'static [u8])] = &[(0, GRANTED), (1, DRAWN_1)];

const ASKED: &'static [&'static [u8]] = &[GRANT, DRAW, DRAW_10];

/// Returns whether these clients submitted exactly these requests, in this order.
fn are_submitted(submitted: &[(u32, Request)], told: &[(u32, &[u8])]) -> bool {
    if submitted.len() != told.len() {
        return false;
    }
    for at in 0..submitted.len() {
        let (client, request) = &submitted[at];
        if *client != told[at].0 || encode_request(request).bytes() != told[at].1 {
            return false;
        }
    }
    true
}

/// Returns whether these clients accepted exactly these replies, in this order.
fn are_accepted(accepted: &[(u32, Reply)], told: &[(u32, &[u8])]) -> bool {
    if accepted.len() != told.len() {
        return false;
    }
    for at in 0..accepted.len() {
        let (client, reply) = &accepted[at];
        if *client != told[at].0 || encode_reply(reply).bytes() != told[at].1 {
            return false;
        }
    }
    true
}

/// Returns whether call number `at` of a book is on day 20000 and has this request and reply.
fn holds<B: Book>(book: &mut B, at: u32, request: &[u8], reply: &[u8]) -> bool {
    let Ok(Some(entry)) = book.entry(at) else {
        return false;
    };
    match &Reply::new(entry.request, entry.outcome) {
        Some(kept) => {
            entry.day == 20_000
                && encode_request(&entry.request).bytes() == request
                && encode_reply(kept).bytes() == reply
        }
        None => false,
    }
}

/// Asserts that the lists of a world are those of the story.
fn are_reported<B: Book>(rt: &impl Abort, world: &World<B>) {
    assert!(rt; are_submitted(world.submitted(), SUBMITTED));
    assert!(rt; are_accepted(world.accepted(), ACCEPTED));
    assert!(rt; are_frames(world.asked(), ASKED));
    assert!(rt; are_frames(world.replied(), STORY_REPLIES));
}

/// Asserts that a book has the three calls of the story.
fn are_held<B: Book>(rt: &(impl Abort + Eprint), book: &mut B) {
    assert!(rt; book.len() == 3);
    assert!(rt; holds(book, 1, GRANT, GRANTED));
    assert!(rt; holds(book, 2, DRAW_10, DRAWN_10));
    assert!(rt; holds(book, 3, DRAW, DRAWN_1));
}

#[test]
fn each_call_is_executed_once_and_its_reply_accepted_by_its_own_client(rt: HostRuntime) {
    let Some(world) = world_after(rt.alloc(), empty_book(rt.alloc(), 100), STORY) else {
        panic!(rt; "the story");
    };
    are_reported(&rt, &world);
    are_held(&rt, &mut world.into_server().into_book());
}

/// Returns whether the client submitted this request.
fn is_asked_for(submitted: &[(u32, Request)], client: u32, request: &Request) -> bool {
    for sent in submitted {
        if sent.0 == client && sent.1 == *request {
            return true;
        }
    }
    false
}

/// Returns whether the book keeps a reply's request with its outcome.
fn keeps<B: Book>(book: &mut B, reply: &Reply) -> bool {
    let request = reply.request();
    match book.find(request.customer, request.number) {
        Ok(Some(entry)) => entry.request == request && entry.outcome == reply.outcome(),
        _ => false,
    }
}

/// Returns whether each accepted reply was asked for by its client and is kept by the book.
fn agree<B: Book>(book: &mut B, submitted: &[(u32, Request)], accepted: &[(u32, Reply)]) -> bool {
    for (client, reply) in accepted {
        if !is_asked_for(submitted, *client, &reply.request()) || !keeps(book, reply) {
            return false;
        }
    }
    true
}

/// Returns whether each reply that a world's clients accepted was asked for and agrees with its
/// history.
fn accepted_agree<B: Book + Drop>(alloc: Global, world: World<B>) -> Result<bool, AllocError> {
    let submitted = world.submitted().to_vec(alloc)?;
    let accepted = world.accepted().to_vec(alloc)?;
    let mut book = world.into_server().into_book();
    Ok(agree(&mut book, &submitted, &accepted))
}

/// Returns how many replies a world of this book sends. Returns `None` if these are four and the
/// accepted replies do not agree with the history.
fn replies_that_agree<B: Book + Drop>(alloc: Global, book: B) -> Option<usize> {
    let world = world_after(alloc, book, STORY)?;
    let replied = world.replied().len();
    if replied != 4 || accepted_agree(alloc, world) == Ok(true) {
        Some(replied)
    } else {
        None
    }
}

/// Returns the first call of the book, counted from 0, whose failure does not leave four replies
/// that agree, and the number of replies then. The run makes no such call if all five replies are
/// sent.
fn first_without_failure(alloc: Global) -> (u64, Option<usize>) {
    for at in 0..100u64 {
        let book = TripBook::new(empty_book(alloc, 100), at);
        let replied = replies_that_agree(alloc, book);
        if replied != Some(4) {
            return (at, replied);
        }
    }
    (100, None)
}

// A failure at each call of the book in turn costs one reply, and the run continues.
#[test]
fn accepted_replies_agree_with_a_book_that_failed(rt: HostRuntime) {
    let (at, replied) = first_without_failure(rt.alloc());
    assert!(rt; replied == Some(5), "at {at}");
    assert!(rt; 4 < at);
}
