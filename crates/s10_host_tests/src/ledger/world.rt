//! A ledger in tables, in a world of clients and a network.

ghost use Rattle.std.specs.Prelude.{◌≡◌, IfOk, All, length};
ghost use Rattle.s10_ends.specs.Client.{IsNew};

use crate::ledger::calls::{closed, ledger, settings};
use s10_book::Book;
use s10_ends::{Client, Server};
use s10_history::Entry;
use s10_link::Packet;
use s10_test_help::datagrams::{DRAWN_1, DRAWN_10, GRANTED, STORY_REPLIES};
use s10_test_help::expect::same;
use s10_test_help::story::{Happens, STORY};
use s10_wire::{Frame, Reply, decode_reply};
use s10_world::{Event, World};
use std::alloc::{AllocError, Global};
use std::process::Abort;

const EVENTS: usize = 18;

// Returns the replies to the Grant and to the Draws of both clients. Each reply repeats its
// request.
fn replies(rt: &impl Abort) -> [Reply; 3] {
    match (
        decode_reply(GRANTED),
        decode_reply(DRAWN_1),
        decode_reply(DRAWN_10),
    ) {
        (Ok(granted), Ok(first), Ok(second)) => [granted, first, second],
        _ => panic!(rt),
    }
}

fn event(happens: Happens) -> Event {
    match happens {
        Happens::Submit(client, asked) => Event::Submit {
            client,
            body: asked.body(),
        },
        Happens::Resend(client) => Event::Resend { client },
        Happens::GiveUp(client) => Event::GiveUp { client },
        Happens::ToServer(index, day) => Event::ToServer { index, day },
        Happens::Strange(bytes, day) => Event::Strange {
            packet: Packet::new(bytes),
            day,
        },
        Happens::ToClient(client, index) => Event::ToClient { client, index },
    }
}

/// Returns the events of the story.
fn story() -> [Event; EVENTS] {
    let mut events = [Event::Resend { client: 0 }; EVENTS];
    for at in 0..STORY.len().min(EVENTS) {
        events[at] = event(STORY[at]);
    }
    events
}

fn three_clients(alloc: Global) -> Result<Vec<Client>, AllocError>
    ensures new { IfOk result (λ clients. All IsNew clients.items) }
    ensures three { IfOk result (λ clients. length clients.items ≡ 3) }
{
    let (Ok(post), Ok(first), Ok(second)) = (
        Client::new(0, 1, 9),
        Client::new(7, 1, 9),
        Client::new(7, 10, 19),
    ) else {
        unreachable!();
    };
    let mut clients = Vec::new(alloc);
    clients.push(post)?;
    clients.push(first)?;
    clients.push(second)?;
    Ok(clients)
}

// Returns whether these are the server's replies.
fn server_replied(frames: &[Frame]) -> bool {
    for (frame, bytes) in frames.iter().zip(STORY_REPLIES) {
        if frame.bytes() != *bytes {
            return false;
        }
    }
    frames.len() == STORY_REPLIES.len()
}

// Returns whether each client's request was submitted, whether the post and the first client
// accepted their replies, and whether the server sent its replies.
fn seen<B: Book>(world: &World<B>, replies: &[Reply; 3]) -> [bool; 3] {
    let [granted, first, second] = replies;
    let submitted = [
        (0, granted.request()),
        (1, first.request()),
        (2, second.request()),
    ];
    [
        world.submitted() == submitted.as_slice(),
        world.accepted() == [(0, *granted), (1, *first)].as_slice(),
        server_replied(world.replied()),
    ]
}

fn kept(reply: &Reply) -> Option<Entry> {
    Some(Entry {
        request: reply.request(),
        day: 20_000,
        outcome: reply.outcome(),
    })
}

// Returns whether a book keeps each call once, in order of arrival.
fn are_kept_once<B: Book>(book: &mut B, replies: &[Reply; 3]) -> bool {
    let [granted, first, second] = replies;
    let calls = [book.entry(1), book.entry(2), book.entry(3), book.entry(4)];
    calls
        == [
            Ok(kept(granted)),
            Ok(kept(second)),
            Ok(kept(first)),
            Ok(None),
        ]
}

// Runs the story over a book. Returns the book, and what is seen or `None` if memory is refused.
fn run_story<B: Book>(alloc: Global, book: B, replies: &[Reply; 3]) -> (B, Option<[bool; 3]>) {
    let Ok(clients) = three_clients(alloc) else {
        return (book, None);
    };
    let mut world = World::new(alloc, Server::new(book), clients);
    let seen = match world.run(&story()) {
        Ok(()) => Some(seen(&world, replies)),
        Err(_) => None,
    };
    (world.into_server().into_book(), seen)
}

// The same, and whether the book then keeps each call once.
fn run_and_kept<B: Book>(
    alloc: Global,
    book: B,
    replies: &[Reply; 3],
) -> (B, (Option<[bool; 3]>, bool)) {
    let (mut book, seen) = run_story(alloc, book, replies);
    let are_kept = are_kept_once(&mut book, replies);
    (book, (seen, are_kept))
}

// Each reply is accepted only by its own client.
#[test]
fn a_ledger_in_tables_executes_each_call_of_a_world_once(rt: HostRuntime) {
    let replies = replies(&rt);
    let ledger = ledger(&rt, settings(&rt, 100));
    let (ledger, found) = run_and_kept(rt.alloc(), ledger, &replies);
    let _ = closed(ledger);
    assert!(rt;
        same(
            &rt,
            &"submitted, accepted, replied, and kept",
            &found,
            &(Some([true; 3]), true),
        )
    );
}
