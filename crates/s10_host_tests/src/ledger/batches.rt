//! Batches of a server over a ledger whose commit fails once.

use crate::ledger::calls::{closed, ledger, settings};
use s10_book::{Batched, BookFault, GroupCommit, TripBook};
use s10_ends::{BatchRoom, Server, ServerTurn, Turn, serve_batch, serve_batch_of_one};
use s10_link::{Packet, Peer, Receipt, ScriptLink};
use s10_test_help::datagrams::{DRAW, DRAWN, GRANT};
use s10_test_help::expect::same;
use std::alloc::{AllocError, Global};
use std::process::Abort;

const PEER: Peer = Peer {
    ip: [10, 0, 0, 7],
    port: 4711,
};

const OTHER: Peer = Peer {
    ip: [10, 0, 0, 8],
    port: 4712,
};

// A datagram and its reply. If the commit fails, the reply to a new call is withheld, and a later
// batch sends it.
struct Case {
    from: Peer,
    request: &'static [u8],
    reply: &'static [u8],
    // Whether its call is not committed yet.
    is_new: bool,
}

// Customer 7's first Draw, which is committed before.
const FIRST: &Case = &Case {
    from: OTHER,
    request: DRAW,
    reply: DRAWN,
    is_new: false,
};

// Customer 7's second Draw.
const SECOND: &Case = &Case {
    from: PEER,
    request: b"S1\x01\x02\0\0\0\x07\0\0\0\x02RAGB",
    reply: b"S1\x01\x82\0\0\0\x07\0\0\0\x02RAGB\0\0\0\x4e\x20RA000000014GB",
    is_new: true,
};

// Customer 7's third Draw.
const THIRD: &Case = &Case {
    from: OTHER,
    request: b"S1\x01\x02\0\0\0\x07\0\0\0\x03RAGB",
    reply: b"S1\x01\x82\0\0\0\x07\0\0\0\x03RAGB\0\0\0\x4e\x20RA000000028GB",
    is_new: true,
};

// Returns a link that delivers both datagrams twice, and whose sends succeed.
fn link(alloc: Global, cases: (&Case, &Case)) -> Result<ScriptLink, AllocError> {
    let (first, second) = cases;
    let one = Receipt::Deliver(first.from, Packet::new(first.request));
    let other = Receipt::Deliver(second.from, Packet::new(second.request));
    let receipts = [one, other, one, other].to_vec(alloc)?;
    ScriptLink::new(alloc, receipts, [true; 4].to_vec(alloc)?)
}

// Returns the book after it committed the Grant and the first Draw.
fn committed<B: GroupCommit>(book: B) -> B {
    let mut server = Server::new(book);
    let _ = server.handle(GRANT, 20_000);
    let _ = server.handle(FIRST.request, 20_000);
    let _ = server.commit();
    server.into_book()
}

// Returns whether a turn is as expected for a datagram, if the commit fails or if it succeeds.
fn is_turn(turn: &Turn, case: &Case, fails: bool) -> bool {
    let is_held = fails && case.is_new;
    match turn {
        Ok(ServerTurn::Replied(to, frame)) => {
            !is_held && *to == case.from && frame.bytes() == case.reply
        }
        Ok(ServerTurn::Uncommitted(to, fault)) => {
            is_held && *to == case.from && *fault == BookFault::Store
        }
        _ => false,
    }
}

// Returns whether a batch over both datagrams, or one turn over the first, ends as expected.
fn ends<B: GroupCommit>(
    room: &mut BatchRoom,
    server: &mut Server<B>,
    link: &mut ScriptLink,
    cases: (&Case, &Case),
    in_batch: bool,
    fails: bool,
) -> bool {
    let (first, second) = cases;
    if !in_batch {
        return is_turn(&serve_batch_of_one(server, link, 20_000), first, fails);
    }
    match serve_batch(room, server, link, 20_000, 2) {
        Ok(()) => {
            let turns = room.turns();
            turns.len() == 2
                && is_turn(&turns[0], first, fails)
                && is_turn(&turns[1], second, fails)
        }
        Err(_) => false,
    }
}

// Returns the book, and whether a batch or turn ends as expected for a failed commit. Also returns
// whether the next one, over the same datagrams, sends all replies.
fn ends_over<B: GroupCommit>(
    alloc: Global,
    book: B,
    cases: (&Case, &Case),
    in_batch: bool,
) -> (B, [bool; 2]) {
    let Ok(mut link) = link(alloc, cases) else {
        return (book, [false; 2]);
    };
    let mut server = Server::new(book);
    let mut room = BatchRoom::new(alloc);
    let at_first = ends(&mut room, &mut server, &mut link, cases, in_batch, true);
    let then = ends(&mut room, &mut server, &mut link, cases, in_batch, false);
    (server.into_book(), [at_first, then])
}

// The same over a book that fails at call `at`, counted from 0, after those that are committed.
fn ends_tripping<B: GroupCommit>(
    alloc: Global,
    book: B,
    at: u64,
    cases: (&Case, &Case),
    in_batch: bool,
) -> (B, [bool; 2]) {
    let book = TripBook::new(committed(book), at);
    let (book, ends) = ends_over(alloc, book, cases, in_batch);
    (book.into_inner(), ends)
}

// Returns for how many of the first 20 calls of the book a failure withholds the replies. Returns
// `None` if one of these replies is not sent afterwards.
fn waits<R: Abort + AllocGlobal>(rt: &R, cases: (&Case, &Case), in_batch: bool) -> Option<u32> {
    let mut count: u32 = 0;
    for at in 0..20u64 {
        let book = Batched::new(ledger(rt, settings(rt, 1000)));
        let (book, [at_first, then]) = ends_tripping(rt.alloc(), book, at, cases, in_batch);
        let _ = closed(book.into_inner());
        if at_first && !then {
            return None;
        }
        count = count.saturating_add(u32::from(at_first));
    }
    Some(count)
}

// Asserts that the failure of only one call of the book, the commit, withholds the replies.
fn wait_once<R: Abort + Eprint + AllocGlobal>(rt: &R, first: &Case, second: &Case) {
    let found = (
        waits(rt, (first, second), true),
        waits(rt, (first, first), false),
    );
    assert!(rt; same(rt, &"batches, and turns", &found, &(Some(1), Some(1))));
}

#[test]
fn no_reply_is_sent_before_its_call_is_committed(rt: HostRuntime) {
    wait_once(&rt, SECOND, THIRD);
}

#[test]
fn a_committed_call_gets_its_reply_while_another_is_pending(rt: HostRuntime) {
    wait_once(&rt, SECOND, FIRST);
}

// Handles a request whose call stays pending, then serves a batch over a repeat of a committed
// call. Returns whether the batch replies, and whether the pending call is committed then.
fn replies_while_pending<R: Abort + AllocGlobal>(rt: &R) -> (bool, bool) {
    let mut server = Server::new(committed(Batched::new(ledger(rt, settings(rt, 1000)))));
    let _ = server.handle(SECOND.request, 20_000);
    let ended = match link(rt.alloc(), (FIRST, FIRST)) {
        Ok(mut link) => ends(
            &mut BatchRoom::new(rt.alloc()),
            &mut server,
            &mut link,
            (FIRST, FIRST),
            true,
            false,
        ),
        Err(_) => false,
    };
    let is_committed = server.is_committed(SECOND.request);
    let _ = closed(server.into_book().into_inner());
    (ended, is_committed)
}

#[test]
fn a_repeat_of_a_committed_call_needs_no_commit(rt: HostRuntime) {
    assert!(rt; same(&rt, &"batch", &replies_while_pending(&rt), &(true, false)));
}
