//! Batches of a server over links that follow a script.

use crate::ends::fixtures::{Sent, granted_server, has_sent, new_server};
use crate::ends::turn_ends::{Ends, is_expected_turn};
use crate::links::{Meets, link_of};
use s10_book::{Book, BookFault, GroupCommit, TripBook};
use s10_ends::{BatchRoom, Server, Turn, serve_batch};
use s10_link::{Link, LinkFault, Peer, ScriptLink};
use s10_test_help::datagrams::{DRAW, DRAWN, GRANT, GRANTED, SECOND_DRAW, SECOND_DRAWN};
use s10_test_help::expect::holds;
use s10_wire::WireFault;
use std::alloc::Global;

const PEER: Peer = Peer {
    ip: [10, 0, 0, 7],
    port: 4711,
};

const OTHER: Peer = Peer {
    ip: [10, 0, 0, 8],
    port: 4712,
};

/// A batch: its limit of datagrams, the ends of its turns, and the number of replies sent after it.
type Batch = (u32, &'static [Ends], usize);

/// A script of a link, and what is expected of the batches over it.
#[derive(Clone, Copy)]
struct Script {
    /// What each receive gives.
    receipts: &'static [Meets],
    /// Whether each send succeeds.
    sends: &'static [bool],
    batches: &'static [Batch],
    /// The replies that are sent, in order.
    replies: &'static [Sent],
    /// The number of calls of the link.
    calls: u64,
}

/// A Grant, a Draw, a datagram that is no request, a second Draw, and the first Draw again, from
/// two peers.
const FIVE_RECEIPTS: &'static [Meets] = &[
    Meets::Bytes(OTHER, GRANT),
    Meets::Bytes(PEER, DRAW),
    Meets::Bytes(OTHER, b"S1"),
    Meets::Bytes(PEER, SECOND_DRAW),
    Meets::Bytes(OTHER, DRAW),
];

/// The replies to them, each to the sender of its request.
const FOUR_REPLIES: &'static [Sent] = &[
    (OTHER, GRANTED),
    (PEER, DRAWN),
    (PEER, SECOND_DRAWN),
    (OTHER, DRAWN),
];

/// Returns whether the turns end as expected, in order.
fn end_as_expected(turns: &[Turn], expected: &[Ends]) -> bool {
    if turns.len() != expected.len() {
        return false;
    }
    for at in 0..turns.len() {
        if !is_expected_turn(&turns[at], &expected[at]) {
            return false;
        }
    }
    true
}

/// Returns whether the next batch ends as expected.
fn serves<B: GroupCommit>(
    room: &mut BatchRoom,
    server: &mut Server<B>,
    link: &mut ScriptLink,
    batch: &Batch,
) -> bool {
    let (most, expected, sent) = *batch;
    if most < 1 {
        return false;
    }
    match serve_batch(room, server, link, 20_000, most) {
        Ok(()) => end_as_expected(room.turns(), expected) && link.log().len() == sent,
        Err(_) => false,
    }
}

/// Returns whether the batches of a script, one after another, and its replies and calls of the
/// link are as expected.
fn follows_script<B: GroupCommit>(alloc: Global, server: &mut Server<B>, script: &Script) -> bool {
    let Ok(mut link) = link_of(alloc, script.receipts, script.sends) else {
        return false;
    };
    let mut room = BatchRoom::new(alloc);
    for batch in script.batches {
        if !serves(&mut room, server, &mut link, batch) {
            return false;
        }
    }
    has_sent(&link, script.replies) && link.counts().calls == script.calls
}

/// Returns whether a script over an empty book ends as expected and leaves n calls in the book.
fn leaves(alloc: Global, script: &Script, calls: u32) -> bool {
    let mut server = new_server(alloc, 100);
    follows_script(alloc, &mut server, script) && server.book().len() == calls
}

/// All five datagrams are in one batch.
const ONE_BATCH: Script = Script {
    receipts: FIVE_RECEIPTS,
    sends: &[true; 4],
    batches: &[(
        8,
        &[
            Ends::Replied(OTHER, GRANTED),
            Ends::Replied(PEER, DRAWN),
            Ends::Dropped(OTHER, WireFault::Short),
            Ends::Replied(PEER, SECOND_DRAWN),
            Ends::Replied(OTHER, DRAWN),
        ],
        4,
    )],
    replies: FOUR_REPLIES,
    calls: 10,
};

#[test]
fn each_reply_goes_to_its_sender_in_order(rt: HostRuntime) {
    assert!(rt; leaves(rt.alloc(), &ONE_BATCH, 3));
}

/// Each batch receives up to two datagrams.
const THREE_BATCHES: Script = Script {
    receipts: FIVE_RECEIPTS,
    sends: &[true; 4],
    batches: &[
        (
            2,
            &[Ends::Replied(OTHER, GRANTED), Ends::Replied(PEER, DRAWN)],
            2,
        ),
        (
            2,
            &[
                Ends::Dropped(OTHER, WireFault::Short),
                Ends::Replied(PEER, SECOND_DRAWN),
            ],
            3,
        ),
        (2, &[Ends::Replied(OTHER, DRAWN)], 4),
    ],
    replies: FOUR_REPLIES,
    calls: 10,
};

#[test]
fn a_batch_leaves_the_rest_for_the_next(rt: HostRuntime) {
    assert!(rt; leaves(rt.alloc(), &THREE_BATCHES, 3));
}

/// A receive fails between a Grant and a Draw.
const FAILED_RECEIVE: Script = Script {
    receipts: &[
        Meets::Bytes(OTHER, GRANT),
        Meets::Fault,
        Meets::Bytes(PEER, DRAW),
    ],
    sends: &[true; 2],
    batches: &[
        (
            8,
            &[
                Ends::Replied(OTHER, GRANTED),
                Ends::Failed(LinkFault::Receive),
            ],
            1,
        ),
        (8, &[Ends::Replied(PEER, DRAWN)], 2),
    ],
    replies: &[(OTHER, GRANTED), (PEER, DRAWN)],
    calls: 6,
};

#[test]
fn a_failed_receive_is_reported_after_the_datagrams(rt: HostRuntime) {
    assert!(rt; leaves(rt.alloc(), &FAILED_RECEIVE, 2));
}

/// Batches over no receipt, over a receive that gives nothing, and over a receive that fails.
const LONE_BATCHES: &'static [Script] = &[
    Script {
        receipts: &[],
        sends: &[],
        batches: &[(8, &[Ends::Quiet], 0)],
        replies: &[],
        calls: 1,
    },
    Script {
        receipts: &[Meets::Nothing],
        sends: &[],
        batches: &[(8, &[Ends::Quiet], 0)],
        replies: &[],
        calls: 1,
    },
    Script {
        receipts: &[Meets::Fault],
        sends: &[],
        batches: &[(8, &[Ends::Failed(LinkFault::Receive)], 0)],
        replies: &[],
        calls: 1,
    },
];

#[test]
fn a_batch_without_a_datagram_is_one_turn(rt: HostRuntime) {
    for (at, script) in LONE_BATCHES.iter().enumerate() {
        assert!(rt; holds(&rt, &at, leaves(rt.alloc(), script, 0)));
    }
}

/// The second send fails, and the fourth finds no send left.
const FAILED_SENDS: Script = Script {
    receipts: FIVE_RECEIPTS,
    sends: &[true, false, true],
    batches: &[(
        8,
        &[
            Ends::Replied(OTHER, GRANTED),
            Ends::Failed(LinkFault::Send),
            Ends::Dropped(OTHER, WireFault::Short),
            Ends::Replied(PEER, SECOND_DRAWN),
            Ends::Failed(LinkFault::Spent),
        ],
        2,
    )],
    replies: &[(OTHER, GRANTED), (PEER, SECOND_DRAWN)],
    calls: 9,
};

#[test]
fn a_failed_send_leaves_the_other_replies(rt: HostRuntime) {
    assert!(rt; leaves(rt.alloc(), &FAILED_SENDS, 3));
}

/// Two Draws are in one batch, which sends both replies.
const TWO_DRAWS: Script = Script {
    receipts: &[Meets::Bytes(PEER, DRAW), Meets::Bytes(OTHER, SECOND_DRAW)],
    sends: &[true; 2],
    batches: &[(
        2,
        &[
            Ends::Replied(PEER, DRAWN),
            Ends::Replied(OTHER, SECOND_DRAWN),
        ],
        2,
    )],
    replies: &[(PEER, DRAWN), (OTHER, SECOND_DRAWN)],
    calls: 4,
};

/// Returns whether a server over the book follows a script, and the fault of a commit after it.
fn served_then_commits<B: GroupCommit + Drop>(
    alloc: Global,
    book: B,
    script: &Script,
) -> (bool, Option<BookFault>) {
    let mut server = Server::new(book);
    let is_served = follows_script(alloc, &mut server, script);
    (is_served, server.commit().err())
}

/// The same for two Draws, over a book with the first Grant that fails at call `at` from then on,
/// counted from 0.
fn served_then_committed(alloc: Global, at: u64) -> (bool, Option<BookFault>) {
    let book = granted_server(alloc, 100).into_book();
    served_then_commits(alloc, TripBook::new(book, at), &TWO_DRAWS)
}

/// Returns for how many of the first 20 calls of the book a failure keeps a reply from being sent.
fn faulted_batches(alloc: Global) -> u64 {
    let mut faulted: u64 = 0;
    for at in 0..20u64 {
        if !served_then_committed(alloc, at).0 {
            faulted = faulted.saturating_add(1);
        }
    }
    faulted
}

// A book in memory commits each call when it keeps it, so the batch needs no commit of its own: the
// first call of the book after those for the two Draws is the commit after the batch.
#[test]
fn a_batch_whose_calls_are_committed_tries_no_commit(rt: HostRuntime) {
    let own = faulted_batches(rt.alloc());
    let next = own.saturating_add(1);
    assert!(rt; served_then_committed(rt.alloc(), own) == (true, Some(BookFault::Store)));
    assert!(rt; served_then_committed(rt.alloc(), next) == (true, None));
}

/// Two datagrams that ask nothing, then no datagram.
const NOTHING_ASKED: Script = Script {
    receipts: &[
        Meets::Bytes(PEER, b"S1"),
        Meets::Bytes(OTHER, b"S1"),
        Meets::Nothing,
    ],
    sends: &[],
    batches: &[(
        8,
        &[
            Ends::Dropped(PEER, WireFault::Short),
            Ends::Dropped(OTHER, WireFault::Short),
        ],
        0,
    )],
    replies: &[],
    calls: 3,
};

// The first call of the book fails. It is the commit after the batch, not a call of the batch.
#[test]
fn a_batch_without_a_reply_reaches_no_book(rt: HostRuntime) {
    let book = TripBook::new(granted_server(rt.alloc(), 100).into_book(), 0);
    let found = served_then_commits(rt.alloc(), book, &NOTHING_ASKED);
    assert!(rt; found == (true, Some(BookFault::Store)));
}
