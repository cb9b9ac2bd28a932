//! Which receives of a server and of a client wait for a datagram.

use crate::ends::fixtures::{granted_server, is_answered};
use crate::links::{Meets, link_of};
use s10_book::PlainBook;
use s10_ends::{BatchRoom, Client, NearLink, serve_batch, serve_batch_of_one, serve_one};
use s10_link::{Counts, Link, LinkFault, Packet, Peer, ScriptLink};
use s10_test_help::asked::Asked;
use s10_test_help::datagrams::{DRAW, DRAWN, SECOND_DRAW};
use s10_test_help::expect::same;
use s10_wire::Frame;
use std::alloc::Global;
use std::fmt::Debug;

const PEER: Peer = Peer {
    ip: [10, 0, 0, 7],
    port: 4711,
};

/// How a datagram was asked for.
#[derive(Clone, Copy, Debug, PartialEq, Eq)]
enum Asks {
    Waits,
    Looks,
}

use Asks::{Looks, Waits};

/// A link that follows a script, and lists how each datagram was asked for.
#[derive(Drop)]
struct ListingLink {
    script: ScriptLink,
    asked: Vec<Asks>,
}

impl ListingLink {
    /// Returns a link whose receives give these, and which can send three datagrams.
    fn over(alloc: Global, receipts: &[Meets]) -> Option<ListingLink> {
        let script = link_of(alloc, receipts, &[true; 3]).ok()?;
        Some(ListingLink {
            script,
            asked: Vec::new(alloc),
        })
    }
}

impl Link for ListingLink {
    ghost use Rattle.std.specs.Prelude.{◌≡◌, Err};
    ghost use Rattle.s10_link.specs.Link.{Receives, Sends};
    ghost use Rattle.s10_link.specs.ScriptLink.{HasNoSend};

    ghost trace_of = { λ link. link.script.trace };

    ghost spent = { λ link. HasNoSend link.script };

    fn receive(&mut self) -> Result<Option<(Peer, Packet)>, LinkFault> {
        let _ = self.asked.push(Waits);
        self.script.receive()
    }

    fn try_receive(&mut self) -> Result<Option<(Peer, Packet)>, LinkFault> {
        let _ = self.asked.push(Looks);
        self.script.try_receive()
    }

    fn send(&mut self, to: Peer, frame: &Frame) -> Result<(), LinkFault> {
        self.script.send(to, frame)
    }

    fn counts(&self) -> Counts {
        self.script.counts()
    }
}

/// Returns whether datagrams were asked for like this. Prints the case if not.
fn are<C: Debug>(rt: &impl Eprint, case: &C, found: Option<Vec<Asks>>, wanted: &[Asks]) -> bool {
    match found {
        Some(asked) => same(rt, case, &asked.as_slice(), &wanted),
        None => false,
    }
}

/// Returns how a batch of at most `most` datagrams asks for them, if they arrive like this.
fn asked_by_batch(alloc: Global, receipts: &[Meets], most: u32) -> Option<Vec<Asks>> {
    let mut link = ListingLink::over(alloc, receipts)?;
    let mut server = granted_server(alloc, 100);
    let mut room = BatchRoom::new(alloc);
    serve_batch(&mut room, &mut server, &mut link, 20_000, most.max(1)).ok()?;
    Some(link.asked)
}

const TWO: &[Meets] = &[Meets::Bytes(PEER, DRAW), Meets::Bytes(PEER, SECOND_DRAW)];

/// What arrives, the most datagrams of the batch, and how they are asked for.
const BATCHES: &[(&[Meets], u32, &[Asks])] = &[
    (&[], 8, &[Waits]),
    (&[Meets::Fault], 8, &[Waits]),
    (TWO, 1, &[Waits]),
    (TWO, 2, &[Waits, Looks]),
    (TWO, 8, &[Waits, Looks, Looks]),
];

#[test]
fn a_batch_waits_for_its_first_datagram_alone(rt: HostRuntime) {
    for (receipts, most, asked) in BATCHES {
        let found = asked_by_batch(rt.alloc(), receipts, *most);
        assert!(rt; are(&rt, most, found, asked));
    }
}

/// Returns how the turns of one datagram ask for it, one of each kind.
fn asked_by_turns(alloc: Global) -> Option<Vec<Asks>> {
    let mut link = ListingLink::over(alloc, TWO)?;
    let mut server = granted_server(alloc, 100);
    let _ = serve_one(&mut server, &mut link, 20_000);
    let _ = serve_batch_of_one(&mut server, &mut link, 20_000);
    Some(link.asked)
}

#[test]
fn a_turn_of_one_datagram_waits_for_it(rt: HostRuntime) {
    assert!(rt; are(&rt, &"turns", asked_by_turns(rt.alloc()), &[Waits, Waits]));
}

/// Returns how a call of two tries asks for its reply. The first try gets nothing, the second one
/// another reply before its own.
fn asked_by_call(alloc: Global) -> Option<Vec<Asks>> {
    let receipts = &[
        Meets::Nothing,
        Meets::Bytes(PEER, DRAW),
        Meets::Bytes(PEER, DRAWN),
    ];
    let mut link = ListingLink::over(alloc, receipts)?;
    let mut client = Client::new(7, 1, 1).ok()?;
    if !is_answered(&mut client, &mut link, PEER, Asked::Draw.body(), 2, DRAWN) {
        return None;
    }
    Some(link.asked)
}

#[test]
fn a_call_waits_for_each_datagram(rt: HostRuntime) {
    assert!(rt;
        are(
            &rt,
            &"call",
            asked_by_call(rt.alloc()),
            &[Waits, Waits, Waits]
        )
    );
}

/// Returns a link to a near server that waited for a datagram, and then looked for one.
fn used_near_link(alloc: Global) -> Option<NearLink<PlainBook, ListingLink, ListingLink>> {
    let mut link = NearLink {
        server: granted_server(alloc, 100),
        far: ListingLink::over(alloc, TWO)?,
        near: ListingLink::over(alloc, TWO)?,
        day: 20_000,
    };
    let _ = link.receive();
    let _ = link.try_receive();
    Some(link)
}

#[test]
fn a_near_link_waits_only_if_it_is_asked_to(rt: HostRuntime) {
    let Some(link) = used_near_link(rt.alloc()) else {
        panic!(rt; "no link");
    };
    assert!(rt;
        same(
            &rt,
            &"far",
            &link.far.asked.as_slice(),
            &[Waits, Waits].as_slice()
        )
    );
    assert!(rt;
        same(
            &rt,
            &"near",
            &link.near.asked.as_slice(),
            &[Waits, Looks].as_slice()
        )
    );
}
