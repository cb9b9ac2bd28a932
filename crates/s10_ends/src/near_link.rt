//! Links a client to a server in the same process.

ghost use Rattle.std.specs.Prelude.{◌≡◌, Err};
ghost use Rattle.s10_link.specs.Link.{LeadsTo};
ghost use Rattle.s10_ends.specs.Server.{book_of};
ghost use Rattle.s10_ends.specs.Turn.{Turn, ServesOne, StaysWhole};

use crate::server::Server;
use crate::turn::serve_one;
use s10_book::Book;
use s10_link::{Counts, Link, LinkFault, Packet, Peer};
use s10_wire::Frame;
use std::marker::Model;

/// The client's end of a network whose server runs in the client's own process.
///
/// Before each receive the server serves at most one datagram at the far end. The result of that
/// turn is dropped, even if it is a fault. The server's book commits each call when it keeps it.
#[derive(Drop)]
pub struct NearLink<B: Book, F, N> {
    /// The server.
    pub server: Server<B>,
    /// The server's end of the network.
    pub far: F,
    /// The client's end of the network.
    pub near: N,
    /// The day on which the server handles every datagram.
    pub day: u32,
}

impl<B: Book, F, N> Model for NearLink<B, F, N> {
    ghost use Rattle.s10_ends.specs.NearEnds.{NearEnds};

    ghost Value = { NearEnds B F N };

    ghost view = { λ l. record { server = l.server; far = l.far; near = l.near; day = l.day } };

    ghost invariant = { λ l. B.durable };
}

// Serves at most one datagram at the far end, and drops the result.
fn serve_far<B: Book, F: Link>(server: &mut Server<B>, far: &mut F, day: u32)
    requires { B.durable }
    ensures turn { (turn : Turn) × ServesOne B.faults B.honest B.terms B.history B.committed B.clean
        B.may_find day
        (F.trace_of far.old, book_of server.old) (F.trace_of far.new, book_of server.new) turn }
    ensures whole { StaysWhole B.honest B.history B.committed (book_of server.old)
        (book_of server.new) }
    ensures led { LeadsTo F.step far.old far.new }
{
    let _ = serve_one(server, far, day);
}

impl<B: Book, F: Link, N: Link> Link for NearLink<B, F, N> {
    ghost use Rattle.s10_link.specs.Link.{Receives, Sends};
    ghost use Rattle.s10_ends.specs.NearLink.{IsNearStep};

    ghost trace_of = { λ link. N.trace_of link.near };

    ghost step = { IsNearStep B.faults B.honest B.terms B.history B.committed B.clean B.may_find
        F.trace_of
        N.trace_of F.step };

    ghost spent = { λ link. N.spent link.near };

    fn receive(&mut self) -> Result<Option<(Peer, Packet)>, LinkFault>
        ensures trace { Receives (N.trace_of self.old.near) (N.trace_of self.new.near) result }

        // The server serves at most one datagram at the far end.
        ensures turn { (turn : Turn) × ServesOne B.faults B.honest B.terms B.history B.committed
            B.clean B.may_find
            self.old.day
            (F.trace_of self.old.far, book_of self.old.server) (
              F.trace_of self.new.far,
              book_of self.new.server,
            ) turn }
        ensures whole { StaysWhole B.honest B.history B.committed (book_of self.old.server)
            (book_of self.new.server) }
        ensures day { self.new.day ≡ self.old.day }
        ensures step { IsNearStep B.faults B.honest B.terms B.history B.committed B.clean B.may_find
            F.trace_of
            N.trace_of F.step self.old self.new }
    {
        serve_far(&mut self.server, &mut self.far, self.day);
        self.near.receive()
    }

    fn try_receive(&mut self) -> Result<Option<(Peer, Packet)>, LinkFault>
        ensures trace { Receives (N.trace_of self.old.near) (N.trace_of self.new.near) result }

        // The server serves at most one datagram at the far end.
        ensures turn { (turn : Turn) × ServesOne B.faults B.honest B.terms B.history B.committed
            B.clean B.may_find
            self.old.day
            (F.trace_of self.old.far, book_of self.old.server) (
              F.trace_of self.new.far,
              book_of self.new.server,
            ) turn }
        ensures whole { StaysWhole B.honest B.history B.committed (book_of self.old.server)
            (book_of self.new.server) }
        ensures day { self.new.day ≡ self.old.day }
        ensures step { IsNearStep B.faults B.honest B.terms B.history B.committed B.clean B.may_find
            F.trace_of
            N.trace_of F.step self.old self.new }
    {
        serve_far(&mut self.server, &mut self.far, self.day);
        self.near.try_receive()
    }

    fn send(&mut self, to: Peer, frame: &Frame) -> Result<(), LinkFault>
        ensures trace { Sends (N.trace_of self.old.near) (N.trace_of self.new.near) (to, frame.now)
            result }
        ensures spent { result ≡ Err LinkFault.Spent → N.spent self.old.near }
        ensures same { self.new ≡ record self.old { near = self.new.near } }
        ensures step { IsNearStep B.faults B.honest B.terms B.history B.committed B.clean B.may_find
            F.trace_of
            N.trace_of F.step self.old self.new }
    {
        self.near.send(to, frame)
    }

    fn counts(&self) -> Counts {
        self.near.counts()
    }
}
