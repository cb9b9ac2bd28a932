//! Defines both ends and the network between them.

use crate::event::Event;
use crate::network::{Network, WorldFault};
use s10_book::Book;
use s10_ends::{Client, Server};
use s10_wire::{Frame, Reply, Request};
use std::alloc::Global;
use std::marker::Model;

/// A server, its clients, and everything that was sent between them.
///
/// The network may lose, repeat and reorder datagrams. Every datagram may arrive at any later time,
/// once, several times or never. A reply may reach any client.
#[derive(Drop)]
pub struct World<B: Book> {
    network: Network<B>,
}

impl<B: Book> Model for World<B> {
    ghost use Rattle.s10_world.specs.declared.network.Network.{Network};
    ghost use Rattle.s10_world.specs.Parts.{book_in, world_state_of};
    ghost use Rattle.s10_world.specs.Sound.{IsSoundWorld};

    ghost Value = { Network B };

    ghost view = { λ w. w.network };

    ghost invariant = { λ w. B.honest (book_in w.network)
        → IsSoundWorld (world_state_of B.history B.faults w.network) };
}

impl<B: Book> World<B> {
    ghost use Rattle.std.specs.Prelude.{◌≡◌, ◌<◌, ◌^◌, ℕ, [], length, map, take, slice_get, All};
    ghost use Rattle.std.specs.Prelude.{OnOk, OnErr, IfErr};
    ghost use Rattle.s10_ends.specs.Client.{IsNew};
    ghost use Rattle.s10_ends.specs.Runs.{KeepsPromises};
    ghost use Rattle.s10_world.specs.World.{Steps};
    ghost use Rattle.s10_world.specs.Agreement.{Agrees, IsAtMostOnce, HaveOwnNumbers, IsUnshared};
    ghost use Rattle.s10_world.specs.Parts.{server_of, book_in, clients_of, asked_of, replied_of};
    ghost use Rattle.s10_world.specs.Parts.{submitted_of, accepted_of, world_state_of, place_of};

    /// Creates a world in which nothing was sent yet.
    ///
    /// All clients must be new, and there must be fewer than 2^32 of them.
    pub fn new(alloc: Global, server: Server<B>, clients: Vec<Client>) -> World<B>
        requires new { All IsNew clients.items }
        requires few { length clients.items < 2 ^ 32 }
        ensures server { server_of result ≡ server }
        ensures clients { clients_of result ≡ clients.items }
        ensures asked { asked_of result ≡ [] }
        ensures replied { replied_of result ≡ [] }
        ensures submitted { submitted_of result ≡ [] }
        ensures accepted { accepted_of result ≡ [] }
    {
        World {
            network: Network {
                server,
                clients,
                asked: Vec::new(alloc),
                replied: Vec::new(alloc),
                submitted: Vec::new(alloc),
                accepted: Vec::new(alloc),
            },
        }
    }

    /// Returns the server.
    pub fn server(&self) -> &Server<B>
        ensures { result.now ≡ server_of self.now }
    {
        &self.network.server
    }

    /// Returns the server and ends the world.
    pub fn into_server(self) -> Server<B>
        ensures { result ≡ server_of self }
    {
        self.network.server
    }

    /// Returns every request that was sent, in the order of sending. A request that was sent again
    /// occurs again.
    pub fn asked(&self) -> &[Frame]
        ensures { result.now ≡ asked_of self.now }
    {
        &self.network.asked
    }

    /// Returns every reply that was sent, in the order of sending.
    pub fn replied(&self) -> &[Frame]
        ensures { result.now ≡ replied_of self.now }
    {
        &self.network.replied
    }

    /// Returns every request that was submitted, with the index of its client.
    pub fn submitted(&self) -> &[(u32, Request)]
        ensures { result.now ≡ submitted_of self.now }
    {
        &self.network.submitted
    }

    /// Returns every reply that was accepted, with the index of its client.
    pub fn accepted(&self) -> &[(u32, Reply)]
        ensures { result.now ≡ accepted_of self.now }
    {
        &self.network.accepted
    }

    /// Executes the events in order. Each event reserves its memory before it changes anything.
    ///
    /// # Errors
    ///
    /// `Memory` with the index of the first event for which memory was lacking. The events before
    /// it were executed, and no other.
    pub fn run(&mut self, events: &[Event]) -> Result<(), WorldFault>
        ensures was_honest { B.honest (book_in self.new) → B.honest (book_in self.old) }
        ensures same_terms { B.honest (book_in self.new) → B.terms (book_in self.new)
            ≡ B.terms (book_in self.old) }

        // Over a durable book all calls are committed if they were.
        ensures committed { B.durable → B.honest (book_in self.new)
            → B.committed (book_in self.old) ≡ B.history (book_in self.old)
            → B.committed (book_in self.new) ≡ B.history (book_in self.new) }

        // The state is one that the steps reach by the events in order.
        ensures ok { B.honest (book_in self.new)
            → OnOk result (Steps (B.terms (book_in self.old))
            (world_state_of B.history B.faults self.old) events.now
            (world_state_of B.history B.faults self.new)) }

        // If memory was lacking, the state is the one reached by the events before that index.
        ensures place { IfErr result (λ fault. place_of fault < length events.now) }
        ensures memory { B.honest (book_in self.new) → IfErr result (λ fault.
            Steps (B.terms (book_in self.old)) (world_state_of B.history B.faults self.old)
            (take (place_of fault) events.now) (world_state_of B.history B.faults self.new)) }

        // The history keeps its promises, and the accepted replies agree with it.
        ensures kept { B.honest (book_in self.new) → KeepsPromises (B.history (book_in self.new))
            (B.terms (book_in self.new)) }
        ensures agrees { B.honest (book_in self.new)
            → Agrees (world_state_of B.history B.faults self.new) }

        // Each submitted request was executed at most once. A request whose reply was accepted was
        // executed exactly once, or not at all if the reply is NumberReused.
        ensures once { B.honest (book_in self.new)
            → IsAtMostOnce (world_state_of B.history B.faults self.new) }

        // If no two clients of one customer have a number in common, no two calls share a request.
        // No identifier is then accepted twice within the interval.
        ensures unshared { B.honest (book_in self.new) → HaveOwnNumbers (clients_of self.old)
            → IsUnshared (B.terms (book_in self.new)).interval
            (world_state_of B.history B.faults self.new) }
    {
        self.network.run(events)
    }
}
