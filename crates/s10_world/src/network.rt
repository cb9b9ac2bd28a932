//! Executes the events of a world.

use crate::event::Event;
use s10_book::Book;
use s10_ends::{Answer, Client, Received, Server};
use s10_wire::{Body, Frame, Reply, Request};
use std::alloc::AllocError;
use thiserror::Error;

/// The reason why a run ended before its last event.
#[derive(Clone, Copy, Debug, PartialEq, Eq, Error)]
pub enum WorldFault {
    /// The index, from 0, of the event for which memory was lacking. The events before it were
    /// executed, and this one changed nothing.
    #[error("no memory for event {0}")]
    Memory(usize),
}

/// A server, its clients, and everything that was sent between them.
#[derive(Drop)]
pub struct Network<B> {
    pub(crate) server: Server<B>,
    pub(crate) clients: Vec<Client>,
    pub(crate) asked: Vec<Frame>,
    pub(crate) replied: Vec<Frame>,
    pub(crate) submitted: Vec<(u32, Request)>,
    pub(crate) accepted: Vec<(u32, Reply)>,
}

impl<B: Book> Network<B> {
    ghost use Rattle.std.specs.Prelude.{◌≡◌, ◌<◌, length, take, slice_get, OnOk, OnErr, IfErr};
    ghost use Rattle.s10_world.specs.World.{Step, Steps, Resends, ReachesServer, DeliversRequest};
    ghost use Rattle.s10_world.specs.World.{DeliversReply, after_submit_by, after_give_up_by};
    ghost use Rattle.s10_world.specs.Parts.{server_of, book_in, clients_of, asked_of, replied_of};
    ghost use Rattle.s10_world.specs.Parts.{world_state_of, place_of};

    // Executes the events in order. Each one reserves its memory before it changes anything.
    pub(crate) fn run(&mut self, events: &[Event]) -> Result<(), WorldFault>
        ensures was_honest { B.honest (book_in self.new) → B.honest (book_in self.old) }
        ensures same_terms { B.honest (book_in self.new) → B.terms (book_in self.new)
            ≡ B.terms (book_in self.old) }
        ensures committed { B.durable → B.honest (book_in self.new)
            → B.committed (book_in self.old) ≡ B.history (book_in self.old)
            → B.committed (book_in self.new) ≡ B.history (book_in self.new) }

        // The state is one that the steps reach by the events in order.
        ensures ok { B.honest (book_in self.new)
            → OnOk result (Steps (B.terms (book_in self.old))
            (world_state_of B.history B.faults self.old) events.now
            (world_state_of B.history B.faults self.new)) }

        // If memory was lacking, the state is the one reached by the events before that index.
        ensures place { IfErr result (λ fault. place_of fault < length events.now) }
        ensures memory { B.honest (book_in self.new) → IfErr result (λ fault.
            Steps (B.terms (book_in self.old)) (world_state_of B.history B.faults self.old)
            (take (place_of fault) events.now) (world_state_of B.history B.faults self.new)) }
    {
        for (place, event) in events.iter().enumerate() {
            let Ok(()) = self.step(event) else {
                return Err(WorldFault::Memory(place));
            };
        }
        Ok(())
    }

    // Executes one event. Without memory for it, nothing is changed.
    pub(crate) fn step(&mut self, event: &Event) -> Result<(), AllocError>
        ensures was_honest { B.honest (book_in self.new) → B.honest (book_in self.old) }
        ensures same_terms { B.honest (book_in self.new) → B.terms (book_in self.new)
            ≡ B.terms (book_in self.old) }
        ensures committed { B.durable → B.honest (book_in self.new)
            → B.committed (book_in self.old) ≡ B.history (book_in self.old)
            → B.committed (book_in self.new) ≡ B.history (book_in self.new) }
        ensures ok { B.honest (book_in self.new)
            → OnOk result
            (Step (B.terms (book_in self.old)) (world_state_of B.history B.faults self.old)
            event.now (world_state_of B.history B.faults self.new)) }
        ensures err { OnErr result ((server_of self.new ≡ server_of self.old)
            × (world_state_of B.history B.faults self.new ≡ world_state_of B.history B.faults
            self.old)) }
    {
        match *event {
            Event::Submit { client, body } => self.submit(client, body),
            Event::Resend { client } => self.resend(client),
            Event::GiveUp { client } => {
                self.give_up(client);
                Ok(())
            }
            Event::ToServer { index, day } => self.deliver_request(index, day),
            Event::Strange { packet, day } => self.reach_server(packet.bytes(), day),
            Event::ToClient { client, index } => self.deliver_reply(client, index),
        }
    }

    fn submit(&mut self, client: u32, body: Body) -> Result<(), AllocError>
        ensures server { server_of self.new ≡ server_of self.old }
        ensures ok { OnOk result (world_state_of B.history B.faults self.new
            ≡ after_submit_by (world_state_of B.history B.faults self.old) client body
            (slice_get (clients_of self.old) client)) }
        ensures err { OnErr result (world_state_of B.history B.faults self.new
            ≡ world_state_of B.history B.faults self.old) }
    {
        self.submitted.reserve(1)?;
        let Some(caller) = self.clients.get_mut(client as usize) else {
            return Ok(());
        };
        let Ok(request) = caller.submit(body) else {
            return Ok(());
        };
        self.submitted.push_reserved((client, request));
        Ok(())
    }

    fn resend(&mut self, client: u32) -> Result<(), AllocError>
        ensures server { server_of self.new ≡ server_of self.old }
        ensures ok { OnOk result (Resends (world_state_of B.history B.faults self.old)
            (slice_get (clients_of self.old) client) (world_state_of B.history B.faults self.new)) }
        ensures err { OnErr result (world_state_of B.history B.faults self.new
            ≡ world_state_of B.history B.faults self.old) }
    {
        self.asked.reserve(1)?;
        let Some(caller) = self.clients.get(client as usize) else {
            return Ok(());
        };
        let Some(frame) = caller.resend() else {
            return Ok(());
        };
        self.asked.push_reserved(frame);
        Ok(())
    }

    fn give_up(&mut self, client: u32)
        ensures server { server_of self.new ≡ server_of self.old }
        ensures state { world_state_of B.history B.faults self.new
            ≡ after_give_up_by (world_state_of B.history B.faults self.old) client
            (slice_get (clients_of self.old) client) }
    {
        let Some(caller) = self.clients.get_mut(client as usize) else {
            return;
        };
        let _ = caller.give_up();
    }

    // Delivers bytes to the server. A reply is recorded as sent. Other answers are not recorded.
    fn reach_server(&mut self, bytes: &[u8], day: u32) -> Result<(), AllocError>
        ensures was_honest { B.honest (book_in self.new) → B.honest (book_in self.old) }
        ensures same_terms { B.honest (book_in self.new) → B.terms (book_in self.new)
            ≡ B.terms (book_in self.old) }
        ensures committed { B.durable → B.honest (book_in self.new)
            → B.committed (book_in self.old) ≡ B.history (book_in self.old)
            → B.committed (book_in self.new) ≡ B.history (book_in self.new) }
        ensures ok { B.honest (book_in self.new)
            → OnOk result (ReachesServer (B.terms (book_in self.old))
            (world_state_of B.history B.faults self.old) bytes.now day
            (world_state_of B.history B.faults self.new)) }
        ensures err { OnErr result ((server_of self.new ≡ server_of self.old)
            × (world_state_of B.history B.faults self.new ≡ world_state_of B.history B.faults
            self.old)) }
    {
        self.replied.reserve(1)?;
        match self.server.handle(bytes, day) {
            Answer::Reply(frame) => {
                self.replied.push_reserved(frame);
                Ok(())
            }
            Answer::Dropped(_) => Ok(()),
            Answer::Faulted(_) => Ok(()),
        }
    }

    fn deliver_request(&mut self, index: usize, day: u32) -> Result<(), AllocError>
        ensures was_honest { B.honest (book_in self.new) → B.honest (book_in self.old) }
        ensures same_terms { B.honest (book_in self.new) → B.terms (book_in self.new)
            ≡ B.terms (book_in self.old) }
        ensures committed { B.durable → B.honest (book_in self.new)
            → B.committed (book_in self.old) ≡ B.history (book_in self.old)
            → B.committed (book_in self.new) ≡ B.history (book_in self.new) }
        ensures ok { B.honest (book_in self.new)
            → OnOk result (DeliversRequest (B.terms (book_in self.old))
            (world_state_of B.history B.faults self.old) (slice_get (asked_of self.old) index) day
            (world_state_of B.history B.faults self.new)) }
        ensures err { OnErr result ((server_of self.new ≡ server_of self.old)
            × (world_state_of B.history B.faults self.new ≡ world_state_of B.history B.faults
            self.old)) }
    {
        let Some(frame) = self.asked.get(index) else {
            return Ok(());
        };
        let frame = *frame;
        self.reach_server(frame.bytes(), day)
    }

    fn deliver_reply(&mut self, client: u32, index: usize) -> Result<(), AllocError>
        ensures server { server_of self.new ≡ server_of self.old }
        ensures ok { OnOk result (DeliversReply (world_state_of B.history B.faults self.old) client
            (slice_get (clients_of self.old) client) (slice_get (replied_of self.old) index)
            (world_state_of B.history B.faults self.new)) }
        ensures err { OnErr result (world_state_of B.history B.faults self.new
            ≡ world_state_of B.history B.faults self.old) }
    {
        self.accepted.reserve(1)?;
        let Some(frame) = self.replied.get(index) else {
            return Ok(());
        };
        let Some(caller) = self.clients.get_mut(client as usize) else {
            return Ok(());
        };
        let Received::Accepted(reply) = caller.receive(frame.bytes()) else {
            return Ok(());
        };
        self.accepted.push_reserved((client, reply));
        Ok(())
    }
}
