//! A link that follows a script, for tests.

use crate::counts::Counts;
use crate::link::Link;
use crate::link_call::LinkCall;
use crate::link_fault::LinkFault;
use crate::packet::Packet;
use crate::peer::Peer;
use crate::receipt::Receipt;
use crate::trace::Trace;
use s10_wire::Frame;
use std::alloc::{AllocError, Global};
use std::marker::Model;

/// A link that takes the results of its calls from two lists.
#[derive(Drop)]
pub struct ScriptLink {
    receipts: Vec<Receipt>,
    sends: Vec<bool>,
    next_receipt: usize,
    next_send: usize,
    log: Vec<(Peer, Frame)>,
    trace: Trace,
}

impl Model for ScriptLink {
    ghost use Rattle.std.specs.Prelude.{◌+◌, ◌≤◌, drop, vec_len, vec_capacity};
    ghost use Rattle.s10_link.specs.ScriptLink.{Script};

    ghost Value = { Script };

    ghost view = { λ link. record {
      receipts = drop link.next_receipt link.receipts.items;
      sends = drop link.next_send link.sends.items;
      log = link.log.items;
      trace = link.trace;
    } };

    ghost invariant = { λ link. (link.next_send ≤ vec_len link.sends)
        × (vec_len link.log + vec_len link.sends ≤ vec_capacity link.log + link.next_send) };
}

impl ScriptLink {
    ghost use Rattle.std.specs.Prelude.{◌≡◌, [], IfOk};
    ghost use Rattle.s10_link.specs.Link.{new_trace};
    ghost use Rattle.s10_link.specs.ScriptLink.{Script};

    /// Creates a link from the results of its receives and of its sends, in order.
    ///
    /// Each receive takes the next receipt; after the last one nothing arrives. Each send takes the
    /// next bool, which says whether it succeeds; after the last one the link is spent.
    ///
    /// # Errors
    ///
    /// - `AllocError` if the log, one entry per send, cannot be allocated; both lists are dropped
    ///   then.
    pub fn new(
        alloc: Global,
        receipts: Vec<Receipt>,
        sends: Vec<bool>,
    ) -> Result<ScriptLink, AllocError>
        ensures { IfOk result (λ link. link ≡ record {
          receipts = receipts.items;
          sends = sends.items;
          log = [];
          trace = new_trace;
        }) }
    {
        let log = Vec::with_capacity(alloc, sends.len())?;
        Ok(ScriptLink {
            receipts,
            sends,
            next_receipt: 0,
            next_send: 0,
            log,
            trace: Trace::new(),
        })
    }

    /// Returns all frames sent, each with the peer that it was sent to, in order.
    pub fn log(&self) -> &[(Peer, Frame)]
        ensures { result.now ≡ self.now.log }
    {
        self.log.as_slice()
    }
}

impl Link for ScriptLink {
    ghost use Rattle.std.specs.Prelude.{◌≡◌, Err};
    ghost use Rattle.s10_link.specs.Link.{Receives, Sends};
    ghost use Rattle.s10_link.specs.ScriptLink.{FollowsReceipts, FollowsSends, HasNoSend};

    ghost trace_of = { λ link. link.trace };

    ghost spent = { HasNoSend };

    fn receive(&mut self) -> Result<Option<(Peer, Packet)>, LinkFault>
        ensures trace { Receives self.old.trace self.new.trace result }
        ensures script { FollowsReceipts self.old self.new result }
    {
        if self.trace.is_full() {
            return Err(LinkFault::Spent);
        }
        let Some(receipt) = self.receipts.get(self.next_receipt).copied() else {
            self.trace.add(LinkCall::Quiet);
            return Ok(None);
        };
        self.next_receipt += 1;
        match receipt {
            Receipt::Deliver(from, packet) => {
                self.trace.add(LinkCall::Received(from, packet));
                Ok(Some((from, packet)))
            }
            Receipt::Nothing => {
                self.trace.add(LinkCall::Quiet);
                Ok(None)
            }
            Receipt::Fail => {
                self.trace.add(LinkCall::FailedReceive);
                Err(LinkFault::Receive)
            }
        }
    }

    // No receive of a script waits.
    fn try_receive(&mut self) -> Result<Option<(Peer, Packet)>, LinkFault>
        ensures trace { Receives self.old.trace self.new.trace result }
        ensures script { FollowsReceipts self.old self.new result }
    {
        self.receive()
    }

    fn send(&mut self, to: Peer, frame: &Frame) -> Result<(), LinkFault>
        ensures trace { Sends self.old.trace self.new.trace (to, frame.now) result }
        ensures script { FollowsSends self.old self.new (to, frame.now) result }
        ensures spent { result ≡ Err LinkFault.Spent → HasNoSend self.old }
    {
        if self.trace.is_full() || self.next_send == self.sends.len() {
            return Err(LinkFault::Spent);
        }
        let passes = self.sends[self.next_send];
        self.next_send += 1;
        if passes {
            self.log.push_reserved((to, *frame));
            self.trace.add(LinkCall::Sent(to, *frame));
            Ok(())
        } else {
            self.trace.add(LinkCall::FailedSend(to, *frame));
            Err(LinkFault::Send)
        }
    }

    fn counts(&self) -> Counts {
        self.trace.counts()
    }
}
