//! Defines a client, without its link, and why it does not submit a request.

ghost use Rattle.std.specs.Prelude.{◌≡◌, ◌≤◌, ◌↔◌, IsTrue, IfOk, IfSome, OnErr};
ghost use Rattle.std.specs.Result.{OkIff, result_err};
ghost use Rattle.s10_ends.specs.Client.{ClientState, IsNew, IsClient, IsLatest, new_client};
ghost use Rattle.s10_ends.specs.Client.{next_request, after_submit, submit_fault, without_pending};
ghost use Rattle.s10_ends.specs.Client.{AsksPending, ClientReceives};

use crate::received::Received;
use s10_wire::{Body, Frame, Request, decode_reply, encode_request, same_request};
use std::marker::Model;
use thiserror::Error;

/// The error of a client whose first request number is above its last.
#[derive(Clone, Copy, Debug, PartialEq, Eq, Error)]
#[error("the first request number is above the last")]
pub struct BadNumbers;

/// The reason why a request was not submitted: the first variant that applies.
#[derive(Clone, Copy, Debug, PartialEq, Eq, Error)]
pub enum SubmitFault {
    /// A request is pending.
    #[error("a request is pending")]
    Busy,
    /// The last number was used.
    #[error("no request number is left")]
    NumbersSpent,
}

/// A client of one customer. It numbers its requests in order, and has at most one pending request.
///
/// A number is never used again, even if no reply arrived. No method allocates memory. Source:
/// at-most-once calls, Birrell and Nelson 1984.
#[derive(Debug, Drop)]
pub struct Client {
    customer: u32,
    first: u32,
    last: u32,
    // Count of numbers used, up to 2^32.
    taken: u64,
    pending: Option<Request>,
}

impl Model for Client {
    ghost use Rattle.s10_ends.specs.Client.{ClientState, IsClient};

    ghost Value = { ClientState };

    ghost view = { λ c. record {
      customer = c.customer;
      first = c.first;
      last = c.last;
      taken = c.taken;
      pending = c.pending;
    } };

    ghost invariant = { λ c. IsClient (record {
      customer = c.customer;
      first = c.first;
      last = c.last;
      taken = c.taken;
      pending = c.pending;
    }) };
}

impl Client {
    /// Creates a client that uses the request numbers `first` to `last`.
    ///
    /// # Errors
    ///
    /// `BadNumbers` if `first` is above `last`.
    pub fn new(customer: u32, first: u32, last: u32) -> Result<Client, BadNumbers>
        ensures { OkIff result (first ≤ last) (new_client customer first last) }
    {
        if first > last {
            return Err(BadNumbers);
        }
        Ok(Client {
            customer,
            first,
            last,
            taken: 0,
            pending: None,
        })
    }

    /// Returns whether the client has used no number.
    #[tactic(auto, using(crate::proofs::Pending::none_pending))]
    pub fn is_new(&self) -> bool
        ensures { IsTrue result ↔ IsNew self.now }
    {
        self.taken == 0
    }

    /// Returns the customer, who is the same for every request of this client.
    pub fn customer(&self) -> u32
        ensures { result ≡ self.now.customer }
    {
        self.customer
    }

    /// Returns the pending request, or `None` if the client is idle.
    pub fn pending(&self) -> Option<Request>
        ensures pending { result ≡ self.now.pending }
        ensures latest { IfSome result (IsLatest self.now) }
        ensures numbers { IsClient self.now }
    {
        self.pending
    }

    /// Gives a body the next number and makes it the pending request, which is returned.
    ///
    /// # Errors
    ///
    /// The client is unchanged if the request is refused.
    ///
    /// - `Busy` if a request is pending.
    /// - `NumbersSpent` if no number is left.
    pub fn submit(&mut self, body: Body) -> Result<Request, SubmitFault>
        ensures refused { result_err result ≡ submit_fault self.old }
        ensures ok { IfOk result (λ q. (q ≡ next_request self.old body)
            × (self.new ≡ after_submit self.old body)) }
        ensures err { OnErr result (self.new ≡ self.old) }
    {
        if self.pending.is_some() {
            return Err(SubmitFault::Busy);
        }
        let number = self.first as u64 + self.taken;
        if number > self.last as u64 {
            return Err(SubmitFault::NumbersSpent);
        }
        let request = Request {
            customer: self.customer,
            number: number as u32,
            body,
        };
        self.taken += 1;
        let submitted = request;
        self.pending = Some(request);
        Ok(submitted)
    }

    /// Returns the datagram of the pending request, or `None` if the client is idle. May be called
    /// any number of times.
    pub fn resend(&self) -> Option<Frame>
        ensures { AsksPending self.now.pending result }
    {
        match &self.pending {
            None => None,
            Some(request) => Some(encode_request(request)),
        }
    }

    /// Reads a datagram, and accepts it only if it is the reply to the pending request.
    ///
    /// The requests are compared in every field. The sender is not compared. An accepted reply
    /// leaves the client idle. Any other datagram leaves it unchanged.
    pub fn receive(&mut self, datagram: &[u8]) -> Received
        ensures { ClientReceives self.old datagram.now result self.new }
    {
        let reply = match decode_reply(datagram) {
            Ok(reply) => reply,
            Err(fault) => return Received::Malformed(fault),
        };
        let request = match self.pending {
            None => return Received::Idle,
            Some(request) => request,
        };
        if !same_request(&request, &reply.request()) {
            return Received::NotMine;
        }
        self.pending = None;
        Received::Accepted(reply)
    }

    /// Stops waiting for the pending request and returns it.
    ///
    /// The request may have been executed or not. Its number is never used again.
    pub fn give_up(&mut self) -> Option<Request>
        ensures pending { result ≡ self.old.pending }
        ensures without_pending { self.new ≡ without_pending self.old }
    {
        self.pending.take()
    }
}
