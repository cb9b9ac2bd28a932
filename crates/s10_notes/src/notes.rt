//! Defines the notes of a client, and how they change.

ghost use Rattle.std.specs.Prelude.{◌≡◌, ◌+◌, ◌↔◌, IfSome, IsTrue};

use crate::take_fault::TakeFault;
use s10_wire::{Body, Request};
use std::marker::Model;

/// The notes of a client of one customer: the numbers that are left, and the open request, whose
/// reply has not come. No method allocates memory.
#[derive(Clone, Copy, Debug)]
pub struct Notes {
    customer: u32,
    // The next number, up to last + 1.
    next: u64,
    last: u32,
    request: Option<Request>,
}

impl Model for Notes {
    ghost use Rattle.std.specs.Prelude.{refl};
    ghost use Rattle.s10_notes.specs.Notes.{NotesState, AreNotes};

    ghost Value = { NotesState };

    ghost view = { λ n. record {
      customer = n.customer;
      next = n.next;
      last = n.last;
      request = n.request;
    } };

    ghost invariant = { λ n. AreNotes (record {
      customer = n.customer;
      next = n.next;
      last = n.last;
      request = n.request;
    }) };

    ghost inverse = { λ n. record {
      customer = n.customer;
      next = n.next;
      last = n.last;
      request = n.request;
    } };

    ghost inverse_ok = { λ n known. refl };
}

impl Notes {
    ghost use Rattle.std.specs.Prelude.{◌≡◌, ◌≤◌, ◌<◌, ◌^◌, IfOk, SomeIff};
    ghost use Rattle.std.specs.Result.{result_err};
    ghost use Rattle.s10_notes.specs.Notes.{NotesState, AreNotes, new_notes, after_take, take_fault};
    ghost use Rattle.s10_notes.specs.Notes.{without_request};

    /// Creates the notes of a client that has the numbers `first` to `last`, or returns `None` if
    /// `first` is above `last`.
    pub fn new(customer: u32, first: u32, last: u32) -> Option<Notes>
        ensures { SomeIff result (first ≤ last) (new_notes customer first last) }
    {
        if first > last {
            return None;
        }
        Some(Notes {
            customer,
            next: first as u64,
            last,
            request: None,
        })
    }

    /// Returns notes with these numbers and this open request, or `None` if no notes have them.
    pub(crate) fn restore(
        customer: u64,
        next: u64,
        last: u64,
        request: Option<Request>,
    ) -> Option<Notes>
        ensures { let n : NotesState = record {
          customer = customer;
          next = next;
          last = last;
          request = request;
        } in
            SomeIff result ((n.customer < 2 ^ 32) × (n.last < 2 ^ 32) × AreNotes n) n }
    {
        let customer = u32::try_from(customer).ok()?;
        let last = u32::try_from(last).ok()?;
        if next > last as u64 + 1 || !is_latest(&request, customer, next) {
            return None;
        }
        Some(Notes {
            customer,
            next,
            last,
            request,
        })
    }

    /// Returns the customer, who is the same for every request of these notes.
    pub fn customer(&self) -> u32
        ensures { result ≡ self.now.customer }
    {
        self.customer
    }

    /// Returns the next number, which is `last` + 1 if none is left.
    pub fn next(&self) -> u64
        ensures next { result ≡ self.now.next }
        ensures numbered { AreNotes self.now }
    {
        self.next
    }

    /// Returns the last number.
    pub fn last(&self) -> u32
        ensures { result ≡ self.now.last }
    {
        self.last
    }

    /// Returns the open request, or `None` if the reply to each request has come.
    pub fn request(&self) -> Option<Request>
        ensures { result ≡ self.now.request }
    {
        self.request
    }

    /// Returns the notes after a body has got the next number: it is the open request.
    ///
    /// # Errors
    ///
    /// - `Unanswered` if a request is open.
    /// - `NumbersSpent` if no number is left.
    pub fn take(&self, body: Body) -> Result<Notes, TakeFault>
        ensures refused { result_err result ≡ take_fault self.now }
        ensures taken { IfOk result (λ taken. taken ≡ after_take self.now body) }
    {
        if self.request.is_some() {
            return Err(TakeFault::Unanswered);
        }
        if self.next > self.last as u64 {
            return Err(TakeFault::NumbersSpent);
        }
        let request = Request {
            customer: self.customer,
            number: self.next as u32,
            body,
        };
        Ok(Notes {
            customer: self.customer,
            next: self.next + 1,
            last: self.last,
            request: Some(request),
        })
    }

    /// Returns the notes after the reply to the open request has come. Its number stays used.
    pub fn answered(&self) -> Notes
        ensures { result ≡ without_request self.now }
    {
        Notes {
            customer: self.customer,
            next: self.next,
            last: self.last,
            request: None,
        }
    }
}

// Returns whether the open request, if there is one, is the latest.
fn is_latest(request: &Option<Request>, customer: u32, next: u64) -> bool
    ensures { IsTrue result ↔ IfSome request.now (λ q. (q.customer ≡ customer)
        × (q.number + 1 ≡ next)) }
{
    match request {
        None => true,
        Some(request) => request.customer == customer && request.number as u64 + 1 == next,
    }
}
