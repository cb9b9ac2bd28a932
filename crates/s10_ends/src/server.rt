//! Defines the server, which answers datagrams over any book.

ghost use Rattle.std.specs.Prelude.{◌≡◌, ◌∷◌, [], IfOk, OnErr, IsTrue, Ok, Err, None};
ghost use Rattle.s10_wire.specs.Kind.{fits};
ghost use Rattle.s10_history.specs.History.{find_entry};
ghost use Rattle.s10_book.specs.Book.{Grows, FindsAfter, IsBetween};
ghost use Rattle.s10_book.specs.Once.{applied_once};
ghost use Rattle.s10_ends.specs.Served.{GivesOutcome, IsFullFor};
ghost use Rattle.s10_ends.specs.Respond.{CountsFull};

use crate::answer::Answer;
use crate::delivery::Delivery;
use s10_book::{Book, BookFault, GroupCommit, decide};
use s10_history::Entry;
use s10_wire::{Outcome, Reply, Request, decode_request, encode_reply, same_request};
use std::alloc::{AllocError, Global};

// Returns the outcome of a request. A repeat gets the kept outcome; a new key is executed and kept.
fn respond<B: Book>(book: &mut B, request: &Request, day: u32) -> Result<Outcome, BookFault>
    ensures faults { CountsFull result (B.faults book.old) (B.faults book.new) }
    ensures was_honest { B.honest book.new → B.honest book.old }
    ensures same_terms { B.honest book.new → B.terms book.new ≡ B.terms book.old }
    ensures applied { B.honest book.new
        → IfOk result (λ o. B.history book.new ≡ applied_once (B.history book.old)
        ((request.now, day) ∷ []) (B.terms book.old).interval) }
    ensures owed { B.honest book.new
        → IfOk result
        (GivesOutcome (find_entry (B.history book.new) request.now.customer request.now.number)
        request.now) }
    ensures err { B.honest book.new → OnErr result (B.history book.new ≡ B.history book.old) }
    ensures full { B.honest book.new → result ≡ Err BookFault.Full
        → IsFullFor (B.history book.old) (B.terms book.old) request.now }
    ensures fits { IfOk result (λ o. IsTrue (fits request.now.body o)) }
    ensures stays_committed { B.honest book.new
        → Grows (B.committed book.old) (B.committed book.new) }
    ensures committed { B.durable → B.honest book.new → B.committed book.old ≡ B.history book.old
        → B.committed book.new ≡ B.history book.new }
    ensures stop { FindsAfter B.honest B.clean B.may_find book.old book.new
        (IsBetween (B.committed book.old) (applied_once (B.history book.old)
        ((request.now, day) ∷ []) (B.terms book.old).interval)) }
{
    if let Some(entry) = book.find(request.customer, request.number)? {
        return Ok(if same_request(&entry.request, request) {
            entry.outcome
        } else {
            Outcome::NumberReused
        });
    }
    execute(book, request, day)
}

// Executes a request whose key is new, and keeps it with its outcome.
fn execute<B: Book>(book: &mut B, request: &Request, day: u32) -> Result<Outcome, BookFault>
    requires { B.honest book.old → find_entry (B.history book.old) request.now.customer
        request.now.number ≡ None }
    ensures faults { CountsFull result (B.faults book.old) (B.faults book.new) }
    ensures was_honest { B.honest book.new → B.honest book.old }
    ensures same_terms { B.honest book.new → B.terms book.new ≡ B.terms book.old }
    ensures applied { B.honest book.new
        → IfOk result (λ o. B.history book.new ≡ applied_once (B.history book.old)
        ((request.now, day) ∷ []) (B.terms book.old).interval) }
    ensures owed { B.honest book.new
        → IfOk result
        (GivesOutcome (find_entry (B.history book.new) request.now.customer request.now.number)
        request.now) }
    ensures err { B.honest book.new → OnErr result (B.history book.new ≡ B.history book.old) }
    ensures full { B.honest book.new → result ≡ Err BookFault.Full
        → IsFullFor (B.history book.old) (B.terms book.old) request.now }
    ensures fits { IfOk result (λ o. IsTrue (fits request.now.body o)) }
    ensures stays_committed { B.honest book.new
        → Grows (B.committed book.old) (B.committed book.new) }
    ensures committed { B.durable → B.honest book.new → B.committed book.old ≡ B.history book.old
        → B.committed book.new ≡ B.history book.new }
    ensures stop { FindsAfter B.honest B.clean B.may_find book.old book.new
        (IsBetween (B.committed book.old) (applied_once (B.history book.old)
        ((request.now, day) ∷ []) (B.terms book.old).interval)) }
{
    if book.settings().limit() <= book.len() {
        return Err(BookFault::Full);
    }
    let day = book.day().max(day);
    let entry = Entry {
        request: *request,
        day,
        outcome: decide(book, request, day)?,
    };
    book.keep(entry)?;
    Ok(entry.outcome)
}

/// A server over a book. It executes each distinct request once and keeps its reply.
///
/// Source: Birrell and Nelson 1984.
#[derive(Drop)]
pub struct Server<B> {
    book: B,
}

impl<B: Book> Server<B> {
    ghost use Rattle.std.specs.Prelude.{◌≡◌, ◌↔◌, ◌∷◌, [], IfOk, OnErr, Some, All, map};
    ghost use Rattle.s10_wire.specs.declared.wire_fault.WireFault.{WireFault};
    ghost use Rattle.s10_wire.specs.WireFault.{IsFirstRefusalOfRequest};
    ghost use Rattle.s10_book.specs.Book.{Grows};
    ghost use Rattle.s10_ends.specs.Server.{book_of};
    ghost use Rattle.s10_ends.specs.Served.{AskNothing, Served, UnlessReply, CountsAnswer};
    ghost use Rattle.s10_ends.specs.Runs.{dated, CountsAll, KeepsPromises, IsIssued};
    ghost use Rattle.s10_ends.specs.Stop.{StopsAfter};

    /// Creates a server that continues the history of a book.
    pub fn new(book: B) -> Server<B>
        ensures { book_of result ≡ book }
    {
        Server { book }
    }

    /// Returns the book after the last delivery.
    pub fn book(&self) -> &B
        ensures { result.now ≡ book_of self.now }
    {
        &self.book
    }

    /// Returns the book and ends the server.
    pub fn into_book(self) -> B
        ensures { result ≡ book_of self }
    {
        self.book
    }

    /// Answers the bytes of one datagram that arrived on `day`, in days.
    ///
    /// The answer is `Faulted` in these cases; the request may then be sent again:
    ///
    /// - `Full` if the book has as many calls as its limit, and none with the key of the request.
    /// - `Memory` or `Store` if a call of the book failed with that fault.
    pub fn handle(&mut self, bytes: &[u8], day: u32) -> Answer
        // A fault of the book raises the count of that fault. No other answer raises a count.
        ensures faults { CountsAnswer result (B.faults (book_of self.old))
            (B.faults (book_of self.new)) }

        // Bytes that are not a request, and only these, are dropped with their first refusal. The
        // book is unchanged.
        ensures dropped { (fault : WireFault) → (result ≡ Answer.Dropped fault)
            ↔ (AskNothing bytes.now × IsFirstRefusalOfRequest bytes.now fault) }
        ensures unasked { (fault : WireFault) → result ≡ Answer.Dropped fault → book_of self.new
            ≡ book_of self.old }

        // A book that is honest after the call was honest before it, and has the same terms.
        ensures was_honest { B.honest (book_of self.new) → B.honest (book_of self.old) }
        ensures same_terms { B.honest (book_of self.new) → B.terms (book_of self.new)
            ≡ B.terms (book_of self.old) }

        // The history and the answer are those of this one delivery.
        ensures served { B.honest (book_of self.new) → Served (B.history (book_of self.old))
            (B.terms (book_of self.old)) ((bytes.now, day) ∷ []) (result ∷ [])
            (B.history (book_of self.new)) }
        ensures unchanged { B.honest (book_of self.new)
            → UnlessReply result (B.history (book_of self.new) ≡ B.history (book_of self.old)) }

        // Committed calls stay committed. Over a durable book all calls are committed if they were.
        ensures stays_committed { B.honest (book_of self.new)
            → Grows (B.committed (book_of self.old))
            (B.committed (book_of self.new)) }
        ensures committed { B.durable → B.honest (book_of self.new) → B.committed (book_of self.old)
            ≡ B.history (book_of self.old) → B.committed (book_of self.new)
            ≡ B.history (book_of self.new) }

        // After a stop an opening finds what it could find before, or the committed calls and
        // perhaps more: pending ones, and the one of this delivery.
        ensures stop { StopsAfter B.terms B.history B.committed B.honest B.clean B.may_find
            (book_of self.old) (book_of self.new) ((bytes.now, day) ∷ []) }
    {
        let request = match decode_request(bytes) {
            Ok(request) => request,
            Err(fault) => return Answer::Dropped(fault),
        };
        match respond(&mut self.book, &request, day) {
            Ok(outcome) => match Reply::new(request, outcome) {
                Some(reply) => Answer::Reply(encode_reply(&reply)),
                None => unreachable!(),
            },
            Err(fault) => Answer::Faulted(fault),
        }
    }

    /// Answers deliveries one after another, in the order of the list.
    ///
    /// Returns one answer per delivery, in the same order.
    ///
    /// # Errors
    ///
    /// `AllocError` if the list of answers cannot be allocated. No delivery is handled then.
    pub fn run(&mut self, alloc: Global, deliveries: &[Delivery]) -> Result<Vec<Answer>, AllocError>
        // Each count of faults rises by the number of answers with that fault, up to the greatest
        // number.
        ensures faults { IfOk result (λ answers. CountsAll answers.items
            (B.faults (book_of self.old)) (B.faults (book_of self.new))) }
        ensures was_honest { B.honest (book_of self.new) → B.honest (book_of self.old) }
        ensures same_terms { B.honest (book_of self.new) → B.terms (book_of self.new)
            ≡ B.terms (book_of self.old) }

        // The history and every answer are what each distinct request once, in order of first
        // arrival, gives.
        ensures served { B.honest (book_of self.new)
            → IfOk result (λ answers. Served (B.history (book_of self.old))
            (B.terms (book_of self.old)) (map dated deliveries.now) answers.items
            (B.history (book_of self.new))) }

        // The history is legal, no identifier goes to two requests within the interval, each is its
        // customer's own, and no identifier lies in two ranges.
        ensures kept { B.honest (book_of self.new) → KeepsPromises (B.history (book_of self.new))
            (B.terms (book_of self.new)) }

        // Every identifier in a reply is spelled as S10 requires. It was issued on the reply's day
        // to the reply's request.
        ensures issued { B.honest (book_of self.new)
            → IfOk result (λ answers. All (IsIssued (B.history (book_of self.new))) answers.items) }

        // Committed calls stay committed. Over a durable book all calls are committed if they were.
        ensures stays_committed { B.honest (book_of self.new)
            → Grows (B.committed (book_of self.old))
            (B.committed (book_of self.new)) }
        ensures committed { B.durable → B.honest (book_of self.new) → B.committed (book_of self.old)
            ≡ B.history (book_of self.old) → B.committed (book_of self.new)
            ≡ B.history (book_of self.new) }

        // After a stop an opening finds what it could find before, or the committed calls and
        // perhaps more: pending ones, and those of deliveries.
        ensures stop { StopsAfter B.terms B.history B.committed B.honest B.clean B.may_find
            (book_of self.old) (book_of self.new) (map dated deliveries.now) }

        // If the answers cannot be allocated, the book is unchanged.
        ensures refused { OnErr result (book_of self.new ≡ book_of self.old) }
    {
        let mut answers = Vec::with_capacity(alloc, deliveries.len())?;
        for delivery in deliveries {
            let answer = self.handle(delivery.packet.bytes(), delivery.day);
            answers.push_reserved(answer);
        }
        Ok(answers)
    }
}

impl<B: GroupCommit> Server<B> {
    ghost use Rattle.std.specs.Prelude.{◌↔◌, IsTrue};
    ghost use Rattle.s10_ends.specs.Server.{book_of};
    ghost use Rattle.s10_ends.specs.Turn.{AsksCommitted, Commits};

    /// Commits all pending calls of the book, so that their replies may be sent.
    ///
    /// The history is unchanged. After a fault the book may have committed the first of them; the
    /// others stay pending, and the next commit includes them.
    ///
    /// # Errors
    ///
    /// `Memory` or `Store` if the commit of the book failed with that fault.
    pub fn commit(&mut self) -> Result<(), BookFault>
        ensures { Commits B.faults B.honest B.terms B.history B.committed B.clean B.may_find
            (book_of self.old)
            (book_of self.new) result }
    {
        self.book.commit()
    }

    /// Returns whether the bytes are a request whose call is committed.
    ///
    /// The reply to such a request may be sent even if the last commit failed.
    pub fn is_committed(&self, bytes: &[u8]) -> bool
        ensures { B.honest (book_of self.now)
            → (IsTrue result ↔ AsksCommitted (B.committed (book_of self.now))
            (B.history (book_of self.now)) bytes.now) }
    {
        match decode_request(bytes) {
            Ok(request) => self.book.is_committed(request.customer, request.number),
            Err(_) => false,
        }
    }
}
