//! States that batches one after another give what one run gives.

ghost use Rattle.std.specs.Prelude.{◌≡◌, List};
ghost use Rattle.s10_link.specs.declared.trace.Trace.{Trace};
ghost use Rattle.s10_ends.specs.Composed.{DatedBatch, BatchesLead, turns_in, IsBatch, deliveries_in};
ghost use Rattle.s10_ends.specs.Composed.{answers_in, datagrams_in, replies_in, frames_in, Carries};
ghost use Rattle.s10_ends.specs.Composed.{ServesAll, SurvivesStop};

use s10_book::Book;
use s10_link::{Packet, Peer};
use s10_wire::Frame;

/// States that batches of a server, one after another, each on its day, give what one run over all
/// their datagrams gives, if the book is honest after them.
///
/// The calls that are committed at the end give every reply that was sent in any of the batches. The
/// link received exactly the datagrams of the batches. It sent exactly the replies to them that their
/// turns name, each to its sender.
pub fn batches_compose<B: Book>()
    ensures compose { (old new : Trace × B) (batches : List DatedBatch)
        → BatchesLead (IsBatch B.faults B.honest B.terms B.history B.committed B.clean B.may_find)
        old batches new
        → B.honest new.1 → ServesAll B.honest B.terms B.history B.committed old.1 new.1
        (deliveries_in batches) (answers_in batches) (turns_in batches) }
    ensures carry { (old new : Trace × B) (batches : List DatedBatch)
        → BatchesLead (IsBatch B.faults B.honest B.terms B.history B.committed B.clean B.may_find)
        old batches new
        → Carries old.0 new.0 (datagrams_in batches) (replies_in batches)
        (frames_in (turns_in batches)) }
{}

/// States what an opening finds if the server is stopped after batches or during one.
///
/// If the book was honest after some of the batches, it finds every call whose reply these sent.
/// What it finds is a beginning of what some of the requests that arrived give. The store must be
/// clean at the end.
pub fn batches_survive_stops<B: Book>()
    ensures { (old new : Trace × B) → SurvivesStop B.faults B.honest B.terms
        B.history B.committed B.clean B.may_find old new }
{}

/// States that two traces say what was carried between them: no other datagrams, sends or frames.
pub fn traces_say_what_was_carried()
    ensures { (old new : Trace) (received datagrams : List (Peer × Packet)) (tried sends : Trace)
        (sent frames : List (Peer × Frame)) → Carries old new received tried sent
        → Carries old new datagrams sends frames
        → (received ≡ datagrams) × (tried ≡ sends) × (sent ≡ frames) }
{}
