//! Adapts a book so that it commits calls only on request.

ghost use Rattle.std.specs.Prelude.{◌≡◌};

use crate::book::Book;
use crate::book_fault::BookFault;
use crate::group_commit::GroupCommit;
use crate::last_failure::LastFailure;
use s10_core::Id;
use s10_history::{Candidate, Entry, HolderKey, Issue, Range, SerialSpan, Settings, Usage};
use std::marker::Model;

/// A book over a book, whose `keep` appends each call to the pending ones. A commit writes them all
/// together (group commit: DeWitt and others 1984).
///
/// History and committed calls are those of the inner book. `keep` alone commits no call. A server
/// of batches uses such a book.
#[derive(Drop)]
pub struct Batched<B> {
    inner: B,
}

// In clauses it is the inner book.
impl<B> Model for Batched<B> {
    ghost Value = { B };

    ghost view = { λ g. g.inner };
}

impl<B: GroupCommit> Batched<B> {
    /// Wraps a book. Its pending calls stay pending.
    pub fn new(inner: B) -> Batched<B>
        ensures { result ≡ inner }
    {
        Batched { inner }
    }

    /// Returns the inner book, with its pending calls.
    pub fn into_inner(self) -> B
        ensures { result ≡ self }
    {
        self.inner
    }
}

impl<B: GroupCommit> Book for Batched<B> {
    ghost history = { B.history };

    ghost committed = { B.committed };

    ghost durable = { ⊥ };

    ghost terms = { B.terms };

    ghost faults = { B.faults };

    ghost honest = { B.honest };

    ghost clean = { B.clean };

    ghost may_find = { B.may_find };

    ghost legal = { B.legal };

    ghost first = { B.first };

    ghost found = { B.found };

    fn settings(&self) -> Settings {
        self.inner.settings()
    }

    fn len(&self) -> u32 {
        self.inner.len()
    }

    fn day(&self) -> u32 {
        self.inner.day()
    }

    fn find(&mut self, customer: u32, number: u32) -> Result<Option<Entry>, BookFault> {
        self.inner.find(customer, number)
    }

    fn entry(&mut self, at: u32) -> Result<Option<Entry>, BookFault> {
        self.inner.entry(at)
    }

    fn range(&mut self, num: u32) -> Result<Option<Range>, BookFault> {
        self.inner.range(num)
    }

    fn closed(&mut self, num: u32) -> Result<bool, BookFault> {
        self.inner.closed(num)
    }

    fn next_range(&mut self, held: &HolderKey, after: u32) -> Result<Option<Range>, BookFault> {
        self.inner.next_range(held, after)
    }

    fn next_free_range(
        &mut self,
        held: &HolderKey,
        after: u32,
        day: u32,
    ) -> Result<Option<Range>, BookFault> {
        self.inner.next_free_range(held, after, day)
    }

    fn covering(&mut self, span: &SerialSpan) -> Result<Option<Range>, BookFault> {
        self.inner.covering(span)
    }

    fn last_issue(&mut self, id: &Id) -> Result<Option<Issue>, BookFault> {
        self.inner.last_issue(id)
    }

    fn candidate(&mut self, range: &Range) -> Result<Candidate, BookFault> {
        self.inner.candidate(range)
    }

    fn candidate_after(&mut self, range: &Range, issued: u8) -> Result<Candidate, BookFault> {
        self.inner.candidate_after(range, issued)
    }

    fn usage(&mut self, range: &Range, day: u32) -> Result<Usage, BookFault> {
        self.inner.usage(range, day)
    }

    fn keep(&mut self, entry: Entry) -> Result<(), BookFault> {
        self.inner.append(entry)
    }
}

impl<B: GroupCommit> GroupCommit for Batched<B> {
    fn append(&mut self, entry: Entry) -> Result<(), BookFault> {
        self.inner.append(entry)
    }

    fn commit(&mut self) -> Result<(), BookFault> {
        self.inner.commit()
    }

    fn is_committed(&self, customer: u32, number: u32) -> bool {
        self.inner.is_committed(customer, number)
    }
}

impl<B: LastFailure> LastFailure for Batched<B> {
    type Reason = B::Reason;

    fn last_failure(&self) -> Option<B::Reason> {
        self.inner.last_failure()
    }
}
