//! A book that fails once, for tests.

ghost use Rattle.std.specs.Prelude.{◌≡◌, ◌||◌, ◌&&◌, ◌==◌, ◌-◌, not, false};
ghost use Rattle.s10_book.specs.BookFault.{with_trip};

use crate::book::Book;
use crate::book_fault::BookFault;
use crate::group_commit::GroupCommit;
use crate::last_failure::LastFailure;
use s10_core::Id;
use s10_history::{Candidate, Entry, HolderKey, Issue, Range, SerialSpan, Settings, Usage};

/// A book over another book that fails once, to show the effect of a failure.
///
/// Its calls that return a Result are counted from 0. The one with the given number returns `Store`
/// without calling the inner book, and counts one more fault of the store. All other calls are
/// those of the inner book.
#[derive(Drop)]
pub struct TripBook<B> {
    inner: B,
    // The number of calls before the one that fails.
    left: u64,
    // Whether that call has failed.
    tripped: bool,
}

impl<B: Book> TripBook<B> {
    /// Returns a book over `inner` whose call number `at`, from 0, fails.
    pub fn new(inner: B, at: u64) -> TripBook<B>
        ensures history { ⟦<TripBook<B> as Book>⟧.history result ≡ B.history inner }
        ensures committed { ⟦<TripBook<B> as Book>⟧.committed result ≡ B.committed inner }
        ensures terms { ⟦<TripBook<B> as Book>⟧.terms result ≡ B.terms inner }
        ensures faults { ⟦<TripBook<B> as Book>⟧.faults result ≡ B.faults inner }
        ensures was_honest { ⟦<TripBook<B> as Book>⟧.honest result → B.honest inner }
        ensures honest { B.honest inner → ⟦<TripBook<B> as Book>⟧.honest result }
    {
        TripBook {
            inner,
            left: at,
            tripped: false,
        }
    }

    /// Returns the inner book, as the calls that did not fail left it.
    pub fn into_inner(self) -> B
        ensures history { B.history result ≡ ⟦<TripBook<B> as Book>⟧.history self }
        ensures committed { B.committed result ≡ ⟦<TripBook<B> as Book>⟧.committed self }
        ensures terms { B.terms result ≡ ⟦<TripBook<B> as Book>⟧.terms self }
        ensures honest { ⟦<TripBook<B> as Book>⟧.honest self → B.honest result }
    {
        self.inner
    }

    // Counts a call, and returns whether it is the one that fails.
    fn trips(&mut self) -> bool
        ensures inner { self.new.inner ≡ self.old.inner }
        ensures trips { result ≡ (not self.old.tripped && self.old.left == 0) }
        ensures tripped { self.new.tripped ≡ (self.old.tripped || result) }
        ensures left { self.old.tripped ≡ false → self.new.left ≡ self.old.left - 1 }
    {
        if self.tripped {
            return false;
        }
        if self.left == 0 {
            self.tripped = true;
            return true;
        }
        self.left -= 1;
        false
    }
}

impl<B: Book> Book for TripBook<B> {
    ghost history = { λ b. B.history b.inner };

    ghost committed = { λ b. B.committed b.inner };

    ghost durable = { B.durable };

    ghost terms = { λ b. B.terms b.inner };

    ghost faults = { λ b. with_trip b.tripped (B.faults b.inner) };

    ghost honest = { λ b. B.honest b.inner };

    ghost clean = { λ b. B.clean b.inner };

    ghost may_find = { λ b. B.may_find b.inner };

    ghost legal = { λ b h. B.legal b.inner h };

    ghost first = { λ b h. B.first b.inner h };

    ghost found = { λ b h. B.found b.inner h };

    fn settings(&self) -> Settings {
        self.inner.settings()
    }

    fn len(&self) -> u32 {
        self.inner.len()
    }

    fn day(&self) -> u32 {
        self.inner.day()
    }

    fn find(&mut self, customer: u32, number: u32) -> Result<Option<Entry>, BookFault> {
        if self.trips() {
            return Err(BookFault::Store);
        }
        self.inner.find(customer, number)
    }

    fn entry(&mut self, at: u32) -> Result<Option<Entry>, BookFault> {
        if self.trips() {
            return Err(BookFault::Store);
        }
        self.inner.entry(at)
    }

    fn range(&mut self, num: u32) -> Result<Option<Range>, BookFault> {
        if self.trips() {
            return Err(BookFault::Store);
        }
        self.inner.range(num)
    }

    fn closed(&mut self, num: u32) -> Result<bool, BookFault> {
        if self.trips() {
            return Err(BookFault::Store);
        }
        self.inner.closed(num)
    }

    fn next_range(&mut self, held: &HolderKey, after: u32) -> Result<Option<Range>, BookFault> {
        if self.trips() {
            return Err(BookFault::Store);
        }
        self.inner.next_range(held, after)
    }

    fn next_free_range(
        &mut self,
        held: &HolderKey,
        after: u32,
        day: u32,
    ) -> Result<Option<Range>, BookFault> {
        if self.trips() {
            return Err(BookFault::Store);
        }
        self.inner.next_free_range(held, after, day)
    }

    fn covering(&mut self, span: &SerialSpan) -> Result<Option<Range>, BookFault> {
        if self.trips() {
            return Err(BookFault::Store);
        }
        self.inner.covering(span)
    }

    fn last_issue(&mut self, id: &Id) -> Result<Option<Issue>, BookFault> {
        if self.trips() {
            return Err(BookFault::Store);
        }
        self.inner.last_issue(id)
    }

    fn candidate(&mut self, range: &Range) -> Result<Candidate, BookFault> {
        if self.trips() {
            return Err(BookFault::Store);
        }
        self.inner.candidate(range)
    }

    fn candidate_after(&mut self, range: &Range, issued: u8) -> Result<Candidate, BookFault> {
        if self.trips() {
            return Err(BookFault::Store);
        }
        self.inner.candidate_after(range, issued)
    }

    fn usage(&mut self, range: &Range, day: u32) -> Result<Usage, BookFault> {
        if self.trips() {
            return Err(BookFault::Store);
        }
        self.inner.usage(range, day)
    }

    fn keep(&mut self, entry: Entry) -> Result<(), BookFault> {
        if self.trips() {
            return Err(BookFault::Store);
        }
        self.inner.keep(entry)
    }
}

impl<B: GroupCommit> GroupCommit for TripBook<B> {
    fn append(&mut self, entry: Entry) -> Result<(), BookFault> {
        if self.trips() {
            return Err(BookFault::Store);
        }
        self.inner.append(entry)
    }

    fn commit(&mut self) -> Result<(), BookFault> {
        if self.trips() {
            return Err(BookFault::Store);
        }
        self.inner.commit()
    }

    fn is_committed(&self, customer: u32, number: u32) -> bool {
        self.inner.is_committed(customer, number)
    }
}

impl<B> LastFailure for TripBook<B> {
    type Reason = BookFault;

    fn last_failure(&self) -> Option<BookFault> {
        if self.tripped {
            Some(BookFault::Store)
        } else {
            None
        }
    }
}
