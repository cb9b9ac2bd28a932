//! The book in memory over an index.

ghost use Rattle.std.specs.Prelude.{◌≡◌, ◌∷◌, ◌++◌, [], ⊤, OnOk, OnErr, IfOk, IfErr, IfSome, Some};
ghost use Rattle.std.specs.Prelude.{IsTrue, Contains, find, ◌==◌, ◌<◌, ◌≤◌, length};
ghost use Rattle.s10_wire.specs.Kind.{fits};
ghost use Rattle.s10_history.specs.History.{ranges_of, find_entry, entry_at, is_closed};
ghost use Rattle.s10_history.specs.History.{is_open_after, overlaps};
ghost use Rattle.s10_history.specs.Issues.{last_issue_of, candidate_of, candidate_after_of};
ghost use Rattle.s10_history.specs.Issues.{size_of};
ghost use Rattle.s10_history.specs.Usage.{usage_of, CountsSerials};
ghost use Rattle.s10_history.specs.declared.settings.TheConstants.{MAX_LIMIT};
ghost use Rattle.s10_book.specs.Rules.{IsLegal, MayFollow, is_free_after};
ghost use Rattle.s10_book.specs.BookFault.{CountsResult, no_faults};
ghost use Rattle.s10_index.specs.CallIndex.{Indexes, HashesWith};

use crate::call_index::CallIndex;
use s10_book::{Book, BookFault, Faults, GroupCommit};
use s10_core::Id;
use s10_history::{
    Candidate, Entry, HolderKey, Issue, Range, SerialSpan, Settings, Usage, usage_by,
};
use s10_ranges::HashSeed;
use std::alloc::{AllocError, Global};

/// A book in memory over an index of its calls. It is always honest, and only `keep` can fail, with
/// `Memory`. It never counts a fault of the store.
///
/// `usage` looks up each serial of the range; no other read walks the serials or the calls.
#[derive(Drop)]
pub struct IndexedBook {
    /// The reuse interval in days and the limit.
    settings: Settings,
    /// The faults counted.
    faults: Faults,
    /// The calls, with their index.
    pub(crate) index: CallIndex,
    ghost indexed: { Indexes index index.entries.items },
    ghost legal: { IsLegal index.entries.items settings },
    ghost no_store_fault: { faults.store ≡ 0 },
}

impl IndexedBook {
    /// Creates an empty book with these settings and no fault counted. Its hashes have this seed.
    pub fn new(alloc: Global, seed: HashSeed, settings: Settings) -> IndexedBook
        ensures history { ⟦<IndexedBook as Book>⟧.history result ≡ [] }
        ensures terms { ⟦<IndexedBook as Book>⟧.terms result ≡ settings }
        ensures faults { ⟦<IndexedBook as Book>⟧.faults result ≡ no_faults }
        ensures honest { ⟦<IndexedBook as Book>⟧.honest result }
        ensures seeded { HashesWith result.index seed }
    {
        IndexedBook {
            settings,
            faults: Faults::none(),
            index: CallIndex::new(alloc, seed),
        }
    }

    /// Returns its calls, with their index.
    pub fn into_index(self) -> CallIndex
        ensures indexed { Indexes result self.index.entries.items }
        ensures few { length result.entries.items ≤ MAX_LIMIT }
    {
        // Brings len() <= MAX_LIMIT into scope.
        let _len = self.len();
        self.index
    }

    // Adds a call and records what it did, in memory that is reserved first.
    fn add(&mut self, entry: Entry) -> Result<(), AllocError>
        requires { MayFollow self.old.index.entries.items self.old.settings entry }
        ensures terms { self.new.settings ≡ self.old.settings }
        ensures faults { self.new.faults ≡ self.old.faults }
        ensures ok { OnOk result (self.new.index.entries.items ≡ self.old.index.entries.items
            ++ entry ∷ []) }
        ensures err { OnErr result (self.new.index.entries.items ≡ self.old.index.entries.items) }
    {
        // Brings len() <= MAX_LIMIT into scope.
        let _len = self.len();
        self.index.prepare(&entry)?;
        self.index.follow(entry);
        Ok(())
    }

    // Counts the serials of the range that were issued, that are voided, and that are free on the
    // day.
    fn usage_on(&self, range: &Range, day: u32) -> Usage
        ensures { CountsSerials self.now.index.entries.items range.now day
            self.now.settings.interval result }
    {
        let interval = self.settings.interval();
        usage_by(range, day, interval, |id| self.index.last_issue(id))
    }
}

// A read of a book in memory always succeeds and changes nothing.
impl Book for IndexedBook {
    ghost use Rattle.std.proofs.Common.{sym, append-nil};

    ghost history = { λ b. b.index.entries.items };

    ghost committed = { λ b. b.index.entries.items };

    ghost durable = { ⊤ };

    ghost terms = { λ b. b.settings };

    ghost faults = { λ b. b.faults };

    ghost honest = { λ b. ⊤ };

    ghost clean = { λ b. ⊤ };

    ghost may_find = { λ b found. found ≡ Some b.index.entries.items };

    ghost legal = { λ b h. b.legal };

    ghost first = { λ b h. ([], sym (append-nil b.index.entries.items)) };

    ghost found = { λ b h found may. may };

    fn settings(&self) -> Settings {
        self.settings
    }

    fn len(&self) -> u32 {
        // Brings limit <= MAX_LIMIT into scope.
        let _limit = self.settings.limit();
        self.index.calls().len() as u32
    }

    fn day(&self) -> u32 {
        self.index.day()
    }

    fn find(&mut self, customer: u32, number: u32) -> Result<Option<Entry>, BookFault>
        ensures same { self.new ≡ self.old }
        ensures answer { result ≡ Ok (find_entry (⟦<IndexedBook as Book>⟧.history self.old) customer
            number) }
        ensures fits { IfOk result
            (λ found. IfSome found (λ e. IsTrue (fits e.request.body e.outcome))) }
    {
        Ok(self.index.find(customer, number))
    }

    fn entry(&mut self, at: u32) -> Result<Option<Entry>, BookFault>
        ensures same { self.new ≡ self.old }
        ensures answer { result ≡ Ok (entry_at (⟦<IndexedBook as Book>⟧.history self.old) at) }
    {
        Ok(self.index.entry(at))
    }

    fn range(&mut self, num: u32) -> Result<Option<Range>, BookFault>
        ensures same { self.new ≡ self.old }
        ensures answer { result
            ≡ Ok (find (λ r. r.num == num) (ranges_of (⟦<IndexedBook as Book>⟧.history self.old))) }
    {
        Ok(self.index.ranges().range_by_number(num))
    }

    fn closed(&mut self, num: u32) -> Result<bool, BookFault>
        ensures same { self.new ≡ self.old }
        ensures answer { result ≡ Ok (is_closed (⟦<IndexedBook as Book>⟧.history self.old) num) }
    {
        Ok(self.index.ranges().is_closed(num))
    }

    fn next_range(&mut self, held: &HolderKey, after: u32) -> Result<Option<Range>, BookFault>
        ensures same { self.new ≡ self.old }
        ensures answer { result
            ≡ Ok (find (is_open_after (⟦<IndexedBook as Book>⟧.history self.old) after
            held.now.holder held.now.service held.now.country)
            (ranges_of (⟦<IndexedBook as Book>⟧.history self.old))) }
        ensures above { IfOk result (λ found. IfSome found (λ r. after < r.num)) }
    {
        let next = self
            .index
            .ranges()
            .next_open_range(held.holder, held.service, held.country, after);
        Ok(next)
    }

    fn next_free_range(
        &mut self,
        held: &HolderKey,
        after: u32,
        day: u32,
    ) -> Result<Option<Range>, BookFault>
        ensures same { self.new ≡ self.old }
        ensures answer { result
            ≡ Ok (find (is_free_after (⟦<IndexedBook as Book>⟧.history self.old) after
            held.now.holder held.now.service held.now.country day
            (⟦<IndexedBook as Book>⟧.terms self.old).interval)
            (ranges_of (⟦<IndexedBook as Book>⟧.history self.old))) }
    {
        let interval = self.settings.interval();
        Ok(self.index.next_free_range(held, after, day, interval))
    }

    fn covering(&mut self, span: &SerialSpan) -> Result<Option<Range>, BookFault>
        ensures same { self.new ≡ self.old }
        ensures answer { result
            ≡ Ok (find (overlaps span.now.service span.now.country span.now.first span.now.last)
            (ranges_of (⟦<IndexedBook as Book>⟧.history self.old))) }
    {
        let found = self
            .index
            .ranges()
            .covering_range(span.service, span.country, span.first, span.last);
        Ok(found)
    }

    fn last_issue(&mut self, id: &Id) -> Result<Option<Issue>, BookFault>
        ensures same { self.new ≡ self.old }
        ensures answer { result ≡ Ok (last_issue_of (⟦<IndexedBook as Book>⟧.history self.old)
            id.now) }
    {
        Ok(self.index.last_issue(id))
    }

    fn candidate(&mut self, range: &Range) -> Result<Candidate, BookFault>
        requires { Contains (ranges_of (⟦<IndexedBook as Book>⟧.history self.old)) range.now }
        ensures same { self.new ≡ self.old }
        ensures answer { result ≡ Ok (candidate_of (⟦<IndexedBook as Book>⟧.history self.old)
            range.now) }
    {
        Ok(self.index.candidate_after(range, 0))
    }

    fn candidate_after(&mut self, range: &Range, issued: u8) -> Result<Candidate, BookFault>
        requires there { Contains (ranges_of (⟦<IndexedBook as Book>⟧.history self.old)) range.now }
        requires fewer { issued < size_of range.now }
        ensures same { self.new ≡ self.old }
        ensures answer { result ≡ Ok (candidate_after_of (⟦<IndexedBook as Book>⟧.history self.old)
            range.now issued) }
    {
        Ok(self.index.candidate_after(range, issued))
    }

    fn usage(&mut self, range: &Range, day: u32) -> Result<Usage, BookFault>
        requires { Contains (ranges_of (⟦<IndexedBook as Book>⟧.history self.old)) range.now }
        ensures same { self.new ≡ self.old }
        ensures answer { result ≡ Ok (usage_of (⟦<IndexedBook as Book>⟧.history self.old) range.now
            day (⟦<IndexedBook as Book>⟧.terms self.old).interval) }
    {
        let day = self.day().max(day);
        Ok(self.usage_on(range, day))
    }

    fn keep(&mut self, entry: Entry) -> Result<(), BookFault>
        requires { MayFollow (⟦<IndexedBook as Book>⟧.history self.old)
            (⟦<IndexedBook as Book>⟧.terms self.old) entry }
        ensures faults { CountsResult result (⟦<IndexedBook as Book>⟧.faults self.old)
            (⟦<IndexedBook as Book>⟧.faults self.new) }
        ensures memory { IfErr result (λ fault. fault ≡ BookFault.Memory) }
        ensures same_terms { ⟦<IndexedBook as Book>⟧.terms self.new ≡ ⟦<IndexedBook as Book>⟧.terms
            self.old }
        ensures ok { OnOk result (⟦<IndexedBook as Book>⟧.history self.new
            ≡ ⟦<IndexedBook as Book>⟧.history self.old ++ entry ∷ []) }
        ensures err { OnErr result (⟦<IndexedBook as Book>⟧.history self.new
            ≡ ⟦<IndexedBook as Book>⟧.history self.old) }
    {
        match self.add(entry) {
            Ok(()) => Ok(()),
            Err(_) => {
                self.faults.add(BookFault::Memory);
                Err(BookFault::Memory)
            }
        }
    }
}

// A book in memory commits a call when it keeps it: nothing is ever pending.
impl GroupCommit for IndexedBook {
    fn append(&mut self, entry: Entry) -> Result<(), BookFault> {
        self.keep(entry)
    }

    fn commit(&mut self) -> Result<(), BookFault> {
        Ok(())
    }

    fn is_committed(&self, _customer: u32, _number: u32) -> bool {
        true
    }
}
