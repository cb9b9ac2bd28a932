//! A book as lists in memory.

ghost use Rattle.std.specs.Prelude.{◌≡◌, ◌∷◌, ◌++◌, [], ⊤, OnOk, OnErr, IfOk, IfErr, IfSome};
ghost use Rattle.std.specs.Prelude.{IsTrue, Contains, find, ◌==◌, ◌<◌, ◌≤◌, ◌+◌, ◌-◌, ◌^◌, vec_len};
ghost use Rattle.std.specs.Prelude.{vec_capacity, length, option_to_list, Some};
ghost use Rattle.s10_wire.specs.Kind.{fits};
ghost use Rattle.s10_history.specs.Settings.{Terms};
ghost use Rattle.s10_history.specs.History.{ranges_of, range_of_grant, find_entry, entry_at};
ghost use Rattle.s10_history.specs.History.{is_closed, is_open_after, overlaps};
ghost use Rattle.s10_history.specs.Issues.{issues_of, issues_at, last_issue_of, candidate_of};
ghost use Rattle.s10_history.specs.Issues.{candidate_after_of, size_of};
ghost use Rattle.s10_history.specs.Usage.{usage_of};
ghost use Rattle.s10_book.specs.Rules.{IsLegal, MayFollow, is_free_after};
ghost use Rattle.s10_book.specs.BookFault.{CountsResult, no_faults};

use crate::book::Book;
use crate::book_fault::BookFault;
use crate::faults::Faults;
use crate::group_commit::GroupCommit;
use crate::last_failure::LastFailure;
use s10_core::Id;
use s10_history::{
    Candidate, Entry, HolderKey, Issuance, Issue, Range, SerialSpan, Settings, Usage, candidate_in,
    closed_in, covering_in, entry_in, find_in, is_free, last_issue_in, next_range_in, range_in,
    usage_in,
};
use std::alloc::{AllocError, Global};

/// A book as lists in memory: the calls, with their ranges and their issuances.
///
/// It is always honest. Only `keep` can fail, with `Memory`.
#[derive(Drop)]
pub struct PlainBook {
    settings: Settings,
    faults: Faults,
    entries: Vec<Entry>,
    ranges: Vec<Range>,
    issues: Vec<Issuance>,
    ghost granted: { ranges.items ≡ ranges_of entries.items },
    ghost issued: { issues.items ≡ issues_of entries.items },
    ghost legal: { IsLegal entries.items settings },
}

impl PlainBook {
    /// Creates an empty book with these settings, without a fault counted.
    pub fn new(alloc: Global, settings: Settings) -> PlainBook
        ensures history { ⟦<PlainBook as Book>⟧.history result ≡ [] }
        ensures terms { ⟦<PlainBook as Book>⟧.terms result ≡ settings }
        ensures faults { ⟦<PlainBook as Book>⟧.faults result ≡ no_faults }
        ensures honest { ⟦<PlainBook as Book>⟧.honest result }
    {
        PlainBook {
            settings,
            faults: Faults::none(),
            entries: Vec::new(alloc),
            ranges: Vec::new(alloc),
            issues: Vec::new(alloc),
        }
    }

    // Appends a call with its range and its issuances, once memory for all of them is reserved.
    fn add(&mut self, entry: Entry) -> Result<(), AllocError>
        requires { MayFollow self.old.entries.items self.old.settings entry }
        ensures terms { self.new.settings ≡ self.old.settings }
        ensures faults { self.new.faults ≡ self.old.faults }
        ensures ok { OnOk result (self.new.entries.items ≡ self.old.entries.items ++ entry ∷ []) }
        ensures err { OnErr result (self.new.entries.items ≡ self.old.entries.items) }
    {
        // Brings limit <= MAX_LIMIT into scope.
        let _limit = self.settings.limit();
        self.ranges.reserve(1)?;
        self.issues.reserve(entry.issued())?;
        self.entries.reserve(1)?;
        let made = range_made(self.ranges.len(), &entry);
        let kept = self.entries.len();
        push_made(&mut self.ranges, made);
        push_issues(&mut self.issues, kept as u32 + 1, &entry);
        push_made(&mut self.entries, Some(entry));
        Ok(())
    }
}

// Appends the value, if there is one; memory for it is reserved.
fn push_made<T: Copy>(list: &mut Vec<T>, made: Option<T>)
    requires { vec_len list.old < vec_capacity list.old }
    ensures items { list.new.items ≡ list.old.items ++ option_to_list made }
    ensures room { vec_capacity list.old ≤ vec_capacity list.new }
{
    if let Some(item) = made {
        let _ = list.push(item);
    }
}

// Appends the issuances of a call; memory for them is reserved.
fn push_issues(list: &mut Vec<Issuance>, arrival: u32, entry: &Entry)
    requires { vec_len list.old + length (issues_at arrival entry.now) ≤ vec_capacity list.old }
    ensures { list.new.items ≡ list.old.items ++ issues_at arrival entry.now }
{
    for place in 0..entry.issued() {
        push_made(list, entry.issue(arrival, place));
    }
}

// Returns the range that a call creates as the one after `count` others.
fn range_made(count: usize, entry: &Entry) -> Option<Range>
    requires { count < 2 ^ 32 - 1 }
    ensures { result ≡ range_of_grant (count + 1) entry.now.request.body entry.now.outcome }
{
    entry.range_made(count as u32 + 1)
}

// Returns the first open range of the holder key above the number `after` whose pick is free on the
// day.
fn next_free_in(book: &PlainBook, held: &HolderKey, after: u32, day: u32) -> Option<Range>
    ensures { result ≡ find (is_free_after book.now.entries.items after held.now.holder
        held.now.service held.now.country day book.now.settings.interval)
        (ranges_of book.now.entries.items) }
{
    let interval = book.settings.interval();
    let mut past = after;
    while let Some(range) = next_range_in(&book.entries, &book.ranges, held, past) {
        let candidate = candidate_in(&book.entries, &book.issues, &range);
        if is_free(&candidate.issue, day, interval) {
            return Some(range);
        }
        past = range.num;
    }
    None
}

// Returns the candidate of the range after `issued` further picks of it.
fn candidate_after_in(
    entries: &[Entry],
    issues: &[Issuance],
    range: &Range,
    issued: u8,
) -> Candidate
    requires issued { issues.now ≡ issues_of entries.now }
    requires legal { (t : Terms) × IsLegal entries.now t }
    requires there { Contains (ranges_of entries.now) range.now }
    requires fewer { issued < size_of range.now }
    ensures { result ≡ candidate_after_of entries.now range.now issued }
{
    let pick = candidate_in(entries, issues, range);
    let serial = range.serial_after(pick.serial, issued);
    Candidate {
        serial,
        issue: last_issue_in(entries, issues, &range.id(serial)),
    }
}

// A read of a book in memory always succeeds and changes nothing.
impl Book for PlainBook {
    ghost use Rattle.std.proofs.Common.{sym, append-nil};

    ghost history = { λ b. b.entries.items };

    ghost committed = { λ b. b.entries.items };

    ghost durable = { ⊤ };

    ghost terms = { λ b. b.settings };

    ghost faults = { λ b. b.faults };

    ghost honest = { λ b. ⊤ };

    ghost clean = { λ b. ⊤ };

    ghost may_find = { λ b found. found ≡ Some b.entries.items };

    ghost legal = { λ b h. b.legal };

    ghost first = { λ b h. ([], sym (append-nil b.entries.items)) };

    ghost found = { λ b h found may. may };

    fn settings(&self) -> Settings {
        self.settings
    }

    fn len(&self) -> u32 {
        // Brings limit <= MAX_LIMIT into scope.
        let _limit = self.settings.limit();
        self.entries.len() as u32
    }

    fn day(&self) -> u32 {
        match self.entries.last() {
            None => 0,
            Some(entry) => entry.day,
        }
    }

    fn find(&mut self, customer: u32, number: u32) -> Result<Option<Entry>, BookFault>
        ensures same { self.new ≡ self.old }
        ensures answer { result ≡ Ok (find_entry (⟦<PlainBook as Book>⟧.history self.old) customer
            number) }
        ensures fits { IfOk result
            (λ found. IfSome found (λ e. IsTrue (fits e.request.body e.outcome))) }
    {
        Ok(find_in(&self.entries, customer, number))
    }

    fn entry(&mut self, at: u32) -> Result<Option<Entry>, BookFault>
        ensures same { self.new ≡ self.old }
        ensures answer { result ≡ Ok (entry_at (⟦<PlainBook as Book>⟧.history self.old) at) }
    {
        Ok(entry_in(&self.entries, at))
    }

    fn range(&mut self, num: u32) -> Result<Option<Range>, BookFault>
        ensures same { self.new ≡ self.old }
        ensures answer { result
            ≡ Ok (find (λ r. r.num == num) (ranges_of (⟦<PlainBook as Book>⟧.history self.old))) }
    {
        Ok(range_in(&self.ranges, num))
    }

    fn closed(&mut self, num: u32) -> Result<bool, BookFault>
        ensures same { self.new ≡ self.old }
        ensures answer { result ≡ Ok (is_closed (⟦<PlainBook as Book>⟧.history self.old) num) }
    {
        Ok(closed_in(&self.entries, num))
    }

    fn next_range(&mut self, held: &HolderKey, after: u32) -> Result<Option<Range>, BookFault>
        ensures same { self.new ≡ self.old }
        ensures answer { result
            ≡ Ok (find (is_open_after (⟦<PlainBook as Book>⟧.history self.old) after held.now.holder
            held.now.service held.now.country)
            (ranges_of (⟦<PlainBook as Book>⟧.history self.old))) }
        ensures above { IfOk result (λ found. IfSome found (λ r. after < r.num)) }
    {
        Ok(next_range_in(&self.entries, &self.ranges, held, after))
    }

    fn next_free_range(
        &mut self,
        held: &HolderKey,
        after: u32,
        day: u32,
    ) -> Result<Option<Range>, BookFault>
        ensures same { self.new ≡ self.old }
        ensures answer { result
            ≡ Ok (find (is_free_after (⟦<PlainBook as Book>⟧.history self.old) after held.now.holder
            held.now.service held.now.country day (⟦<PlainBook as Book>⟧.terms self.old).interval)
            (ranges_of (⟦<PlainBook as Book>⟧.history self.old))) }
    {
        Ok(next_free_in(self, held, after, day))
    }

    fn covering(&mut self, span: &SerialSpan) -> Result<Option<Range>, BookFault>
        ensures same { self.new ≡ self.old }
        ensures answer { result
            ≡ Ok (find (overlaps span.now.service span.now.country span.now.first span.now.last)
            (ranges_of (⟦<PlainBook as Book>⟧.history self.old))) }
    {
        Ok(covering_in(&self.ranges, span))
    }

    fn last_issue(&mut self, id: &Id) -> Result<Option<Issue>, BookFault>
        ensures same { self.new ≡ self.old }
        ensures answer { result ≡ Ok (last_issue_of (⟦<PlainBook as Book>⟧.history self.old)
            id.now) }
    {
        Ok(last_issue_in(&self.entries, &self.issues, id))
    }

    fn candidate(&mut self, range: &Range) -> Result<Candidate, BookFault>
        requires { Contains (ranges_of (⟦<PlainBook as Book>⟧.history self.old)) range.now }
        ensures same { self.new ≡ self.old }
        ensures answer { result ≡ Ok (candidate_of (⟦<PlainBook as Book>⟧.history self.old)
            range.now) }
    {
        Ok(candidate_in(&self.entries, &self.issues, range))
    }

    fn candidate_after(&mut self, range: &Range, issued: u8) -> Result<Candidate, BookFault>
        requires there { Contains (ranges_of (⟦<PlainBook as Book>⟧.history self.old)) range.now }
        requires fewer { issued < size_of range.now }
        ensures same { self.new ≡ self.old }
        ensures answer { result ≡ Ok (candidate_after_of (⟦<PlainBook as Book>⟧.history self.old)
            range.now issued) }
    {
        Ok(candidate_after_in(&self.entries, &self.issues, range, issued))
    }

    fn usage(&mut self, range: &Range, day: u32) -> Result<Usage, BookFault>
        requires { Contains (ranges_of (⟦<PlainBook as Book>⟧.history self.old)) range.now }
        ensures same { self.new ≡ self.old }
        ensures answer { result ≡ Ok (usage_of (⟦<PlainBook as Book>⟧.history self.old) range.now
            day (⟦<PlainBook as Book>⟧.terms self.old).interval) }
    {
        let interval = self.settings.interval();
        let day = self.day().max(day);
        Ok(usage_in(&self.entries, &self.issues, range, day, interval))
    }

    fn keep(&mut self, entry: Entry) -> Result<(), BookFault>
        requires { MayFollow (⟦<PlainBook as Book>⟧.history self.old)
            (⟦<PlainBook as Book>⟧.terms self.old) entry }
        ensures faults { CountsResult result (⟦<PlainBook as Book>⟧.faults self.old)
            (⟦<PlainBook as Book>⟧.faults self.new) }
        ensures memory { IfErr result (λ fault. fault ≡ BookFault.Memory) }
        ensures same_terms { ⟦<PlainBook as Book>⟧.terms self.new ≡ ⟦<PlainBook as Book>⟧.terms
            self.old }
        ensures ok { OnOk result (⟦<PlainBook as Book>⟧.history self.new
            ≡ ⟦<PlainBook as Book>⟧.history self.old ++ entry ∷ []) }
        ensures err { OnErr result (⟦<PlainBook as Book>⟧.history self.new
            ≡ ⟦<PlainBook as Book>⟧.history self.old) }
    {
        match self.add(entry) {
            Ok(()) => Ok(()),
            Err(_) => {
                self.faults.add(BookFault::Memory);
                Err(BookFault::Memory)
            }
        }
    }
}

// A book in memory has no durable store, so each of its calls counts as committed.
impl GroupCommit for PlainBook {
    fn append(&mut self, entry: Entry) -> Result<(), BookFault> {
        self.keep(entry)
    }

    fn commit(&mut self) -> Result<(), BookFault> {
        Ok(())
    }

    fn is_committed(&self, _customer: u32, _number: u32) -> bool {
        true
    }
}

impl LastFailure for PlainBook {
    type Reason = BookFault;

    fn last_failure(&self) -> Option<BookFault> {
        None
    }
}
