//! Calls with an index.

ghost use Rattle.std.specs.Prelude.{◌≡◌, ◌∷◌, ◌++◌, [], ◌<◌, OnOk, IfSome, IsTrue, All, Contains};
ghost use Rattle.std.specs.Prelude.{List, length, find, not, ◌&&◌};
ghost use Rattle.s10_wire.specs.Kind.{fits};
ghost use Rattle.s10_history.specs.declared.entry.Entry.{Entry};
ghost use Rattle.s10_history.specs.Settings.{Terms};
ghost use Rattle.s10_history.specs.History.{day_of, ranges_of, find_entry, entry_at, is_closed};
ghost use Rattle.s10_history.specs.Issues.{issues_of, last_issuance_of, last_issue_of};
ghost use Rattle.s10_history.specs.Issues.{candidate_after_of, size_of, pick_of};
ghost use Rattle.s10_book.specs.Rules.{IsLegal, MayFollow, has_free_pick, is_free_after};
ghost use Rattle.s10_ranges.specs.Moves.{AreMoves};
ghost use Rattle.s10_ranges.specs.Rests.{rest_of};

use crate::call_log::CallLog;
use crate::hash_chains::HashChains;
use crate::issue_log::IssueLog;
use crate::positions::{find_in, record_position};
use s10_core::{Id, Serial};
use s10_history::{Candidate, Entry, HolderKey, Issuance, Issue, Range, is_free};
use s10_ranges::{HashSeed, Lap, MarkMove, Ranges, Rest, Rests};
use s10_wire::Body;
use std::alloc::{AllocError, Global};

/// Calls held in the process, with their ranges, marks and rests. Chains of hashes find a call by its
/// key, and the last issuance of an identifier: they hold indices, and copy neither.
///
/// Any call can be added. What the reads return is that of a history only if the calls are one
/// (`Indexes`). `Ranges` searches by halving: no read walks the calls.
#[derive(Drop)]
pub struct CallIndex {
    /// The calls, in order of arrival.
    pub(crate) entries: CallLog,
    /// The ranges of the calls, with their marks.
    pub(crate) ranges: Ranges,
    /// What is known of the ranges that give nothing for a while.
    rests: Rests,
    /// The seed of the hashes.
    seed: HashSeed,
    /// The hash of the key of each call in `entries`.
    positions: HashChains,
    /// The issuances of the calls.
    pub(crate) issues: IssueLog,
    /// How the call that was prepared last moves the marks. Kept from call to call for its memory.
    moves: Vec<MarkMove>,
    ghost fitting: { All (λ e. IsTrue (fits e.request.body e.outcome)) entries.items },
}

impl CallIndex {
    ghost use Rattle.s10_index.specs.CallIndex.{Indexes, HasRoomFor, HashesWith};

    /// Creates an index of no calls. Its hashes have this seed.
    pub fn new(alloc: Global, seed: HashSeed) -> CallIndex
        ensures none { Indexes result [] }
        ensures seeded { HashesWith result seed }
    {
        CallIndex {
            entries: CallLog::new(alloc),
            ranges: Ranges::new(alloc, seed),
            rests: Rests::new(alloc),
            seed,
            positions: HashChains::new(alloc),
            issues: IssueLog::new(alloc),
            moves: Vec::new(alloc),
        }
    }

    /// Returns the calls, in order of arrival.
    pub fn calls(&self) -> &CallLog
        ensures { result.now.items ≡ self.now.entries.items }
    {
        &self.entries
    }

    /// Returns the ranges with their marks.
    pub fn ranges(&self) -> &Ranges
        ensures { result.now ≡ self.now.ranges }
    {
        &self.ranges
    }

    /// Returns how the call that was prepared last moves the marks.
    pub fn moves(&self) -> &[MarkMove]
        ensures { result.now ≡ self.now.moves.items }
    {
        &self.moves
    }

    /// Returns the day of the last call, or 0 if there is none.
    pub fn day(&self) -> u32
        ensures { result ≡ day_of self.now.entries.items }
    {
        match self.entries.last() {
            None => 0,
            Some(entry) => entry.day,
        }
    }

    /// Returns the call with that key, or `None`.
    pub fn find(&self, customer: u32, number: u32) -> Option<Entry>
        ensures answer { (h : List Entry) → Indexes self.now h
            → result ≡ find_entry h customer number }
        ensures fits { IfSome result (λ e. IsTrue (fits e.request.body e.outcome)) }
    {
        find_in(&self.entries, &self.positions, &self.seed, customer, number)
    }

    /// Returns the call with the arrival `at`, counted from 1, or `None`.
    pub fn entry(&self, at: u32) -> Option<Entry>
        ensures { result ≡ entry_at self.now.entries.items at }
    {
        match at.checked_sub(1) {
            None => None,
            Some(place) => self.entries.get(place as usize),
        }
    }

    /// Returns the last issue of the identifier, or `None` if it was never issued.
    pub fn last_issue(&self, id: &Id) -> Option<Issue>
        ensures { (h : List Entry) → Indexes self.now h → result ≡ last_issue_of h id.now }
    {
        let last = self.issues.last(&self.entries, &self.seed, id)?;
        Some(Issue {
            day: last.issuance.day,
            voided: last.voided,
            customer: last.issuance.customer,
            number: last.issuance.number,
        })
    }

    /// Returns the last issuance of the identifier, or `None` if it was never issued.
    pub fn last_issuance(&self, id: &Id) -> Option<Issuance>
        ensures { (h : List Entry) (t : Terms) → IsLegal h t → length h < 4294967295
            → Indexes self.now h → result ≡ last_issuance_of (issues_of h) id.now }
    {
        let last = self.issues.last(&self.entries, &self.seed, id)?;
        Some(last.issuance)
    }

    // Returns the serial that the range, one of its own, gives next.
    fn pick(&self, range: &Range) -> Serial
        ensures { (h : List Entry) → Indexes self.now h → Contains (ranges_of h) range.now
            → result ≡ pick_of (issues_of h) range.now }
    {
        match self.ranges.mark(range.num) {
            None => range.first,
            Some(mark) => mark.serial,
        }
    }

    /// Returns the candidate of the range after `issued` further draws from it.
    ///
    /// The answer is right for a range of its own, and if `issued` is less than the size of the
    /// range.
    pub fn candidate_after(&self, range: &Range, issued: u8) -> Candidate
        ensures { (h : List Entry) (t : Terms) → IsLegal h t → Indexes self.now h
            → Contains (ranges_of h) range.now → issued < size_of range.now
            → result ≡ candidate_after_of h range.now issued }
    {
        let serial = range.serial_after(self.pick(range), issued);
        let issue = self.last_issue(&range.id(serial));
        Candidate { serial, issue }
    }

    // Returns the rest of a range of its own: closed, or the last issue of its pick.
    fn rest(&self, range: &Range) -> Rest
        ensures { (h : List Entry) → Indexes self.now h → Contains (ranges_of h) range.now
            → result ≡ rest_of h range.now }
    {
        if self.ranges.is_closed(range.num) {
            return Rest::Closed;
        }
        let serial = self.pick(range);
        match self.last_issue(&range.id(serial)) {
            None => Rest::Unknown,
            Some(issue) => Rest::Issued {
                serial,
                day: issue.day,
            },
        }
    }

    // Returns whether a range of its own is open, and its pick free on the day.
    fn is_free(&self, range: &Range, day: u32, interval: u32) -> bool
        ensures { (h : List Entry) → Indexes self.now h → Contains (ranges_of h) range.now
            → result ≡ (not (is_closed h range.now.num)
            && has_free_pick (issues_of h) day interval range.now) }
    {
        if self.ranges.is_closed(range.num) {
            return false;
        }
        let serial = self.pick(range);
        let issue = self.last_issue(&range.id(serial));
        is_free(&issue, day, interval)
    }

    /// Returns the open range of least number above `after` with that holder, service and country
    /// whose pick is free on `day`, or `None`.
    ///
    /// Takes one comparison for each range that it passes over.
    pub fn next_free_range(
        &self,
        held: &HolderKey,
        after: u32,
        day: u32,
        interval: u32,
    ) -> Option<Range>
        ensures { (h : List Entry) → Indexes self.now h
            → result ≡ find (is_free_after h after held.now.holder held.now.service held.now.country
            day interval) (ranges_of h) }
    {
        let mut past = after;
        while let Some(range) = self
            .ranges
            .next_awake_range(&self.rests, held, past, day, interval)
        {
            if self.is_free(&range, day, interval) {
                return Some(range);
            }
            past = range.num;
        }
        None
    }

    // Sets the rest of the range with the number `num`, if there is one.
    fn set_rest(&mut self, num: u32)
        ensures calls { self.new.entries ≡ self.old.entries }
        ensures moves { self.new.moves ≡ self.old.moves }
        ensures same { (h : List Entry) → Indexes self.old h → Indexes self.new h }
    {
        if let Some(range) = self.ranges.range_by_number(num) {
            let rest = self.rest(&range);
            self.rests.set(num, rest);
        }
    }

    // Sets the rest of each range whose mark the call that was prepared last moved. In its first lap a
    // range has no rest: its pick was never issued.
    fn set_moved_rests(&mut self)
        ensures calls { self.new.entries ≡ self.old.entries }
        ensures same { (h : List Entry) → Indexes self.old h → Indexes self.new h }
    {
        let mut last = 0;
        for place in 0..self.moves.len() {
            let next = self.moves[place];
            if next.mark.lap == Lap::Later && next.num != last {
                self.set_rest(next.num);
                last = next.num;
            }
        }
    }

    // Sets the rest of each range whose mark the call moved, or that it closed.
    fn set_rests(&mut self, entry: &Entry)
        ensures calls { self.new.entries ≡ self.old.entries }
        ensures same { (h : List Entry) → Indexes self.old h → Indexes self.new h }
    {
        if let Body::Withdraw { range } = entry.request.body {
            self.set_rest(range);
        }
        self.set_moved_rests();
    }

    /// Reserves memory for a call and all that it records, and computes how it moves the marks. The
    /// calls stay the same.
    ///
    /// # Errors
    ///
    /// `AllocError` if the memory cannot be allocated.
    pub fn prepare(&mut self, entry: &Entry) -> Result<(), AllocError>
        ensures calls { self.new.entries.items ≡ self.old.entries.items }
        ensures same { (h : List Entry) → Indexes self.old h → Indexes self.new h }
        ensures room { OnOk result (HasRoomFor self.new entry.now) }
        ensures moves { (h : List Entry) (t : Terms) → IsLegal h t → MayFollow h t entry.now
            → Indexes self.old h → OnOk result (AreMoves h entry.now self.new.moves.items) }
    {
        self.ranges.moves_of(entry, &mut self.moves)?;
        self.ranges.reserve()?;
        self.rests.reserve()?;
        self.positions.reserve(1)?;
        self.issues.reserve(entry.issued())?;
        self.entries.reserve()
    }

    /// Adds a call and records what it did.
    ///
    /// Requires that the call was prepared by `prepare`, and that its outcome fits its request.
    pub fn follow(&mut self, entry: Entry)
        requires room { HasRoomFor self.old entry }
        requires few { length self.old.entries.items < 4294967295 }
        requires fits { IsTrue (fits entry.request.body entry.outcome) }
        ensures calls { self.new.entries.items ≡ self.old.entries.items ++ entry ∷ [] }
        ensures followed { (h : List Entry) (t : Terms) → IsLegal h t → MayFollow h t entry
            → AreMoves h entry self.old.moves.items → Indexes self.old h
            → Indexes self.new (h ++ entry ∷ []) }
    {
        let call = self.entries.len() as u32;
        self.ranges.follow(&entry, &self.moves);
        self.rests.follow(&entry);
        record_position(&mut self.positions, &self.seed, &entry);
        self.entries.push_reserved(entry);
        self.issues
            .record_call(&self.entries, &self.seed, call, &entry);
        self.set_rests(&entry);
    }
}
