//! Ranges with their marks, held in memory.

ghost use Rattle.std.specs.Prelude.{◌≡◌, ◌≤◌, ◌<◌, ◌+◌, ◌-◌, ◌==◌, ◌++◌, ◌∷◌, [], length, find};
ghost use Rattle.std.specs.Prelude.{set, None, OnOk, slice_get};
ghost use Rattle.s10_history.specs.History.{is_held_after, overlaps};
ghost use Rattle.s10_ranges.specs.declared.sort_key.SortKey.TheVariants.{First, Last, Holder};
ghost use Rattle.s10_ranges.specs.BlockList.{indices_of};
ghost use Rattle.s10_ranges.specs.Keys.{key_by};
ghost use Rattle.s10_ranges.specs.Order.{IsOrder};
ghost use Rattle.s10_ranges.specs.Sound.{AreSound};
ghost use Rattle.std.specs.HashSet.{hasher_of};

use crate::block_list::BlockList;
use crate::closed_ranges::ClosedRanges;
use crate::hash_seed::HashSeed;
use crate::insertion::{cursor_by_holder, cursor_by_serial};
use crate::lap::Lap;
use crate::lap_at::lap_at;
use crate::lookups::{covering_in, mark_in, next_awake_in, next_held_in, range_in};
use crate::mark::Mark;
use crate::mark_move::MarkMove;
use crate::next_mark::next_mark;
use crate::rests::Rests;
use s10_core::{Country, Serial, Service};
use s10_history::{Entry, HolderKey, Range};
use s10_wire::Outcome;
use std::alloc::{AllocError, Global};

/// The ranges of a ledger, each with its mark, and the set of closed ranges.
///
/// Ranges are numbered from 1, and no two share a serial. Each binary search takes O(log n) steps
/// for n ranges. An added range moves at most 512 indices in each order and, if that splits a block,
/// n / 256 blocks, so grants cost about the same in any order. `covering_range` reads the least
/// index of each block that the span covers, and at most 1,024 other indices. `next_open_range`
/// makes one search more per closed range before the one that it finds.
#[derive(Drop)]
pub struct Ranges {
    /// The ranges in order of their numbers: range n has the index n - 1.
    ranges: Vec<Range>,
    /// The marks, with the same indices.
    marks: Vec<Mark>,
    /// The indices of the ranges, sorted by service, country and serials.
    by_serial: BlockList,
    /// The indices of the ranges, sorted by holder, service, country and number.
    by_holder: BlockList,
    /// The numbers of the closed ranges.
    closed: ClosedRanges,
    ghost sound: { AreSound ranges.items },
    ghost marked: { length marks.items ≡ length ranges.items },
    ghost placed: { IsOrder (key_by First) (key_by Last) ranges.items (indices_of by_serial) },
    ghost held: { IsOrder (key_by Holder) (key_by Holder) ranges.items (indices_of by_holder) },
}

impl Ranges {
    ghost use Rattle.std.specs.Prelude.{List, Some};
    ghost use Rattle.s10_history.specs.declared.entry.Entry.{Entry};
    ghost use Rattle.s10_history.specs.declared.range.Range.{Range};
    ghost use Rattle.s10_ranges.specs.declared.mark.Mark.{Mark};
    ghost use Rattle.s10_history.specs.Settings.{Terms};
    ghost use Rattle.std.specs.Prelude.{IfSome, IsSome, take};
    ghost use Rattle.s10_history.specs.History.{ranges_of, is_closed, is_open_after};
    ghost use Rattle.s10_history.specs.declared.issuance.Issuance.{Issuance};
    ghost use Rattle.s10_history.specs.Issues.{issues_at, issues_of};
    ghost use Rattle.s10_book.specs.Rules.{IsLegal, MayFollow};
    ghost use Rattle.s10_ranges.specs.Mirror.{Mirrors, MirrorsAt};
    ghost use Rattle.s10_ranges.specs.Moves.{AreMoves, IsMoveOf};
    ghost use Rattle.s10_ranges.specs.Room.{HasRoom};
    ghost use Rattle.s10_ranges.specs.Rests.{is_awake_after};

    /// Creates an empty list of ranges. The hashes of its set have this seed.
    pub fn new(alloc: Global, seed: HashSeed) -> Ranges
        ensures none { Mirrors result [] }
        ensures seeded { hasher_of result.closed.numbers ≡ seed }
    {
        Ranges {
            ranges: Vec::new(alloc),
            marks: Vec::new(alloc),
            by_serial: BlockList::new(alloc),
            by_holder: BlockList::new(alloc),
            closed: ClosedRanges::new(alloc, seed),
        }
    }

    /// Reserves memory for one more range, its mark and its closing. The ranges stay the same.
    ///
    /// # Errors
    ///
    /// `AllocError` if the memory cannot be allocated.
    pub fn reserve(&mut self) -> Result<(), AllocError>
        ensures same { (h : List Entry) → Mirrors self.old h → Mirrors self.new h }
        ensures room { OnOk result (HasRoom self.new) }
    {
        self.ranges.reserve(1)?;
        self.marks.reserve(1)?;
        self.by_serial.reserve()?;
        self.by_holder.reserve()?;
        self.closed.reserve()
    }

    // Adds the range, in reserved memory. Requires that it has the next number and shares no serial
    // with another range.
    fn push_reserved(&mut self, range: Range, mark: Mark)
        requires room { HasRoom self.old }
        requires few { length self.old.ranges.items < 4294967295 }
        requires num { range.num ≡ length self.old.ranges.items + 1 }
        requires proper { range.first ≤ range.last }
        requires apart { find (overlaps range.service range.country range.first range.last)
            self.old.ranges.items ≡ None }
        ensures ranges { self.new.ranges.items ≡ self.old.ranges.items ++ range ∷ [] }
        ensures marks { self.new.marks.items ≡ self.old.marks.items ++ mark ∷ [] }
        ensures closed { self.new.closed ≡ self.old.closed }
    {
        let place = self.ranges.len() as u32;
        let placed_at = cursor_by_serial(&self.ranges, &self.by_serial, &range);
        let held_at = cursor_by_holder(&self.ranges, &self.by_holder, &range);
        self.by_serial.insert_reserved(placed_at, place);
        self.by_holder.insert_reserved(held_at, place);
        self.ranges.push_reserved(range);
        self.marks.push_reserved(mark);
    }

    // Adds the range, in reserved memory. Changes nothing if its number is not the next one, if it
    // is empty, or if it shares a serial with another range.
    fn push_next(&mut self, range: Range, mark: Mark)
        requires room { HasRoom self.old }
        ensures next { length self.old.ranges.items < 4294967295
            → range.num ≡ length self.old.ranges.items + 1 → range.first ≤ range.last
            → find (overlaps range.service range.country range.first range.last)
            self.old.ranges.items ≡ None
            → (self.new.ranges.items ≡ self.old.ranges.items ++ range ∷ [])
            × (self.new.marks.items ≡ self.old.marks.items ++ mark ∷ []) }
        ensures closed { self.new.closed ≡ self.old.closed }
    {
        let len = self.ranges.len();
        if len >= 4_294_967_295 || range.num as usize != len + 1 {
            return;
        }
        if range.last.value() < range.first.value() {
            return;
        }
        let over = covering_in(
            &self.ranges,
            &self.by_serial,
            range.service,
            range.country,
            range.first,
            range.last,
        );
        if over.is_none() {
            self.push_reserved(range, mark);
        }
    }

    // Returns how the issuance at index `place` of the call moves the mark of its range. `None` if
    // the call has no such issuance, or no range has its identifier.
    fn move_at(&self, entry: &Entry, place: usize) -> Option<MarkMove>
        ensures { (h : List Entry) (t : Terms) (i : Issuance) → IsLegal h t
            → MayFollow h t entry.now → Mirrors self.now h
            → slice_get (issues_at (1 + length h) entry.now) place ≡ Some i
            → IsSome result × IfSome result (IsMoveOf (ranges_of h)
            (issues_of h ++ take place (issues_at (1 + length h) entry.now)) i.id) }
    {
        // A mark does not depend on the arrival of the issuance, so 0 will do.
        let id = entry.issue(0, place)?.id;
        let range = self.covering_range(id.service, id.country, id.serial, id.serial)?;
        let mark = self.mark(range.num)?;
        let lap = lap_at(&range, mark.lap, entry, place);
        Some(MarkMove {
            num: range.num,
            lap,
            mark: next_mark(&range, lap, id.serial),
        })
    }

    /// Replaces the contents of `moves` by how the issuances of a call that may follow move the
    /// marks, in their order.
    ///
    /// Allocates only if `moves` has no room for them: its memory serves one call after another.
    ///
    /// # Errors
    ///
    /// `AllocError` if the memory cannot be allocated.
    pub fn moves_of(&self, entry: &Entry, moves: &mut Vec<MarkMove>) -> Result<(), AllocError>
        ensures { (h : List Entry) (t : Terms) → IsLegal h t → MayFollow h t entry.now
            → Mirrors self.now h → OnOk result (AreMoves h entry.now moves.new.items) }
    {
        moves.clear();
        for place in 0..entry.issued() {
            if let Some(next) = self.move_at(entry, place) {
                moves.push(next)?;
            }
        }
        Ok(())
    }

    // Sets the marks that the moves give, in their order.
    fn apply_moves(&mut self, moves: &[MarkMove])
        ensures marks { (h : List Entry) (t : Terms) (e : Entry) → IsLegal h t → MayFollow h t e
            → AreMoves h e moves.now → MirrorsAt (ranges_of h) (issues_of h) self.old
            → MirrorsAt (ranges_of h) (issues_of (h ++ e ∷ [])) self.new }
        ensures closed { self.new.closed ≡ self.old.closed }
    {
        for next in moves {
            self.set_mark(next.num, next.mark);
        }
    }

    // Adds the range of a Done Grant. For any other call, applies its moves.
    fn follow_made(&mut self, entry: &Entry, moves: &[MarkMove])
        requires room { HasRoom self.old }
        ensures made { (h : List Entry) (t : Terms) → IsLegal h t → MayFollow h t entry.now
            → length h < 4294967295 → AreMoves h entry.now moves.now
            → MirrorsAt (ranges_of h) (issues_of h) self.old
            → MirrorsAt (ranges_of (h ++ entry.now ∷ [])) (issues_of (h ++ entry.now ∷ []))
            self.new }
        ensures closed { self.new.closed ≡ self.old.closed }
    {
        match entry.outcome {
            Outcome::Granted { range: num } => {
                if let Some(range) = entry.range_made(num) {
                    let mark = Mark {
                        serial: range.first,
                        lap: Lap::First,
                    };
                    self.push_next(range, mark);
                }
            }
            _ => self.apply_moves(moves),
        }
    }

    /// Follows a kept call: adds the range of a Done Grant, moves the marks for its issuances, and
    /// closes the range of a Done Withdraw.
    ///
    /// `moves` are those that `moves_of` gives for the call. Requires memory reserved by
    /// `reserve`. A granted range that lacks the next number, is empty or overlaps another is
    /// ignored: that happens only if the ranges are not those of a legal history that the call may
    /// follow.
    pub fn follow(&mut self, entry: &Entry, moves: &[MarkMove])
        requires room { HasRoom self.old }
        ensures { (h : List Entry) (t : Terms) → IsLegal h t → MayFollow h t entry.now
            → length h < 4294967295 → AreMoves h entry.now moves.now → Mirrors self.old h
            → Mirrors self.new (h ++ entry.now ∷ []) }
    {
        self.follow_made(entry, moves);
        self.closed.follow(entry);
    }

    // Sets the mark of the range with the number `num`. Changes nothing if there is no such range.
    fn set_mark(&mut self, num: u32, mark: Mark)
        ensures ranges { self.new.ranges.items ≡ self.old.ranges.items }
        ensures marks { 0 < num → num ≤ length self.old.ranges.items
            → self.new.marks.items ≡ set self.old.marks.items (num - 1) mark }
        ensures closed { self.new.closed ≡ self.old.closed }
    {
        if num == 0 || num as usize > self.marks.len() {
            return;
        }
        self.marks[num as usize - 1] = mark;
    }

    /// Returns the ranges, in order of their numbers.
    pub fn all(&self) -> &[Range]
        ensures { result.now ≡ self.now.ranges.items }
    {
        &self.ranges
    }

    /// Returns the marks of the ranges, in the same order.
    pub fn marks(&self) -> &[Mark]
        ensures { result.now ≡ self.now.marks.items }
    {
        &self.marks
    }

    /// Returns the mark of the range with the number `num`, or `None` if there is no such range.
    pub fn mark(&self, num: u32) -> Option<Mark>
        ensures some { 0 < num → result ≡ slice_get self.now.marks.items (num - 1) }
        ensures none { num ≡ 0 → result ≡ None }
    {
        mark_in(&self.marks, num)
    }

    /// Returns the range with the number `num`, or `None` if there is no such range.
    pub fn range_by_number(&self, num: u32) -> Option<Range>
        ensures { result ≡ find (λ r. r.num == num) self.now.ranges.items }
    {
        range_in(&self.ranges, num)
    }

    /// Returns whether the range with the number `num` is closed.
    pub fn is_closed(&self, num: u32) -> bool
        ensures { (h : List Entry) → Mirrors self.now h → result ≡ is_closed h num }
    {
        self.closed.has(num)
    }

    /// Returns the open range of least number above `after` with that holder, service and country,
    /// or `None`.
    pub fn next_open_range(
        &self,
        customer: u32,
        service: Service,
        country: Country,
        after: u32,
    ) -> Option<Range>
        ensures above { IfSome result (λ r. after < r.num) }
        ensures open { (h : List Entry) → Mirrors self.now h
            → result ≡ find (is_open_after h after customer service country) (ranges_of h) }
    {
        let mut past = after;
        while let Some(range) = next_held_in(
            &self.ranges,
            &self.by_holder,
            customer,
            service,
            country,
            past,
        ) {
            if !self.is_closed(range.num) {
                return Some(range);
            }
            past = range.num;
        }
        None
    }

    /// Returns the range of least number above `after` with that holder, service and country that may
    /// give something on `day`, by its mark and its rest, or `None`.
    ///
    /// Takes one comparison for each range that it passes over.
    pub fn next_awake_range(
        &self,
        rests: &Rests,
        held: &HolderKey,
        after: u32,
        day: u32,
        interval: u32,
    ) -> Option<Range>
        ensures { result ≡ find (is_awake_after self.now.marks.items rests.now.list.items after
            held.now.holder held.now.service held.now.country day interval) self.now.ranges.items }
    {
        next_awake_in(
            &self.ranges,
            &self.by_holder,
            &self.marks,
            rests.all(),
            held,
            after,
            day,
            interval,
        )
    }

    /// Returns the range of least number with that service and country that has a serial from
    /// `first` to `last`, or `None`.
    ///
    /// Returns `None` if `first` is above `last`.
    pub fn covering_range(
        &self,
        service: Service,
        country: Country,
        first: Serial,
        last: Serial,
    ) -> Option<Range>
        ensures { result ≡ find (overlaps service country first last) self.now.ranges.items }
    {
        covering_in(&self.ranges, &self.by_serial, service, country, first, last)
    }
}
