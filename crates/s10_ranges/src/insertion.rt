//! The position of a new range in each order.

ghost use Rattle.std.specs.Prelude.{◌≡◌, ℕ, ◌+◌, ◌≤◌, ◌<◌, length, find, None};
ghost use Rattle.s10_history.specs.declared.range.Range.{Range};
ghost use Rattle.s10_history.specs.History.{overlaps};
ghost use Rattle.s10_ranges.specs.declared.sort_key.SortKey.TheVariants.{First, Last, Holder};
ghost use Rattle.s10_ranges.specs.BlockList.{indices_of};
ghost use Rattle.s10_ranges.specs.Blocks.{position_of, IsCursor};
ghost use Rattle.s10_ranges.specs.Keys.{key_by, IsFitting};
ghost use Rattle.s10_ranges.specs.Order.{range_at, IsOrder};
ghost use Rattle.s10_ranges.specs.Sound.{AreSound};

use crate::block_list::BlockList;
use crate::block_search::cursor_at;
use crate::cursor::Cursor;
use crate::keys::{parts_fit, sort_key_of};
use crate::sort_key::SortKey;
use s10_history::Range;

// Returns the position after all ranges that end before `range` begins, and before all others.
pub(crate) fn cursor_by_serial(ranges: &[Range], by_serial: &BlockList, range: &Range) -> Cursor
    requires sound { AreSound ranges.now }
    requires placed { IsOrder (key_by First) (key_by Last) ranges.now (indices_of by_serial.now) }
    requires proper { range.now.first ≤ range.now.last }
    requires apart { find (overlaps range.now.service range.now.country range.now.first
        range.now.last) ranges.now ≡ None }
    ensures at { IsCursor by_serial.now.blocks.items result }
    ensures fitting { IsFitting range.now }
    ensures below { (j : ℕ) (d : Range) → j < position_of by_serial.now.blocks.items result
        → key_by Last (range_at ranges.now (indices_of by_serial.now) j d) < key_by First range.now }
    ensures above { (j : ℕ) (d : Range) → position_of by_serial.now.blocks.items result ≤ j → j < length (indices_of by_serial.now)
        → key_by Last range.now < key_by First (range_at ranges.now (indices_of by_serial.now) j d) }
{
    parts_fit(range);
    let start = sort_key_of(SortKey::First, range);
    cursor_at(ranges, by_serial, SortKey::Last, start)
}

// Returns the position after all ranges of a lower holder, pair or number, and before all others.
pub(crate) fn cursor_by_holder(ranges: &[Range], by_holder: &BlockList, range: &Range) -> Cursor
    requires sound { AreSound ranges.now }
    requires held { IsOrder (key_by Holder) (key_by Holder) ranges.now (indices_of by_holder.now) }
    requires few { length ranges.now < 4294967295 }
    requires num { range.now.num ≡ length ranges.now + 1 }
    ensures at { IsCursor by_holder.now.blocks.items result }
    ensures below { (j : ℕ) (d : Range) → j < position_of by_holder.now.blocks.items result
        → key_by Holder (range_at ranges.now (indices_of by_holder.now) j d) < key_by Holder range.now }
    ensures above { (j : ℕ) (d : Range) → position_of by_holder.now.blocks.items result ≤ j → j < length (indices_of by_holder.now)
        → key_by Holder range.now < key_by Holder (range_at ranges.now (indices_of by_holder.now) j d) }
{
    let held = sort_key_of(SortKey::Holder, range);
    cursor_at(ranges, by_holder, SortKey::Holder, held)
}
