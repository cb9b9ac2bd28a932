//! Binary search in lists of blocks.

ghost use Rattle.std.specs.Prelude.{◌≡◌, ℕ, ◌+◌, ◌<◌, ◌≤◌, length};
ghost use Rattle.s10_history.specs.declared.range.Range.{Range};
ghost use Rattle.s10_ranges.specs.BlockList.{indices_of};
ghost use Rattle.s10_ranges.specs.Blocks.{start_of, position_of, IsCursor};
ghost use Rattle.s10_ranges.specs.Keys.{key_by};
ghost use Rattle.s10_ranges.specs.Order.{range_at, AreIndices, IsRising};

use crate::block_list::BlockList;
use crate::cursor::Cursor;
use crate::keys::sort_key_of;
use crate::order::first_at;
use crate::sort_key::SortKey;
use s10_history::Range;

// Returns the number of blocks whose last range has a key below `key`, by binary search.
fn block_at(ranges: &[Range], list: &BlockList, by: SortKey, key: u128) -> usize
    requires places { AreIndices ranges.now (indices_of list.now) }
    requires rising { IsRising (key_by by) ranges.now (indices_of list.now) }
    ensures within { result ≤ length list.now.blocks.items }
    ensures below { (j : ℕ) (d : Range) → j < start_of list.now.blocks.items result
        → key_by by (range_at ranges.now (indices_of list.now) j d) < key }
    ensures above { (j : ℕ) (d : Range) → result < length list.now.blocks.items
        → start_of list.now.blocks.items (result + 1) ≤ j + 1 → j < length (indices_of list.now)
        → key ≤ key_by by (range_at ranges.now (indices_of list.now) j d) }
{
    let blocks = list.blocks();
    let mut low = 0;
    let mut high = blocks.len();
    while low < high {
        let middle = low + (high - low) / 2;
        let indices = blocks[middle].indices();
        let range = &ranges[indices[indices.len() - 1] as usize];
        if sort_key_of(by, range) < key {
            low = middle + 1;
        } else {
            high = middle;
        }
    }
    low
}

// Returns the position after all ranges whose key is below `key`, by binary search.
pub(crate) fn cursor_at(ranges: &[Range], list: &BlockList, by: SortKey, key: u128) -> Cursor
    requires places { AreIndices ranges.now (indices_of list.now) }
    requires rising { IsRising (key_by by) ranges.now (indices_of list.now) }
    ensures at { IsCursor list.now.blocks.items result }
    ensures below { (j : ℕ) (d : Range) → j < position_of list.now.blocks.items result
        → key_by by (range_at ranges.now (indices_of list.now) j d) < key }
    ensures above { (j : ℕ) (d : Range) → position_of list.now.blocks.items result ≤ j
        → j < length (indices_of list.now)
        → key ≤ key_by by (range_at ranges.now (indices_of list.now) j d) }
{
    let block = block_at(ranges, list, by, key);
    match list.blocks().get(block) {
        None => Cursor { block, offset: 0 },
        Some(found) => Cursor {
            block,
            offset: first_at(ranges, found.indices(), by, key),
        },
    }
}
