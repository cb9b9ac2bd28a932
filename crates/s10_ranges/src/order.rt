//! Ranges in a sorted order, given by their indices.

ghost use Rattle.std.specs.Prelude.{◌≡◌, ℕ, ◌<◌, ◌≤◌, length, MatchOption, slice_index};
ghost use Rattle.s10_history.specs.declared.range.Range.{Range};
ghost use Rattle.s10_ranges.specs.Keys.{key_by};
ghost use Rattle.s10_ranges.specs.Order.{range_at, AreIndices, IsRising, IsLeastIn};
ghost use Rattle.s10_ranges.specs.Order.{lesser_of};

use crate::keys::sort_key_of;
use crate::sort_key::SortKey;
use s10_history::Range;

// Returns the number of ranges in the order whose key is below `key`, by binary search.
pub(crate) fn first_at(ranges: &[Range], order: &[u32], by: SortKey, key: u128) -> usize
    requires places { AreIndices ranges.now order.now }
    requires rising { IsRising (key_by by) ranges.now order.now }
    ensures within { result ≤ length order.now }
    ensures below { (j : ℕ) (d : Range) → j < result → key_by by (range_at ranges.now order.now j d)
        < key }
    ensures above { (j : ℕ) (d : Range) → result ≤ j → j < length order.now
        → key ≤ key_by by (range_at ranges.now order.now j d) }
{
    let mut low = 0;
    let mut high = order.len();
    while low < high {
        let middle = low + (high - low) / 2;
        let range = &ranges[order[middle] as usize];
        if sort_key_of(by, range) < key {
            low = middle + 1;
        } else {
            high = middle;
        }
    }
    low
}

// Returns the least of the indices.
fn least(places: &[u32]) -> Option<u32>
    ensures { MatchOption result (length places.now ≡ 0) (λ m. ((k : ℕ) → k < length places.now
        → m ≤ slice_index places.now k) × ((k : ℕ) × (k < length places.now)
        × (slice_index places.now k ≡ m))) }
{
    places.iter().copied().min()
}

// Returns the least index at the positions `start` to `end - 1` of the order.
pub(crate) fn least_in(order: &[u32], start: usize, end: usize) -> Option<u32>
    requires { end ≤ length order.now }
    ensures { IsLeastIn order.now start end result }
{
    let part = order.get(start..end)?;
    least(part)
}

// Returns the lesser of two indices, or the one that there is.
pub(crate) fn lesser(one: Option<u32>, other: Option<u32>) -> Option<u32>
    ensures { result ≡ lesser_of one other }
{
    match (one, other) {
        (Some(a), Some(b)) => Some(a.min(b)),
        (Some(a), None) => Some(a),
        (None, other) => other,
    }
}
