//! Look-ups among ranges by binary search in their orders.

ghost use Rattle.std.specs.Prelude.{◌≡◌, ◌-◌, ◌<◌, ◌==◌, find, slice_get, slice_index_or, None};
ghost use Rattle.s10_history.specs.History.{is_held_after, overlaps};
ghost use Rattle.s10_ranges.specs.Rests.{is_awake_after, is_resting_at as rests_at};
ghost use Rattle.s10_ranges.specs.Rests.{IsFirstAwake};
ghost use Rattle.s10_ranges.specs.declared.rest.Rest.TheVariants.{Unknown};
ghost use Rattle.s10_ranges.specs.declared.sort_key.SortKey.TheVariants.{First, Last, Holder};
ghost use Rattle.s10_ranges.specs.BlockList.{indices_of};
ghost use Rattle.s10_ranges.specs.Keys.{key_by};
ghost use Rattle.s10_ranges.specs.Order.{IsOrder};
ghost use Rattle.s10_ranges.specs.Sound.{AreSound};

use crate::block_list::BlockList;
use crate::block_search::cursor_at;
use crate::keys::{holder_sort_key, serial_sort_key};
use crate::mark::Mark;
use crate::rest::Rest;
use crate::sort_key::SortKey;
use s10_core::{Country, Serial, Service};
use s10_history::{HolderKey, Range};

pub(crate) fn range_in(ranges: &[Range], num: u32) -> Option<Range>
    requires sound { AreSound ranges.now }
    ensures { result ≡ find (λ r. r.num == num) ranges.now }
{
    if num == 0 || num as usize > ranges.len() {
        return None;
    }
    Some(ranges[num as usize - 1])
}

pub(crate) fn mark_in(marks: &[Mark], num: u32) -> Option<Mark>
    ensures some { 0 < num → result ≡ slice_get marks.now (num - 1) }
    ensures none { num ≡ 0 → result ≡ None }
{
    let place = num.checked_sub(1)?;
    marks.get(place as usize).copied()
}

// Returns whether the range has a number above `after` and the given holder, service and country.
fn is_later(range: &Range, after: u32, customer: u32, service: Service, country: Country) -> bool
    ensures { result ≡ is_held_after after customer service country range.now }
{
    after < range.num && range.is_held_by(customer, service, country)
}

pub(crate) fn next_held_in(
    ranges: &[Range],
    by_holder: &BlockList,
    customer: u32,
    service: Service,
    country: Country,
    after: u32,
) -> Option<Range>
    requires sound { AreSound ranges.now }
    requires held { IsOrder (key_by Holder) (key_by Holder) ranges.now (indices_of by_holder.now) }
    ensures { result ≡ find (is_held_after after customer service country) ranges.now }
{
    let key = holder_sort_key(customer, service, country, u128::from(after) + 1);
    let cursor = cursor_at(ranges, by_holder, SortKey::Holder, key);
    let place = by_holder.at(cursor)?;
    let range = &ranges[place as usize];
    if is_later(range, after, customer, service, country) {
        Some(*range)
    } else {
        None
    }
}

// Returns whether the range at the index gives nothing on the day, by its mark and its rest.
fn is_resting_at(marks: &[Mark], rests: &[Rest], place: usize, day: u32, interval: u32) -> bool
    ensures { result ≡ rests_at (slice_get marks.now place) (slice_index_or rests.now place Unknown)
        day interval }
{
    let rest = rests.get(place).copied().unwrap_or(Rest::Unknown);
    match marks.get(place).copied() {
        None => false,
        Some(mark) => rest.lasts(mark.serial, day, interval),
    }
}

// Returns the first of the indices whose range may give something on the day.
fn first_awake(
    places: &[u32],
    marks: &[Mark],
    rests: &[Rest],
    day: u32,
    interval: u32,
) -> Option<u32>
    ensures { IsFirstAwake marks.now rests.now places.now day interval result }
{
    for place in places {
        if !is_resting_at(marks, rests, *place as usize, day, interval) {
            return Some(*place);
        }
    }
    None
}

// Returns the awake range of the holder key with the least number above `after`.
pub(crate) fn next_awake_in(
    ranges: &[Range],
    by_holder: &BlockList,
    marks: &[Mark],
    rests: &[Rest],
    held: &HolderKey,
    after: u32,
    day: u32,
    interval: u32,
) -> Option<Range>
    requires sound { AreSound ranges.now }
    requires held { IsOrder (key_by Holder) (key_by Holder) ranges.now (indices_of by_holder.now) }
    ensures { result ≡ find (is_awake_after marks.now rests.now after held.now.holder
        held.now.service held.now.country day interval) ranges.now }
{
    let low = holder_sort_key(
        held.holder,
        held.service,
        held.country,
        u128::from(after) + 1,
    );
    let mut cursor = cursor_at(ranges, by_holder, SortKey::Holder, low);
    let high = holder_sort_key(held.holder, held.service, held.country, 4_294_967_296);
    let end = cursor_at(ranges, by_holder, SortKey::Holder, high);
    while cursor.is_before(end) {
        let part = by_holder.part(cursor, end);
        if let Some(place) = first_awake(part, marks, rests, day, interval) {
            return Some(ranges[place as usize]);
        }
        cursor = by_holder.next_block(cursor);
    }
    None
}

pub(crate) fn covering_in(
    ranges: &[Range],
    by_serial: &BlockList,
    service: Service,
    country: Country,
    first: Serial,
    last: Serial,
) -> Option<Range>
    requires sound { AreSound ranges.now }
    requires placed { IsOrder (key_by First) (key_by Last) ranges.now (indices_of by_serial.now) }
    ensures { result ≡ find (overlaps service country first last) ranges.now }
{
    if last.value() < first.value() {
        return None;
    }
    let low = serial_sort_key(service, country, first);
    let start = cursor_at(ranges, by_serial, SortKey::Last, low);
    let high = serial_sort_key(service, country, last) + 1;
    let end = cursor_at(ranges, by_serial, SortKey::First, high);
    match by_serial.least_in(start, end) {
        None => None,
        Some(place) => Some(ranges[place as usize]),
    }
}
