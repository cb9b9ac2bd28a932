//! Look-ups in the ranges of a history.

ghost use Rattle.std.specs.Prelude.{◌≡◌, ◌==◌, ◌<◌, find};
ghost use Rattle.s10_history.specs.History.{lies_in, is_open_after, overlaps};
ghost use Rattle.s10_history.specs.Issues.{id_at};

use crate::calls::closed_in;
use crate::entry::Entry;
use crate::holder_key::HolderKey;
use crate::range::Range;
use crate::serial_span::SerialSpan;
use s10_core::{Id, Serial};

/// Returns the range with this number, if there is one.
pub fn range_in(ranges: &[Range], num: u32) -> Option<Range>
    ensures { result ≡ find (λ r. r.num == num) ranges.now }
{
    ranges.iter().find(|r| r.num == num).copied()
}

/// Returns the first open range of a holder key whose number is above `after`, if there is one.
///
/// A range is open if none of the calls closed it.
pub fn next_range_in(
    entries: &[Entry],
    ranges: &[Range],
    held: &HolderKey,
    after: u32,
) -> Option<Range>
    ensures { result ≡ find (is_open_after entries.now after held.now.holder held.now.service
        held.now.country) ranges.now }
{
    ranges
        .iter()
        .find(|r| {
            after < r.num
                && r.is_held_by(held.holder, held.service, held.country)
                && !closed_in(entries, r.num)
        })
        .copied()
}

/// Returns the first range that has a serial of the span, if there is one.
pub fn covering_in(ranges: &[Range], span: &SerialSpan) -> Option<Range>
    ensures { result ≡ find (overlaps span.now.service span.now.country span.now.first
        span.now.last) ranges.now }
{
    ranges
        .iter()
        .find(|r| r.overlaps(span.service, span.country, span.first, span.last))
        .copied()
}

// Returns the identifier of the range with this serial.
pub(crate) fn id_in_range(range: &Range, serial: u32) -> Id
    requires { serial < 100000000 }
    ensures { result ≡ id_at range.now serial }
{
    range.id(Serial::new(serial).unwrap_or(range.first))
}

/// Returns whether an identifier lies in a range.
pub(crate) fn lies_within(range: &Range, id: &Id) -> bool
    ensures { result ≡ lies_in range.now id.now }
{
    id.service == range.service
        && id.country == range.country
        && range.first.value() <= id.serial.value()
        && id.serial.value() <= range.last.value()
}
