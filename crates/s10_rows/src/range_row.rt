ghost use Rattle.std.specs.Prelude.{◌≡◌};
ghost use Rattle.s10_rows.specs.Tables.{range_row};

use s10_core::pair_number;
use s10_history::Range;

/// A row of `ranges`: a range with its mark.
#[derive(Clone, Copy, Debug, PartialEq, Eq)]
pub struct RangeRow {
    /// The number of the range, from 1.
    pub num: i64,
    /// The customer that holds the range.
    pub holder: i64,
    /// The four bytes of service and country as a big-endian number.
    pub pair: i64,
    /// The first serial.
    pub low: i64,
    /// The last serial.
    pub high: i64,
    /// The mark: the serial that the range gives next.
    pub mark: i64,
}

impl RangeRow {
    /// Returns the row of the range with that mark.
    pub fn of(range: &Range, mark: u32) -> RangeRow
        ensures { result ≡ range_row mark range.now }
    {
        RangeRow {
            num: i64::from(range.num),
            holder: i64::from(range.holder),
            pair: i64::from(pair_number(range.service, range.country)),
            low: i64::from(range.first.value()),
            high: i64::from(range.last.value()),
            mark: i64::from(mark),
        }
    }
}
