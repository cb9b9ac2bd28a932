ghost use Rattle.std.specs.Prelude.{◌≡◌};
ghost use Rattle.s10_history.specs.History.{lies_in};
ghost use Rattle.s10_reports.specs.Filters.{agrees};

use s10_core::Id;
use s10_history::Range;

/// Which ranges a report has: those that agree with all that is given.
#[derive(Clone, Copy, Debug, PartialEq, Eq)]
pub struct RangeFilter {
    /// The customer who holds the range.
    pub customer: Option<u32>,
    /// The number of the range.
    pub range: Option<u32>,
    /// An identifier that lies in the range.
    pub id: Option<Id>,
}

impl RangeFilter {
    ghost use Rattle.std.specs.Prelude.{◌≡◌};
    ghost use Rattle.s10_reports.specs.Filters.{admits_range};

    /// Returns whether the range agrees with all that is given.
    pub fn admits(&self, range: &Range) -> bool
        ensures { result ≡ admits_range self.now range.now }
    {
        let has_id = match &self.id {
            None => true,
            Some(id) => lies_in(range, id),
        };
        agrees(self.customer, range.holder) && agrees(self.range, range.num) && has_id
    }
}

/// Returns whether a number is the one asked for. Each is, if none is asked for.
pub(crate) fn agrees(asked: Option<u32>, found: u32) -> bool
    ensures { result ≡ agrees asked found }
{
    match asked {
        None => true,
        Some(number) => number == found,
    }
}

fn lies_in(range: &Range, id: &Id) -> bool
    ensures { result ≡ lies_in range.now id.now }
{
    range.service == id.service
        && range.country == id.country
        && range.first.value() <= id.serial.value()
        && id.serial.value() <= range.last.value()
}
