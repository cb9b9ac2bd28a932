ghost use Rattle.std.specs.Prelude.{◌≡◌};
ghost use Rattle.s10_reports.specs.Filters.{is_asked, is_from, is_in, is_until};

use crate::range_filter::agrees;
use s10_core::Id;
use s10_history::{Issuance, Range};

/// Which issuances a report has: those that agree with all that is given.
#[derive(Clone, Copy, Debug, PartialEq, Eq)]
pub struct IssueFilter {
    /// The customer who drew the identifier.
    pub customer: Option<u32>,
    /// The number of the range in which the identifier lies.
    pub range: Option<u32>,
    /// The identifier.
    pub id: Option<Id>,
    /// The first day of the issuances.
    pub from_day: Option<u32>,
    /// The last day of the issuances, included.
    pub to_day: Option<u32>,
}

impl IssueFilter {
    ghost use Rattle.std.specs.Prelude.{◌≡◌};
    ghost use Rattle.s10_reports.specs.Filters.{admits_issue};

    /// Returns whether the issuance agrees with all that is given. `range` is the range in which its
    /// identifier lies.
    pub fn admits(&self, issuance: &Issuance, range: &Option<Range>) -> bool
        ensures { result ≡ admits_issue self.now range.now issuance.now }
    {
        agrees(self.customer, issuance.customer)
            && is_from(self.from_day, issuance.day)
            && is_until(self.to_day, issuance.day)
            && is_asked(&self.id, &issuance.id)
            && is_in(self.range, range)
    }
}

fn is_from(first: Option<u32>, day: u32) -> bool
    ensures { result ≡ is_from first day }
{
    match first {
        None => true,
        Some(first) => first <= day,
    }
}

fn is_until(last: Option<u32>, day: u32) -> bool
    ensures { result ≡ is_until last day }
{
    match last {
        None => true,
        Some(last) => day <= last,
    }
}

fn is_asked(asked: &Option<Id>, id: &Id) -> bool
    ensures { result ≡ is_asked asked.now id.now }
{
    match asked {
        None => true,
        Some(asked) => *id == *asked,
    }
}

fn is_in(asked: Option<u32>, range: &Option<Range>) -> bool
    ensures { result ≡ is_in asked range.now }
{
    match asked {
        None => true,
        Some(number) => match range {
            None => false,
            Some(range) => number == range.num,
        },
    }
}
