ghost use Rattle.std.specs.Prelude.{◌≡◌, length, slice_get};
ghost use Rattle.s10_history.specs.History.{range_of_grant};
ghost use Rattle.s10_history.specs.Issues.{carried_by, issues_at};

use crate::issuance::Issuance;
use crate::range::Range;
use s10_core::Id;
use s10_wire::{Body, Outcome, Request};

/// A kept call: its request, its day and its outcome.
#[derive(Clone, Copy, Debug, PartialEq, Eq)]
pub struct Entry {
    /// The request as it was received.
    pub request: Request,
    /// The day of the ledger on which it was executed. It never decreases from one entry to the
    /// next.
    pub day: u32,
    /// The outcome by the rules: done, or a refusal.
    pub outcome: Outcome,
}

impl Entry {
    /// Returns the number of issuances of this call, 0 to 16.
    pub fn issued(&self) -> usize
        ensures { result ≡ length (carried_by self.now.outcome) }
    {
        match self.outcome {
            Outcome::Drawn { .. } => 1,
            Outcome::DrawnMany { ids, .. } => ids.len(),
            _ => 0,
        }
    }

    /// Returns the issuance at an index from 0 of this call, which is call number `arrival`.
    ///
    /// Returns `None` if the call has fewer.
    pub fn issue(&self, arrival: u32, place: usize) -> Option<Issuance>
        ensures { result ≡ slice_get (issues_at arrival self.now) place }
    {
        match self.issued_at(place) {
            None => None,
            Some((day, id)) => Some(Issuance {
                id,
                day,
                customer: self.request.customer,
                number: self.request.number,
                arrival,
            }),
        }
    }

    /// Returns the range with number `num` that this call created, if it is a Grant that was done.
    pub fn range_made(&self, num: u32) -> Option<Range>
        ensures { result ≡ range_of_grant num self.now.request.body self.now.outcome }
    {
        let Outcome::Granted { .. } = self.outcome else {
            return None;
        };
        match self.request.body {
            Body::Grant {
                holder,
                service,
                country,
                first,
                last,
            } => Some(Range {
                num,
                holder,
                service,
                country,
                first,
                last,
            }),
            _ => None,
        }
    }

    // Returns the day and the identifier of the issuance at an index from 0.
    fn issued_at(&self, place: usize) -> Option<(u32, Id)>
        ensures { result ≡ slice_get (carried_by self.now.outcome) place }
    {
        match self.outcome {
            Outcome::Drawn { day, id } if place == 0 => Some((day, id)),
            Outcome::DrawnMany { day, ids } => match ids.get(place) {
                None => None,
                Some(id) => Some((day, id)),
            },
            _ => None,
        }
    }
}
