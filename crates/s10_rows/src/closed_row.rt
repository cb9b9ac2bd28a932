ghost use Rattle.std.specs.Prelude.{◌≡◌};
ghost use Rattle.s10_rows.specs.Tables.{closing};

use s10_history::Entry;
use s10_wire::{Body, Outcome};

/// A row of `closed`: a withdrawn range.
#[derive(Clone, Copy, Debug, PartialEq, Eq)]
pub struct ClosedRow {
    /// The number of the range, from 1.
    pub num: i64,
    /// The arrival of the Withdraw that closed it, from 1.
    pub arrival: i64,
}

impl ClosedRow {
    /// Returns the row that call number `arrival` adds if it is a Done Withdraw, or `None`.
    pub fn made_by(arrival: u32, entry: &Entry) -> Option<ClosedRow>
        ensures { result ≡ closing arrival entry.now.request.body entry.now.outcome }
    {
        match (entry.request.body, entry.outcome) {
            (Body::Withdraw { range }, Outcome::Withdrawn) => Some(ClosedRow {
                num: i64::from(range),
                arrival: i64::from(arrival),
            }),
            _ => None,
        }
    }
}
