//! The lap of a range between two issuances of a call.

ghost use Rattle.std.specs.Prelude.{◌≡◌, ◌++◌, List, take};
ghost use Rattle.s10_history.specs.declared.issuance.Issuance.{Issuance};
ghost use Rattle.s10_history.specs.Issues.{is_issued, issues_at};
ghost use Rattle.s10_ranges.specs.Laps.{lap_of};

use crate::lap::Lap;
use s10_core::Id;
use s10_history::{Entry, Range};

// Returns whether the call issues the identifier in its first `place` issuances.
fn is_issued_before(entry: &Entry, place: usize, id: &Id) -> bool
    ensures { result ≡ is_issued (take place (issues_at 0 entry.now)) id.now }
{
    for earlier in 0..place {
        // The arrival of an issuance is not compared, so 0 will do.
        if let Some(issuance) = entry.issue(0, earlier) {
            if issuance.id == *id {
                return true;
            }
        }
    }
    false
}

// Returns the lap of the range after the first `place` issuances of the call, if it is in `lap`
// before the call.
pub(crate) fn lap_at(range: &Range, lap: Lap, entry: &Entry, place: usize) -> Lap
    ensures { (is : List Issuance) → lap ≡ lap_of is range.now
        → result ≡ lap_of (is ++ take place (issues_at 0 entry.now)) range.now }
{
    let last = range.id(range.last);
    match lap {
        Lap::First if !is_issued_before(entry, place, &last) => Lap::First,
        _ => Lap::Later,
    }
}
