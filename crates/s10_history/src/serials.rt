//! The serial that a range gives next.

ghost use Rattle.std.specs.Prelude.{◌≡◌};
ghost use Rattle.s10_history.specs.Issues.{issues_of, candidate_of, serial_issued_earliest};
ghost use Rattle.s10_history.specs.Issues.{least_serial_unissued};

use crate::candidate::Candidate;
use crate::entry::Entry;
use crate::issuance::Issuance;
use crate::issues::{last_issue_in, was_issued};
use crate::range::Range;
use crate::ranges::{id_in_range, lies_within};
use s10_core::Serial;

fn least_unissued(issues: &[Issuance], range: &Range) -> Option<Serial>
    ensures { result ≡ least_serial_unissued range.now issues.now }
{
    for value in range.first.value()..=range.last.value() {
        let id = id_in_range(range, value);
        if !was_issued(issues, &id) {
            return Some(id.serial);
        }
    }
    None
}

// Returns the serial of the first issuance in the range whose identifier is not issued again after
// it.
fn issued_earliest(issues: &[Issuance], range: &Range) -> Option<Serial>
    ensures { result ≡ serial_issued_earliest range.now issues.now }
{
    for (place, issue) in issues.iter().enumerate() {
        if lies_within(range, &issue.id) && !was_issued(&issues[place + 1..], &issue.id) {
            return Some(issue.id.serial);
        }
    }
    None
}

/// Returns the candidate of a range: the serial that it gives next, with its last issue.
///
/// `issues` must be the issuances of the calls.
pub fn candidate_in(entries: &[Entry], issues: &[Issuance], range: &Range) -> Candidate
    requires { issues.now ≡ issues_of entries.now }
    ensures { result ≡ candidate_of entries.now range.now }
{
    let serial = match least_unissued(issues, range) {
        Some(serial) => serial,
        None => match issued_earliest(issues, range) {
            Some(serial) => serial,
            None => range.first,
        },
    };
    let id = range.id(serial);
    Candidate {
        serial,
        issue: last_issue_in(entries, issues, &id),
    }
}
