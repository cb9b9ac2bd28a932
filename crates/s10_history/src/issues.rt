//! Look-ups in the issuances of a history.

ghost use Rattle.std.specs.Prelude.{◌≡◌, false};
ghost use Rattle.std.specs.Option.{option_map, unwrap_or};
ghost use Rattle.s10_history.specs.Issues.{issues_of, last_issue_of, is_of, last_issuance_of};
ghost use Rattle.s10_history.specs.Issues.{is_issued, is_free_since};

use crate::calls::is_voided_after;
use crate::entry::Entry;
use crate::issuance::Issuance;
use crate::issue::Issue;
use s10_core::Id;

fn is_issue_of(issue: &Issuance, id: &Id) -> bool
    ensures { result ≡ is_of id.now issue.now }
{
    issue.id == *id
}

fn last_issuance_in(issues: &[Issuance], id: &Id) -> Option<Issuance>
    ensures { result ≡ last_issuance_of issues.now id.now }
{
    let mut found = None;
    for issue in issues {
        if is_issue_of(issue, id) {
            found = Some(*issue);
        }
    }
    found
}

/// Returns whether an identifier is among the issuances.
pub(crate) fn was_issued(issues: &[Issuance], id: &Id) -> bool
    ensures { result ≡ is_issued issues.now id.now }
{
    issues.iter().any(|i| i.id == *id)
}

/// Returns the last issue of an identifier, if it was ever issued.
///
/// `issues` must be the issuances of the calls.
pub fn last_issue_in(entries: &[Entry], issues: &[Issuance], id: &Id) -> Option<Issue>
    requires { issues.now ≡ issues_of entries.now }
    ensures { result ≡ last_issue_of entries.now id.now }
{
    match last_issuance_in(issues, id) {
        None => None,
        Some(issue) => Some(Issue {
            day: issue.day,
            voided: is_voided_after(entries, issue.arrival, id),
            customer: issue.customer,
            number: issue.number,
        }),
    }
}

/// Returns whether an identifier with this last issue is voided; one without an issue is not.
pub fn is_voided(issue: &Option<Issue>) -> bool
    ensures { result ≡ unwrap_or (option_map (λ i. i.voided) issue.now) false }
{
    match issue {
        None => false,
        Some(issue) => issue.voided,
    }
}

/// Returns whether an identifier with this last issue may be issued on `day`: it was never issued,
/// or at least `interval` days before.
pub fn is_free(issue: &Option<Issue>, day: u32, interval: u32) -> bool
    ensures { result ≡ is_free_since day interval (option_map (λ i. i.day) issue.now) }
{
    match issue {
        None => true,
        Some(issue) => issue.is_free(day, interval),
    }
}
