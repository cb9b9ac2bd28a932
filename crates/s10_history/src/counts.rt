//! The usage of the serials of a range.

ghost use Rattle.std.specs.Prelude.{◌≡◌, ◌≤◌, ◌+◌, if◌then◌else◌, count_by, List};
ghost use Rattle.s10_history.specs.declared.entry.Entry.{Entry};
ghost use Rattle.s10_history.specs.Issues.{issues_of, is_issued, id_at, serials};
ghost use Rattle.s10_history.specs.Issues.{is_voided as is_voided_in, is_free as is_free_on};
ghost use Rattle.s10_history.specs.Usage.{FindsLastIssues, CountsSerials};

use crate::entry::Entry;
use crate::issuance::Issuance;
use crate::issue::Issue;
use crate::issues::{is_free, is_voided, last_issue_in};
use crate::range::Range;
use crate::ranges::id_in_range;
use crate::usage::Usage;
use s10_core::Id;

// Returns the count, plus one if the test passed.
fn count_if(count: u32, passed: bool) -> u32
    requires { count ≤ 100000000 }
    ensures { result ≡ count + (if passed then 1 else 0) }
{
    if passed { count + 1 } else { count }
}

/// Returns how many serials of the range were issued, are voided, and are free on a day.
///
/// `last_issue` must return the last issue of an identifier; `interval` is the reuse interval in
/// days.
pub fn usage_by<F: Fn(&Id) -> Option<Issue>>(
    range: &Range,
    day: u32,
    interval: u32,
    last_issue: F,
) -> Usage
    requires { F.IsAlwaysCallable last_issue }
    ensures { (h : List Entry) → FindsLastIssues F.Fn last_issue h
        → CountsSerials h range.now day interval result }
{
    let mut usage = Usage {
        used: 0,
        voided: 0,
        free: 0,
    };
    for value in range.first.value()..=range.last.value() {
        let last = last_issue(&id_in_range(range, value));
        usage.used = count_if(usage.used, last.is_some());
        usage.voided = count_if(usage.voided, is_voided(&last));
        usage.free = count_if(usage.free, is_free(&last, day, interval));
    }
    usage
}

/// Returns how many serials of the range were issued, are voided, and are free on a day.
///
/// `issues` must be the issuances of the calls; `interval` is the reuse interval in days.
pub fn usage_in(
    entries: &[Entry],
    issues: &[Issuance],
    range: &Range,
    day: u32,
    interval: u32,
) -> Usage
    requires { issues.now ≡ issues_of entries.now }
    ensures used { result.used ≡ count_by (λ serial. is_issued issues.now (id_at range.now serial))
        (serials range.now) }
    ensures voided { result.voided
        ≡ count_by (λ serial. is_voided_in entries.now (id_at range.now serial))
        (serials range.now) }
    ensures free { result.free ≡ count_by (λ serial. is_free_on issues.now (id_at range.now serial)
        day interval) (serials range.now) }
{
    usage_by(
        range,
        day,
        interval,
        |id| last_issue_in(entries, issues, id),
    )
}
