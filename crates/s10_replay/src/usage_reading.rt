//! Counts the usage of a range by its rows of `serials`.

ghost use Rattle.std.specs.Prelude.{◌≡◌, ℕ, ◌+◌, ◌-◌, ◌<◌, ◌≤◌, ◌^◌, pos, max, nat_le, not};
ghost use Rattle.std.specs.Prelude.{if◌then◌else◌, List, filter, All, Ok, IfOk, IfErr};
ghost use Rattle.s10_history.specs.declared.entry.Entry.{Entry};
ghost use Rattle.s10_history.specs.History.{day_of};
ghost use Rattle.s10_history.specs.Usage.{usage_of};
ghost use Rattle.s10_core.specs.Pair.{pair_of};
ghost use Rattle.s10_rows.specs.Tables.{HaveSameRows, serial_rows};
ghost use Rattle.s10_rows.specs.Selected.{IsCall, IsRange, is_within};
ghost use Rattle.s10_replay.specs.ReadRows.{IsUsageOf};

use crate::serial_reading::issue_in;
use s10_book::BookFault;
use s10_history::{Issue, Range, Usage};
use s10_rows::SerialRow;

// Returns the usage with one more issue, of a serial that was counted as free.
fn count_issue(usage: Usage, issue: &Issue, day: u32, interval: u32) -> Usage
    requires used { usage.used < 100000000 }
    requires voided { usage.voided < 100000000 }
    requires free { 0 < usage.free }
    ensures used { result.used ≡ usage.used + 1 }
    ensures voided { result.voided ≡ usage.voided + (if issue.now.voided then 1 else 0) }
    ensures free { result.free + (if not (nat_le interval (day - issue.now.day)) then 1 else 0)
        ≡ usage.free }
{
    let is_free = issue.is_free(day, interval);
    Usage {
        used: usage.used + 1,
        voided: if issue.voided {
            usage.voided + 1
        } else {
            usage.voided
        },
        free: if is_free { usage.free } else { usage.free - 1 },
    }
}

/// Returns the usage of a range, by its rows of `serials`: serials with a row were issued, all
/// others are free.
///
/// `day` is the later of the day asked for and the ledger's; `interval` is the reuse interval in
/// days.
///
/// # Errors
///
/// `Store` if there are more rows than serials, or a column of a row is out of its bounds.
pub fn usage_among(
    rows: &[SerialRow],
    range: &Range,
    day: u32,
    interval: u32,
) -> Result<Usage, BookFault>
    ensures store { IfErr result (λ f. f ≡ BookFault.Store) }
    ensures counted { IfOk result (IsUsageOf rows.now range.now day interval) }
    ensures found { (h : List Entry) → All IsCall h → IsRange range.now → (asked : ℕ)
        → day ≡ max (day_of h) asked
        → HaveSameRows (filter (is_within (pos (pair_of range.now.service range.now.country))
        (pos range.now.first) (pos range.now.last)) (serial_rows h)) rows.now
        → result ≡ Ok (usage_of h range.now asked interval) }
{
    let serials = range.size();
    if rows.len() > serials as usize {
        return Err(BookFault::Store);
    }
    let mut usage = Usage {
        used: 0,
        voided: 0,
        free: serials,
    };
    for row in rows {
        let Some(issue) = issue_in(row) else {
            return Err(BookFault::Store);
        };
        usage = count_issue(usage, &issue, day, interval);
    }
    Ok(usage)
}
