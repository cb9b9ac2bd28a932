//! Reads the jobs of a command line over a ledger: in a file, or for `loop` in memory.
ghost use Rattle.std.specs.Prelude.{codes};
ghost use Rattle.s10_cli.specs.Options.{rows_in, Finds, HasFormat, HasIssueFilter};
ghost use Rattle.s10_cli.specs.Jobs.{AsksFor, IsKind};

use crate::option_values::{flag_of, id_of, number_of, settings_of, text_of};
use clap::ArgMatches;
use s10_jobs::{Job, Look, ReportKind, TurnOptions};
use s10_reports::{IssueFilter, IssuesReport, RangeFilter, ReportFormat};

/// Returns the job of creating a ledger that the words of `create` ask for.
///
/// Returns `None` if a required option is missing or its number is out of range. Neither occurs in
/// a command line that `parse` accepted.
pub fn create_job<'a>(found: &ArgMatches<'a>) -> Option<Job<'a>>
    ensures { Finds (AsksFor (codes "create") (rows_in found.now)) result }
{
    Some(Job::Create {
        ledger: text_of(found, "ledger")?,
        settings: settings_of(found)?,
    })
}

/// Returns the job of serving a ledger that the words of `serve` ask for.
///
/// Returns `None` if a required option is missing or its number is out of range. Neither occurs in
/// a command line that `parse` accepted.
pub fn serve_job<'a>(found: &ArgMatches<'a>) -> Option<Job<'a>>
    ensures { Finds (AsksFor (codes "serve") (rows_in found.now)) result }
{
    Some(Job::Serve {
        ledger: text_of(found, "ledger")?,
        bind: text_of(found, "bind")?,
        options: TurnOptions {
            count: number_of(found, "count")?,
            day: number_of(found, "day"),
            most_days_ahead: number_of(found, "most-days-ahead"),
            senders: flag_of(found, "senders"),
        },
        until: text_of(found, "until"),
    })
}

/// Returns the report that the words of `report` ask for.
///
/// Returns `None` if the text of `--id` is no identifier, or if a required option is missing. The
/// second does not occur in a command line that `parse` accepted.
pub fn report_job<'a>(found: &ArgMatches<'a>) -> Option<Job<'a>>
    ensures { Finds (AsksFor (codes "report") (rows_in found.now)) result }
{
    let kind = kind_of(found)?;
    let ledger = text_of(found, "ledger")?;
    let day = number_of(found, "day");
    if flag_of(found, "snapshot") {
        return Some(Job::Snapshot {
            ledger,
            look: Look::Report { kind, day },
        });
    }
    Some(Job::Report { ledger, kind, day })
}

/// Returns the report that the words of `info` ask for, or `None` if a required option is missing.
pub fn info_job<'a>(found: &ArgMatches<'a>) -> Option<Job<'a>>
    ensures { Finds (AsksFor (codes "info") (rows_in found.now)) result }
{
    let kind = ReportKind::Info;
    let ledger = text_of(found, "ledger")?;
    let day = number_of(found, "day");
    if flag_of(found, "snapshot") {
        return Some(Job::Snapshot {
            ledger,
            look: Look::Report { kind, day },
        });
    }
    Some(Job::Report { ledger, kind, day })
}

/// Returns the audit that the words of `audit` ask for.
///
/// Returns `None` if a required option is missing or its number is out of range. Neither occurs in
/// a command line that `parse` accepted.
pub fn audit_job<'a>(found: &ArgMatches<'a>) -> Option<Job<'a>>
    ensures { Finds (AsksFor (codes "audit") (rows_in found.now)) result }
{
    let ledger = text_of(found, "ledger")?;
    if flag_of(found, "snapshot") {
        return Some(Job::Snapshot {
            ledger,
            look: Look::Audit,
        });
    }
    Some(Job::Audit { ledger })
}

/// Returns the copy that the words of `copy` ask for.
///
/// Returns `None` if a required option is missing. This does not occur in a command line that
/// `parse` accepted.
pub fn copy_job<'a>(found: &ArgMatches<'a>) -> Option<Job<'a>>
    ensures { Finds (AsksFor (codes "copy") (rows_in found.now)) result }
{
    Some(Job::Copy {
        ledger: text_of(found, "ledger")?,
        to: text_of(found, "to")?,
    })
}

/// Returns the loop that the words ask for.
pub fn loop_job<'a>(found: &ArgMatches<'a>) -> Job<'a>
    ensures { AsksFor (codes "loop") (rows_in found.now) result }
{
    Job::Loop {
        day: number_of(found, "day"),
    }
}

// Returns the kind of report that the words of `report` ask for. Ranges have no days, so a day asks
// for the issues.
#[tactic(auto, using(crate::proofs::AskLemmas::no_kind))]
fn kind_of(found: &ArgMatches<'_>) -> Option<ReportKind>
    ensures { Finds (IsKind (codes "report") (rows_in found.now)) result }
{
    let filter = issue_filter_of(found)?;
    let format = format_of(found);
    let has_days = filter.from_day.is_some() || filter.to_day.is_some();
    if flag_of(found, "issues") || has_days {
        return Some(ReportKind::Issues(IssuesReport { filter, format }));
    }
    Some(ReportKind::Ranges {
        filter: RangeFilter {
            customer: filter.customer,
            range: filter.range,
            id: filter.id,
        },
        format,
    })
}

// Returns which issuances the options select, or `None` if the text of `--id` is no identifier.
fn issue_filter_of(found: &ArgMatches<'_>) -> Option<IssueFilter>
    ensures { Finds (HasIssueFilter (rows_in found.now)) result }
{
    let Ok(id) = id_of(found, "id") else {
        return None;
    };
    Some(IssueFilter {
        customer: number_of(found, "customer"),
        range: number_of(found, "range"),
        id,
        from_day: number_of(found, "from-day"),
        to_day: number_of(found, "to-day"),
    })
}

fn format_of(found: &ArgMatches<'_>) -> ReportFormat
    ensures { HasFormat (rows_in found.now) result }
{
    if flag_of(found, "csv") {
        ReportFormat::Csv
    } else {
        ReportFormat::Lines
    }
}
