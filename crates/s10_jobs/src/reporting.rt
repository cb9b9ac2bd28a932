//! Writes a report, and a last line if it ended early.

ghost use Rattle.s10_book.specs.Book.{Unchanged};
ghost use Rattle.s10_jobs.specs.Reporting.{report_lines, PrintsReport};
ghost use Rattle.std.specs.Prelude.{IfOk};

use crate::answer_line::write_faulted;
use crate::days::{Days, next_day};
use crate::job_status::JobStatus;
use crate::report_kind::ReportKind;
use s10_book::Book;
use s10_lines::{WriteFault, write_text};
use s10_reports::{
    IssuesReport, RangeFilter, ReportFault, ReportFormat, write_info, write_issues, write_ranges,
};
use std::io::Write;

/// The schema number of the ledgers of this build. No ledger with another one opens.
const SCHEMA: u32 = 1;

/// A report of a ledger.
#[derive(Clone, Copy, Debug, PartialEq, Eq)]
pub enum Report {
    /// The ranges that the filter admits, with the serials that are free on a day.
    Ranges {
        filter: RangeFilter,
        format: ReportFormat,
        day: u32,
    },
    /// The identifiers that were issued.
    Issues(IssuesReport),
    /// The ledger as a whole, with the serials that may be drawn on a day.
    Info {
        day: u32,
    },
}

impl Report {
    ghost use Rattle.std.specs.Prelude.{◌≡◌, ℕ, Option, Some, option_map};
    ghost use Rattle.s10_reports.specs.declared.issues_report.IssuesReport.{IssuesReport};
    ghost use Rattle.s10_jobs.specs.Days.{IsTaken};
    ghost use Rattle.s10_jobs.specs.Reporting.{IsOfIssues, report_on};
    ghost use Rattle.s10_jobs.specs.declared.report_kind.ReportKind.{ReportKind};

    /// Returns the report of this kind, on a day. That of the issues needs none.
    ///
    /// The source of days is asked only if a day is needed and none is given. Returns `None` if it
    /// gives no day.
    pub fn new<D: Days>(days: &mut D, kind: ReportKind, day: Option<u32>) -> Option<Report>
        ensures issues { (asked : IssuesReport) → kind ≡ ReportKind.Issues asked
            → (result ≡ Some (Report.Issues asked)) × (days.new ≡ days.old) }
        ensures dated { ¬ IsOfIssues kind → (taken : Option ℕ)
            × IsTaken D.gives day taken days.old days.new
            × (result ≡ option_map (report_on kind) taken) }
    {
        match kind {
            ReportKind::Issues(asked) => Some(Report::Issues(asked)),
            ReportKind::Ranges { filter, format } => Some(Report::Ranges {
                filter,
                format,
                day: next_day(days, day)?,
            }),
            ReportKind::Info => {
                let day = next_day(days, day)?;
                Some(Report::Info { day })
            }
        }
    }
}

/// Writes a report, and returns `Done`.
///
/// If the book fails, the last line is `faulted` and the fault. If the writer fails, it is
/// `output`. The status is then `Failed`. The history is unchanged.
///
/// # Errors
///
/// `WriteFault` if the last line cannot be written.
pub fn write_report<B: Book, W: Write>(
    book: &mut B,
    report: Report,
    out: &mut W,
) -> Result<JobStatus, WriteFault>
    ensures unchanged { Unchanged B.history B.committed B.terms B.honest B.clean B.may_find book.old
        book.new }
    ensures written { B.honest book.new
        → IfOk result (PrintsReport (B.faults book.old) (B.faults book.new) (W.contents out.old)
        (W.contents out.new)
        (report_lines report (B.history book.old) (B.terms book.old))) }
{
    let written = match report {
        Report::Ranges {
            filter,
            format,
            day,
        } => write_ranges(book, &filter, format, day, out),
        Report::Issues(asked) => write_issues(book, &asked, out),
        Report::Info { day } => write_info(book, SCHEMA, day, out),
    };
    match written {
        Ok(()) => return Ok(JobStatus::Done),
        Err(ReportFault::Book(fault)) => write_faulted(fault, out)?,
        Err(ReportFault::Write) => write_text(b"output\n", out)?,
    }
    Ok(JobStatus::Failed)
}
