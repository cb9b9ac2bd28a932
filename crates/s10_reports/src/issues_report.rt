//! The report of the issuances.

ghost use Rattle.std.specs.Prelude.{◌≡◌, [], ◌∷◌, OnOk};
ghost use Rattle.std.specs.Io.KnownBytes.{Appends};
ghost use Rattle.s10_book.specs.Book.{Unchanged};
ghost use Rattle.s10_history.specs.Issues.{issues_at};
ghost use Rattle.s10_reports.specs.Reports.{issue_line, issue_lines, issue_text, issues_heading};
ghost use Rattle.s10_reports.specs.Reports.{issues_report};
ghost use Rattle.s10_reports.specs.ReportFault.{Reported, CountsReport};

use crate::issue_filter::IssueFilter;
use crate::records::{write_issue_record, write_record};
use crate::report_fault::ReportFault;
use crate::report_format::ReportFormat;
use crate::states::state;
use s10_book::Book;
use s10_history::{Entry, Issuance, Issue, Range, SerialSpan};
use s10_lines::{WriteFault, write_decimal, write_first_decimal, write_id, write_text, write_word};
use std::io::Write;

const HEADINGS: &[&[u8]] = &[
    b"arrival",
    b"day",
    b"date",
    b"customer",
    b"number",
    b"identifier",
    b"range",
    b"state",
];

/// A report of the issuances: which, and how they are written.
#[derive(Clone, Copy, Debug, PartialEq, Eq)]
pub struct IssuesReport {
    /// Which issuances the report has.
    pub filter: IssueFilter,
    /// How they are written.
    pub format: ReportFormat,
}

/// Writes a heading and a line or a record for each issuance that the filter admits, in order of
/// arrival, with its state.
///
/// The state is `issued` or `voided` if this is the identifier's last issuance, otherwise
/// `reissued`. All that a line says is read from the book before the line is written. The history
/// is unchanged.
///
/// # Errors
///
/// - `Book` if a call of the book fails; the lines before are written whole, and nothing of the
///   next one.
/// - `Write` if the writer fails; part of a line may be written.
pub fn write_issues<B: Book, W: Write>(
    book: &mut B,
    report: &IssuesReport,
    out: &mut W,
) -> Result<(), ReportFault>
    ensures faults { CountsReport result (B.faults book.old) (B.faults book.new) }
    ensures unchanged { Unchanged B.history B.committed B.terms B.honest B.clean B.may_find book.old
        book.new }
    ensures written { B.honest book.new
        → Reported (W.contents out.old) (W.contents out.new)
        (issues_report report.now (B.history book.old)) result }
{
    write_heading(report.format, out)?;
    for done in 0..book.len() {
        let entry = match book.entry(done + 1)? {
            None => return Ok(()),
            Some(entry) => entry,
        };
        write_call(book, report, done + 1, &entry, out)?;
    }
    Ok(())
}

// Writes the heading as a line or as a record.
fn write_heading<W: Write>(format: ReportFormat, out: &mut W) -> Result<(), WriteFault>
    ensures { OnOk result (Appends (W.contents out.old) (W.contents out.new)
        (issues_heading format)) }
{
    match format {
        ReportFormat::Lines => write_text(b"arrival day customer number identifier state\n", out),
        ReportFormat::Csv => write_record(HEADINGS, out),
    }
}

// Writes a line or a record for each issuance of a call that the filter admits, in the order of its
// reply.
fn write_call<B: Book, W: Write>(
    book: &mut B,
    report: &IssuesReport,
    arrival: u32,
    entry: &Entry,
    out: &mut W,
) -> Result<(), ReportFault>
    ensures faults { CountsReport result (B.faults book.old) (B.faults book.new) }
    ensures unchanged { Unchanged B.history B.committed B.terms B.honest B.clean B.may_find book.old
        book.new }
    ensures written { B.honest book.new
        → Reported (W.contents out.old) (W.contents out.new)
        (issue_lines report.now (B.history book.old) (issues_at arrival entry.now)) result }
{
    for place in 0..entry.issued() {
        let issuance = match entry.issue(arrival, place) {
            None => return Ok(()),
            Some(issuance) => issuance,
        };
        write_if_admitted(book, report, &issuance, out)?;
    }
    Ok(())
}

// Writes the line or the record of an issuance, if the filter admits it.
fn write_if_admitted<B: Book, W: Write>(
    book: &mut B,
    report: &IssuesReport,
    issuance: &Issuance,
    out: &mut W,
) -> Result<(), ReportFault>
    ensures faults { CountsReport result (B.faults book.old) (B.faults book.new) }
    ensures unchanged { Unchanged B.history B.committed B.terms B.honest B.clean B.may_find book.old
        book.new }
    ensures written { B.honest book.new
        → Reported (W.contents out.old) (W.contents out.new)
        (issue_lines report.now (B.history book.old) (issuance.now ∷ [])) result }
{
    let range = book.covering(&SerialSpan::of(&issuance.id))?;
    if !report.filter.admits(issuance, &range) {
        return Ok(());
    }
    let last = book.last_issue(&issuance.id)?;
    write_as(report.format, issuance, &range, &last, out)?;
    Ok(())
}

// Writes an issuance as a line or as a record. Its identifier lies in the range.
fn write_as<W: Write>(
    format: ReportFormat,
    issuance: &Issuance,
    range: &Option<Range>,
    last: &Option<Issue>,
    out: &mut W,
) -> Result<(), WriteFault>
    ensures { OnOk result (Appends (W.contents out.old) (W.contents out.new)
        (issue_text format issuance.now range.now last.now)) }
{
    match format {
        ReportFormat::Lines => write_issue(issuance, last, out),
        ReportFormat::Csv => write_issue_record(issuance, range, last, out),
    }
}

fn write_issue<W: Write>(
    issuance: &Issuance,
    last: &Option<Issue>,
    out: &mut W,
) -> Result<(), WriteFault>
    ensures { OnOk result (Appends (W.contents out.old) (W.contents out.new)
        (issue_line issuance.now last.now)) }
{
    write_first_decimal(issuance.arrival, out)?;
    write_decimal(issuance.day, out)?;
    write_decimal(issuance.customer, out)?;
    write_decimal(issuance.number, out)?;
    write_id(&issuance.id, out)?;
    write_word(state(issuance, last), out)?;
    write_text(b"\n", out)
}
