//! The report of the ranges.

ghost use Rattle.std.specs.Prelude.{◌≡◌, [], ◌∷◌, decimal, Contains, OnOk};
ghost use Rattle.std.specs.Io.KnownBytes.{Appends};
ghost use Rattle.s10_lines.specs.Lines.{spaced};
ghost use Rattle.s10_history.specs.History.{ranges_of};
ghost use Rattle.s10_book.specs.Book.{Unchanged};
ghost use Rattle.s10_reports.specs.Reports.{closed_words, range_line, range_lines, range_text};
ghost use Rattle.s10_reports.specs.Reports.{ranges_heading, ranges_report};
ghost use Rattle.s10_reports.specs.ReportFault.{Reported, CountsReport};

use crate::range_filter::RangeFilter;
use crate::records::{write_range_record, write_record};
use crate::report_fault::ReportFault;
use crate::report_format::ReportFormat;
use s10_book::Book;
use s10_history::{Range, Usage};
use s10_lines::{
    WriteFault, write_decimal, write_first_decimal, write_letters, write_serials, write_text,
    write_word,
};
use std::io::Write;

const HEADINGS: &[&[u8]] = &[
    b"range",
    b"customer",
    b"service",
    b"country",
    b"first",
    b"last",
    b"used",
    b"voided",
    b"free",
    b"closed",
    b"day",
    b"date",
];

/// Writes a heading and a line or a record for each range that the filter admits, in order of their
/// numbers, with its usage.
///
/// The usage is how many of its serials were ever issued, are voided, and are free. Free is counted
/// on the later of `day` and the book's day. The line of a closed range ends with `closed`. All
/// that a line says is read from the book before the line is written. The history is unchanged.
///
/// # Errors
///
/// - `Book` if a call of the book fails; the lines before are written whole, and nothing of the
///   next one.
/// - `Write` if the writer fails; part of a line may be written.
pub fn write_ranges<B: Book, W: Write>(
    book: &mut B,
    filter: &RangeFilter,
    format: ReportFormat,
    day: u32,
    out: &mut W,
) -> Result<(), ReportFault>
    ensures faults { CountsReport result (B.faults book.old) (B.faults book.new) }
    ensures unchanged { Unchanged B.history B.committed B.terms B.honest B.clean B.may_find book.old
        book.new }
    ensures written { B.honest book.new → Reported (W.contents out.old) (W.contents out.new)
        (ranges_report filter.now format (B.history book.old) day (B.terms book.old).interval)
        result }
{
    write_heading(format, out)?;
    for done in 0..book.len() {
        let range = match book.range(done + 1)? {
            None => return Ok(()),
            Some(range) => range,
        };
        write_if_admitted(book, filter, format, &range, day, out)?;
    }
    Ok(())
}

// Writes the heading as a line or as a record.
fn write_heading<W: Write>(format: ReportFormat, out: &mut W) -> Result<(), WriteFault>
    ensures { OnOk result (Appends (W.contents out.old) (W.contents out.new)
        (ranges_heading format)) }
{
    match format {
        ReportFormat::Lines => write_text(
            b"range customer service country first last used voided free\n",
            out,
        ),
        ReportFormat::Csv => write_record(HEADINGS, out),
    }
}

// Writes the line or the record of a range of the book, if the filter admits it.
fn write_if_admitted<B: Book, W: Write>(
    book: &mut B,
    filter: &RangeFilter,
    format: ReportFormat,
    range: &Range,
    day: u32,
    out: &mut W,
) -> Result<(), ReportFault>
    requires { B.honest book.old → Contains (ranges_of (B.history book.old)) range.now }
    ensures faults { CountsReport result (B.faults book.old) (B.faults book.new) }
    ensures unchanged { Unchanged B.history B.committed B.terms B.honest B.clean B.may_find book.old
        book.new }
    ensures written { B.honest book.new → Reported (W.contents out.old) (W.contents out.new)
        (range_lines filter.now format (B.history book.old) day (B.terms book.old).interval
        (range.now ∷ [])) result }
{
    if !filter.admits(range) {
        return Ok(());
    }
    let usage = book.usage(range, day)?;
    let closed = book.closed(range.num)?;
    let counted = book.day().max(day);
    write_as(format, range, &usage, closed, counted, out)?;
    Ok(())
}

// Writes a range as a line or as a record. Free was counted on this day.
fn write_as<W: Write>(
    format: ReportFormat,
    range: &Range,
    usage: &Usage,
    closed: bool,
    day: u32,
    out: &mut W,
) -> Result<(), WriteFault>
    ensures { OnOk result (Appends (W.contents out.old) (W.contents out.new)
        (range_text format range.now usage.now closed day)) }
{
    match format {
        ReportFormat::Lines => write_range(range, usage, closed, out),
        ReportFormat::Csv => write_range_record(range, usage, closed, day, out),
    }
}

fn write_range<W: Write>(
    range: &Range,
    usage: &Usage,
    closed: bool,
    out: &mut W,
) -> Result<(), WriteFault>
    ensures { OnOk result (Appends (W.contents out.old) (W.contents out.new)
        (range_line range.now usage.now closed)) }
{
    write_first_decimal(range.num, out)?;
    write_decimal(range.holder, out)?;
    write_letters(range.service, range.country, out)?;
    write_serials(range.first, range.last, out)?;
    write_usage(usage, out)?;
    write_closed(closed, out)?;
    write_text(b"\n", out)
}

fn write_usage<W: Write>(usage: &Usage, out: &mut W) -> Result<(), WriteFault>
    ensures { OnOk result (Appends (W.contents out.old) (W.contents out.new)
        (spaced (decimal usage.now.used ∷ decimal usage.now.voided ∷ decimal usage.now.free
        ∷ []))) }
{
    write_decimal(usage.used, out)?;
    write_decimal(usage.voided, out)?;
    write_decimal(usage.free, out)
}

// Writes the word at the end of a closed range's line.
fn write_closed<W: Write>(closed: bool, out: &mut W) -> Result<(), WriteFault>
    ensures { OnOk result (Appends (W.contents out.old) (W.contents out.new)
        (spaced (closed_words closed))) }
{
    if closed {
        write_word(b"closed", out)
    } else {
        Ok(())
    }
}
