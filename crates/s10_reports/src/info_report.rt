//! The report of a ledger as a whole.

ghost use Rattle.std.specs.Prelude.{◌≡◌, cond, IfOk, OnOk};
ghost use Rattle.std.specs.Io.KnownBytes.{Appends};
ghost use Rattle.s10_history.specs.History.{ranges_of};
ghost use Rattle.s10_book.specs.Book.{Unchanged};
ghost use Rattle.s10_book.specs.BookFault.{CountsResult};
ghost use Rattle.s10_reports.specs.Info.{drawable, number_line, call_lines, tally_lines, tally_of};
ghost use Rattle.s10_reports.specs.Info.{info_report};
ghost use Rattle.s10_reports.specs.Reports.{joined};
ghost use Rattle.s10_reports.specs.ReportFault.{Reported, CountsReport};

use crate::report_fault::ReportFault;
use itoa::Buffer;
use s10_book::{Book, BookFault};
use s10_history::{Settings, Usage};
use s10_lines::{WriteFault, write_text, write_word};
use std::io::Write;

/// The numbers of ranges and of their serials.
#[derive(Clone, Copy, Debug, PartialEq, Eq)]
pub struct Tally {
    /// Ranges, closed ones included.
    pub ranges: u32,
    /// Closed ranges.
    pub closed: u32,
    /// Serials that were ever issued.
    pub used: u64,
    /// Serials that were voided after their last issuance.
    pub voided: u64,
    /// Serials that may be drawn on the day: those of closed ranges are not among them.
    pub free: u64,
}

/// Writes a line for each number of a ledger: a word and the number.
///
/// The lines are `schema`, `interval` (days), `limit`, `calls`, `last-day`, `ranges`, `closed`
/// (ranges), and the sums of the usage of all ranges: `used`, `voided` and `free`. Free is counted on
/// the later of `day` and the book's day, and without closed ranges. All is read from the book before
/// a line is written. The history is unchanged.
///
/// # Errors
///
/// - `Book` if a call of the book fails; nothing is written.
/// - `Write` if the writer fails; part of a line may be written.
pub fn write_info<B: Book, W: Write>(
    book: &mut B,
    schema: u32,
    day: u32,
    out: &mut W,
) -> Result<(), ReportFault>
    ensures faults { CountsReport result (B.faults book.old) (B.faults book.new) }
    ensures unchanged { Unchanged B.history B.committed B.terms B.honest B.clean B.may_find book.old
        book.new }
    ensures written { B.honest book.new → Reported (W.contents out.old) (W.contents out.new)
        (info_report schema (B.history book.old) day (B.terms book.old)) result }
{
    let settings = book.settings();
    let calls = book.len();
    let last_day = book.day();
    let tally = tally_ranges(book, day)?;
    write_calls(schema, settings, calls, last_day, out)?;
    write_tally(&tally, out)?;
    Ok(())
}

// Reads the numbers of the book's ranges and of their serials.
fn tally_ranges<B: Book>(book: &mut B, day: u32) -> Result<Tally, BookFault>
    ensures faults { CountsResult result (B.faults book.old) (B.faults book.new) }
    ensures unchanged { Unchanged B.history B.committed B.terms B.honest B.clean B.may_find book.old
        book.new }
    ensures tallied { B.honest book.new → IfOk result (λ t. t ≡ tally_of (B.history book.old) day
        (B.terms book.old).interval (ranges_of (B.history book.old))) }
{
    let mut tally = Tally {
        ranges: 0,
        closed: 0,
        used: 0,
        voided: 0,
        free: 0,
    };
    for done in 0..book.len() {
        let range = match book.range(done + 1)? {
            None => return Ok(tally),
            Some(range) => range,
        };
        let usage = book.usage(&range, day)?;
        let closed = book.closed(range.num)?;
        tally.ranges += 1;
        tally.closed += one_if(closed);
        tally.used += usage.used as u64;
        tally.voided += usage.voided as u64;
        tally.free += drawable(&usage, closed) as u64;
    }
    Ok(tally)
}

fn one_if(closed: bool) -> u32
    ensures { result ≡ cond closed 1 0 }
{
    if closed { 1 } else { 0 }
}

fn drawable(usage: &Usage, closed: bool) -> u32
    ensures { result ≡ drawable closed usage.now.free }
{
    if closed { 0 } else { usage.free }
}

fn write_calls<W: Write>(
    schema: u32,
    settings: Settings,
    calls: u32,
    last_day: u32,
    out: &mut W,
) -> Result<(), WriteFault>
    ensures { OnOk result (Appends (W.contents out.old) (W.contents out.new)
        (joined (call_lines schema settings calls last_day))) }
{
    write_number(b"schema", schema as u64, out)?;
    write_number(b"interval", settings.interval() as u64, out)?;
    write_number(b"limit", settings.limit() as u64, out)?;
    write_number(b"calls", calls as u64, out)?;
    write_number(b"last-day", last_day as u64, out)
}

fn write_tally<W: Write>(tally: &Tally, out: &mut W) -> Result<(), WriteFault>
    ensures { OnOk result (Appends (W.contents out.old) (W.contents out.new)
        (joined (tally_lines tally.now))) }
{
    write_number(b"ranges", tally.ranges as u64, out)?;
    write_number(b"closed", tally.closed as u64, out)?;
    write_number(b"used", tally.used, out)?;
    write_number(b"voided", tally.voided, out)?;
    write_number(b"free", tally.free, out)
}

// Writes a line of a word and a number.
fn write_number<W: Write>(word: &[u8], number: u64, out: &mut W) -> Result<(), WriteFault>
    ensures { OnOk result (Appends (W.contents out.old) (W.contents out.new)
        (number_line word.now number)) }
{
    let mut buffer = Buffer::new();
    write_text(word, out)?;
    write_word(buffer.format(number).as_bytes(), out)?;
    write_text(b"\n", out)
}
