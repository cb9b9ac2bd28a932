//! The records of a report, written by `csv`.

ghost use Rattle.std.specs.Prelude.{◌≡◌, map, IfOk, OnOk};
ghost use Rattle.std.specs.Io.KnownBytes.{Appends};
ghost use Rattle.csv.specs.Writing.{row_text};
ghost use Rattle.s10_dates.specs.Dates.{date_of, date_text};
ghost use Rattle.s10_reports.specs.Records.{issue_record, range_record, record_writer, yes_or_no};

use crate::states::state;
use arrayvec::ArrayVec;
use csv::{Terminator, WriterBuilder};
use itoa::Buffer;
use s10_core::serial_digits;
use s10_dates::{date_of, two_digits};
use s10_history::{Issuance, Issue, Range, Usage};
use s10_lines::{WriteFault, write_text};
use std::io::Write;

/// Writes the record of a range. Free was counted on this day.
///
/// # Errors
///
/// `WriteFault` if the writer fails; part of the record may be written.
pub(crate) fn write_range_record<W: Write>(
    range: &Range,
    usage: &Usage,
    closed: bool,
    day: u32,
    out: &mut W,
) -> Result<(), WriteFault>
    ensures { OnOk result (Appends (W.contents out.old) (W.contents out.new)
        (range_record range.now usage.now closed day)) }
{
    let date = date_field(day)?;
    write_record(
        &[
            Buffer::new().format(range.num).as_bytes(),
            Buffer::new().format(range.holder).as_bytes(),
            &range.service.bytes(),
            &range.country.bytes(),
            &serial_digits(range.first),
            &serial_digits(range.last),
            Buffer::new().format(usage.used).as_bytes(),
            Buffer::new().format(usage.voided).as_bytes(),
            Buffer::new().format(usage.free).as_bytes(),
            yes_or_no(closed),
            Buffer::new().format(day).as_bytes(),
            date.as_slice(),
        ],
        out,
    )
}

/// Writes the record of an issuance, with the range in which its identifier lies and its state.
///
/// # Errors
///
/// `WriteFault` if the writer fails; part of the record may be written.
pub(crate) fn write_issue_record<W: Write>(
    issuance: &Issuance,
    range: &Option<Range>,
    last: &Option<Issue>,
    out: &mut W,
) -> Result<(), WriteFault>
    ensures { OnOk result (Appends (W.contents out.old) (W.contents out.new)
        (issue_record issuance.now range.now last.now)) }
{
    let date = date_field(issuance.day)?;
    let mut buffer = Buffer::new();
    let range_number: &[u8] = match range {
        None => b"",
        Some(range) => buffer.format(range.num).as_bytes(),
    };
    write_record(
        &[
            Buffer::new().format(issuance.arrival).as_bytes(),
            Buffer::new().format(issuance.day).as_bytes(),
            date.as_slice(),
            Buffer::new().format(issuance.customer).as_bytes(),
            Buffer::new().format(issuance.number).as_bytes(),
            &issuance.id.write(),
            range_number,
            state(issuance, last),
        ],
        out,
    )
}

/// Writes a record of these fields.
///
/// # Errors
///
/// `WriteFault` if the writer fails; part of the record may be written.
pub(crate) fn write_record<W: Write>(fields: &[&[u8]], out: &mut W) -> Result<(), WriteFault>
    ensures { OnOk result (Appends (W.contents out.old) (W.contents out.new)
        (row_text record_writer (map (λ field. field.now) fields.now))) }
{
    // The longest record has 110 bytes. A csv writer over `out` would flush it after each record.
    let mut records = WriterBuilder::new()
        .terminator(Terminator::CRLF)
        .from_writer(ArrayVec::<u8, 128>::new());
    let Ok(()) = records.write_fields(fields) else {
        return Err(WriteFault);
    };
    let Ok(record) = records.into_inner() else {
        return Err(WriteFault);
    };
    write_text(record.as_slice(), out)
}

fn yes_or_no(closed: bool) -> &'static [u8]
    ensures { result.now ≡ yes_or_no closed }
{
    if closed { b"yes" } else { b"no" }
}

// Returns the date of a day as text, which has at most 14 bytes.
fn date_field(day: u32) -> Result<ArrayVec<u8, 16>, WriteFault>
    ensures { IfOk result (λ text. text.items ≡ date_text (date_of day)) }
{
    let date = date_of(day);
    let mut text = ArrayVec::new();
    write_text(Buffer::new().format(date.year).as_bytes(), &mut text)?;
    write_text(b"-", &mut text)?;
    write_text(&two_digits(date.month), &mut text)?;
    write_text(b"-", &mut text)?;
    write_text(&two_digits(date.day), &mut text)?;
    Ok(text)
}
