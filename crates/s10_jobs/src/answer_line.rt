//! Writes the output lines of answers.
ghost use Rattle.std.specs.Prelude.{◌++◌, OnOk, codes};
ghost use Rattle.std.specs.Io.KnownBytes.{Appends};
ghost use Rattle.hex.specs.Hex.{encode_lower};
ghost use Rattle.s10_lines.specs.Lines.{line_of};
ghost use Rattle.s10_jobs.specs.Words.{wire_fault_words, book_fault_words};
ghost use Rattle.s10_jobs.specs.AnswerLines.{answer_line};

use crate::words::{write_book_fault, write_wire_fault};
use s10_book::BookFault;
use s10_ends::Answer;
use s10_lines::{WriteFault, write_text};
use s10_wire::{Frame, WireFault};
use std::io::Write;

/// Writes the line of an answer: the reply in lower-case hex, or the fault.
///
/// # Errors
///
/// `WriteFault` if the writer fails; part of the line may be written.
pub fn write_answer<W: Write>(answer: &Answer, out: &mut W) -> Result<(), WriteFault>
    ensures { OnOk result (Appends (W.contents out.old) (W.contents out.new)
        (answer_line answer.now)) }
{
    match answer {
        Answer::Reply(frame) => write_hex(frame, out),
        Answer::Dropped(fault) => write_dropped(*fault, out),
        Answer::Faulted(fault) => write_faulted(*fault, out),
    }
}

/// Writes a frame in lower-case hex, and ends the line.
///
/// # Errors
///
/// `WriteFault` if the writer fails; part of the line may be written.
pub fn write_hex<W: Write>(frame: &Frame, out: &mut W) -> Result<(), WriteFault>
    ensures { OnOk result (Appends (W.contents out.old) (W.contents out.new) (encode_lower frame.now
        ++ codes "\n")) }
{
    write_digits(frame, out)?;
    write_text(b"\n", out)
}

/// Writes a frame in lower-case hex.
///
/// # Errors
///
/// `WriteFault` if the writer fails; part of it may be written.
pub fn write_digits<W: Write>(frame: &Frame, out: &mut W) -> Result<(), WriteFault>
    ensures { OnOk result (Appends (W.contents out.old) (W.contents out.new)
        (encode_lower frame.now)) }
{
    // A frame has at most 256 bytes, and a byte two digits.
    let mut room = [0u8; 512];
    let text = &mut room[..2 * frame.bytes().len()];
    match hex::encode_to_slice(frame.bytes(), text) {
        Ok(()) => {}
        Err(_) => unreachable!(),
    }
    write_text(text, out)
}

/// Writes the line of bytes that are not a request: `dropped` and the fault.
///
/// # Errors
///
/// `WriteFault` if the writer fails; part of the line may be written.
pub fn write_dropped<W: Write>(fault: WireFault, out: &mut W) -> Result<(), WriteFault>
    ensures { OnOk result (Appends (W.contents out.old) (W.contents out.new)
        (line_of (codes "dropped") (wire_fault_words fault))) }
{
    write_text(b"dropped", out)?;
    write_wire_fault(fault, out)?;
    write_text(b"\n", out)
}

/// Writes the line of a request that has no answer: `faulted` and the fault of the book.
///
/// # Errors
///
/// `WriteFault` if the writer fails; part of the line may be written.
pub fn write_faulted<W: Write>(fault: BookFault, out: &mut W) -> Result<(), WriteFault>
    ensures { OnOk result (Appends (W.contents out.old) (W.contents out.new)
        (line_of (codes "faulted") (book_fault_words fault))) }
{
    write_text(b"faulted", out)?;
    write_book_fault(fault, out)?;
    write_text(b"\n", out)
}
