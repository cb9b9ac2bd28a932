//! Reads the lines of an input, a byte at a time, into a fixed buffer.
ghost use Rattle.std.specs.Prelude.{ℕ, List, IfOk, OnErr};
ghost use Rattle.std.specs.Io.KnownBytes.{Keeps, Consumes};
ghost use Rattle.s10_jobs.specs.LineReader.{ReadsByte, ReadsLine, FitsIn, ReadsNoFurther, BeginsLine};

use std::io;
use std::io::{ErrorKind, Read};

/// The maximum length of a line in bytes, without its line feed.
pub const MAX_LINE: usize = 1036;

/// The maximum number of lines of an input, empty ones included.
pub const MAX_LINES: u32 = 1_000_000;

/// The next line of an input.
#[derive(Clone, Copy)]
pub enum NextLine {
    /// No line: the input is at its end.
    End,
    /// A line of this length in bytes.
    Whole(usize),
    /// A line that is longer than the buffer.
    Long,
}

// Reads the next byte in one read. `None` is the end of the input.
fn try_byte<R: Read>(input: &mut R) -> io::Result<Option<u8>>
    ensures read { IfOk result (ReadsByte (R.remaining input.old) (R.remaining input.new)) }
    ensures kept { OnErr result (Keeps (R.remaining input.old) (R.remaining input.new)) }
{
    let mut one = [0u8];
    let count = input.read(&mut one)?;
    if count == 0 {
        Ok(None)
    } else {
        Ok(Some(one[0]))
    }
}

/// Reads the next byte, or `None` at the end of the input. An interrupted read is tried again, as
/// in std.
///
/// # Errors
///
/// The error of the reader if a read fails. Its remaining bytes are unchanged.
pub fn next_byte<R: Read>(input: &mut R) -> io::Result<Option<u8>>
    ensures read { IfOk result (ReadsByte (R.remaining input.old) (R.remaining input.new)) }
    ensures kept { OnErr result (Keeps (R.remaining input.old) (R.remaining input.new)) }
{
    'tries: for _ in 0..u64::MAX {
        match try_byte(input) {
            Ok(byte) => return Ok(byte),
            Err(error) => {
                if error.kind() != ErrorKind::Interrupted {
                    return Err(error);
                }
            }
        }
    }
    Err(io::Error::from(ErrorKind::Interrupted))
}

/// Reads the next line into the buffer, and no byte after its line feed.
///
/// If the line is too long, one byte more than the buffer holds is read.
///
/// # Errors
///
/// The error of the reader if a read fails. No more of the line was read than the buffer holds.
pub fn read_line<R: Read>(input: &mut R, buffer: &mut [u8; MAX_LINE]) -> io::Result<NextLine>
    ensures fits { IfOk result FitsIn }
    ensures line { IfOk result (ReadsLine (R.remaining input.old) (R.remaining input.new)
        buffer.new) }
    ensures left { IfOk result (λ _. ReadsNoFurther (R.remaining input.old)
        (R.remaining input.new)) }
    ensures taken { (bytes : List ℕ) × Consumes (R.remaining input.old) (R.remaining input.new)
        bytes }
    ensures stopped { OnErr result (BeginsLine (R.remaining input.old) (R.remaining input.new)) }
{
    for at in 0..MAX_LINE {
        match next_byte(input)? {
            None => {
                return Ok(if at == 0 {
                    NextLine::End
                } else {
                    NextLine::Whole(at)
                });
            }
            Some(b'\n') => return Ok(NextLine::Whole(at)),
            Some(byte) => buffer[at] = byte,
        }
    }
    match next_byte(input)? {
        None => Ok(NextLine::Whole(MAX_LINE)),
        Some(b'\n') => Ok(NextLine::Whole(MAX_LINE)),
        Some(_byte) => Ok(NextLine::Long),
    }
}
