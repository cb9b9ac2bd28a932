ghost use Rattle.std.specs.Prelude.{◌≡◌, IfOk};
ghost use Rattle.std.specs.Io.KnownBytes.{Appends};
ghost use Rattle.s10_jobs.specs.Words.{input_fault_line, input_fault_status};

use crate::job_status::JobStatus;
use s10_lines::{WriteFault, write_decimal, write_text, write_word};
use std::io::Write;
use thiserror::Error;

/// The reason why the reading of an input's lines ended early. The answers to the lines before were
/// written.
#[derive(Clone, Copy, Debug, PartialEq, Eq, Error)]
pub enum InputFault {
    /// The number, from 1, of the line that is refused.
    #[error("line {0} is refused")]
    Line(u32),
    /// The input cannot be read further.
    #[error("the input cannot be read")]
    Read,
    /// The output cannot be written. Part of a line may be written.
    #[error("the output cannot be written")]
    Write,
}

/// Writes the line of a reading that ended early, and returns its status: `Refused` for a refused
/// line, and `Failed` otherwise.
///
/// # Errors
///
/// `WriteFault` if the writer fails; part of the line may be written.
pub fn write_input_fault<W: Write>(fault: InputFault, out: &mut W) -> Result<JobStatus, WriteFault>
    ensures { IfOk result (λ status. (status ≡ input_fault_status fault)
        × Appends (W.contents out.old) (W.contents out.new) (input_fault_line fault)) }
{
    match fault {
        InputFault::Line(number) => {
            write_text(b"refused", out)?;
            write_word(b"line", out)?;
            write_decimal(number, out)?;
            write_text(b"\n", out)?;
            return Ok(JobStatus::Refused);
        }
        InputFault::Read => write_text(b"input\n", out)?,
        InputFault::Write => write_text(b"output\n", out)?,
    }
    Ok(JobStatus::Failed)
}
