//! Does a job for each line of an input.
ghost use Rattle.std.specs.Prelude.{◌≡◌, ℕ, List, Option, Result, IfSome, if◌then◌else◌};
ghost use Rattle.s10_jobs.specs.EachLine.{EachPrinted, ReportsEach, is_refusal};
ghost use Rattle.s10_jobs.specs.declared.job_status.JobStatus.{JobStatus};
ghost use Rattle.s10_jobs.specs.declared.input_fault.InputFault.{InputFault};

use crate::delivery_line::without_return;
use crate::input_fault::{InputFault, write_input_fault};
use crate::job_status::JobStatus;
use crate::line_job::LineJob;
use crate::line_reader::{MAX_LINE, MAX_LINES, NextLine, next_byte, read_line};
use s10_lines::WriteFault;
use std::io::{Read, Write};

/// Does a job for each line of an input, in order: writes the line that the job prints for it.
///
/// Returns `Refused` if a line was refused by the job, else `Done`. A carriage return at the end of
/// a line is ignored. An empty line gets its line like any other. An input has at most
/// [`MAX_LINES`] lines of at most [`MAX_LINE`] bytes. An interrupted read is tried again.
///
/// # Errors
///
/// - `Line` with its number, from 1, if a line is too long or is past the last one allowed. At most
///   one byte past either limit is read. The lines before got theirs.
/// - `Read` if the input cannot be read further.
/// - `Write` if the output cannot be written.
pub fn print_each<R: Read, W: Write>(
    job: LineJob,
    input: &mut R,
    output: &mut W,
) -> Result<JobStatus, InputFault>
    ensures { IfSome (R.remaining input.old) (λ bytes. IfSome (W.contents output.old) (λ held.
        EachPrinted job bytes (R.remaining input.new) held (W.contents output.new) result)) }
{
    let mut buffer = [0u8; MAX_LINE];
    let mut status = JobStatus::Done;
    for done in 0..MAX_LINES {
        let Ok(next) = read_line(input, &mut buffer) else {
            return Err(InputFault::Read);
        };
        let len = match next {
            NextLine::End => return Ok(status),
            NextLine::Long => return Err(InputFault::Line(done + 1)),
            NextLine::Whole(len) => len,
        };
        let Ok(printed) = job.print(without_return(&buffer[..len]), output) else {
            return Err(InputFault::Write);
        };
        status = joined(status, printed);
    }
    match next_byte(input) {
        Ok(None) => Ok(status),
        Ok(Some(_byte)) => Err(InputFault::Line(MAX_LINES + 1)),
        Err(_) => Err(InputFault::Read),
    }
}

// Returns `Refused` if the next line is a refusal, else the status so far.
fn joined(status: JobStatus, next: JobStatus) -> JobStatus
    ensures { result ≡ (if is_refusal next then JobStatus.Refused else status) }
{
    match next {
        JobStatus::Refused => JobStatus::Refused,
        _ => status,
    }
}

/// Does a job for each line of an input, as `print_each` does. If the reading stops early, the
/// last line says why.
///
/// Returns `Done`, `Refused` if a line was refused, or `Failed` if the input or the output failed.
///
/// # Errors
///
/// `WriteFault` if the last line cannot be written.
pub fn run_each<R: Read, W: Write>(
    job: LineJob,
    input: &mut R,
    output: &mut W,
) -> Result<JobStatus, WriteFault>
    ensures { IfSome (R.remaining input.old) (λ bytes. IfSome (W.contents output.old) (λ held.
        (printed : Result JobStatus InputFault) × (between : Option (List ℕ))
        × EachPrinted job bytes (R.remaining input.new) held between printed
        × ReportsEach printed between (W.contents output.new) result)) }
{
    match print_each(job, input, output) {
        Ok(status) => Ok(status),
        Err(fault) => write_input_fault(fault, output),
    }
}
