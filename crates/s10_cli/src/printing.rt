//! Runs the jobs that print a line for words, or one for each line of the input.
ghost use Rattle.std.specs.Prelude.{option_map};
ghost use Rattle.s10_cli.specs.Printing.{PrintsFor, MakesFor};

use crate::parts::Parts;
use s10_jobs::{JobStatus, LineJob, make, run_each};
use s10_lines::WriteFault;
use std::io::{Read, Write};

/// Does a job for a text. Without a text, does it for each line of the input.
///
/// # Errors
///
/// `WriteFault` if the writer fails; part of a line may be written.
pub fn print_for<I: Read, O: Write>(
    job: LineJob,
    text: Option<&str>,
    input: &mut I,
    output: &mut O,
) -> Result<JobStatus, WriteFault>
    ensures { PrintsFor (O.contents output.old) (O.contents output.new) result
        (I.remaining input.old) (I.remaining input.new) job (option_map (λ s. s.now) text.entry) }
{
    match text {
        Some(text) => job.print(text.as_bytes(), output),
        None => run_each(job, input, output),
    }
}

/// Makes the identifier of the parts. Without parts, makes that of each line of the input.
///
/// # Errors
///
/// `WriteFault` if the writer fails; part of a line may be written.
pub fn make_for<I: Read, O: Write>(
    parts: Option<Parts<'_>>,
    input: &mut I,
    output: &mut O,
) -> Result<JobStatus, WriteFault>
    ensures { MakesFor (O.contents output.old) (O.contents output.new) result
        (I.remaining input.old) (I.remaining input.new) parts.entry }
{
    match parts {
        Some(parts) => make(
            parts.service.as_bytes(),
            parts.serial.as_bytes(),
            parts.country.as_bytes(),
            output,
        ),
        None => run_each(LineJob::Make, input, output),
    }
}
