//! Runs a command line, from its words to its exit status.
ghost use Rattle.std.specs.Prelude.{◌≡◌, ℕ, List, Option, map, IfOk};
ghost use Rattle.std.specs.Io.KnownBytes.{Keeps};
ghost use Rattle.clap.specs.Words.{kind_of, subcommand_rows_of};
ghost use Rattle.s10_cli.specs.Options.{rows_in};
ghost use Rattle.s10_cli.specs.CommandLine.{IsDone, IsSubcommandDone, IsFaultPrinted, RunsLine};
ghost use Rattle.s10_cli.specs.CommandLine.{exit_status};
ghost use Rattle.s10_cli.specs.Jobs.{AsksByWords, AsksOrFails, status_in};

use crate::buffered::flush_buffer;
use crate::input::Input;
use crate::job_words::job_in;
use crate::line_end::LineEnd;
use crate::option_values::{flag_of, settings_of, text_of};
use crate::parts::parts_of;
use crate::printing::{make_for, print_for};
use clap::error::ErrorKind;
use clap::{ArgMatches, Error};
use s10_grammar::parse;
use s10_jobs::{JobStatus, LineJob, run_replay};
use s10_lines::{WriteFault, write_text};
use std::alloc::Global;
use std::convert::AsStr;
use std::io;
use std::io::{BufReader, BufWriter, Read, Write};

/// Runs the subcommands `check`, `make`, `show` and `replay`. Returns the job that any other asks the
/// program for.
///
/// `words` begins with the program's name. If they ask for a job, nothing is written. For each
/// subcommand, help, the version and faults of the command line end here, with their status. A fault
/// of the command line, such as a request without a number, goes to standard error, everything else to `output`, which the caller
/// flushes. If memory is lacking, the line is `memory`.
pub fn run_line<'a, R: Eprint + AllocGlobal, S: AsStr, I: Read, O: Write>(
    rt: &R,
    words: &'a [S],
    input: &mut I,
    output: &mut O,
) -> LineEnd<'a>
    ensures line { RunsLine (map S.text words.entry.now) (I.remaining input.old)
        (I.remaining input.new) (O.contents output.old) (O.contents output.new) (status_in result) }
    ensures asks { AsksByWords (map S.text words.entry.now) result }
{
    match parse(rt.alloc(), words) {
        Ok(matches) => match run_subcommand(rt.alloc(), &matches, input, output) {
            Some(done) => LineEnd::Ended(status_of(done)),
            None => job_or_fault(rt, &matches),
        },
        Err(error) => LineEnd::Ended(status_of(report_fault(rt, &error, output))),
    }
}

// Returns the job that the subcommand asks for. If it asks for none, prints a fault of the command
// line: a call of a server may lack its number, which the grammar lets be left out, and a report may
// have an `--id` that is no identifier.
fn job_or_fault<'a, R: Eprint>(rt: &R, matches: &ArgMatches<'a>) -> LineEnd<'a>
    ensures { AsksOrFails (subcommand_rows_of matches.now) result }
{
    match job_in(matches) {
        Some(job) => LineEnd::Asks(job),
        None => {
            let _ = rt.eprintln(fault_of(matches));
            LineEnd::Ended(JobStatus::CommandLine as u8)
        }
    }
}

fn fault_of(matches: &ArgMatches<'_>) -> &'static str {
    match matches.subcommand() {
        Some(("report", _)) => NO_IDENTIFIER,
        _ => NO_NUMBER,
    }
}

const NO_IDENTIFIER: &str = "\
error: the text of --id is no identifier, such as RA473124829US

For more information, try '--help'.";

const NO_NUMBER: &str = "\
error: give --notes, or --number (and --customer, except for grant and withdraw)

For more information, try '--help'.";

fn status_of(done: Result<JobStatus, WriteFault>) -> u8
    ensures { result ≡ exit_status done }
{
    match done {
        Ok(status) => status as u8,
        Err(WriteFault) => JobStatus::Failed as u8,
    }
}

/// Runs a command line over buffers, flushes them, and returns how it ended with the output.
/// Standard error has the reason of each read of `input` that fails.
///
/// # Errors
///
/// - An error of kind `OutOfMemory` if a buffer cannot be allocated.
/// - The error of the writer if a write or the flush fails.
pub fn run_buffered<'a, R, S, I, O>(
    rt: &R,
    words: &'a [S],
    input: I,
    output: O,
) -> io::Result<(LineEnd<'a>, O)>
where
    R: Eprint + AllocGlobal,
    S: AsStr,
    I: Read + Drop,
    O: Write + Drop,
    ensures line { IfOk result (λ ended. (rest : Option (List ℕ)) × (printed : Option (List ℕ))
        × RunsLine (map S.text words.entry.now) (I.remaining input) rest (O.contents output) printed
        (status_in ended.0) × Keeps printed (O.contents ended.1)) }
    ensures asks { IfOk result (λ ended. AsksByWords (map S.text words.entry.now) ended.0) }
{
    let explained = Input::new(rt, input);
    let mut input = BufReader::new(rt.alloc(), explained)?;
    let mut output = BufWriter::new(rt.alloc(), output)?;
    let ended = run_line(rt, words, &mut input, &mut output);
    Ok((ended, flush_buffer(output)?))
}

fn run_subcommand<I: Read, O: Write>(
    alloc: Global,
    matches: &ArgMatches<'_>,
    input: &mut I,
    output: &mut O,
) -> Option<Result<JobStatus, WriteFault>>
    ensures { IsSubcommandDone (I.remaining input.old) (I.remaining input.new)
        (O.contents output.old) (O.contents output.new) result (subcommand_rows_of matches.now) }
{
    let Some((name, found)) = matches.subcommand() else {
        return None;
    };
    run_named(alloc, name, found, input, output)
}

fn run_named<I: Read, O: Write>(
    alloc: Global,
    name: &str,
    found: &ArgMatches<'_>,
    input: &mut I,
    output: &mut O,
) -> Option<Result<JobStatus, WriteFault>>
    ensures { IsDone (I.remaining input.old) (I.remaining input.new) (O.contents output.old)
        (O.contents output.new) result name.now (rows_in found.now) }
{
    match name {
        "check" => {
            let is_label = flag_of(found, "label");
            let text = text_of(found, "text");
            Some(print_for(LineJob::Check { is_label }, text, input, output))
        }
        "make" => Some(make_for(parts_of(found), input, output)),
        "show" => {
            let text = text_of(found, "hex");
            Some(print_for(LineJob::Show, text, input, output))
        }
        "replay" => {
            // A parsed command line has both settings within their limits.
            let Some(settings) = settings_of(found) else {
                return Some(Ok(JobStatus::CommandLine));
            };
            Some(run_replay(alloc, settings, input, output))
        }
        _ => None,
    }
}

// Prints help, the version or a fault of the command line. The result of a write to standard error is
// ignored, so that the status says what was wrong also if that stream is closed.
fn report_fault<R: Eprint, O: Write>(
    rt: &R,
    error: &Error,
    output: &mut O,
) -> Result<JobStatus, WriteFault>
    ensures { IsFaultPrinted (kind_of error.now) (O.contents output.old) (O.contents output.new)
        result }
{
    if matches!(error.kind(), ErrorKind::OutOfMemory) {
        write_text(b"memory\n", output)?;
        return Ok(JobStatus::Failed);
    }
    if error.use_stderr() {
        let _ = rt.eprint(error);
        return Ok(JobStatus::CommandLine);
    }
    let Ok(()) = write!(output, "{error}") else {
        return Err(WriteFault);
    };
    Ok(JobStatus::Done)
}
