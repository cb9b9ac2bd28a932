//! The program `s10`: its words, its standard input and output, and its exit status.
#![tactic(auto)]

ghost use Rattle.std.specs.Prelude.{◌≡◌, ◌≢◌, ℕ, List, Option, Some, None, map, IfSome};
ghost use Rattle.std.specs.Prelude.{MatchOption};
ghost use Rattle.std.specs.IoError.{error_kind};
ghost use Rattle.std.specs.declared.io.ErrorKind.TheVariants.{InvalidData};
ghost use Rattle.s10_jobs.specs.declared.job_status.JobStatus.TheVariants.{CommandLine, Failed};
ghost use Rattle.s10.specs.Ends.{RunsWords, RunsJob};

use s10_cli::{LineEnd, flush_buffer, run_buffered};
use s10_host::{ClosedFiles, HashSeed, JobEnd, JobResources, run_job};
use s10_jobs::{ClockDays, Days, JobStatus};
use s10_lines::WriteFault;
use sqlite::{Start, Unknown};
use std::convert::AsStr;
use std::fs::File;
use std::hash::RandomState;
use std::io;
use std::io::{BufWriter, ErrorKind, Read, Write};
use std::os::fd::AsRawFd;
use std::process::ExitCode;

fn main(rt: HostRuntime) -> ExitCode {
    let _held = hold_closed_streams(&rt);
    let words = match words_of(&rt) {
        Ok(words) => words,
        Err(error) => return ExitCode::from(print_word_error(&rt, &error) as u8),
    };
    let seed = RandomState::new(&rt).map(HashSeed::drawn);
    let mut days = ClockDays { clock: &rt };
    let output = io::writer(&rt);
    let (status, _ended) = run(
        &rt,
        words.as_slice(),
        rt.reader(),
        output,
        seed,
        Unknown,
        &mut days,
    );
    ExitCode::from(status)
}

// Takes the numbers of the standard streams that are closed. Otherwise the next file or socket would get
// one of them, and then what is printed. A folder can be neither read nor written, as a closed stream.
fn hold_closed_streams(rt: &HostRuntime) -> [Option<File>; 3] {
    [hold_one(rt), hold_one(rt), hold_one(rt)]
}

fn hold_one(rt: &HostRuntime) -> Option<File> {
    let folder = File::open(rt, "/").ok()?;
    if folder.as_raw_fd() > 2 {
        return None;
    }
    Some(folder)
}

fn words_of(rt: &HostRuntime) -> io::Result<Vec<String>> {
    Ok(std::env::args(rt)?.collect(rt.alloc())?)
}

// How a command line ended.
#[derive(Drop)]
struct Ended<'a, S: Start, O> {
    // The exit status.
    status: u8,
    // The output, flushed.
    output: O,
    // The resources of the job, if the words ask for one.
    resources: Option<JobResources<'a, ClosedFiles<S>>>,
}

// Runs a command line over two streams. Returns the exit status, and how it ended unless the output
// failed or memory is lacking.
fn run<'a, S: Start, D: Days, W: AsStr, I: Read + Drop, O: Write + Drop>(
    rt: &'a HostRuntime,
    words: &'a [W],
    input: I,
    output: O,
    seed: io::Result<HashSeed>,
    start: S,
    days: &mut D,
) -> (u8, Option<Ended<'a, S, O>>)
    ensures status { IfSome result.1 (λ ended. result.0 ≡ ended.status) }
    ensures ended { IfSome result.1 (λ ended. MatchOption ended.resources
        (RunsWords (map W.text words.now) (I.remaining input) (O.contents output)
        (O.contents ended.output) (Some ended.status))
        (λ used. (between : Option (List ℕ)) × RunsWords (map W.text words.now) (I.remaining input)
        (O.contents output) between None
        × RunsJob S.row S.Start D.gives (map W.text words.now) days.old days.new between
        (O.contents ended.output) ended.status used)) }
    ensures failed { result.1 ≡ None → result.0 ≡ 3 }
{
    let (line, output) = match run_buffered(rt, words, input, output) {
        Ok(ran) => ran,
        Err(error) => return (failed(rt, &error), None),
    };
    let job = match line {
        LineEnd::Ended(status) => {
            let ended = Ended {
                status,
                output,
                resources: None,
            };
            return (status, Some(ended));
        }
        LineEnd::Asks(job) => job,
    };
    let mut output = match BufWriter::new(rt.alloc(), output) {
        Ok(output) => output,
        Err(error) => return (failed(rt, &error), None),
    };
    let JobEnd { done, resources } = run_job(rt, &job, seed, start, days, &mut output);
    match (flush_buffer(output), done) {
        (Ok(output), Ok(status)) => {
            let ended = Ended {
                status: status as u8,
                output,
                resources: Some(resources),
            };
            (ended.status, Some(ended))
        }
        (Ok(_), Err(WriteFault)) => (failed(rt, &io::Error::from(ErrorKind::WriteZero)), None),
        (Err(error), _) => (failed(rt, &error), None),
    }
}

// Prints why a command line has no end. Returns the status.
fn failed(rt: &HostRuntime, error: &io::Error) -> u8
    ensures { result ≡ 3 }
{
    print_failure(rt, error) as u8
}

// Prints why the words of the command line cannot be read, and returns the status.
fn print_word_error<R: Print + Eprint>(rt: &R, error: &io::Error) -> JobStatus
    ensures words { error_kind error.now ≡ InvalidData → result ≡ CommandLine }
    ensures other { error_kind error.now ≢ InvalidData → result ≡ Failed }
{
    match error.kind() {
        ErrorKind::InvalidData => {
            let _ = rt.eprintln("error: the command line is not UTF-8");
            JobStatus::CommandLine
        }
        _ => print_failure(rt, error),
    }
}

// Prints that the output failed or that memory is lacking, and returns the status.
fn print_failure<R: Print + Eprint>(rt: &R, error: &io::Error) -> JobStatus
    ensures { result ≡ Failed }
{
    match error.kind() {
        ErrorKind::OutOfMemory => {
            let _ = rt.println("memory");
        }
        _ => {
            let _ = eprintln!(rt; "error: the output cannot be written: {error}");
        }
    }
    JobStatus::Failed
}
