//! The jobs that are done for each line of an input.
ghost use Rattle.std.specs.Prelude.{◌≡◌};
ghost use Rattle.s10_jobs.specs.InputLines.{first_word, after_word};

use crate::checking::check;
use crate::delivery_line::first_space;
use crate::job_status::JobStatus;
use crate::making::make;
use crate::showing::show;
use s10_lines::WriteFault;
use std::io::Write;

/// A job that is done for one text, or for each line of an input.
#[derive(Clone, Copy, Debug, PartialEq, Eq)]
pub enum LineJob {
    /// Checks an identifier. If `is_label` is true, spaces are ignored and letters may have either
    /// case.
    Check { is_label: bool },
    /// Makes an identifier from its three parts, with one space between two of them.
    Make,
    /// Shows a datagram, two hexadecimal digits for each byte.
    Show,
}

impl LineJob {
    ghost use Rattle.std.specs.Prelude.{IfOk};
    ghost use Rattle.s10_jobs.specs.EachLine.{IsPrinted};
    ghost use Rattle.s10_jobs.specs.Shown.{Prints};

    /// Writes the line that the job prints for a text. The status is `Done` or `Refused`.
    ///
    /// # Errors
    ///
    /// `WriteFault` if the writer fails; part of the line may be written.
    pub fn print<W: Write>(self, text: &[u8], out: &mut W) -> Result<JobStatus, WriteFault>
        ensures { IfOk result (λ status. Prints (W.contents out.old) (W.contents out.new)
            (IsPrinted self text.now status)) }
    {
        match self {
            LineJob::Check { is_label } => check(text, is_label, out),
            LineJob::Make => {
                let service = part(text);
                let serial = part(service.rest);
                make(service.word, serial.word, serial.rest, out)
            }
            LineJob::Show => show(text, out),
        }
    }
}

// A text before and after its first space.
#[derive(Clone, Copy)]
struct Parted<'a> {
    word: &'a [u8],
    rest: &'a [u8],
}

// Splits a text at its first space. Without a space, nothing is after the word.
fn part(text: &[u8]) -> Parted<'_>
    ensures word { result.word.now ≡ first_word text.now }
    ensures rest { result.rest.now ≡ after_word text.now }
{
    match first_space(text) {
        Some(at) => Parted {
            word: &text[..at],
            rest: &text[at + 1..],
        },
        None => Parted {
            word: text,
            rest: &[],
        },
    }
}
