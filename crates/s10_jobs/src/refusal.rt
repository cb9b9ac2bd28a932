//! Writes why the texts of a request are refused.

ghost use Rattle.std.specs.Prelude.{◌≡◌, IfOk};
ghost use Rattle.std.specs.Io.KnownBytes.{Appends};
ghost use Rattle.s10_jobs.specs.Lines.{refused_line};
ghost use Rattle.s10_jobs.specs.Questions.{refusal_words};

use crate::job_status::JobStatus;
use crate::refusals::{refuse, refuse_text};
use s10_core::TextFault;
use s10_lines::WriteFault;
use std::io::Write;

/// The first text of a request that cannot be read.
#[derive(Clone, Copy, Debug, PartialEq, Eq)]
pub enum Refusal {
    /// The address of the server.
    Peer,
    /// The service indicator.
    Service,
    /// The country code.
    Country,
    /// The identifier, with its first fault.
    Text(TextFault),
}

/// Writes the line of a refusal: `refused` and its word. The status is `Refused`.
///
/// # Errors
///
/// `WriteFault` if the writer fails; part of the line may be written.
pub fn write_refusal<W: Write>(refusal: Refusal, out: &mut W) -> Result<JobStatus, WriteFault>
    ensures { IfOk result (λ status. (status ≡ JobStatus.Refused)
        × Appends (W.contents out.old) (W.contents out.new)
        (refused_line (refusal_words refusal))) }
{
    match refusal {
        Refusal::Peer => refuse(b"peer", out),
        Refusal::Service => refuse(b"service", out),
        Refusal::Country => refuse(b"country", out),
        Refusal::Text(fault) => refuse_text(fault, out),
    }
}
