//! Calls a server, and writes the line of the result.

ghost use Rattle.std.specs.Prelude.{◌≡◌, ◌≤◌, Result, IfOk};
ghost use Rattle.std.specs.Io.KnownBytes.{Appends};
ghost use Rattle.s10_wire.specs.declared.reply.Reply.{Reply};
ghost use Rattle.s10_link.specs.Link.{LeadsTo};
ghost use Rattle.s10_ends.specs.declared.calls.CallFault.{CallFault};
ghost use Rattle.s10_ends.specs.Calls.{Calls};
ghost use Rattle.s10_jobs.specs.Asked.{outcome_status, asked_status, asked_line};

use crate::job_status::JobStatus;
use crate::link_fault::write_link_fault;
use s10_ends::{CallFault, Client, call};
use s10_lines::{WriteFault, write_reply_line, write_text};
use s10_link::{Link, Peer};
use s10_wire::{Body, Outcome, Reply};
use std::io::Write;

/// Calls the server at `to` in up to `tries` tries, and writes the line of the result.
///
/// The line is that of the reply, `gave-up`, or `link` and the fault. If the client has a pending
/// request or no number left, nothing is sent or written, and the status is `CommandLine`. `tries`
/// must be 1 to 100.
///
/// # Errors
///
/// `WriteFault` if the writer fails. The call was made, and part of the line may be written.
pub fn ask<L: Link, W: Write>(
    client: &mut Client,
    link: &mut L,
    to: Peer,
    body: Body,
    tries: u32,
    out: &mut W,
) -> Result<JobStatus, WriteFault>
    requires { (1 ≤ tries) × (tries ≤ 100) }
    ensures asked { (called : Result Reply CallFault)
        × Calls client.old client.new (L.trace_of link.old) (L.trace_of link.new) to body tries
        called
        × IfOk result (λ status. (status ≡ asked_status called)
        × Appends (W.contents out.old) (W.contents out.new) (asked_line called)) }
    ensures led { LeadsTo L.step link.old link.new }
{
    let called = call(client, link, to, body, tries);
    write_call_result(&called, out)
}

pub(crate) fn write_call_result<W: Write>(
    called: &Result<Reply, CallFault>,
    out: &mut W,
) -> Result<JobStatus, WriteFault>
    ensures { IfOk result (λ status. (status ≡ asked_status called.now)
        × Appends (W.contents out.old) (W.contents out.new) (asked_line called.now)) }
{
    match called {
        Ok(reply) => {
            write_reply_line(reply, out)?;
            Ok(status_of(&reply.outcome()))
        }
        Err(CallFault::Submit(_)) => Ok(JobStatus::CommandLine),
        Err(CallFault::GaveUp(_)) => {
            write_text(b"gave-up\n", out)?;
            Ok(JobStatus::Failed)
        }
        Err(CallFault::Link(_, fault)) => {
            write_link_fault(*fault, out)?;
            Ok(JobStatus::Failed)
        }
    }
}

// Returns `Done` if the outcome says that the request was done, and `Refused` otherwise.
fn status_of(outcome: &Outcome) -> JobStatus
    ensures { result ≡ outcome_status outcome.now }
{
    match outcome {
        Outcome::Granted { .. }
        | Outcome::Drawn { .. }
        | Outcome::DrawnMany { .. }
        | Outcome::Voided
        | Outcome::Told(_)
        | Outcome::Withdrawn => JobStatus::Done,
        _ => JobStatus::Refused,
    }
}
