//! Asks a request that has its number over a link.

ghost use Rattle.std.specs.Prelude.{◌≡◌, Result, IfOk};
ghost use Rattle.std.specs.Io.KnownBytes.{Appends};
ghost use Rattle.s10_wire.specs.declared.reply.Reply.{Reply};
ghost use Rattle.s10_ends.specs.declared.calls.CallFault.{CallFault};
ghost use Rattle.s10_ends.specs.Calls.{Calls};
ghost use Rattle.s10_ends.specs.Client.{ClientState, new_client};
ghost use Rattle.s10_link.specs.Link.{LeadsTo};
ghost use Rattle.s10_jobs.specs.Asked.{asked_status, asked_line};

use crate::asking::write_call_result;
use crate::job_status::JobStatus;
use crate::tries::Tries;
use s10_ends::{CallFault, Client, call};
use s10_lines::WriteFault;
use s10_link::{Link, Peer};
use s10_wire::{Reply, Request};
use std::io::Write;

/// Calls the server at `to` over a link, as a client that has only the number of the request, and
/// writes the line of the reply, or of the failure.
///
/// # Errors
///
/// `WriteFault` if the writer fails; part of the line may be written.
pub fn ask_by_number<L: Link, W: Write>(
    request: &Request,
    link: &mut L,
    to: Peer,
    tries: Tries,
    out: &mut W,
) -> Result<JobStatus, WriteFault>
    ensures asked { (client : ClientState) × (called : Result Reply CallFault)
        × Calls (new_client request.now.customer request.now.number request.now.number) client
        (L.trace_of link.old) (L.trace_of link.new) to request.now.body tries called
        × IfOk result (λ status. (status ≡ asked_status called)
        × Appends (W.contents out.old) (W.contents out.new) (asked_line called)) }
    ensures led { LeadsTo L.step link.old link.new }
{
    let called = call_request(request, link, to, tries);
    write_call_result(&called, out)
}

// Calls the server as a client that has only the number of the request.
pub(crate) fn call_request<L: Link>(
    request: &Request,
    link: &mut L,
    to: Peer,
    tries: Tries,
) -> Result<Reply, CallFault>
    ensures calls { (client : ClientState)
        × Calls (new_client request.now.customer request.now.number request.now.number) client
        (L.trace_of link.old) (L.trace_of link.new) to request.now.body tries result }
    ensures led { LeadsTo L.step link.old link.new }
{
    let Ok(mut client) = Client::new(request.customer, request.number, request.number) else {
        unreachable!()
    };
    call(&mut client, link, to, request.body, tries.count())
}
