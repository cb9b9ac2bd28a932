//! Calls a server over a link.

ghost use Rattle.std.specs.Prelude.{◌≡◌, ◌≤◌, IsSome, Some};
ghost use Rattle.s10_link.specs.Link.{LeadsTo};
ghost use Rattle.s10_ends.specs.Calls.{Calls, Tries, Hears, AcceptsOwn};
ghost use Rattle.s10_ends.specs.Client.{ClientReceives};

use crate::client::{Client, SubmitFault};
use crate::received::Received;
use s10_link::{Link, LinkFault, Packet, Peer};
use s10_wire::{Body, Frame, Reply, Request, encode_request};
use thiserror::Error;

/// The reason why a call has no reply.
///
/// After `GaveUp` and `Link` the request was executed once or not at all, and its number is never
/// used again.
#[derive(Clone, Copy, Debug, PartialEq, Eq, Error)]
pub enum CallFault {
    /// The client did not accept the request, and nothing was sent.
    #[error("{0}")]
    Submit(SubmitFault),
    /// No try received the reply to this request.
    #[error("no reply came")]
    GaveUp(Request),
    /// A send or a receive failed during this request.
    #[error("{1}")]
    Link(Request, LinkFault),
}

/// Calls the server at `to` in up to `tries` tries, and returns its reply.
///
/// Each try sends the request once. It then receives until the reply is accepted, eight datagrams
/// were received, or a receive got nothing. A datagram is accepted by its bytes alone, regardless
/// of its sender. `tries` must be 1 to 100. Source: at-most-once calls, Birrell and Nelson 1984.
///
/// # Errors
///
/// - `Submit` if a request is pending or no number is left. Nothing is sent, and the client is
///   unchanged.
/// - `GaveUp` if no try received the reply.
/// - `Link` if a send or a receive failed. No further try is made.
pub fn call<L: Link>(
    client: &mut Client,
    link: &mut L,
    to: Peer,
    body: Body,
    tries: u32,
) -> Result<Reply, CallFault>
    requires { (1 ≤ tries) × (tries ≤ 100) }
    ensures calls { Calls client.old client.new (L.trace_of link.old) (L.trace_of link.new) to body
        tries result }
    ensures led { LeadsTo L.step link.old link.new }
{
    let request = match client.submit(body) {
        Ok(request) => request,
        Err(fault) => return Err(CallFault::Submit(fault)),
    };
    let frame = encode_request(&request);
    for _done in 0..tries {
        match attempt(client, link, to, &frame) {
            Ok(Some(reply)) => return Ok(reply),
            Ok(None) => {}
            Err(fault) => {
                let _ = client.give_up();
                return Err(CallFault::Link(request, fault));
            }
        }
    }
    let _ = client.give_up();
    Err(CallFault::GaveUp(request))
}

// Makes one try: sends the frame, then returns the reply if one is accepted.
fn attempt<L: Link>(
    client: &mut Client,
    link: &mut L,
    to: Peer,
    frame: &Frame,
) -> Result<Option<Reply>, LinkFault>
    requires { IsSome client.old.pending }
    ensures tries { (q : Request) → client.old.pending ≡ Some q
        → Tries (to, frame.now) q (L.trace_of link.old) (L.trace_of link.new) result }
    ensures client { AcceptsOwn client.old client.new result }
    ensures led { LeadsTo L.step link.old link.new }
{
    link.send(to, frame)?;
    first_accepted(client, link)
}

// Returns the first reply that is accepted, out of at most eight datagrams.
fn first_accepted<L: Link>(client: &mut Client, link: &mut L) -> Result<Option<Reply>, LinkFault>
    requires { IsSome client.old.pending }
    ensures hears { (q : Request) → client.old.pending ≡ Some q
        → Hears q (L.trace_of link.old) (L.trace_of link.new) result }
    ensures client { AcceptsOwn client.old client.new result }
    ensures led { LeadsTo L.step link.old link.new }
{
    for _read in 0..8u32 {
        let Some((_, packet)) = link.receive()? else {
            return Ok(None);
        };
        if let Received::Accepted(reply) = take(client, packet) {
            return Ok(Some(reply));
        }
    }
    Ok(None)
}

fn take(client: &mut Client, packet: Packet) -> Received
    ensures { ClientReceives client.old packet result client.new }
{
    client.receive(packet.bytes())
}
