//! A client that numbers its requests in turn and waits for one reply at a time (at-most-once
//! calls: Birrell and Nelson 1984).
ghost use Rattle.std.specs.Prelude.{◌≡◌, ◌<◌, ◌^◌, IfOk, IfErr};
ghost use Rattle.s10_wire.specs.Datagrams.{IsRequest};
ghost use Rattle.s10_plain.specs.Client.{IsNextRequest, IsFirstSubmitFault, code_of_submit};
ghost use Rattle.s10_plain.specs.Client.{client_after_submit, SubmitsRequest};
ghost use Rattle.s10_plain.specs.Client.{pending_datagram_of, client_after_receive, ClientReceives};
ghost use Rattle.s10_plain.specs.Client.{code_of_give_up, client_after_give_up};

use crate::plain_client::PlainClient;
use crate::plain_frame::frame;
use crate::plain_outcome::PlainOutcome;
use crate::plain_request::PlainRequest;
use crate::received::Received;
use crate::replies::{match_reply, write_outcome};
use crate::requests::{body_of, request_frame};
use crate::result_code::{ResultCode, busy, field_fault_code, idle, numbers_spent, success};
use crate::submit_fault::SubmitFault;
use s10_wire::Request;

fn next_request(client: &PlainClient, fields: &PlainRequest) -> Result<Request, SubmitFault>
    ensures next { IfOk result (IsNextRequest client.now fields.now) }
    ensures few { IfOk result (λ q. client.now.taken < 2 ^ 32) }
    ensures fault { IfErr result (IsFirstSubmitFault client.now fields.now) }
{
    if client.pending.len != 0 {
        return Err(SubmitFault::Busy);
    }
    if client.first > client.last || client.taken > (client.last - client.first) as u64 {
        return Err(SubmitFault::NumbersSpent);
    }
    let number = client.first + client.taken as u32;
    match body_of(fields) {
        Ok(body) => Ok(Request {
            customer: client.customer,
            number,
            body,
        }),
        Err(fault) => Err(SubmitFault::Field(fault)),
    }
}

fn set_pending(asked: Result<Request, SubmitFault>, client: &mut PlainClient) -> ResultCode
    requires { IfOk asked (λ q. client.old.taken < 2 ^ 32) }
    ensures code { result ≡ code_of_submit asked }
    ensures client { client.new ≡ client_after_submit asked client.old }
    ensures in_range { IfOk asked IsRequest }
{
    match asked {
        Ok(request) => {
            client.taken += 1;
            client.pending = request_frame(&request);
            success()
        }
        Err(SubmitFault::Busy) => busy(),
        Err(SubmitFault::NumbersSpent) => numbers_spent(),
        Err(SubmitFault::Field(fault)) => field_fault_code(fault),
    }
}

/// Makes a request pending, with the customer and the next number of the client in place of those
/// in `fields`. If refused, the client is unchanged.
///
/// # Errors
/// 23: a request is pending.
/// 24: the last number is taken.
/// 31 to 36, 1 to 4: a field is wrong, as for `encode`.
pub fn submit(client: &mut PlainClient, fields: &PlainRequest) -> ResultCode
    ensures { SubmitsRequest client.old fields.now result client.new }
{
    let asked = next_request(client, fields);
    set_pending(asked, client)
}

fn pending_datagram(client: &PlainClient) -> &[u8]
    ensures { result.now ≡ pending_datagram_of client.now }
{
    let len = client.pending.len;
    if len > 28 {
        return &client.pending.bytes[..0];
    }
    &client.pending.bytes[..len]
}

fn end_wait(received: &Received, client: &mut PlainClient)
    ensures { client.new ≡ client_after_receive received.now client.old }
{
    if matches!(received, Received::Accepted(_)) {
        client.pending = frame(&[]);
    }
}

/// Accepts a received datagram only as the reply to the pending request, compared in every field,
/// and writes its outcome; then no request is pending. If refused, the client and `out` are
/// unchanged.
///
/// # Errors
/// As `accept`; 21: no request is pending.
pub fn receive(client: &mut PlainClient, datagram: &[u8], out: &mut PlainOutcome) -> ResultCode
    ensures { ClientReceives client.old datagram.now result out.old out.new client.new }
{
    let received = match_reply(pending_datagram(client), datagram);
    end_wait(&received, client);
    write_outcome(received, out)
}

/// Stops waiting for the pending request, which may have been executed or not. Its number stays
/// taken. If refused, the client is unchanged.
///
/// # Errors
/// 21: no request is pending.
pub fn give_up(client: &mut PlainClient) -> ResultCode
    ensures code { result ≡ code_of_give_up client.old }
    ensures client { client.new ≡ client_after_give_up client.old }
{
    if client.pending.len == 0 {
        return idle();
    }
    client.pending = frame(&[]);
    success()
}
