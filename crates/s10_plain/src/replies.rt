//! Accepting replies.
ghost use Rattle.std.specs.Prelude.{◌≡◌};
ghost use Rattle.s10_wire.specs.declared.outcome.Outcome.{Outcome};
ghost use Rattle.s10_plain.specs.Replies.{ReceivesAs, code_of_received, outcome_after};
ghost use Rattle.s10_plain.specs.Replies.{AcceptsReply};

use crate::plain_outcome::{PlainOutcome, plain};
use crate::received::Received;
use crate::result_code::{ResultCode, idle, not_mine, success, wire_fault_code};
use s10_wire::{Outcome, decode_reply, decode_request, same_request};

/// Returns what a received datagram is to the request that was sent.
pub fn match_reply(sent: &[u8], datagram: &[u8]) -> Received
    ensures received { ReceivesAs sent.now datagram.now result }
{
    let reply = match decode_reply(datagram) {
        Ok(reply) => reply,
        Err(fault) => return Received::Malformed(fault),
    };
    let request = match decode_request(sent) {
        Ok(request) => request,
        Err(_) => return Received::Idle,
    };
    if !same_request(&request, &reply.request()) {
        return Received::NotMine;
    }
    Received::Accepted(reply.outcome())
}

/// Writes the outcome of an accepted reply to `out`. Otherwise `out` is unchanged.
pub fn write_outcome(received: Received, out: &mut PlainOutcome) -> ResultCode
    ensures code { result ≡ code_of_received received }
    ensures out { out.new ≡ outcome_after received out.old }
{
    match received {
        Received::Malformed(fault) => wire_fault_code(fault),
        Received::Idle => idle(),
        Received::NotMine => not_mine(),
        Received::Accepted(outcome) => {
            *out = plain(&outcome);
            success()
        }
    }
}

/// Accepts a received datagram only as the reply to the request that was sent, compared in every
/// field, and writes its outcome. If refused, `out` is unchanged.
///
/// # Errors
/// 11 to 15: the datagram is too short, or its magic, version, kind or length is wrong.
/// 16: a field is wrong; `at` is the offset of the first.
/// 17: the outcome does not fit the kind.
/// 21: the bytes that were sent are no request.
/// 22: the datagram is the reply to another request.
pub fn accept(sent: &[u8], datagram: &[u8], out: &mut PlainOutcome) -> ResultCode
    ensures { AcceptsReply sent.now datagram.now result out.old out.new }
{
    write_outcome(match_reply(sent, datagram), out)
}
