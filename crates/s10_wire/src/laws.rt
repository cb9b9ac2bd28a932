//! Laws of datagrams.

ghost use Rattle.std.specs.Prelude.{◌≡◌, ◌≤◌, ◌↔◌, ℕ, List, length, IsTrue, IsOk, Ok, IfOk};
ghost use Rattle.std.specs.Prelude.{IsOkAnd};
ghost use Rattle.s10_core.specs.declared.id.Id.{Id};
ghost use Rattle.s10_core.specs.Id.{Spells};
ghost use Rattle.s10_wire.specs.declared.request.Request.{Request};
ghost use Rattle.s10_wire.specs.declared.outcome.Outcome.{Outcome};
ghost use Rattle.s10_wire.specs.Datagrams.{Asks, Replies};
ghost use Rattle.s10_wire.specs.Reply.{request_of, outcome_of};
ghost use Rattle.s10_wire.specs.declared.wire_fault.WireFault.{WireFault};
ghost use Rattle.s10_wire.specs.WireFault.{is_spelling, IsFirstRefusalOfRequest};
ghost use Rattle.s10_wire.specs.WireFault.{IsFirstRefusalOfReply};

use crate::encoders::{encode_reply, encode_request};
use crate::frame::Frame;
use crate::reply::Reply;
use crate::reply_decoder::decode_reply;
use crate::request::Request;
use crate::request_decoder::decode_request;
use crate::wire_fault::WireFault;

/// States that a request and a reply have one datagram each, and that bytes ask at most one request
/// and are at most one reply.
///
/// Bytes that ask a request are not refused as a request, and bytes that are a reply are not
/// refused as a reply.
pub fn one_datagram_each()
    ensures one_request { (b : List ℕ) (p q : Request) → Asks b p → Asks b q → p ≡ q }
    ensures one_datagram { (a b : List ℕ) (q : Request) → Asks a q → Asks b q → a ≡ b }
    ensures one_reply { (b : List ℕ) (p q : Request) (u o : Outcome) → Replies b p u → Replies b q o
        → (p ≡ q) × (u ≡ o) }
    ensures one_reply_datagram { (a b : List ℕ) (q : Request) (o : Outcome)
        → Replies a q o → Replies b q o → a ≡ b }
    ensures asked_unrefused { (b : List ℕ) (q : Request) (fault : WireFault)
        → Asks b q → ¬ (IsFirstRefusalOfRequest b fault) }
    ensures replied_unrefused { (b : List ℕ) (q : Request) (o : Outcome) (fault : WireFault)
        → Replies b q o → ¬ (IsFirstRefusalOfReply b fault) }
{}

/// States that a request has at most 28 bytes, and a reply at most 230.
pub fn datagrams_are_short()
    ensures request { (b : List ℕ) (q : Request) → Asks b q → length b ≤ 28 }
    ensures reply { (b : List ℕ) (q : Request) (o : Outcome) → Replies b q o → length b ≤ 230 }
{}

/// Encodes a request and decodes the bytes, which gives the same request.
///
/// # Errors
///
/// None occurs: the result is always `Ok`.
pub fn encoded_request_decodes(request: &Request) -> Result<Request, WireFault>
    ensures { result ≡ Ok request.now }
{
    let frame = encode_request(request);
    decode_request(frame.bytes())
}

/// Encodes a reply and decodes the bytes, which gives the same reply.
///
/// # Errors
///
/// None occurs: the result is always `Ok`.
pub fn encoded_reply_decodes(reply: &Reply) -> Result<Reply, WireFault>
    ensures { IsOkAnd result (λ read.
        (request_of read ≡ request_of reply.now) × (outcome_of read ≡ outcome_of reply.now)) }
{
    let frame = encode_reply(reply);
    decode_reply(frame.bytes())
}

/// Decodes a request and encodes it, which gives the same bytes.
///
/// # Errors
///
/// The fault of `decode_request` if the bytes do not ask a request.
pub fn decoded_request_encodes(bytes: &[u8]) -> Result<Frame, WireFault>
    ensures same { IfOk result (λ frame. frame ≡ bytes.now) }
    ensures asked { (q : Request) → Asks bytes.now q → IsOk result }
{
    match decode_request(bytes) {
        Ok(request) => Ok(encode_request(&request)),
        Err(fault) => Err(fault),
    }
}

/// Decodes a reply and encodes it, which gives the same bytes.
///
/// # Errors
///
/// The fault of `decode_reply` if the bytes are not a reply.
pub fn decoded_reply_encodes(bytes: &[u8]) -> Result<Frame, WireFault>
    ensures same { IfOk result (λ frame. frame ≡ bytes.now) }
    ensures replied { (q : Request) (o : Outcome) → Replies bytes.now q o → IsOk result }
{
    match decode_reply(bytes) {
        Ok(reply) => Ok(encode_reply(&reply)),
        Err(fault) => Err(fault),
    }
}

/// States that 13 bytes pass the test of an identifier field if and only if they spell an
/// identifier.
pub fn identifier_fields_are_spellings()
    ensures { (text : List ℕ) → length text ≡ 13
        → (IsTrue (is_spelling text) ↔ ((id : Id) × Spells text id)) }
{}
