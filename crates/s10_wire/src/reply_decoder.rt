//! The decoder of replies.

ghost use Rattle.std.specs.Prelude.{◌≡◌, ◌≢◌, ℕ, ◌+◌, ◌*◌, ◌<◌, ◌≤◌, ◌∷◌, [], ◌++◌, ◌==◌};
ghost use Rattle.std.specs.Prelude.{if◌then◌else◌, Bool, true, None, Some, length, drop};
ghost use Rattle.std.specs.Prelude.{slice_index, IfOk, IfErr, IsTrue, IsOkAnd, Ok};
ghost use Rattle.std.specs.Result.{result_err};
ghost use Rattle.s10_wire.specs.declared.kind.Kind.TheVariants as kinds;
ghost use Rattle.s10_wire.specs.declared.request.Request.{Request};
ghost use Rattle.s10_wire.specs.declared.outcome.Outcome.{Outcome};
ghost use Rattle.s10_wire.specs.Kind.{kind_of, code_of, version_of, request_length, done_length};
ghost use Rattle.s10_wire.specs.Kind.{is_reply_long, fits};
ghost use Rattle.s10_wire.specs.Datagrams.{fields, outcome_bytes, status_bytes, IsOutcome};
ghost use Rattle.s10_wire.specs.Datagrams.{IsStatus, Replies};
ghost use Rattle.s10_wire.specs.Ids.{AreIds, spellings_of};
ghost use Rattle.s10_wire.specs.Reply.{request_of, outcome_of};
ghost use Rattle.s10_wire.specs.WireFault.{first_refusal, identifier_fields, done_fields};
ghost use Rattle.s10_wire.specs.WireFault.{code_fits, outcome_refusals, reply_refusals};
ghost use Rattle.s10_wire.specs.WireFault.{IsFirstRefusalOfReply};

use crate::body::Body;
use crate::count::Count;
use crate::fields::{id_at, number_at};
use crate::ids::Ids;
use crate::kind::Kind;
use crate::outcome::Outcome;
use crate::reply::Reply;
use crate::request_decoder::{kind_at, request_at};
use crate::status::Status;
use crate::wire_fault::WireFault;

// Reads the status and the day in the reply to a Query.
fn status_at(bytes: &[u8]) -> Result<Status, WireFault>
    requires { 31 ≤ length bytes.now }
    ensures read { IfOk result (λ status. IsStatus status
        × (drop 26 bytes.now ≡ status_bytes status ++ drop 31 bytes.now)) }
    ensures refused { result_err result ≡ first_refusal (done_fields kinds.Query bytes.now) }
{
    let code = bytes[26];
    let day = number_at(bytes, 27);
    match code {
        0 if day == 0 => Ok(Status::Unknown),
        1 if day == 0 => Ok(Status::Never),
        0 | 1 => Err(WireFault::Field(27)),
        2 => Ok(Status::Issued { day }),
        3 => Ok(Status::Voided { day }),
        _ => Err(WireFault::Field(26)),
    }
}

// Reads `count` identifiers, one after the other, from byte 22 on.
fn ids_at(bytes: &[u8], count: Count) -> Result<Ids, WireFault>
    requires { 22 + 13 * count ≤ length bytes.now }
    ensures read { IfOk result (λ ids. AreIds ids × (length ids ≡ count)
        × (drop 22 bytes.now ≡ spellings_of ids ++ drop (22 + 13 * count) bytes.now)) }
    ensures refused { result_err result ≡ first_refusal (identifier_fields 22 count bytes.now) }
{
    let count = count.value() as usize;
    let mut room = [id_at(bytes, 22)?; 16];
    for place in 1..count {
        room[place] = id_at(bytes, 22 + 13 * place as u16)?;
    }
    Ok(Ids::new(&room[..count]).unwrap())
}

// Reads the outcome whose byte, after the request, is 0 for done.
fn done_at(body: &Body, bytes: &[u8]) -> Result<Outcome, WireFault>
    requires long { done_length (kind_of body.now) bytes.now ≤ length bytes.now }
    requires done { slice_index bytes.now (request_length (kind_of body.now)) ≡ 0 }
    requires begins { drop 12 bytes.now ≡ fields body.now
        ++ drop (request_length (kind_of body.now)) bytes.now }
    ensures fits { IfOk result (λ outcome. IsTrue (fits body.now outcome)) }
    ensures read { IfOk result (λ outcome. IsOutcome outcome
        × (drop (request_length (kind_of body.now)) bytes.now
        ≡ outcome_bytes outcome ++ drop (done_length (kind_of body.now) bytes.now) bytes.now)) }
    ensures refused { result_err result ≡ first_refusal (done_fields (kind_of body.now) bytes.now) }
{
    match body {
        Body::Grant { .. } => Ok(Outcome::Granted {
            range: number_at(bytes, 29),
        }),
        Body::Draw { .. } => {
            let day = number_at(bytes, 17);
            let id = id_at(bytes, 21)?;
            Ok(Outcome::Drawn { day, id })
        }
        Body::DrawMany { count, .. } => {
            let day = number_at(bytes, 18);
            let ids = ids_at(bytes, *count)?;
            Ok(Outcome::DrawnMany { day, ids })
        }
        Body::Void { .. } => Ok(Outcome::Voided),
        Body::Withdraw { .. } => Ok(Outcome::Withdrawn),
        Body::Query { .. } => {
            let status = status_at(bytes)?;
            Ok(Outcome::Told(status))
        }
    }
}

// Returns the refusal that this outcome byte names for this body.
fn refusal_of(body: &Body, code: u8) -> Result<Outcome, WireFault>
    requires { code ≢ 0 }
    ensures fits { IfOk result (λ outcome. IsTrue (fits body.now outcome)) }
    ensures read { IfOk result (λ outcome. IsOutcome outcome
        × (outcome_bytes outcome ≡ code ∷ [])) }
    ensures refused { result_err result
        ≡ (if code_fits (kind_of body.now) code then None else Some WireFault.Outcome) }
{
    match (body, code) {
        (_, 9) => Ok(Outcome::NumberReused),
        (Body::Grant { .. } | Body::Withdraw { .. }, 1) => Ok(Outcome::NotThePost),
        (Body::Grant { .. }, 2) => Ok(Outcome::BadGrant),
        (Body::Grant { .. }, 3) => Ok(Outcome::Overlap),
        (Body::Draw { .. } | Body::DrawMany { .. }, 4) => Ok(Outcome::NoRange),
        (Body::Draw { .. } | Body::DrawMany { .. }, 5) => Ok(Outcome::NoneFree),
        (Body::Void { .. } | Body::Query { .. }, 6) => Ok(Outcome::NotYours),
        (Body::Void { .. }, 7) => Ok(Outcome::NotIssued),
        (Body::Void { .. }, 8) => Ok(Outcome::AlreadyVoid),
        (Body::Withdraw { .. }, 10) => Ok(Outcome::NoSuchRange),
        (Body::Withdraw { .. }, 11) => Ok(Outcome::Closed),
        _ => Err(WireFault::Outcome),
    }
}

// Reads the outcome after the request.
fn outcome_at(body: &Body, bytes: &[u8]) -> Result<Outcome, WireFault>
    requires long { IsTrue (is_reply_long (kind_of body.now) bytes.now) }
    requires begins { drop 12 bytes.now ≡ fields body.now
        ++ drop (request_length (kind_of body.now)) bytes.now }
    ensures fits { IfOk result (λ outcome. IsTrue (fits body.now outcome)) }
    ensures read { IfOk result (λ outcome. IsOutcome outcome
        × (drop (request_length (kind_of body.now)) bytes.now ≡ outcome_bytes outcome)) }
    ensures refused { result_err result
        ≡ first_refusal (outcome_refusals (kind_of body.now) bytes.now) }
{
    let code = bytes[Kind::of(body).request_length()];
    if code == 0 {
        done_at(body, bytes)
    } else {
        refusal_of(body, code)
    }
}

// Reads the reply, or returns the first refusal of the bytes.
fn reply_of(bytes: &[u8]) -> Result<Reply, WireFault>
    ensures found { IfOk result (λ reply. Replies bytes.now (request_of reply) (outcome_of reply)) }
    ensures refused { result_err result ≡ first_refusal (reply_refusals bytes.now) }
{
    let kind = kind_at(bytes, 0x80)?;
    if !kind.is_reply_long(bytes) {
        return Err(WireFault::Length);
    }
    let request = request_at(kind, bytes)?;
    let outcome = outcome_at(&request.body, bytes)?;
    Ok(Reply::of(request, outcome))
}

/// Decodes a reply from the whole datagram (docs/DATAGRAMS.md).
///
/// # Errors
///
/// The first that applies:
///
/// - `Short` if there are fewer than 12 bytes.
/// - `Magic` if the first two bytes are not 53 31.
/// - `Version` if the version byte is neither 1 nor 2.
/// - `Kind` if the version and the kind byte name no reply.
/// - `Length` if the length is not that of the kind and the outcome byte.
/// - `Field` if a field is wrong: the offset of the leftmost one.
/// - `Outcome` if the outcome byte does not fit the kind.
pub fn decode_reply(bytes: &[u8]) -> Result<Reply, WireFault>
    // A decoded reply is the one that the bytes are.
    ensures found { IfOk result (λ reply. Replies bytes.now (request_of reply) (outcome_of reply)) }
    // Bytes that are a reply are decoded as that reply.
    ensures replied { (q : Request) (o : Outcome) → Replies bytes.now q o
        → IsOkAnd result (λ reply. (request_of reply ≡ q) × (outcome_of reply ≡ o)) }
    ensures refused { IfErr result (IsFirstRefusalOfReply bytes.now) }
    // Bytes that are refused are not a reply.
    ensures nothing { IfErr result (λ fault. (q : Request) (o : Outcome)
        → ¬ Replies bytes.now q o) }
{
    reply_of(bytes)
}
