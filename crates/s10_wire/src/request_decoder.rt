//! The decoder of requests, and of the request in a reply.

ghost use Rattle.std.specs.Prelude.{◌≡◌, ℕ, ◌+◌, ◌-◌, ◌≤◌, ◌∷◌, ◌++◌, length, drop, IfOk, IfErr};
ghost use Rattle.std.specs.Prelude.{Ok, Some};
ghost use Rattle.std.specs.Result.{result_err};
ghost use Rattle.s10_wire.specs.declared.kind.Kind.TheVariants as kinds;
ghost use Rattle.s10_wire.specs.declared.request.Request.{Request};
ghost use Rattle.s10_wire.specs.Kind.{kind_of, code_of, version_of, request_length};
ghost use Rattle.s10_wire.specs.Datagrams.{u32_bytes, fields, IsBody, IsRequest, Asks};
ghost use Rattle.s10_wire.specs.WireFault.{first_refusal, kind_named, header_refusals};
ghost use Rattle.s10_wire.specs.WireFault.{request_fields, request_refusals};
ghost use Rattle.s10_wire.specs.WireFault.{IsFirstRefusalOfRequest};

use crate::body::Body;
use crate::fields::{count_at, country_at, id_at, number_at, serial_at, service_at};
use crate::kind::Kind;
use crate::request::Request;
use crate::wire_fault::WireFault;

/// Reads the kind that the header names, with `mark` added to the kind byte.
///
/// # Errors
///
/// The first that applies:
///
/// - `Short` if there are fewer than 12 bytes.
/// - `Magic` if the first two bytes are not 53 31.
/// - `Version` if the version byte is neither 1 nor 2.
/// - `Kind` if the version and the kind byte name no kind.
pub fn kind_at(bytes: &[u8], mark: u8) -> Result<Kind, WireFault>
    ensures refused { result_err result ≡ first_refusal (header_refusals mark bytes.now) }
    ensures named { IfOk result (λ kind. kind_named mark bytes.now ≡ Some kind) }
    ensures long { IfOk result (λ kind. 12 ≤ length bytes.now) }
    ensures read { IfOk result (λ kind. bytes.now ≡ 0x53 ∷ 0x31 ∷ version_of kind
        ∷ (code_of kind + mark) ∷ drop 4 bytes.now) }
{
    if bytes.len() < 12 {
        return Err(WireFault::Short);
    }
    if !(bytes[0] == 0x53 && bytes[1] == 0x31) {
        return Err(WireFault::Magic);
    }
    if bytes[2] != 1 && bytes[2] != 2 {
        return Err(WireFault::Version);
    }
    match Kind::of_codes(bytes[2], bytes[3].saturating_sub(mark)) {
        Some(kind) => Ok(kind),
        None => Err(WireFault::Kind),
    }
}

fn grant_at(bytes: &[u8]) -> Result<Body, WireFault>
    requires { 28 ≤ length bytes.now }
    ensures kind { IfOk result (λ body. kind_of body ≡ kinds.Grant) }
    ensures read { IfOk result (λ body. IsBody body
        × (drop 12 bytes.now ≡ fields body ++ drop 28 bytes.now)) }
    ensures refused { result_err result ≡ first_refusal (request_fields kinds.Grant bytes.now) }
{
    let holder = number_at(bytes, 12);
    let service = service_at(bytes, 16)?;
    let country = country_at(bytes, 18)?;
    let first = serial_at(bytes, 20)?;
    let last = serial_at(bytes, 24)?;
    Ok(Body::Grant {
        holder,
        service,
        country,
        first,
        last,
    })
}

fn draw_many_at(bytes: &[u8]) -> Result<Body, WireFault>
    requires { 17 ≤ length bytes.now }
    ensures kind { IfOk result (λ body. kind_of body ≡ kinds.DrawMany) }
    ensures read { IfOk result (λ body. IsBody body
        × (drop 12 bytes.now ≡ fields body ++ drop 17 bytes.now)) }
    ensures refused { result_err result ≡ first_refusal (request_fields kinds.DrawMany bytes.now) }
{
    let service = service_at(bytes, 12)?;
    let country = country_at(bytes, 14)?;
    let count = count_at(bytes, 16)?;
    Ok(Body::DrawMany {
        service,
        country,
        count,
    })
}

fn body_at(kind: Kind, bytes: &[u8]) -> Result<Body, WireFault>
    requires { request_length kind ≤ length bytes.now }
    ensures kind { IfOk result (λ body. kind_of body ≡ kind) }
    ensures read { IfOk result (λ body. IsBody body
        × (drop 12 bytes.now ≡ fields body ++ drop (request_length kind) bytes.now)) }
    ensures refused { result_err result ≡ first_refusal (request_fields kind bytes.now) }
{
    match kind {
        Kind::Grant => grant_at(bytes),
        Kind::Draw => Ok(Body::Draw {
            service: service_at(bytes, 12)?,
            country: country_at(bytes, 14)?,
        }),
        Kind::Void => Ok(Body::Void {
            id: id_at(bytes, 12)?,
        }),
        Kind::Query => Ok(Body::Query {
            id: id_at(bytes, 12)?,
        }),
        Kind::DrawMany => draw_many_at(bytes),
        Kind::Withdraw => Ok(Body::Withdraw {
            range: number_at(bytes, 12),
        }),
    }
}

/// Reads the request of this kind at the beginning of the bytes, after a header that was checked.
///
/// # Errors
///
/// - `Field` if a field of the body is wrong: the offset of the leftmost one.
pub fn request_at(kind: Kind, bytes: &[u8]) -> Result<Request, WireFault>
    requires { request_length kind ≤ length bytes.now }
    ensures kind { IfOk result (λ q. kind_of q.body ≡ kind) }
    ensures in_range { IfOk result IsRequest }
    ensures read { IfOk result (λ q. drop 4 bytes.now
        ≡ u32_bytes q.customer ++ u32_bytes q.number ++ fields q.body ++ drop (request_length kind)
        bytes.now) }
    ensures begins { IfOk result (λ q. drop 12 bytes.now ≡ fields q.body
        ++ drop (request_length kind) bytes.now) }
    ensures refused { result_err result ≡ first_refusal (request_fields kind bytes.now) }
{
    let customer = number_at(bytes, 4);
    let number = number_at(bytes, 8);
    let body = body_at(kind, bytes)?;
    Ok(Request {
        customer,
        number,
        body,
    })
}

// Reads the request, or returns the first refusal of the bytes.
fn request_of(bytes: &[u8]) -> Result<Request, WireFault>
    ensures found { IfOk result (Asks bytes.now) }
    ensures refused { result_err result ≡ first_refusal (request_refusals bytes.now) }
{
    let kind = kind_at(bytes, 0)?;
    if bytes.len() != kind.request_length() {
        return Err(WireFault::Length);
    }
    request_at(kind, bytes)
}

/// Decodes a request from the whole datagram (docs/DATAGRAMS.md).
///
/// # Errors
///
/// The first that applies:
///
/// - `Short` if there are fewer than 12 bytes.
/// - `Magic` if the first two bytes are not 53 31.
/// - `Version` if the version byte is neither 1 nor 2.
/// - `Kind` if the version and the kind byte name no request.
/// - `Length` if the length is not that of the kind.
/// - `Field` if a field is wrong: the offset of the leftmost one.
pub fn decode_request(bytes: &[u8]) -> Result<Request, WireFault>
    // A decoded request is the one that the bytes ask.
    ensures found { IfOk result (Asks bytes.now) }
    // Bytes that ask a request are decoded as that request.
    ensures asked { (q : Request) → Asks bytes.now q → result ≡ Ok q }
    ensures refused { IfErr result (IsFirstRefusalOfRequest bytes.now) }
    // Bytes that are refused ask no request.
    ensures nothing { IfErr result (λ fault. (q : Request) → ¬ Asks bytes.now q) }
{
    request_of(bytes)
}
