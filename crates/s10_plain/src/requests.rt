//! Encoding and decoding requests.
ghost use Rattle.std.specs.Prelude.{◌≡◌, IfOk, IfErr};
ghost use Rattle.s10_wire.specs.declared.request.Request.{Request};
ghost use Rattle.s10_wire.specs.Datagrams.{datagram, IsRequest, Asks};
ghost use Rattle.s10_plain.specs.Identifiers.{success_code};
ghost use Rattle.s10_plain.specs.Requests.{MatchesBody, MatchesRequest};
ghost use Rattle.s10_plain.specs.Requests.{IsFirstFieldFault, code_of_decode, request_after};
ghost use Rattle.s10_plain.specs.Requests.{DecodesRequest, plain_request_of, frame_of};
ghost use Rattle.s10_plain.specs.Requests.{code_of_encode, frame_after, EncodesRequest};

use crate::field_fault::FieldFault;
use crate::plain_frame::{PlainFrame, frame};
use crate::plain_request::{PlainRequest, plain};
use crate::result_code::{ResultCode, field_fault_code, success, wire_fault_code};
use s10_core::{Country, Id, Serial, Service};
use s10_wire::{
    Body, Count, Request, WireFault, datagrams_are_short, decode_request, encode_request,
};

fn grant_of(fields: &PlainRequest) -> Result<Body, FieldFault>
    requires { fields.now.kind ≡ 1 }
    ensures matches { IfOk result (MatchesBody fields.now) }
    ensures fault { IfErr result (IsFirstFieldFault fields.now) }
{
    let Some(service) = Service::new(fields.service) else {
        return Err(FieldFault::Service);
    };
    let Some(country) = Country::new(fields.country) else {
        return Err(FieldFault::Country);
    };
    let Some(first) = Serial::new(fields.first) else {
        return Err(FieldFault::First);
    };
    let Some(last) = Serial::new(fields.last) else {
        return Err(FieldFault::Last);
    };
    Ok(Body::Grant {
        holder: fields.holder,
        service,
        country,
        first,
        last,
    })
}

fn draw_of(fields: &PlainRequest) -> Result<Body, FieldFault>
    requires { fields.now.kind ≡ 2 }
    ensures matches { IfOk result (MatchesBody fields.now) }
    ensures fault { IfErr result (IsFirstFieldFault fields.now) }
{
    let Some(service) = Service::new(fields.service) else {
        return Err(FieldFault::Service);
    };
    let Some(country) = Country::new(fields.country) else {
        return Err(FieldFault::Country);
    };
    Ok(Body::Draw { service, country })
}

fn draw_many_of(fields: &PlainRequest) -> Result<Body, FieldFault>
    requires { fields.now.kind ≡ 5 }
    ensures matches { IfOk result (MatchesBody fields.now) }
    ensures fault { IfErr result (IsFirstFieldFault fields.now) }
{
    let Some(service) = Service::new(fields.service) else {
        return Err(FieldFault::Service);
    };
    let Some(country) = Country::new(fields.country) else {
        return Err(FieldFault::Country);
    };
    let Some(count) = Count::new(fields.count) else {
        return Err(FieldFault::Count);
    };
    Ok(Body::DrawMany {
        service,
        country,
        count,
    })
}

fn void_of(fields: &PlainRequest) -> Result<Body, FieldFault>
    requires { fields.now.kind ≡ 3 }
    ensures matches { IfOk result (MatchesBody fields.now) }
    ensures fault { IfErr result (IsFirstFieldFault fields.now) }
{
    match Id::read(&fields.text[..13]) {
        Ok(id) => Ok(Body::Void { id }),
        Err(fault) => Err(FieldFault::Text(fault)),
    }
}

fn query_of(fields: &PlainRequest) -> Result<Body, FieldFault>
    requires { fields.now.kind ≡ 4 }
    ensures matches { IfOk result (MatchesBody fields.now) }
    ensures fault { IfErr result (IsFirstFieldFault fields.now) }
{
    match Id::read(&fields.text[..13]) {
        Ok(id) => Ok(Body::Query { id }),
        Err(fault) => Err(FieldFault::Text(fault)),
    }
}

/// Returns the body that the fields state.
pub fn body_of(fields: &PlainRequest) -> Result<Body, FieldFault>
    ensures matches { IfOk result (MatchesBody fields.now) }
    ensures fault { IfErr result (IsFirstFieldFault fields.now) }
{
    match fields.kind {
        1 => grant_of(fields),
        2 => draw_of(fields),
        3 => void_of(fields),
        4 => query_of(fields),
        5 => draw_many_of(fields),
        6 => Ok(Body::Withdraw {
            range: fields.range,
        }),
        _ => Err(FieldFault::Kind),
    }
}

fn request_of(fields: &PlainRequest) -> Result<Request, FieldFault>
    ensures matches { IfOk result (MatchesRequest fields.now) }
    ensures fault { IfErr result (IsFirstFieldFault fields.now) }
{
    match body_of(fields) {
        Ok(body) => Ok(Request {
            customer: fields.customer,
            number: fields.number,
            body,
        }),
        Err(fault) => Err(fault),
    }
}

/// Returns the datagram of a request.
pub fn request_frame(request: &Request) -> PlainFrame
    ensures frame { result ≡ frame_of (datagram 0 request.now) }
    ensures in_range { IsRequest request.now }
{
    datagrams_are_short();
    let sent = encode_request(request);
    frame(sent.bytes())
}

fn write_frame(asked: Result<Request, FieldFault>, out: &mut PlainFrame) -> ResultCode
    ensures code { result ≡ code_of_encode asked }
    ensures out { out.new ≡ frame_after asked out.old }
    ensures in_range { IfOk asked IsRequest }
{
    match asked {
        Ok(request) => {
            *out = request_frame(&request);
            success()
        }
        Err(fault) => field_fault_code(fault),
    }
}

/// Writes the datagram of a request. If refused, `out` is unchanged.
///
/// # Errors
/// 31: the kind is not 1 to 6.
/// 32, 33: the service or the country is not two capital letters.
/// 34, 35: the first or the last serial of a grant is above 99,999,999.
/// 36: the count of a draw-many is not 1 to 16.
/// 1 to 4: the text of a void or query is no identifier, as for `read`.
pub fn encode(fields: &PlainRequest, out: &mut PlainFrame) -> ResultCode
    ensures { EncodesRequest fields.now result out.old out.new }
{
    write_frame(request_of(fields), out)
}

fn write_request(read: Result<Request, WireFault>, out: &mut PlainRequest) -> ResultCode
    ensures code { result ≡ code_of_decode read }
    ensures out { out.new ≡ request_after read out.old }
{
    match read {
        Ok(request) => {
            *out = plain(&request);
            success()
        }
        Err(fault) => wire_fault_code(fault),
    }
}

/// Reads the datagram of a request. If refused, `out` is unchanged.
///
/// # Errors
/// 11 to 15: the bytes are too short, or the magic, the version, the kind or the length is wrong.
/// 16: a field is wrong; `at` is the offset of the first.
pub fn decode(bytes: &[u8], out: &mut PlainRequest) -> ResultCode
    ensures reads { DecodesRequest bytes.now result out.old out.new }
    ensures asks { (q : Request) → Asks bytes.now q → (result ≡ success_code)
        × (out.new ≡ plain_request_of q) }
{
    write_request(decode_request(bytes), out)
}
