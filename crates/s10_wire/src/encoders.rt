//! Encoders of requests and replies.

ghost use Rattle.std.specs.Prelude.{◌≡◌, ◌+◌, ◌*◌, ◌≤◌, ◌++◌, ◌∷◌, length, All};
ghost use Rattle.s10_core.specs.Letters.{AreCapitals};
ghost use Rattle.s10_core.specs.Serial.{IsSerial};
ghost use Rattle.s10_core.specs.Id.{IsId, spelling_of};
ghost use Rattle.s10_wire.specs.Ids.{spellings_of};
ghost use Rattle.s10_wire.specs.Kind.{kind_of};
ghost use Rattle.s10_wire.specs.Datagrams.{u32_bytes, fields, datagram, outcome_bytes};
ghost use Rattle.s10_wire.specs.Datagrams.{status_bytes, IsU32, IsBody, IsRequest, IsStatus};
ghost use Rattle.s10_wire.specs.Datagrams.{IsOutcome, Asks, Replies};
ghost use Rattle.s10_wire.specs.Reply.{request_of, outcome_of};

use crate::body::Body;
use crate::count::Count;
use crate::frame::Frame;
use crate::ids::Ids;
use crate::kind::Kind;
use crate::outcome::Outcome;
use crate::reply::Reply;
use crate::request::Request;
use crate::status::Status;
use s10_core::{Country, Id, Serial, Service};

fn put_grant(
    frame: &mut Frame,
    holder: u32,
    service: Service,
    country: Country,
    first: Serial,
    last: Serial,
)
    requires { length frame.old ≤ 12 }
    ensures bytes { frame.new ≡ frame.old ++ fields (Body.Grant holder service country first last) }
    ensures len { length frame.new ≡ length frame.old + 16 }
    ensures in_range { IsBody (Body.Grant holder service country first last) }
{
    frame.put(&holder.to_be_bytes());
    put_draw(frame, service, country);
    put_serials(frame, first, last);
}

fn put_serials(frame: &mut Frame, first: Serial, last: Serial)
    requires { length frame.old ≤ 128 }
    ensures bytes { frame.new ≡ frame.old ++ (u32_bytes first ++ u32_bytes last) }
    ensures len { length frame.new ≡ length frame.old + 8 }
    ensures in_range { IsSerial first × IsSerial last }
{
    frame.put(&first.value().to_be_bytes());
    frame.put(&last.value().to_be_bytes());
}

fn put_draw(frame: &mut Frame, service: Service, country: Country)
    requires { length frame.old ≤ 128 }
    ensures bytes { frame.new ≡ frame.old ++ fields (Body.Draw service country) }
    ensures len { length frame.new ≡ length frame.old + 4 }
    ensures in_range { AreCapitals service × AreCapitals country }
{
    frame.put(&service.bytes());
    frame.put(&country.bytes());
}

fn put_id(frame: &mut Frame, id: &Id)
    requires { length frame.old ≤ 243 }
    ensures bytes { frame.new ≡ frame.old ++ spelling_of id.now }
    ensures len { length frame.new ≡ length frame.old + 13 }
    ensures in_range { IsId id.now }
{
    frame.put(&id.write());
}

fn put_draw_many(frame: &mut Frame, service: Service, country: Country, count: Count)
    requires { length frame.old ≤ 128 }
    ensures bytes { frame.new ≡ frame.old ++ fields (Body.DrawMany service country count) }
    ensures len { length frame.new ≡ length frame.old + 5 }
    ensures in_range { IsBody (Body.DrawMany service country count) }
{
    put_draw(frame, service, country);
    frame.put(&[count.value()]);
}

fn put_body(frame: &mut Frame, body: &Body)
    requires { length frame.old ≤ 12 }
    ensures bytes { frame.new ≡ frame.old ++ fields body.now }
    ensures len { length frame.new ≤ length frame.old + 16 }
    ensures in_range { IsBody body.now }
{
    match *body {
        Body::Grant {
            holder,
            service,
            country,
            first,
            last,
        } => put_grant(frame, holder, service, country, first, last),
        Body::Draw { service, country } => put_draw(frame, service, country),
        Body::Void { id } => put_id(frame, &id),
        Body::Query { id } => put_id(frame, &id),
        Body::DrawMany {
            service,
            country,
            count,
        } => put_draw_many(frame, service, country, count),
        Body::Withdraw { range } => frame.put(&range.to_be_bytes()),
    }
}

// Returns the bytes of a request, with `mark` added to the kind byte: 0 in a request, 0x80 in a
// reply.
fn request_frame(request: &Request, mark: u8) -> Frame
    requires { mark ≤ 128 }
    ensures bytes { result ≡ datagram mark request.now }
    ensures len { length result ≤ 28 }
    ensures in_range { IsRequest request.now }
{
    let mut frame = Frame::new();
    let kind = Kind::of(&request.body);
    frame.put(&[0x53, 0x31, kind.version(), kind.code() + mark]);
    frame.put(&request.customer.to_be_bytes());
    frame.put(&request.number.to_be_bytes());
    put_body(&mut frame, &request.body);
    frame
}

/// Encodes a request as its datagram (docs/DATAGRAMS.md).
pub fn encode_request(request: &Request) -> Frame
    ensures { Asks result request.now }
{
    request_frame(request, 0)
}

fn put_coded(frame: &mut Frame, code: u8, number: u32)
    requires { length frame.old ≤ 128 }
    ensures bytes { frame.new ≡ frame.old ++ code ∷ u32_bytes number }
    ensures len { length frame.new ≡ length frame.old + 5 }
    ensures in_range { IsU32 number }
{
    frame.put(&[code]);
    frame.put(&number.to_be_bytes());
}

fn put_status(frame: &mut Frame, status: &Status)
    requires { length frame.old ≤ 128 }
    ensures bytes { frame.new ≡ frame.old ++ status_bytes status.now }
    ensures in_range { IsStatus status.now }
{
    match *status {
        Status::Unknown => put_coded(frame, 0, 0),
        Status::Never => put_coded(frame, 1, 0),
        Status::Issued { day } => put_coded(frame, 2, day),
        Status::Voided { day } => put_coded(frame, 3, day),
    }
}

fn put_drawn(frame: &mut Frame, day: u32, id: Id)
    requires { length frame.old ≤ 28 }
    ensures bytes { frame.new ≡ frame.old ++ outcome_bytes (Outcome.Drawn day id) }
    ensures in_range { IsOutcome (Outcome.Drawn day id) }
{
    put_coded(frame, 0, day);
    put_id(frame, &id);
}

fn put_ids(frame: &mut Frame, ids: &[Id])
    requires { length frame.old + 13 * length ids.now ≤ 256 }
    ensures bytes { frame.new ≡ frame.old ++ spellings_of ids.now }
    ensures in_range { All IsId ids.now }
{
    for id in ids {
        put_id(frame, id);
    }
}

fn put_drawn_many(frame: &mut Frame, day: u32, ids: &Ids)
    requires { length frame.old ≤ 28 }
    ensures bytes { frame.new ≡ frame.old ++ outcome_bytes (Outcome.DrawnMany day ids.now) }
    ensures in_range { IsOutcome (Outcome.DrawnMany day ids.now) }
{
    put_coded(frame, 0, day);
    put_ids(frame, ids.as_slice());
}

// Appends the outcome byte and the fields after it.
fn put_outcome(frame: &mut Frame, outcome: &Outcome)
    requires { length frame.old ≤ 28 }
    ensures bytes { frame.new ≡ frame.old ++ outcome_bytes outcome.now }
    ensures in_range { IsOutcome outcome.now }
{
    match *outcome {
        Outcome::Granted { range } => put_coded(frame, 0, range),
        Outcome::Drawn { day, id } => put_drawn(frame, day, id),
        Outcome::DrawnMany { day, ids } => put_drawn_many(frame, day, &ids),
        Outcome::Voided => frame.put(&[0]),
        Outcome::Told(status) => {
            frame.put(&[0]);
            put_status(frame, &status);
        }
        Outcome::Withdrawn => frame.put(&[0]),
        Outcome::NotThePost => frame.put(&[1]),
        Outcome::BadGrant => frame.put(&[2]),
        Outcome::Overlap => frame.put(&[3]),
        Outcome::NoRange => frame.put(&[4]),
        Outcome::NoneFree => frame.put(&[5]),
        Outcome::NotYours => frame.put(&[6]),
        Outcome::NotIssued => frame.put(&[7]),
        Outcome::AlreadyVoid => frame.put(&[8]),
        Outcome::NoSuchRange => frame.put(&[10]),
        Outcome::Closed => frame.put(&[11]),
        Outcome::NumberReused => frame.put(&[9]),
    }
}

/// Encodes a reply as its datagram (docs/DATAGRAMS.md).
pub fn encode_reply(reply: &Reply) -> Frame
    ensures { Replies result (request_of reply.now) (outcome_of reply.now) }
{
    let mut frame = request_frame(&reply.request(), 0x80);
    put_outcome(&mut frame, &reply.outcome());
    frame
}
