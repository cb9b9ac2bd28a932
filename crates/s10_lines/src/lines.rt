//! Requests and replies as lines for a person to read.

ghost use Rattle.std.specs.Prelude.{◌≡◌, ℕ, List, [], ◌∷◌, ◌++◌, map, codes, decimal, OnOk};
ghost use Rattle.std.specs.Io.KnownBytes.{Appends};
ghost use Rattle.s10_core.specs.Letters.{letters_of};
ghost use Rattle.s10_core.specs.Id.{spelling_of};
ghost use Rattle.s10_wire.specs.declared.body.Body.TheVariants as bodies;
ghost use Rattle.s10_lines.specs.Lines.{spaced, body_words, kind_word, request_words, status_words};
ghost use Rattle.s10_lines.specs.Lines.{outcome_words, request_line, reply_line};
ghost use Rattle.s10_lines.specs.LineText.{Holds, Grows};
ghost use Rattle.s10_wire.specs.Reply.{request_of, outcome_of};

use crate::line_text::LineText;
use crate::words::write_text;
use crate::write_fault::WriteFault;
use s10_core::{Country, Id, Serial, Service, serial_digits};
use s10_wire::{Body, Ids, Outcome, Reply, Request, Status};
use std::io::Write;

/// Writes the line of a request, with its line feed.
///
/// # Errors
///
/// - `WriteFault` if the writer fails; part of the line may be written.
pub fn write_request_line<W: Write>(request: &Request, out: &mut W) -> Result<(), WriteFault>
    ensures { OnOk result (Appends (W.contents out.old) (W.contents out.new)
        (request_line request.now)) }
{
    write_line(&text_of_request(request), out)
}

/// Writes the line of a reply, with its line feed.
///
/// # Errors
///
/// - `WriteFault` if the writer fails; part of the line may be written.
pub fn write_reply_line<W: Write>(reply: &Reply, out: &mut W) -> Result<(), WriteFault>
    ensures { OnOk result (Appends (W.contents out.old) (W.contents out.new)
        (reply_line (request_of reply.now) (outcome_of reply.now))) }
{
    write_line(&text_of_reply(reply), out)
}

fn write_line<W: Write>(line: &LineText, out: &mut W) -> Result<(), WriteFault>
    ensures { (text : List ℕ) → Holds line.now text
        → OnOk result (Appends (W.contents out.old) (W.contents out.new) text) }
{
    match line.as_slice() {
        Some(text) => write_text(text, out),
        None => Err(WriteFault),
    }
}

/// Returns the line of a request, with its line feed.
pub fn text_of_request(request: &Request) -> LineText
    ensures { Holds result (request_line request.now) }
{
    let mut line = LineText::new();
    line.add(b"request");
    write_request(request, &mut line);
    line.add(b"\n");
    line
}

/// Returns the line of a reply, with its line feed.
pub fn text_of_reply(reply: &Reply) -> LineText
    ensures { Holds result (reply_line (request_of reply.now) (outcome_of reply.now)) }
{
    let mut line = LineText::new();
    line.add(b"reply");
    write_request(&reply.request(), &mut line);
    write_outcome(&reply.outcome(), &mut line);
    line.add(b"\n");
    line
}

fn write_request(request: &Request, line: &mut LineText)
    ensures { Grows line.old line.new (spaced (request_words request.now)) }
{
    line.add_word(kind_name(&request.body));
    write_named(b"customer", request.customer, line);
    write_named(b"number", request.number, line);
    write_body(&request.body, line);
}

fn kind_name(body: &Body) -> &'static [u8]
    ensures { result.now ≡ kind_word body.now }
{
    match body {
        Body::Grant { .. } => b"grant",
        Body::Draw { .. } => b"draw",
        Body::Void { .. } => b"void",
        Body::Query { .. } => b"query",
        Body::DrawMany { .. } => b"draw-many",
        Body::Withdraw { .. } => b"withdraw",
    }
}

// Writes a name and the number after it, as two words.
fn write_named(name: &[u8], number: u32, line: &mut LineText)
    ensures { Grows line.old line.new (spaced (name.now ∷ decimal number ∷ [])) }
{
    line.add_word(name);
    line.add_decimal(number);
}

fn write_body(body: &Body, line: &mut LineText)
    ensures { Grows line.old line.new (spaced (body_words body.now)) }
{
    match *body {
        Body::Grant {
            holder,
            service,
            country,
            first,
            last,
        } => write_grant(holder, service, country, first, last, line),
        Body::Draw { service, country } => write_letters(service, country, line),
        Body::Void { id } => line.add_word(&id.write()),
        Body::Query { id } => line.add_word(&id.write()),
        Body::DrawMany {
            service,
            country,
            count,
        } => {
            write_letters(service, country, line);
            line.add_decimal(u32::from(count.value()));
        }
        Body::Withdraw { range } => line.add_decimal(range),
    }
}

fn write_grant(
    holder: u32,
    service: Service,
    country: Country,
    first: Serial,
    last: Serial,
    line: &mut LineText,
)
    ensures { Grows line.old line.new
        (spaced (body_words (bodies.Grant holder service country first last))) }
{
    write_named(b"holder", holder, line);
    write_letters(service, country, line);
    line.add_word(&serial_digits(first));
    line.add_word(&serial_digits(last));
}

fn write_letters(service: Service, country: Country, line: &mut LineText)
    ensures { Grows line.old line.new (spaced (letters_of service ∷ letters_of country ∷ [])) }
{
    line.add_word(&service.bytes());
    line.add_word(&country.bytes());
}

fn write_outcome(outcome: &Outcome, line: &mut LineText)
    ensures { Grows line.old line.new (spaced (outcome_words outcome.now)) }
{
    match *outcome {
        Outcome::Granted { range } => write_granted(range, line),
        Outcome::Drawn { day, id } => write_drawn(day, &id, line),
        Outcome::DrawnMany { day, ids } => write_drawn_many(day, &ids, line),
        Outcome::Voided => line.add_word(b"done"),
        Outcome::Told(status) => write_told(&status, line),
        Outcome::Withdrawn => line.add_word(b"done"),
        Outcome::NotThePost => line.add_word(b"not-the-post"),
        Outcome::BadGrant => line.add_word(b"bad-grant"),
        Outcome::Overlap => line.add_word(b"overlap"),
        Outcome::NoRange => line.add_word(b"no-range"),
        Outcome::NoneFree => line.add_word(b"none-free"),
        Outcome::NotYours => line.add_word(b"not-yours"),
        Outcome::NotIssued => line.add_word(b"not-issued"),
        Outcome::AlreadyVoid => line.add_word(b"already-void"),
        Outcome::NoSuchRange => line.add_word(b"no-such-range"),
        Outcome::Closed => line.add_word(b"closed"),
        Outcome::NumberReused => line.add_word(b"number-reused"),
    }
}

fn write_granted(range: u32, line: &mut LineText)
    ensures { Grows line.old line.new
        (spaced (codes "done" ∷ codes "range" ∷ decimal range ∷ [])) }
{
    line.add_word(b"done");
    write_named(b"range", range, line);
}

fn write_drawn(day: u32, id: &Id, line: &mut LineText)
    ensures { Grows line.old line.new (spaced (outcome_words (Outcome.Drawn day id.now))) }
{
    line.add_word(b"done");
    write_named(b"day", day, line);
    line.add_word(&id.write());
}

fn write_ids(ids: &[Id], line: &mut LineText)
    ensures { Grows line.old line.new (spaced (map spelling_of ids.now)) }
{
    for id in ids {
        line.add_word(&id.write());
    }
}

fn write_drawn_many(day: u32, ids: &Ids, line: &mut LineText)
    ensures { Grows line.old line.new (spaced (outcome_words (Outcome.DrawnMany day ids.now))) }
{
    line.add_word(b"done");
    write_named(b"day", day, line);
    write_ids(ids.as_slice(), line);
}

fn write_told(status: &Status, line: &mut LineText)
    ensures { Grows line.old line.new (spaced (codes "done" ∷ status_words status.now)) }
{
    line.add_word(b"done");
    match *status {
        Status::Unknown => line.add_word(b"unknown"),
        Status::Never => line.add_word(b"never"),
        Status::Issued { day } => write_named(b"issued", day, line),
        Status::Voided { day } => write_named(b"voided", day, line),
    }
}
