//! The functions of s10.h: identifiers, requests, replies and a client, for programs in C and in
//! languages that call C.
//!
//! The caller owns all memory. No call allocates, keeps state or calls a function of C. If a call
//! is refused, what its `&mut` arguments point to is unchanged.
#![tactic(auto)]

ghost use Rattle.std.specs.Prelude.{◌≡◌};
ghost use Rattle.s10_core.specs.declared.id.Id.{Id};
ghost use Rattle.s10_core.specs.Id.{Spells, SpellsLoosely, normalized};
ghost use Rattle.s10_wire.specs.declared.request.Request.{Request};
ghost use Rattle.s10_wire.specs.Datagrams.{Asks};
ghost use Rattle.s10_wire.specs.Padding.{zero_padded};
ghost use Rattle.s10_plain.specs.Identifiers.{ReadsId, plain_id_of, success_code};
ghost use Rattle.s10_plain.specs.Requests.{MakesId, EncodesRequest, DecodesRequest};
ghost use Rattle.s10_plain.specs.Requests.{plain_request_of};
ghost use Rattle.s10_plain.specs.Replies.{AcceptsReply};
ghost use Rattle.s10_plain.specs.Client.{SubmitsRequest, ClientReceives};
ghost use Rattle.s10_plain.specs.Client.{code_of_give_up, client_after_give_up};
ghost use Rattle.s10_plain.specs.Lines.{WritesRequestLine, WritesReplyLine};
ghost use Rattle.s10_plain.specs.Words.{word_of};

use s10_plain::{
    Line, PlainClient, PlainFrame, PlainId, PlainOutcome, PlainRequest, ResultCode, Word,
};

/// Reads the 13 characters of an identifier.
///
/// # Errors
/// 1: the text has not 13 characters.
/// 2, 3: the leftmost wrong character, at `at`, must be a capital letter or a digit.
/// 4: the check digit is wrong.
#[unsafe(no_mangle)]
pub extern "C" fn s10_read(text: &[u8], out: &mut PlainId) -> ResultCode
    ensures reads { ReadsId text.now result out.old out.new }
    ensures spelled { (id : Id) → Spells text.now id
        → (result ≡ success_code) × (out.new ≡ plain_id_of id) }
{
    s10_plain::read(text, out)
}

/// Reads an identifier as printed on a label: spaces are ignored, letters may be small.
///
/// # Errors
/// As `s10_read`; `at` does not count spaces.
#[unsafe(no_mangle)]
pub extern "C" fn s10_read_label(text: &[u8], out: &mut PlainId) -> ResultCode
    ensures reads { ReadsId (normalized text.now) result out.old out.new }
    ensures spelled { (id : Id) → SpellsLoosely text.now id
        → (result ≡ success_code) × (out.new ≡ plain_id_of id) }
{
    s10_plain::read_label(text, out)
}

/// Makes the identifier of a service, a serial number and a country.
///
/// # Errors
/// 32: the service is not two capital letters.
/// 34: the serial is above 99,999,999.
/// 33: the country is not two capital letters.
#[unsafe(no_mangle)]
pub extern "C" fn s10_make(
    service: &[u8; 2],
    serial: u32,
    country: &[u8; 2],
    out: &mut PlainId,
) -> ResultCode
    ensures { MakesId service.now serial country.now result out.old out.new }
{
    s10_plain::make(service, serial, country, out)
}

/// Writes the datagram of a request.
///
/// # Errors
/// 31: the kind is not 1 to 6.
/// 32, 33: the service or the country is not two capital letters.
/// 34, 35: the first or the last serial of a grant is above 99,999,999.
/// 36: the count of a draw-many is not 1 to 16.
/// 1 to 4: the text of a void or query is no identifier, as for `s10_read`.
#[unsafe(no_mangle)]
pub extern "C" fn s10_encode(fields: &PlainRequest, out: &mut PlainFrame) -> ResultCode
    ensures { EncodesRequest fields.now result out.old out.new }
{
    s10_plain::encode(fields, out)
}

/// Reads the datagram of a request.
///
/// # Errors
/// 11 to 15: the bytes are too short, or the magic, the version, the kind or the length is wrong.
/// 16: a field is wrong; `at` is the offset of the first.
#[unsafe(no_mangle)]
pub extern "C" fn s10_decode(bytes: &[u8], out: &mut PlainRequest) -> ResultCode
    ensures reads { DecodesRequest bytes.now result out.old out.new }
    ensures asks { (q : Request) → Asks bytes.now q
        → (result ≡ success_code) × (out.new ≡ plain_request_of q) }
{
    s10_plain::decode(bytes, out)
}

/// Accepts a received datagram only as the reply to the request that was sent, compared in every
/// field, and writes its outcome.
///
/// # Errors
/// 11 to 15: the datagram is too short, or its magic, version, kind or length is wrong.
/// 16: a field is wrong; `at` is the offset of the first.
/// 17: the outcome does not fit the kind.
/// 21: the bytes that were sent are no request.
/// 22: the datagram is the reply to another request.
#[unsafe(no_mangle)]
pub extern "C" fn s10_accept(sent: &[u8], datagram: &[u8], out: &mut PlainOutcome) -> ResultCode
    ensures { AcceptsReply sent.now datagram.now result out.old out.new }
{
    s10_plain::accept(sent, datagram, out)
}

/// Makes a request pending, with the customer and the next number of the client in place of those
/// in `fields`.
///
/// # Errors
/// 23: a request is pending.
/// 24: the last number is taken.
/// 31 to 36, 1 to 4: a field is wrong, as for `s10_encode`.
#[unsafe(no_mangle)]
pub extern "C" fn s10_submit(client: &mut PlainClient, fields: &PlainRequest) -> ResultCode
    ensures { SubmitsRequest client.old fields.now result client.new }
{
    s10_plain::submit(client, fields)
}

/// Accepts a received datagram only as the reply to the pending request, compared in every field,
/// and writes its outcome; then no request is pending.
///
/// # Errors
/// As `s10_accept`; 21: no request is pending.
#[unsafe(no_mangle)]
pub extern "C" fn s10_receive(
    client: &mut PlainClient,
    datagram: &[u8],
    out: &mut PlainOutcome,
) -> ResultCode
    ensures { ClientReceives client.old datagram.now result out.old out.new client.new }
{
    s10_plain::receive(client, datagram, out)
}

/// Stops waiting for the pending request, which may have been executed or not. Its number stays
/// taken.
///
/// # Errors
/// 21: no request is pending.
#[unsafe(no_mangle)]
pub extern "C" fn s10_give_up(client: &mut PlainClient) -> ResultCode
    ensures code { result ≡ code_of_give_up client.old }
    ensures client { client.new ≡ client_after_give_up client.old }
{
    s10_plain::give_up(client)
}

/// Writes the line of the datagram of a request.
///
/// # Errors
/// As `s10_decode`.
/// 41: the line is longer than 512 characters.
#[unsafe(no_mangle)]
pub extern "C" fn s10_request_line(bytes: &[u8], out: &mut Line) -> ResultCode
    ensures { WritesRequestLine bytes.now result out.old out.new }
{
    s10_plain::request_line_of(bytes, out)
}

/// Writes the line of the datagram of a reply.
///
/// # Errors
/// As `s10_accept`, except 21 and 22.
/// 41: the line is longer than 512 characters.
#[unsafe(no_mangle)]
pub extern "C" fn s10_reply_line(bytes: &[u8], out: &mut Line) -> ResultCode
    ensures { WritesReplyLine bytes.now result out.old out.new }
{
    s10_plain::reply_line_of(bytes, out)
}

/// Writes the word of a code, or `no-such-code`.
#[unsafe(no_mangle)]
pub extern "C" fn s10_word(code: u32, out: &mut Word)
    ensures { out.new.text ≡ zero_padded 16 (word_of code) }
{
    s10_plain::write_word(code, out)
}
