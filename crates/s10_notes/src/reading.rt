//! Reads notes from their text.

ghost use Rattle.std.specs.Prelude.{◌≡◌, ℕ, ◌^◌, ◌<◌, ◌↔◌, ◌/◌, length, List, ◌∷◌, ◌++◌, Some, IfSome, IsSomeAnd};
ghost use Rattle.std.specs.Prelude.{◌==◌, IsTrue, Option, codes, decimal, position};
ghost use Rattle.hex.specs.Hex.{encode_lower};
ghost use Rattle.s10_wire.specs.declared.request.Request.{Request};
ghost use Rattle.s10_wire.specs.Datagrams.{Asks, IsRequest, datagram};
ghost use Rattle.s10_notes.specs.Notes.{NotesState, notes_of};
ghost use Rattle.s10_notes.specs.Text.{AreInRange, IsEndOf, SpellsNotes, check_end, members_text};
ghost use Rattle.s10_notes.specs.Text.{request_text};

use crate::check::check_digits;
use crate::notes::Notes;
use s10_wire::{Request, datagrams_are_short, decode_request, encode_request};
use std::str;

/// Reads notes, or returns `None` if the text is not that of notes.
///
/// Notes have one text with a check value: `write_notes` writes it. That of earlier versions, which has
/// none, is read too. Other spaces, members in another order and capital digits are not read.
pub fn read_notes(text: &[u8]) -> Option<Notes>
    // Notes that are read are those that the text spells.
    ensures spelled { IfSome result (SpellsNotes text.now) }
    // A text that spells notes is read as these.
    ensures read { (n : NotesState) → SpellsNotes text.now n → result ≡ Some n }
{
    match read_members(text) {
        Some((customer, next, last, request, end)) => {
            if is_end_of(&text[..text.len() - end.len()], end) {
                Notes::restore(customer, next, last, request)
            } else {
                None
            }
        }
        None => None,
    }
}

// Reads the customer, the next and the last number and the open request, and returns them with the
// text after them.
fn read_members<'a>(text: &'a [u8]) -> Option<(u64, u64, u64, Option<Request>, &'a [u8])>
    ensures spelled { IfSome result (λ read. IfSome read.3 IsRequest
        × (text.now ≡ members_text (notes_of read.0 read.1 read.2 read.3) ++ read.4.now)) }
    ensures read { (n : NotesState) (rest : List ℕ) → AreInRange n → text.now ≡ members_text n ++ rest
        → IsSomeAnd result (λ read. (notes_of read.0 read.1 read.2 read.3 ≡ n)
        × (read.4.now ≡ rest)) }
{
    let (customer, rest) = number_after(b"{\"customer\": ", text)?;
    let (next, rest) = number_after(b", \"next\": ", rest)?;
    let (last, rest) = number_after(b", \"last\": ", rest)?;
    let rest = after(b", \"request\": ", rest)?;
    match read_open_request(rest) {
        Some((request, end)) => Some((customer, next, last, request, end)),
        None => None,
    }
}

// Returns whether the line of these members may end so: with their check value, or without any.
fn is_end_of(members: &[u8], end: &[u8]) -> bool
    ensures { IsTrue result ↔ IsEndOf members.now end.now }
{
    is_check_end(members, end) || is_same(end, b"}\n")
}

fn is_check_end(members: &[u8], end: &[u8]) -> bool
    ensures { IsTrue result ↔ end.now ≡ check_end members.now }
{
    match after(b", \"check\": \"", end) {
        Some(rest) => is_digits_end(&check_digits(members), rest),
        None => false,
    }
}

// Returns whether the text is these digits and the end of the line.
fn is_digits_end(digits: &[u8], text: &[u8]) -> bool
    ensures { IsTrue result ↔ text.now ≡ digits.now ++ codes "\"}\n" }
{
    match after(digits, text) {
        Some(rest) => is_same(rest, b"\"}\n"),
        None => false,
    }
}

// Returns the text after the beginning.
fn after<'a>(beginning: &[u8], text: &'a [u8]) -> Option<&'a [u8]>
    ensures spelled { IfSome result (λ rest. text.now ≡ beginning.now ++ rest.now) }
    ensures read { (rest : List ℕ) → text.now ≡ beginning.now ++ rest
        → IsSomeAnd result (λ found. found.now ≡ rest) }
{
    text.strip_prefix(beginning)
}

// Reads the number after the name of a member, and returns it with the text from the comma on.
fn number_after<'a>(name: &[u8], text: &'a [u8]) -> Option<(u64, &'a [u8])>
    ensures spelled { IfSome result (λ read. text.now ≡ name.now ++ (decimal read.0 ++ read.1.now)) }
    ensures read { (n : ℕ) (rest : List ℕ) → n < 2 ^ 64
        → text.now ≡ name.now ++ (decimal n ++ 44 ∷ rest)
        → IsSomeAnd result (λ read. (read.0 ≡ n) × (read.1.now ≡ 44 ∷ rest)) }
{
    let text = after(name, text)?;
    let at = first_comma(text)?;
    let number = read_number(&text[..at])?;
    Some((number, &text[at..]))
}

// Returns the index of the first comma.
fn first_comma(text: &[u8]) -> Option<usize>
    ensures { result ≡ position (λ byte. byte == 44) text.now }
{
    text.iter().position(|byte| *byte == b',')
}

// Reads a decimal number without a leading zero or a plus sign, which the parser would accept.
fn read_number(digits: &[u8]) -> Option<u64>
    ensures spelled { IfSome result (λ number. digits.now ≡ decimal number) }
    ensures read { (n : ℕ) → n < 2 ^ 64 → digits.now ≡ decimal n → result ≡ Some n }
{
    if digits.is_empty() || digits[0] == b'+' {
        return None;
    }
    if digits[0] == b'0' && digits.len() > 1 {
        return None;
    }
    str::from_utf8(digits).ok()?.parse().ok()
}

// Reads the open request, and returns it with the text after it.
fn read_open_request<'a>(text: &'a [u8]) -> Option<(Option<Request>, &'a [u8])>
    ensures spelled { IfSome result (λ read. IfSome read.0 IsRequest
        × (text.now ≡ request_text read.0 ++ read.1.now)) }
    ensures read { (q : Option Request) (rest : List ℕ) → IfSome q IsRequest
        → text.now ≡ request_text q ++ rest
        → IsSomeAnd result (λ read. (read.0 ≡ q) × (read.1.now ≡ rest)) }
{
    match after(b"null", text) {
        Some(rest) => Some((None, rest)),
        None => read_quoted(text),
    }
}

// Reads the digits of a request between quotes, and returns it with the text after them.
fn read_quoted<'a>(text: &'a [u8]) -> Option<(Option<Request>, &'a [u8])>
    ensures spelled { IfSome result (λ read. IfSome read.0 IsRequest
        × (text.now ≡ request_text read.0 ++ read.1.now)) }
    ensures read { (q : Request) (rest : List ℕ) → IsRequest q
        → text.now ≡ request_text (Some q) ++ rest
        → IsSomeAnd result (λ read. (read.0 ≡ Some q) × (read.1.now ≡ rest)) }
{
    let text = after(b"\"", text)?;
    let at = first_quote(text)?;
    let rest = after(b"\"", &text[at..])?;
    match read_request(&text[..at]) {
        Some(request) => Some((Some(request), rest)),
        None => None,
    }
}

// Returns the index of the first quote.
fn first_quote(text: &[u8]) -> Option<usize>
    ensures { result ≡ position (λ byte. byte == 34) text.now }
{
    text.iter().position(|byte| *byte == b'"')
}

fn is_same(text: &[u8], other: &[u8]) -> bool
    ensures { IsTrue result ↔ text.now ≡ other.now }
{
    text == other
}

// Reads the digits of the datagram of a request.
fn read_request(digits: &[u8]) -> Option<Request>
    ensures spelled { IfSome result (λ q. IsRequest q × (digits.now ≡ encode_lower (datagram 0 q))) }
    ensures read { (q : Request) → IsRequest q → digits.now ≡ encode_lower (datagram 0 q)
        → result ≡ Some q }
{
    match decode_digits(digits) {
        Some(request) if has_digits(&request, digits) => Some(request),
        _ => None,
    }
}

// Decodes the digits, of which some may be capital.
fn decode_digits(digits: &[u8]) -> Option<Request>
    ensures in_range { IfSome result IsRequest }
    ensures read { (q : Request) → IsRequest q → digits.now ≡ encode_lower (datagram 0 q)
        → result ≡ Some q }
{
    datagrams_are_short();
    if digits.len() > 56 {
        return None;
    }
    let mut room = [0u8; 28];
    decode_into(digits, &mut room[..digits.len() / 2])
}

// Decodes the digits into a room that has a byte for two of them.
fn decode_into(digits: &[u8], room: &mut [u8]) -> Option<Request>
    requires { length room.old ≡ length digits.now / 2 }
    ensures in_range { IfSome result IsRequest }
    ensures read { (q : Request) → IsRequest q → digits.now ≡ encode_lower (datagram 0 q)
        → result ≡ Some q }
{
    match hex::decode_to_slice(digits, room) {
        Ok(()) => request_in(room),
        Err(_) => None,
    }
}

fn request_in(bytes: &[u8]) -> Option<Request>
    ensures in_range { IfSome result IsRequest }
    ensures read { (q : Request) → Asks bytes.now q → result ≡ Some q }
{
    match decode_request(bytes) {
        Ok(request) => Some(request),
        Err(_) => None,
    }
}

fn has_digits(request: &Request, digits: &[u8]) -> bool
    ensures { IsTrue result ↔ digits.now ≡ encode_lower (datagram 0 request.now) }
{
    let frame = encode_request(request);
    let mut room = [0u8; 512];
    // A frame has at most 256 bytes, and a byte two digits.
    let text = &mut room[..2 * frame.bytes().len()];
    match hex::encode_to_slice(frame.bytes(), text) {
        Ok(()) => {}
        Err(_) => unreachable!(),
    }
    is_same(digits, text)
}
