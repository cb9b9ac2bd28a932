//! Writes notes as their text.

ghost use Rattle.std.specs.Prelude.{◌++◌, IfSome, OnOk, codes, decimal};
ghost use Rattle.std.specs.Io.KnownBytes.{Appends};
ghost use Rattle.s10_wire.specs.Datagrams.{IsRequest};
ghost use Rattle.s10_notes.specs.Text.{AreInRange, SpellsNotes, check_end, members_text, notes_text};
ghost use Rattle.s10_notes.specs.Text.{request_text};

use crate::check::check_digits;
use crate::folder_call::Text;
use crate::notes::Notes;
use itoa::Buffer;
use s10_lines::{WriteFault, write_text};
use s10_wire::{Request, encode_request};
use std::io::Write;

/// Writes the one text of the notes with their check value: a line with a JSON object.
///
/// # Errors
///
/// `WriteFault` if the writer fails; part of the text may be written.
pub fn write_notes<W: Write>(notes: &Notes, out: &mut W) -> Result<(), WriteFault>
    ensures written { OnOk result (Appends (W.contents out.old) (W.contents out.new)
        (notes_text notes.now)) }
    // The text is read as these notes again.
    ensures spelled { OnOk result (SpellsNotes (notes_text notes.now) notes.now) }
{
    let mut members = Text::new();
    write_members(notes, &mut members)?;
    write_text(members.as_slice(), out)?;
    write_check_end(members.as_slice(), out)
}

// Writes the members, without the end of the line.
fn write_members<W: Write>(notes: &Notes, out: &mut W) -> Result<(), WriteFault>
    ensures written { OnOk result (Appends (W.contents out.old) (W.contents out.new)
        (members_text notes.now)) }
    ensures in_range { OnOk result (AreInRange notes.now) }
{
    write_named(b"{\"customer\": ", notes.customer() as u64, out)?;
    write_named(b", \"next\": ", notes.next(), out)?;
    write_named(b", \"last\": ", notes.last() as u64, out)?;
    write_text(b", \"request\": ", out)?;
    write_open_request(&notes.request(), out)
}

// Writes the end of the line of these members, with their check value.
fn write_check_end<W: Write>(members: &[u8], out: &mut W) -> Result<(), WriteFault>
    ensures { OnOk result (Appends (W.contents out.old) (W.contents out.new)
        (check_end members.now)) }
{
    write_text(b", \"check\": \"", out)?;
    write_text(&check_digits(members), out)?;
    write_text(b"\"}\n", out)
}

// Writes the name of a member, then its number.
fn write_named<W: Write>(name: &[u8], number: u64, out: &mut W) -> Result<(), WriteFault>
    ensures { OnOk result (Appends (W.contents out.old) (W.contents out.new)
        (name.now ++ decimal number)) }
{
    let mut buffer = Buffer::new();
    write_text(name, out)?;
    write_text(buffer.format(number).as_bytes(), out)
}

fn write_open_request<W: Write>(request: &Option<Request>, out: &mut W) -> Result<(), WriteFault>
    ensures written { OnOk result (Appends (W.contents out.old) (W.contents out.new)
        (request_text request.now)) }
    ensures in_range { IfSome request.now IsRequest }
{
    match request {
        None => write_text(b"null", out),
        Some(request) => write_digits(request, out),
    }
}

fn write_digits<W: Write>(request: &Request, out: &mut W) -> Result<(), WriteFault>
    ensures written { OnOk result (Appends (W.contents out.old) (W.contents out.new)
        (request_text (Some request.now))) }
    ensures in_range { IsRequest request.now }
{
    let frame = encode_request(request);
    // A frame has at most 256 bytes, and a byte two digits.
    let mut room = [0u8; 512];
    let text = &mut room[..2 * frame.bytes().len()];
    match hex::encode_to_slice(frame.bytes(), text) {
        Ok(()) => {}
        Err(_) => unreachable!(),
    }
    write_text(b"\"", out)?;
    write_text(text, out)?;
    write_text(b"\"", out)
}
