//! Writes the words that are printed for groups and faults.
ghost use Rattle.std.specs.Prelude.{◌≡◌, [], ◌∷◌, OnOk, codes, decimal};
ghost use Rattle.std.specs.Fmt.{signed_decimal};
ghost use Rattle.std.specs.Io.KnownBytes.{Appends};
ghost use Rattle.s10_lines.specs.Lines.{spaced};
ghost use Rattle.s10_jobs.specs.Words.{group_words, text_fault_words, wire_fault_words};
ghost use Rattle.s10_jobs.specs.Words.{book_fault_words, link_fault_words, open_fault_words};

use itoa::Buffer;
use s10_book::BookFault;
use s10_core::{Group, TextFault};
use s10_lines::{WriteFault, write_decimal, write_word};
use s10_link::LinkFault;
use s10_rows::OpenFault;
use s10_wire::WireFault;
use std::io::Write;

/// Returns the word of a group.
pub fn group_word(group: Group) -> &'static str
    ensures { result.now ≡ group_words group }
{
    match group {
        Group::Parcel => "parcel",
        Group::Ems => "ems",
        Group::Registered => "registered",
        Group::Insured => "insured",
        Group::Other => "other",
    }
}

/// Writes the words of a text fault, each after a space. A position is counted from 0.
///
/// # Errors
///
/// `WriteFault` if the writer fails; some of the words may be written.
pub fn write_text_fault<W: Write>(fault: TextFault, out: &mut W) -> Result<(), WriteFault>
    ensures { OnOk result (Appends (W.contents out.old) (W.contents out.new)
        (spaced (text_fault_words fault))) }
{
    match fault {
        TextFault::Length => write_word(b"length", out),
        TextFault::Letter(at) => write_placed(b"letter", u32::from(at), out),
        TextFault::Digit(at) => write_placed(b"digit", u32::from(at), out),
        TextFault::CheckDigit => write_word(b"check-digit", out),
    }
}

/// Writes the words of a datagram's fault, each after a space. An offset is counted from 0.
///
/// # Errors
///
/// `WriteFault` if the writer fails; some of the words may be written.
pub fn write_wire_fault<W: Write>(fault: WireFault, out: &mut W) -> Result<(), WriteFault>
    ensures { OnOk result (Appends (W.contents out.old) (W.contents out.new)
        (spaced (wire_fault_words fault))) }
{
    match fault {
        WireFault::Short => write_word(b"short", out),
        WireFault::Magic => write_word(b"magic", out),
        WireFault::Version => write_word(b"version", out),
        WireFault::Kind => write_word(b"kind", out),
        WireFault::Length => write_word(b"length", out),
        WireFault::Field(at) => write_placed(b"field", u32::from(at), out),
        WireFault::Outcome => write_word(b"outcome", out),
    }
}

/// Writes the word of a book's fault after a space.
///
/// # Errors
///
/// `WriteFault` if the writer fails; part of the word may be written.
pub fn write_book_fault<W: Write>(fault: BookFault, out: &mut W) -> Result<(), WriteFault>
    ensures { OnOk result (Appends (W.contents out.old) (W.contents out.new)
        (spaced (book_fault_words fault))) }
{
    match fault {
        BookFault::Memory => write_word(b"memory", out),
        BookFault::Store => write_word(b"store", out),
        BookFault::Full => write_word(b"full", out),
    }
}

/// Writes the word of a link's fault after a space.
///
/// # Errors
///
/// `WriteFault` if the writer fails; part of the word may be written.
pub fn write_link_word<W: Write>(fault: LinkFault, out: &mut W) -> Result<(), WriteFault>
    ensures { OnOk result (Appends (W.contents out.old) (W.contents out.new)
        (spaced (link_fault_words fault))) }
{
    match fault {
        LinkFault::Bind => write_word(b"bind", out),
        LinkFault::Receive => write_word(b"receive", out),
        LinkFault::Send => write_word(b"send", out),
        LinkFault::Spent => write_word(b"spent", out),
    }
}

/// Writes the words of a ledger's fault, each after a space.
///
/// # Errors
///
/// `WriteFault` if the writer fails; some of the words may be written.
pub fn write_open_fault<W: Write>(fault: OpenFault, out: &mut W) -> Result<(), WriteFault>
    ensures { OnOk result (Appends (W.contents out.old) (W.contents out.new)
        (spaced (open_fault_words fault))) }
{
    match fault {
        OpenFault::NotALedger => write_word(b"not-a-ledger", out),
        OpenFault::Schema(number) => write_schema(number, out),
        OpenFault::Damaged(call) => write_placed(b"damaged", call, out),
        OpenFault::NotEmpty => write_word(b"not-empty", out),
        OpenFault::Memory => write_word(b"memory", out),
        OpenFault::Store => write_word(b"store", out),
    }
}

// Writes `schema` and the number of the schema.
fn write_schema<W: Write>(number: i64, out: &mut W) -> Result<(), WriteFault>
    ensures { OnOk result (Appends (W.contents out.old) (W.contents out.new)
        (spaced (codes "schema" ∷ signed_decimal number ∷ []))) }
{
    let mut buffer = Buffer::new();
    write_word(b"schema", out)?;
    write_word(buffer.format(number).as_bytes(), out)
}

// Writes a word and the number of what it is about: a position, an offset or a call.
fn write_placed<W: Write>(word: &[u8], at: u32, out: &mut W) -> Result<(), WriteFault>
    ensures { OnOk result (Appends (W.contents out.old) (W.contents out.new)
        (spaced (word.now ∷ decimal at ∷ []))) }
{
    write_word(word, out)?;
    write_decimal(at, out)
}
