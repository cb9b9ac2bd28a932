//! The words of lines, each with a space before it. No function here allocates memory.

ghost use Rattle.std.specs.Prelude.{[], ◌∷◌, codes, decimal, OnOk};
ghost use Rattle.std.specs.Io.KnownBytes.{Appends};
ghost use Rattle.s10_core.specs.Letters.{letters_of};
ghost use Rattle.s10_core.specs.Serial.{digits_of};
ghost use Rattle.s10_core.specs.Id.{spelling_of};
ghost use Rattle.s10_lines.specs.Lines.{spaced};

use crate::write_fault::WriteFault;
use itoa::Buffer;
use s10_core::{Country, Id, Serial, Service, serial_digits};
use std::io::Write;

/// Writes a text unchanged.
///
/// # Errors
///
/// - `WriteFault` if the writer fails; part of the text may be written.
pub fn write_text<W: Write>(text: &[u8], out: &mut W) -> Result<(), WriteFault>
    ensures { OnOk result (Appends (W.contents out.old) (W.contents out.new) text.now) }
{
    let Ok(()) = out.write_all(text) else {
        return Err(WriteFault);
    };
    Ok(())
}

/// Writes a space and a word.
///
/// # Errors
///
/// - `WriteFault` if the writer fails; part of it may be written.
#[tactic(auto, unfolding(crate::specs::Lines::spaced))]
pub fn write_word<W: Write>(word: &[u8], out: &mut W) -> Result<(), WriteFault>
    ensures { OnOk result (Appends (W.contents out.old) (W.contents out.new)
        (spaced (word.now ∷ []))) }
{
    write_text(b" ", out)?;
    write_text(word, out)
}

/// Writes a number in decimal without leading zeros and without a space before it, as the first
/// word of a line.
///
/// # Errors
///
/// - `WriteFault` if the writer fails; part of it may be written.
pub fn write_first_decimal<W: Write>(number: u32, out: &mut W) -> Result<(), WriteFault>
    ensures { OnOk result (Appends (W.contents out.old) (W.contents out.new) (decimal number)) }
{
    let mut buffer = Buffer::new();
    write_text(buffer.format(number).as_bytes(), out)
}

/// Writes a space and a number in decimal, without leading zeros.
///
/// # Errors
///
/// - `WriteFault` if the writer fails; part of it may be written.
pub fn write_decimal<W: Write>(number: u32, out: &mut W) -> Result<(), WriteFault>
    ensures { OnOk result (Appends (W.contents out.old) (W.contents out.new)
        (spaced (decimal number ∷ []))) }
{
    let mut buffer = Buffer::new();
    write_word(buffer.format(number).as_bytes(), out)
}

/// Writes the letters of a service and of a country as two words.
///
/// # Errors
///
/// - `WriteFault` if the writer fails; part of it may be written.
pub fn write_letters<W: Write>(
    service: Service,
    country: Country,
    out: &mut W,
) -> Result<(), WriteFault>
    ensures { OnOk result (Appends (W.contents out.old) (W.contents out.new)
        (spaced (letters_of service ∷ letters_of country ∷ []))) }
{
    write_word(&service.bytes(), out)?;
    write_word(&country.bytes(), out)
}

/// Writes two serial numbers as two words of eight digits.
///
/// # Errors
///
/// - `WriteFault` if the writer fails; part of it may be written.
pub fn write_serials<W: Write>(first: Serial, last: Serial, out: &mut W) -> Result<(), WriteFault>
    ensures { OnOk result (Appends (W.contents out.old) (W.contents out.new)
        (spaced (digits_of first ∷ digits_of last ∷ []))) }
{
    write_word(&serial_digits(first), out)?;
    write_word(&serial_digits(last), out)
}

/// Writes an identifier as a word of 13 characters.
///
/// # Errors
///
/// - `WriteFault` if the writer fails; part of it may be written.
pub fn write_id<W: Write>(id: &Id, out: &mut W) -> Result<(), WriteFault>
    ensures { OnOk result (Appends (W.contents out.old) (W.contents out.new)
        (spaced (spelling_of id.now ∷ []))) }
{
    write_word(&id.write(), out)
}
