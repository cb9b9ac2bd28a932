//! Writes the line of a link that failed.

ghost use Rattle.std.specs.Prelude.{OnOk, codes};
ghost use Rattle.std.specs.Io.KnownBytes.{Appends};
ghost use Rattle.s10_lines.specs.Lines.{line_of};
ghost use Rattle.s10_jobs.specs.Words.{link_fault_words};

use crate::words::write_link_word;
use s10_lines::{WriteFault, write_text};
use s10_link::LinkFault;
use std::io::Write;

/// Writes the line of a link's fault: `link` and the fault.
///
/// # Errors
///
/// `WriteFault` if the writer fails; part of the line may be written.
pub fn write_link_fault<W: Write>(fault: LinkFault, out: &mut W) -> Result<(), WriteFault>
    ensures { OnOk result (Appends (W.contents out.old) (W.contents out.new)
        (line_of (codes "link") (link_fault_words fault))) }
{
    write_text(b"link", out)?;
    write_link_word(fault, out)?;
    write_text(b"\n", out)
}
