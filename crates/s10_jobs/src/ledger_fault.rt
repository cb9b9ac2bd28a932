//! Writes the line of a ledger that could not be created, opened or closed.

ghost use Rattle.std.specs.Prelude.{OnOk, codes};
ghost use Rattle.std.specs.Io.KnownBytes.{Appends};
ghost use Rattle.s10_lines.specs.Lines.{line_of};
ghost use Rattle.s10_jobs.specs.Words.{open_fault_words};

use crate::words::write_open_fault;
use s10_lines::{WriteFault, write_text};
use s10_rows::OpenFault;
use std::io::Write;

/// Writes the line of a ledger's fault: `ledger` and the fault.
///
/// # Errors
///
/// `WriteFault` if the writer fails; part of the line may be written.
pub fn write_ledger_fault<W: Write>(fault: OpenFault, out: &mut W) -> Result<(), WriteFault>
    ensures { OnOk result (Appends (W.contents out.old) (W.contents out.new)
        (line_of (codes "ledger") (open_fault_words fault))) }
{
    write_text(b"ledger", out)?;
    write_open_fault(fault, out)?;
    write_text(b"\n", out)
}
