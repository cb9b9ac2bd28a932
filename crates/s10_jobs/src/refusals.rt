//! Writes the lines of refusals. Each function returns the status `Refused`.
ghost use Rattle.std.specs.Prelude.{◌≡◌, [], ◌∷◌, IfOk};
ghost use Rattle.std.specs.Io.KnownBytes.{Appends};
ghost use Rattle.s10_jobs.specs.Words.{text_fault_words, wire_fault_words};
ghost use Rattle.s10_jobs.specs.Lines.{refused_line};

use crate::job_status::JobStatus;
use crate::words::{write_text_fault, write_wire_fault};
use s10_core::TextFault;
use s10_lines::{WriteFault, write_text, write_word};
use s10_wire::WireFault;
use std::io::Write;

/// Writes the line `refused` and the word.
///
/// # Errors
///
/// `WriteFault` if the writer fails; part of the line may be written.
pub fn refuse<W: Write>(word: &[u8], out: &mut W) -> Result<JobStatus, WriteFault>
    ensures { IfOk result (λ status. (status ≡ JobStatus.Refused)
        × Appends (W.contents out.old) (W.contents out.new) (refused_line (word.now ∷ []))) }
{
    write_text(b"refused", out)?;
    write_word(word, out)?;
    write_text(b"\n", out)?;
    Ok(JobStatus::Refused)
}

/// Writes the line of a text that spells no identifier: `refused` and the fault.
///
/// # Errors
///
/// `WriteFault` if the writer fails; part of the line may be written.
pub fn refuse_text<W: Write>(fault: TextFault, out: &mut W) -> Result<JobStatus, WriteFault>
    ensures { IfOk result (λ status. (status ≡ JobStatus.Refused)
        × Appends (W.contents out.old) (W.contents out.new)
        (refused_line (text_fault_words fault))) }
{
    write_text(b"refused", out)?;
    write_text_fault(fault, out)?;
    write_text(b"\n", out)?;
    Ok(JobStatus::Refused)
}

/// Writes the line of bytes that are not a datagram: `refused` and the fault.
///
/// # Errors
///
/// `WriteFault` if the writer fails; part of the line may be written.
pub fn refuse_datagram<W: Write>(fault: WireFault, out: &mut W) -> Result<JobStatus, WriteFault>
    ensures { IfOk result (λ status. (status ≡ JobStatus.Refused)
        × Appends (W.contents out.old) (W.contents out.new)
        (refused_line (wire_fault_words fault))) }
{
    write_text(b"refused", out)?;
    write_wire_fault(fault, out)?;
    write_text(b"\n", out)?;
    Ok(JobStatus::Refused)
}
