//! Writes the lines of failures. Each function returns the status `Failed`.

ghost use Rattle.std.specs.Prelude.{◌≡◌, [], ◌∷◌, codes, IfOk};
ghost use Rattle.std.specs.Io.KnownBytes.{Appends};
ghost use Rattle.s10_lines.specs.Lines.{line_of};
ghost use Rattle.s10_jobs.specs.Words.{open_fault_words, link_fault_words};

use crate::job_status::JobStatus;
use crate::ledger_fault::write_ledger_fault;
use crate::link_fault::write_link_fault;
use s10_lines::{WriteFault, write_text, write_word};
use s10_link::LinkFault;
use s10_rows::OpenFault;
use std::io::Write;

/// Writes the line `clock`: the clock gives no day.
///
/// # Errors
///
/// `WriteFault` if the writer fails; part of the line may be written.
pub fn fail_by_clock<W: Write>(out: &mut W) -> Result<JobStatus, WriteFault>
    ensures { IfOk result (λ status. (status ≡ JobStatus.Failed)
        × Appends (W.contents out.old) (W.contents out.new) (codes "clock\n")) }
{
    write_text(b"clock\n", out)?;
    Ok(JobStatus::Failed)
}

/// Writes the line `ledger` and the fault: the ledger could not be created, opened or closed.
///
/// # Errors
///
/// `WriteFault` if the writer fails; part of the line may be written.
pub fn fail_by_ledger<W: Write>(fault: OpenFault, out: &mut W) -> Result<JobStatus, WriteFault>
    ensures { IfOk result (λ status. (status ≡ JobStatus.Failed)
        × Appends (W.contents out.old) (W.contents out.new)
        (line_of (codes "ledger") (open_fault_words fault))) }
{
    write_ledger_fault(fault, out)?;
    Ok(JobStatus::Failed)
}

/// Writes the line `ledger busy`: no snapshot of the ledger could be taken.
///
/// # Errors
///
/// `WriteFault` if the writer fails; part of the line may be written.
pub fn fail_by_busy<W: Write>(out: &mut W) -> Result<JobStatus, WriteFault>
    ensures { IfOk result (λ status. (status ≡ JobStatus.Failed)
        × Appends (W.contents out.old) (W.contents out.new)
        (line_of (codes "ledger") (codes "busy" ∷ []))) }
{
    write_text(b"ledger", out)?;
    write_word(b"busy", out)?;
    write_text(b"\n", out)?;
    Ok(JobStatus::Failed)
}

/// Writes the line `link` and the fault: the link failed.
///
/// # Errors
///
/// `WriteFault` if the writer fails; part of the line may be written.
pub fn fail_by_link<W: Write>(fault: LinkFault, out: &mut W) -> Result<JobStatus, WriteFault>
    ensures { IfOk result (λ status. (status ≡ JobStatus.Failed)
        × Appends (W.contents out.old) (W.contents out.new)
        (line_of (codes "link") (link_fault_words fault))) }
{
    write_link_fault(fault, out)?;
    Ok(JobStatus::Failed)
}
