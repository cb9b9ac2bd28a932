//! Checks an identifier.
ghost use Rattle.std.specs.Prelude.{◌≡◌, IfOk, IfErr};
ghost use Rattle.std.specs.Io.KnownBytes.{Appends};
ghost use Rattle.s10_core.specs.Id.{Spells};
ghost use Rattle.s10_core.specs.TextFault.{IsFirstRefusal};
ghost use Rattle.s10_jobs.specs.Lines.{text_read, valid_line, IsChecked};
ghost use Rattle.s10_jobs.specs.Shown.{Prints};

use crate::job_status::JobStatus;
use crate::refusals::refuse_text;
use crate::words::group_word;
use s10_core::{Id, TextFault};
use s10_lines::{WriteFault, write_text, write_word};
use std::io::Write;

/// Checks a text, and writes its line: the identifier, `valid` and its group, or `refused` and the
/// first fault.
///
/// If `is_label` is true, spaces are ignored and letters may have either case. The status is `Done`
/// or `Refused`.
///
/// # Errors
///
/// `WriteFault` if the writer fails; part of the line may be written.
pub fn check<W: Write>(text: &[u8], is_label: bool, out: &mut W) -> Result<JobStatus, WriteFault>
    ensures { IfOk result (λ status. Prints (W.contents out.old) (W.contents out.new)
        (IsChecked is_label text.now status)) }
{
    match read(text, is_label) {
        Ok(id) => write_valid(&id, out),
        Err(fault) => refuse_text(fault, out),
    }
}

fn read(text: &[u8], is_label: bool) -> Result<Id, TextFault>
    ensures ok { IfOk result (Spells (text_read is_label text.now)) }
    ensures refused { IfErr result (IsFirstRefusal (text_read is_label text.now)) }
{
    if is_label {
        Id::read_label(text)
    } else {
        Id::read(text)
    }
}

fn write_valid<W: Write>(id: &Id, out: &mut W) -> Result<JobStatus, WriteFault>
    ensures { IfOk result (λ status.
        (status ≡ JobStatus.Done) × Appends (W.contents out.old) (W.contents out.new)
        (valid_line id.now)) }
{
    write_text(&id.write(), out)?;
    write_word(b"valid", out)?;
    write_word(group_word(id.service.group()).as_bytes(), out)?;
    write_text(b"\n", out)?;
    Ok(JobStatus::Done)
}
