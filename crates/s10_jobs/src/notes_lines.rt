//! Writes the lines of notes that fail or refuse.

ghost use Rattle.std.specs.Prelude.{OnOk};
ghost use Rattle.std.specs.Io.KnownBytes.{Appends};
ghost use Rattle.s10_lines.specs.Lines.{spaced};
ghost use Rattle.s10_jobs.specs.NotesAsked.{EndsWith, notes_fault_words, notes_line};
ghost use Rattle.s10_jobs.specs.NotesAsked.{take_fault_words};
ghost use Rattle.s10_jobs.specs.Lines.{refused_line};

use crate::job_status::JobStatus;
use crate::refusals::refuse;
use s10_lines::{WriteFault, write_text, write_word};
use s10_notes::{NotesFault, TakeFault};
use std::io::Write;

/// Writes the line of a request that gets no number: `refused` and the fault. The status is
/// `Refused`.
///
/// # Errors
///
/// `WriteFault` if the writer fails; part of the line may be written.
pub fn refuse_to_take<W: Write>(fault: TakeFault, out: &mut W) -> Result<JobStatus, WriteFault>
    ensures { EndsWith JobStatus.Refused (refused_line (take_fault_words fault)) (W.contents out.old)
        (W.contents out.new) result }
{
    match fault {
        TakeFault::Unanswered => refuse(b"unanswered", out),
        TakeFault::NumbersSpent => refuse(b"numbers-spent", out),
    }
}

/// Writes the line of a fault of notes: `notes` and the fault. The status is `Failed`.
///
/// # Errors
///
/// `WriteFault` if the writer fails; part of the line may be written.
pub fn fail_by_notes<W: Write>(fault: NotesFault, out: &mut W) -> Result<JobStatus, WriteFault>
    ensures { EndsWith JobStatus.Failed (notes_line fault) (W.contents out.old) (W.contents out.new)
        result }
{
    write_text(b"notes", out)?;
    write_notes_word(fault, out)?;
    write_text(b"\n", out)?;
    Ok(JobStatus::Failed)
}

fn write_notes_word<W: Write>(fault: NotesFault, out: &mut W) -> Result<(), WriteFault>
    ensures { OnOk result (Appends (W.contents out.old) (W.contents out.new)
        (spaced (notes_fault_words fault))) }
{
    match fault {
        NotesFault::Taken => write_word(b"taken", out),
        NotesFault::Missing => write_word(b"missing", out),
        NotesFault::Linked => write_word(b"linked", out),
        NotesFault::Locked => write_word(b"locked", out),
        NotesFault::Damaged => write_word(b"damaged", out),
        NotesFault::Store => write_word(b"store", out),
    }
}
