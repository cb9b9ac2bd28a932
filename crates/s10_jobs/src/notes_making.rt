//! Makes the notes of a client.

ghost use Rattle.s10_jobs.specs.NotesAsked.{EndsMade};

use crate::job_status::JobStatus;
use crate::notes_lines::fail_by_notes;
use s10_lines::{WriteFault, write_text};
use s10_notes::NotesFault;
use std::io::Write;

/// Writes whether notes were made: `created`, or `notes` and the fault.
///
/// # Errors
///
/// `WriteFault` if the writer fails; part of the line may be written.
pub fn write_made<W: Write>(
    made: Result<(), NotesFault>,
    out: &mut W,
) -> Result<JobStatus, WriteFault>
    ensures { EndsMade made (W.contents out.old) (W.contents out.new) result }
{
    match made {
        Ok(()) => {
            write_text(b"created\n", out)?;
            Ok(JobStatus::Done)
        }
        Err(fault) => fail_by_notes(fault, out),
    }
}
