//! Creates the notes of a client, asks a request by them, and asks their open request again.

ghost use Rattle.std.specs.Prelude.{◌≡◌, None, IfOk};
ghost use Rattle.s10_host.specs.NotesJobs.{HasMadeNotes, HasAskedAgain, HasAskedByNotes};
ghost use Rattle.s10_host.specs.NotesJobs.{IsNewAt, IsOpenedAt};

use crate::job_end::JobEnd;
use crate::job_resources::JobResources;
use s10_jobs::{
    Question, Refusal, Tries, ask_again, ask_by_notes, bind_client, eprint_failure, fail_by_link,
    fail_by_notes, refuse, write_made, write_refusal,
};
use s10_link::Peer;
use s10_notes::{HostFolder, Notes, NotesFault, NotesFile};
use std::io::Write;

/// Creates the notes of a client that has the numbers `first` to `last`.
pub(crate) fn run_notes<'a, F, W: Write>(
    rt: &'a HostRuntime,
    file: &'a str,
    customer: u32,
    first: u32,
    last: u32,
    out: &mut W,
) -> JobEnd<'a, F>
    ensures made { HasMadeNotes file.now customer first last (W.contents out.old) (W.contents out.new)
        result.done result.resources.notes }
    ensures unlinked { result.resources.link ≡ None }
{
    let Some(notes) = Notes::new(customer, first, last) else {
        return JobEnd {
            done: refuse(b"numbers", out),
            resources: JobResources::none(),
        };
    };
    match new_notes(rt, file, &notes) {
        Ok(notes) => JobEnd {
            done: write_made(Ok(()), out),
            resources: JobResources {
                notes: Some(notes),
                ..JobResources::none()
            },
        },
        Err(fault) => JobEnd {
            done: write_made(Err(fault), out),
            resources: JobResources::none(),
        },
    }
}

// Writes notes to a new file.
fn new_notes<'a>(
    rt: &'a HostRuntime,
    path: &'a str,
    notes: &Notes,
) -> Result<NotesFile<HostFolder<'a>>, NotesFault>
    ensures { IfOk result (IsNewAt path.now notes.now) }
{
    match NotesFile::create(HostFolder::create(rt, path)?, notes) {
        Ok(file) => Ok(file),
        Err(refusal) => Err(refusal.fault),
    }
}

// Opens the notes at the path.
fn open_notes<'a>(
    rt: &'a HostRuntime,
    path: &'a str,
) -> Result<NotesFile<HostFolder<'a>>, NotesFault>
    ensures { IfOk result (IsOpenedAt path.now) }
{
    match NotesFile::open(HostFolder::open(rt, path)?) {
        Ok(file) => Ok(file),
        Err(refusal) => Err(refusal.fault),
    }
}

/// Asks the open request of notes again, over a socket of its own. An address that cannot be read is
/// refused before the notes are opened, and these are opened before a socket is bound.
pub(crate) fn run_again<'a, F, W: Write>(
    rt: &'a HostRuntime,
    to: &str,
    path: &'a str,
    tries: Tries,
    out: &mut W,
) -> JobEnd<'a, F>
    ensures { HasAskedAgain to.now path.now tries (W.contents out.old) (W.contents out.new) result.done
        result.resources.link result.resources.notes }
{
    let Some(to) = Peer::read(to.as_bytes()) else {
        return JobEnd {
            done: write_refusal(Refusal::Peer, out),
            resources: JobResources::none(),
        };
    };
    let mut notes = match open_notes(rt, path) {
        Ok(notes) => notes,
        Err(fault) => {
            return JobEnd {
                done: fail_by_notes(fault, out),
                resources: JobResources::none(),
            };
        }
    };
    let mut link = match bind_client(rt) {
        Ok(link) => link,
        Err(fault) => {
            return JobEnd {
                done: fail_by_link(fault, out),
                resources: JobResources {
                    notes: Some(notes),
                    ..JobResources::none()
                },
            };
        }
    };
    let done = ask_again(&mut notes, &mut link, to, tries, out);
    eprint_failure(rt, to, &link);
    JobEnd {
        done,
        resources: JobResources {
            notes: Some(notes),
            link: Some(link),
            ..JobResources::none()
        },
    }
}

/// Asks a question with the next number of the notes in a file, over a socket of its own. A text that
/// cannot be read is refused before the notes are opened, and these are opened before a socket is
/// bound.
pub(crate) fn run_by_notes<'a, F, W: Write>(
    rt: &'a HostRuntime,
    question: &Question<'a>,
    file: &'a str,
    out: &mut W,
) -> JobEnd<'a, F>
    ensures { HasAskedByNotes file.now question.now (W.contents out.old) (W.contents out.new)
        result.done result.resources.link result.resources.notes }
{
    let (to, body) = match question.read() {
        Ok(read) => read,
        Err(refusal) => {
            return JobEnd {
                done: write_refusal(refusal, out),
                resources: JobResources::none(),
            };
        }
    };
    let mut notes = match open_notes(rt, file) {
        Ok(notes) => notes,
        Err(fault) => {
            return JobEnd {
                done: fail_by_notes(fault, out),
                resources: JobResources::none(),
            };
        }
    };
    let mut link = match bind_client(rt) {
        Ok(link) => link,
        Err(fault) => {
            return JobEnd {
                done: fail_by_link(fault, out),
                resources: JobResources {
                    notes: Some(notes),
                    ..JobResources::none()
                },
            };
        }
    };
    let done = ask_by_notes(&mut notes, &mut link, to, body, question.tries, out);
    eprint_failure(rt, to, &link);
    JobEnd {
        done,
        resources: JobResources {
            notes: Some(notes),
            link: Some(link),
            ..JobResources::none()
        },
    }
}
