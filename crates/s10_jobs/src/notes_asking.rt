//! Asks a server by notes: a request is written down before it is sent.

ghost use Rattle.std.specs.Prelude.{◌≡◌, ◌⊎◌, [], ◌∷◌, List, Some};
ghost use Rattle.s10_wire.specs.declared.request.Request.{Request};
ghost use Rattle.s10_link.specs.Link.{LeadsTo};
ghost use Rattle.s10_notes.specs.Notes.{NotesState, next_request, take_fault};
ghost use Rattle.s10_notes.specs.Lives.{Life};
ghost use Rattle.s10_jobs.specs.NotesAsked.{AsksByNotes, AsksOpen, AsksRequest};
ghost use Rattle.s10_jobs.specs.NotesAsked.{IsLived, IsSettled, RecordsReply};

use crate::asking::write_call_result;
use crate::job_status::JobStatus;
use crate::notes_lines::{fail_by_notes, refuse_to_take};
use crate::questioning::call_request;
use crate::refusals::refuse;
use crate::tries::Tries;
use s10_lines::WriteFault;
use s10_link::{Link, Peer};
use s10_notes::Notebook;
use s10_wire::{Body, Request};
use std::io::Write;

/// Gives a body the next number of the notes, writes the request down, and asks it at the server.
///
/// The line is that of the reply, `gave-up`, or `link` and the fault. After the line of a reply the
/// notes record that it came. A body that gets no number is refused, and a fault of the notes has a
/// line `notes`; nothing is sent then.
///
/// # Errors
///
/// `WriteFault` if the writer fails; part of the lines may be written. The request stays open.
pub fn ask_by_notes<N: Notebook, L: Link, W: Write>(
    notebook: &mut N,
    link: &mut L,
    to: Peer,
    body: Body,
    tries: Tries,
    out: &mut W,
) -> Result<JobStatus, WriteFault>
    ensures asked { AsksByNotes N.held N.may_find (take_fault (N.held notebook.old)) body notebook.old
        notebook.new (L.trace_of link.old) (L.trace_of link.new) to tries (W.contents out.old)
        (W.contents out.new) result }
    // If nothing was sent, an opening finds only states consistent with the requests sent before.
    // Otherwise it finds only states consistent with these and the new one.
    ensures lived { (first : NotesState) (sent : List Request)
        → Life first (N.held notebook.old) sent → IsLived N.may_find first sent notebook.old
        → (IsLived N.may_find first sent notebook.new
        × (L.trace_of link.new ≡ L.trace_of link.old))
        ⊎ IsLived N.may_find first (next_request (N.held notebook.old) body ∷ sent) notebook.new }
    ensures led { LeadsTo L.step link.old link.new }
    ensures at { N.path notebook.new ≡ N.path notebook.old }
{
    let taken = match notebook.notes().take(body) {
        Ok(taken) => taken,
        Err(fault) => return refuse_to_take(fault, out),
    };
    match notebook.replace(&taken) {
        Ok(()) => ask_again(notebook, link, to, tries, out),
        Err(fault) => fail_by_notes(fault, out),
    }
}

/// Asks the open request of the notes at the server. It is refused as `answered` if there is none.
///
/// # Errors
///
/// `WriteFault` if the writer fails; part of the lines may be written. The request stays open.
pub fn ask_again<N: Notebook, L: Link, W: Write>(
    notebook: &mut N,
    link: &mut L,
    to: Peer,
    tries: Tries,
    out: &mut W,
) -> Result<JobStatus, WriteFault>
    ensures asked { AsksOpen N.held N.may_find (N.held notebook.old).request notebook.old notebook.new
        (L.trace_of link.old) (L.trace_of link.new) to tries (W.contents out.old)
        (W.contents out.new) result }
    ensures lived { (first : NotesState) (sent : List Request) (q : Request)
        → IsSettled N.held N.may_find notebook.old → (N.held notebook.old).request ≡ Some q
        → Life first (N.held notebook.old) sent
        → IsLived N.may_find first (q ∷ sent) notebook.new }
    ensures led { LeadsTo L.step link.old link.new }
    ensures at { N.path notebook.new ≡ N.path notebook.old }
{
    match notebook.notes().request() {
        Some(request) => ask_request(notebook, &request, link, to, tries, out),
        None => refuse(b"answered", out),
    }
}

// Asks the open request, and records that its reply came.
fn ask_request<N: Notebook, L: Link, W: Write>(
    notebook: &mut N,
    request: &Request,
    link: &mut L,
    to: Peer,
    tries: Tries,
    out: &mut W,
) -> Result<JobStatus, WriteFault>
    ensures asked { AsksRequest N.held N.may_find request.now notebook.old notebook.new
        (L.trace_of link.old) (L.trace_of link.new) to tries (W.contents out.old)
        (W.contents out.new) result }
    ensures led { LeadsTo L.step link.old link.new }
    ensures at { N.path notebook.new ≡ N.path notebook.old }
{
    let called = call_request(request, link, to, tries);
    let status = write_call_result(&called, out)?;
    match called {
        Ok(_) => record_reply(notebook, status, out),
        Err(_) => Ok(status),
    }
}

// Records in the notes that the reply came, of which the line was written.
fn record_reply<N: Notebook, W: Write>(
    notebook: &mut N,
    status: JobStatus,
    out: &mut W,
) -> Result<JobStatus, WriteFault>
    ensures recorded { RecordsReply N.held N.may_find status [] notebook.old notebook.new
        (W.contents out.old) (W.contents out.new) result }
    ensures at { N.path notebook.new ≡ N.path notebook.old }
{
    let Ok(()) = out.flush() else {
        return Err(WriteFault);
    };
    let answered = notebook.notes().answered();
    match notebook.replace(&answered) {
        Ok(()) => Ok(status),
        Err(fault) => fail_by_notes(fault, out),
    }
}
