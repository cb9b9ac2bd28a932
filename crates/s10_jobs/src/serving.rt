//! Serves a book over a socket of its own.

ghost use Rattle.std.specs.Prelude.{◌≡◌, None, IfSome};
ghost use Rattle.s10_link.specs.UdpLink.{IsBoundAt};
ghost use Rattle.s10_link.specs.Link.{new_trace};
ghost use Rattle.s10_jobs.specs.Serving.{ServesLink, ServesTurns};
ghost use Rattle.s10_jobs.specs.Unbound.{IsUnbound};

use crate::binding::bind_link;
use crate::days::Days;
use crate::ending::Ending;
use crate::failures::fail_by_link;
use crate::job_status::JobStatus;
use crate::turn_options::TurnOptions;
use crate::turns::serve_turns;
use s10_book::{GroupCommit, LastFailure};
use s10_ends::Server;
use s10_lines::WriteFault;
use s10_link::{Peer, UdpLink};
use std::alloc::Global;
use std::io::Write;
use std::net::Net;
use std::time::Clock;

/// Serves the turns of the options over a book at an address, or fewer if the source of ends says so,
/// and returns the status and the book.
///
/// Also returns the link, or `None` if the address cannot be bound. Standard error has the address
/// that is served, or the reason why it cannot be bound. If no day is given, each batch takes the
/// next day of the source, unless it is further past the last day of the book than the options allow.
///
/// # Errors
///
/// The first component is `WriteFault` if the writer fails. The book is returned in every case.
pub fn serve_at<R, B, D, E, W>(
    rt: &R,
    alloc: Global,
    at: Peer,
    book: B,
    days: &mut D,
    ends: &mut E,
    options: TurnOptions,
    out: &mut W,
) -> (Result<JobStatus, WriteFault>, Option<UdpLink>, B)
where
    R: Net + Clock + Eprint,
    B: GroupCommit + LastFailure,
    D: Days,
    E: Ending,
    W: Write,
    ensures unbound { result.1 ≡ None → IsUnbound book result.2 (W.contents out.old)
        (W.contents out.new) result.0 × (days.new ≡ days.old) × (ends.new ≡ ends.old) }
    ensures served { IfSome result.1
        (λ link. ServesLink B.honest B.terms B.history B.committed (new_trace, book)
        (link.trace, result.2)) }
    ensures turns { IfSome result.1
        (λ link. ServesTurns B.faults B.honest B.terms B.history B.committed B.clean B.may_find D.gives
        options E.says (new_trace, book) (link.trace, result.2) days.old days.new ends.old ends.new
        (W.contents out.old) (W.contents out.new) result.0) }
    ensures at { IfSome result.1 (λ link. IsBoundAt at link.at) }
{
    let mut link = match bind_link(rt, at) {
        Ok(link) => link,
        Err(fault) => return (fail_by_link(fault, out), None, book),
    };
    eprint_address(rt, link.local());
    let mut server = Server::new(book);
    let served = serve_turns(rt, alloc, &mut server, &mut link, days, ends, options, out);
    (served, Some(link), server.into_book())
}

// The result is ignored, so the turns continue if standard error is closed.
fn eprint_address<R: Eprint>(rt: &R, at: Peer) {
    let _ = eprintln!(rt; "serving on {at}");
}
