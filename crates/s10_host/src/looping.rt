//! Makes five calls between two sockets of this machine, over a ledger in memory.

ghost use Rattle.std.specs.Prelude.{◌≡◌, None, IfOk, IfErr, IfSome};
ghost use Rattle.s10_ends.specs.NearEnds.{NearEnds};
ghost use Rattle.s10_ends.specs.NearLink.{IsNearStep};
ghost use Rattle.s10_ends.specs.Server.{book_of};
ghost use Rattle.s10_link.specs.UdpLink.{BoundLink, IsBoundAt};
ghost use Rattle.s10_link.specs.Link.{LeadsTo};
ghost use Rattle.s10_link.specs.Link.{new_trace};
ghost use Rattle.s10_jobs.specs.Shown.{Prints};
ghost use Rattle.s10_jobs.specs.LoopCalls.{loop_calls, AreMadeInTurn};
ghost use Rattle.s10_host.specs.Jobs.{IsRunOn};
ghost use Rattle.s10_host.specs.LoopRun.{IsLoopRun, IsLoopFailure, localhost};

use crate::job_end::JobEnd;
use crate::job_resources::JobResources;
use crate::loop_resources::LoopResources;
use s10_book::Book;
use s10_ends::{NearLink, Server};
use s10_history::Settings;
use s10_jobs::{
    Days, JobStatus, bind_link, fail_by_clock, fail_by_ledger, fail_by_link, make_calls, next_day,
};
use s10_ledger::{ClosedBook, HashSeed, SqlBook};
use s10_lines::WriteFault;
use s10_link::{LinkFault, Peer, UdpLink};
use std::io::Write;
use std::net::Net;

/// The loopback address, with a port that the system picks.
const LOCALHOST: Peer = Peer {
    ip: [127, 0, 0, 1],
    port: 0,
};

/// Runs the loop on the given day or, if none is given, on the next day of the source. Determines the
/// day before a socket is bound.
pub(crate) fn run_loop_on<'a, F, D: Days, W: Write>(
    rt: &HostRuntime,
    day: Option<u32>,
    days: &mut D,
    out: &mut W,
) -> JobEnd<'a, F>
    ensures { IsRunOn D.gives day days.old days.new (W.contents out.old) (W.contents out.new)
        result.done result.resources.looped }
{
    let Some(day) = next_day(days, day) else {
        return JobEnd {
            done: fail_by_clock(out),
            resources: JobResources::none(),
        };
    };
    let (done, looped) = run_loop(rt, day, out);
    JobEnd {
        done,
        resources: JobResources {
            looped,
            ..JobResources::none()
        },
    }
}

/// Creates a ledger in memory, serves it on this day over one socket of this machine, and makes
/// five calls to it over another. Also returns the resources of the loop, or `None` if no call was
/// made.
///
/// The ledger has a reuse interval of 30 days. The post grants RA GB 0 to 2 to customer 7, who
/// draws twice, voids the first identifier and queries it. Each call prints a line, and the first
/// one that is not done ends the run. The status is `Done` if all five are done. A fault of the
/// ledger or of a socket is printed.
///
/// # Errors
///
/// `WriteFault` if the output fails.
pub fn run_loop<R: Net + Eprint + AllocGlobal, W: Write>(
    rt: &R,
    day: u32,
    out: &mut W,
) -> (Result<JobStatus, WriteFault>, Option<LoopResources>)
    ensures asked { IfSome result.1 (IsLoopRun day (W.contents out.old) (W.contents out.new)
        result.0) }
    ensures unasked { result.1 ≡ None → IfOk result.0 (λ status. (status ≡ JobStatus.Failed)
        × Prints (W.contents out.old) (W.contents out.new) IsLoopFailure) }
{
    let (far, near) = match two_links(rt) {
        Ok(links) => links,
        Err(fault) => return (fail_by_link(fault, out), None),
    };
    let Some(settings) = Settings::new(30, 100) else {
        unreachable!()
    };
    let book = match SqlBook::in_memory(rt.alloc(), HashSeed::fixed(), settings) {
        Ok(book) => book,
        Err(refusal) => return (fail_by_ledger(refusal.fault, out), None),
    };
    let (asked, book, far, near) = loop_over(book, far, near, day, out);
    let ClosedBook {
        connection,
        committed: _,
    } = book.close();
    let looped = LoopResources {
        connection,
        far,
        near,
    };
    (asked, Some(looped))
}

// Serves a book over the far link on this day, and makes the calls to it over the near link. Also
// returns the book and the links.
fn loop_over<B: Book, W: Write>(
    book: B,
    far: UdpLink,
    near: UdpLink,
    day: u32,
    out: &mut W,
) -> (Result<JobStatus, WriteFault>, B, UdpLink, UdpLink)
    requires { B.durable }
    ensures { (begun : NearEnds B BoundLink BoundLink)
        × (begun ≡ record { server = begun.server; far = far; near = near; day = day })
        × (book_of begun.server ≡ book)
        × (ended : NearEnds B BoundLink BoundLink) × (result.1 ≡ book_of ended.server)
        × (result.2 ≡ ended.far) × (result.3 ≡ ended.near)
        × LeadsTo (IsNearStep B.faults B.honest B.terms B.history B.committed B.clean B.may_find
        (λ (l : BoundLink). l.trace) (λ (l : BoundLink). l.trace)
        (λ (a b : BoundLink). b.at ≡ a.at)) begun ended
        × IfOk result.0 (λ status. Prints (W.contents out.old) (W.contents out.new)
        (AreMadeInTurn far.at loop_calls near.trace result.3.trace status)) }
{
    let to = far.local();
    let mut link = NearLink {
        server: Server::new(book),
        far,
        near,
        day,
    };
    let asked = make_calls(&mut link, to, out);
    let NearLink {
        server,
        far,
        near,
        day: _,
    } = link;
    (asked, server.into_book(), far, near)
}

// Binds the far and the near link.
fn two_links<R: Net + Eprint>(rt: &R) -> Result<(UdpLink, UdpLink), LinkFault>
    ensures ok { IfOk result (λ links. (links.0.trace ≡ new_trace) × (links.1.trace ≡ new_trace)) }
    ensures at { IfOk result (λ links. IsBoundAt localhost links.0.at) }
    ensures refused { IfErr result (λ fault. fault ≡ LinkFault.Bind) }
{
    let far = bind_link(rt, LOCALHOST)?;
    let near = bind_link(rt, LOCALHOST)?;
    Ok((far, near))
}
