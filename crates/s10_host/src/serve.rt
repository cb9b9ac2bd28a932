//! Serves the ledger in a file at an address.

ghost use Rattle.std.specs.Prelude.{◌≡◌, ℕ, List, false, is_some, None, IfOk, IfErr, IfSome};
ghost use Rattle.sqlite_wal.specs.Files.{image_at};
ghost use Rattle.sqlite_wal.specs.Recovery.{Image};
ghost use Rattle.s10_link.specs.Peer.{SpellsPeer};
ghost use Rattle.s10_link.specs.UdpLink.{IsBoundAt};
ghost use Rattle.s10_jobs.specs.Unbound.{IsUnbound};
ghost use Rattle.s10_host.specs.Closing.{ServesOver, Turns};
ghost use Rattle.s10_host.specs.Files.{system_files, IsFoundIn};
ghost use Rattle.s10_host.specs.Jobs.{HasServed};
ghost use Rattle.s10_host.specs.LedgerJobs.{IsLeftByRefusal, IsRefusedLeft, IsUsed};

use crate::closing::{end_closed, end_refused, not_connected};
use crate::drawn_seed::drawn_seed;
use crate::files::{ClosedFiles, connect_to_ledger};
use crate::job_end::JobEnd;
use crate::job_resources::JobResources;
use crate::ledger_file::LedgerFile;
use crate::progress::Progress;
use crate::until_file::{UntilFile, is_there};
use s10_book::Batched;
use s10_jobs::{Days, Ending, JobStatus, TurnOptions, refuse, serve_at};
use s10_ledger::{ClosedBook, HashSeed, Observer, Refused, SqlBook};
use s10_lines::WriteFault;
use s10_link::{Peer, UdpLink};
use sqlite::{Alter, Connection, FileStore, Files, Start};
use sqlite_disk::Disk;
use std::io;
use std::io::Write;

/// Serves the ledger at the address, unless the address cannot be read or the file that ends the turns
/// is there already.
pub(crate) fn run_serve<'a, S: Start, D: Days, W: Write>(
    rt: &HostRuntime,
    ledger: &str,
    bind: &str,
    options: TurnOptions,
    until: Option<&str>,
    seed: io::Result<HashSeed>,
    start: S,
    days: &mut D,
    out: &mut W,
) -> JobEnd<'a, ClosedFiles<S>>
    ensures { HasServed (system_files S.row S.Start) (image_at S.Start) D.gives bind.now options days.old days.new
        (is_some until.entry) (W.contents out.old) (W.contents out.new) result.done result.resources.files
        result.resources.link }
{
    let Some(at) = Peer::read(bind.as_bytes()) else {
        return JobEnd {
            done: refuse(b"peer", out),
            resources: JobResources::none(),
        };
    };
    if is_there(rt, until) {
        return JobEnd {
            done: refuse(b"until", out),
            resources: JobResources::none(),
        };
    }
    let seed = match drawn_seed(rt, seed) {
        Ok(seed) => seed,
        Err(fault) => return not_connected(fault, out),
    };
    eprint_opening(rt, ledger);
    let mut ends = UntilFile::new(rt, until);
    let file = LedgerFile::find(rt, ledger);
    match connect_to_ledger(rt, &file, start) {
        Ok(connection) => serve_on_disk(
            rt, &file, seed, connection, at, options, days, &mut ends, out,
        ),
        Err(fault) => not_connected(fault, out),
    }
}

// Serves the ledger of a connection to a file at an address, and closes its files.
fn serve_on_disk<'a, F: Disk + Drop, D: Days, W: Write>(
    rt: &HostRuntime,
    file: &LedgerFile<'_>,
    seed: HashSeed,
    connection: Connection<FileStore<F>>,
    at: Peer,
    options: TurnOptions,
    days: &mut D,
    ends: &mut UntilFile<'_, '_, HostRuntime>,
    out: &mut W,
) -> JobEnd<'a, Files<F>>
    requires idle { connection.in_transaction ≡ false }
    ensures { (held : Image) → IsFoundIn held connection → (bind : List ℕ) → SpellsPeer bind at
        → HasServed F.Disk held D.gives bind options days.old days.new ends.old (W.contents out.old)
        (W.contents out.new) result.done result.resources.files result.resources.link }
{
    let mut progress = Progress::new(rt, file.path);
    match serve_over(
        rt,
        seed,
        connection,
        at,
        options,
        days,
        ends,
        &mut progress,
        out,
    ) {
        Ok((done, link, ledger)) => end_closed(rt, file.path, ledger, done, link, out),
        Err(refused) => end_refused(rt, file, refused, out),
    }
}

// Opens the ledger of a connection to any store, serves it at an address and closes it. Returns how
// the turns ended, the link unless the address cannot be bound, and the closed ledger. If the ledger
// cannot be opened, nothing is written.
fn serve_over<A: Alter + Drop, D: Days, E: Ending, K: Observer, W: Write>(
    rt: &HostRuntime,
    seed: HashSeed,
    connection: Connection<A>,
    at: Peer,
    options: TurnOptions,
    days: &mut D,
    ends: &mut E,
    observer: &mut K,
    out: &mut W,
) -> Result<
    (
        Result<JobStatus, WriteFault>,
        Option<UdpLink>,
        ClosedBook<A>,
    ),
    Refused<A>,
>
    requires idle { connection.in_transaction ≡ false }
    ensures served { IfOk result (λ r. IsUsed A.Store (λ opened served.
        (r.1 ≡ None → IsUnbound opened served (W.contents out.old) (W.contents out.new) r.0)
        × IfSome r.1 (λ link. IsBoundAt at link.at × ServesOver A.Store opened served link
        × Turns A.Store D.gives options days.old days.new E.says ends.old ends.new opened served
        (W.contents out.old) (W.contents out.new) r.0 link))
        connection r.2.connection r.2.committed) }
    ensures refused { IfErr result (λ r. IsRefusedLeft A.Store connection r.connection
        r.refusal.fault) }
    ensures left { IfErr result (λ r. IsLeftByRefusal A.Store connection r.connection) }
    ensures silent { IfErr result (λ r. W.contents out.new ≡ W.contents out.old) }
{
    let book = SqlBook::open(rt.alloc(), seed, connection, observer)?;
    let batched = Batched::new(book);
    let (done, link, served) = serve_at(rt, rt.alloc(), at, batched, days, ends, options, out);
    Ok((done, link, served.into_inner().close()))
}

// Opening a large ledger takes a while. The turns go on even if standard error is closed.
fn eprint_opening(rt: &HostRuntime, ledger: &str) {
    let _ = eprintln!(rt; "opening {ledger}");
}
