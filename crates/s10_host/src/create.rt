//! Creates a ledger in a file.

ghost use Rattle.std.specs.Prelude.{◌≡◌, ◌↔◌, false, codes, Ok, IfOk, IfErr, IsTrue};
ghost use Rattle.std.specs.Io.KnownBytes.{Appends};
ghost use Rattle.sqlite.specs.Held.{state};
ghost use Rattle.sqlite_wal.specs.Files.{image_at};
ghost use Rattle.sqlite_wal.specs.Recovery.{Image};
ghost use Rattle.s10_ledger.specs.Ledger.{Ledger};
ghost use Rattle.s10_statements.specs.Creating.{IsCreateRefusal};
ghost use Rattle.s10_host.specs.Closing.{IsClosedAs};
ghost use Rattle.s10_host.specs.Files.{system_files, IsFoundIn};
ghost use Rattle.s10_host.specs.Jobs.{HasCreated};
ghost use Rattle.s10_host.specs.LedgerJobs.{IsLeftByRefusal, IsMadeWith};

use crate::closing::{end_closed, end_refused, not_connected};
use crate::drawn_seed::drawn_seed;
use crate::files::{ClosedFiles, connect_to_new, find_or_create};
use crate::job_end::JobEnd;
use crate::ledger_file::LedgerFile;
use crate::progress::Progress;
use s10_history::Settings;
use s10_jobs::JobStatus;
use s10_ledger::{ClosedBook, HashSeed, Observer, Refused, SqlBook};
use s10_lines::{WriteFault, write_text};
use sqlite::{Alter, Connection, FileStore, Files, Start};
use sqlite_disk::Disk;
use std::alloc::Global;
use std::io;
use std::io::Write;

/// Creates a ledger. Prints `created` only after it is closed in its file.
pub(crate) fn run_create<'a, S: Start, W: Write>(
    rt: &HostRuntime,
    ledger: &str,
    settings: Settings,
    seed: io::Result<HashSeed>,
    start: S,
    out: &mut W,
) -> JobEnd<'a, ClosedFiles<S>>
    ensures { HasCreated (system_files S.row S.Start) (image_at S.Start) settings
        (W.contents out.old) (W.contents out.new) result.done result.resources.files }
{
    let seed = match drawn_seed(rt, seed) {
        Ok(seed) => seed,
        Err(fault) => return not_connected(fault, out),
    };
    match find_or_create(rt, ledger) {
        Ok(file) => create_in(rt, &file, seed, settings, start, out),
        Err(fault) => not_connected(fault, out),
    }
}

// Creates a ledger in a file that exists.
fn create_in<'a, S: Start, W: Write>(
    rt: &HostRuntime,
    file: &LedgerFile<'_>,
    seed: HashSeed,
    settings: Settings,
    start: S,
    out: &mut W,
) -> JobEnd<'a, ClosedFiles<S>>
    ensures { HasCreated (system_files S.row S.Start) (image_at S.Start) settings
        (W.contents out.old) (W.contents out.new) result.done result.resources.files }
{
    match connect_to_new(rt, file, start) {
        Ok(connection) => create_on_disk(rt, file, seed, connection, settings, out),
        Err(fault) => not_connected(fault, out),
    }
}

// Creates a ledger over a connection to a file, and closes its files.
fn create_on_disk<'a, F: Disk + Drop, W: Write>(
    rt: &HostRuntime,
    file: &LedgerFile<'_>,
    seed: HashSeed,
    connection: Connection<FileStore<F>>,
    settings: Settings,
    out: &mut W,
) -> JobEnd<'a, Files<F>>
    requires idle { connection.in_transaction ≡ false }
    ensures { (held : Image) → IsFoundIn held connection → HasCreated F.Disk held settings
        (W.contents out.old) (W.contents out.new) result.done result.resources.files }
{
    let mut progress = Progress::new(rt, file.path);
    match create_over(rt.alloc(), seed, connection, settings, &mut progress) {
        Ok(ledger) => {
            let done = Ok(JobStatus::Done);
            let JobEnd { done, resources } = end_closed(rt, file.path, ledger, done, None, out);
            if is_done(&done) {
                return JobEnd {
                    done: write_created(out),
                    resources,
                };
            }
            JobEnd { done, resources }
        }
        Err(refused) => {
            progress.eprint_not_created(&refused.refusal);
            end_refused(rt, file, refused, out)
        }
    }
}

// Creates a ledger over a connection to any store, and closes it as it was created.
fn create_over<A: Alter + Drop, K: Observer>(
    alloc: Global,
    seed: HashSeed,
    connection: Connection<A>,
    settings: Settings,
    observer: &mut K,
) -> Result<ClosedBook<A>, Refused<A>>
    requires idle { connection.in_transaction ≡ false }
    ensures created { IfOk result (λ closed. (book : Ledger A)
        × IsMadeWith A.Store settings connection book
        × IsClosedAs A.Store book closed.connection closed.committed) }
    ensures refused { IfErr result (λ r.
        IsCreateRefusal (state A.Store connection).now.schema r.refusal.fault) }
    ensures left { IfErr result (λ r. IsLeftByRefusal A.Store connection r.connection) }
{
    let book = SqlBook::create(alloc, seed, connection, settings, observer)?;
    Ok(book.close())
}

fn is_done(made: &Result<JobStatus, WriteFault>) -> bool
    ensures { IsTrue result ↔ (made.now ≡ Ok JobStatus.Done) }
{
    matches!(made, Ok(JobStatus::Done))
}

fn write_created<W: Write>(out: &mut W) -> Result<JobStatus, WriteFault>
    ensures { IfOk result (λ status. (status ≡ JobStatus.Done) × Appends (W.contents out.old)
        (W.contents out.new) (codes "created\n")) }
{
    write_text(b"created\n", out)?;
    Ok(JobStatus::Done)
}
