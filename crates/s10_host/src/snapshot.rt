//! Looks at a snapshot of the ledger in a file: reads its two files into memory, and opens them
//! there.

ghost use Rattle.std.specs.Prelude.{◌≡◌, false, IfOk, IfErr, IfSome, None};
ghost use Rattle.std.specs.Io.KnownBytes.{Appends};
ghost use Rattle.s10_host.specs.Files.{IsFileFault};
ghost use Rattle.s10_host.specs.Jobs.{ledger_line, FailsByLedger};
ghost use Rattle.s10_host.specs.Snapshots.{HasLooked, LooksAt, IsFoundInBytes, snapshot_line};

use crate::audit::run_audit;
use crate::closing::not_connected;
use crate::drawn_seed::drawn_seed;
use crate::files::fault_of_opening;
use crate::job_end::JobEnd;
use crate::job_resources::JobResources;
use crate::progress::Progress;
use crate::report_over::report_over;
use crate::snapshot_job::{SnapshotJob, job_of};
use crate::snapshot_resources::{MemoryConnection, SnapshotResources};
use s10_jobs::{Days, JobStatus, Look, fail_by_busy, fail_by_clock, fail_by_ledger};
use s10_ledger::{ClosedBook, HashSeed, OpenFault, Refused};
use s10_lines::WriteFault;
use s10_snapshot::{
    HostSource, LedgerBytes, ReadFault, SnapshotFault, memory_files, take_snapshot,
};
use sqlite::{Connection, FileStore, Options};
use sqlite_disk::Memory;
use std::io;
use std::io::Write;

/// What the salts of a log in memory are made from.
const LOG_SEED: u64 = 0;

/// Looks at a snapshot of the ledger. Determines the day of a report before the files are read.
pub(crate) fn run_snapshot<'a, F, D: Days, W: Write>(
    rt: &'a HostRuntime,
    ledger: &'a str,
    look: Look,
    seed: io::Result<HashSeed>,
    days: &mut D,
    out: &mut W,
) -> JobEnd<'a, F>
    ensures { HasLooked D.gives ledger.now look days.old days.new (W.contents out.old)
        (W.contents out.new) result.done result.resources.snapshot }
{
    let Some(job) = job_of(look, days) else {
        return JobEnd {
            done: fail_by_clock(out),
            resources: JobResources::none(),
        };
    };
    let seed = match drawn_seed(rt, seed) {
        Ok(seed) => seed,
        Err(fault) => return not_connected(fault, out),
    };
    let mut source = HostSource::new(rt, ledger);
    match take_snapshot(rt.alloc(), &mut source) {
        Ok(bytes) => {
            let (done, left) = look_at(rt, ledger, seed, bytes, job, out);
            JobEnd {
                done,
                resources: JobResources {
                    snapshot: Some(SnapshotResources { source, left }),
                    ..JobResources::none()
                },
            }
        }
        Err(fault) => JobEnd {
            done: fail_by_snapshot(fault, out),
            resources: JobResources {
                snapshot: Some(SnapshotResources { source, left: None }),
                ..JobResources::none()
            },
        },
    }
}

// Opens the bytes as a database, and does the job. Also returns the connection, or `None` if they
// could not be opened.
fn look_at<W: Write>(
    rt: &HostRuntime,
    path: &str,
    seed: HashSeed,
    bytes: LedgerBytes,
    job: SnapshotJob,
    out: &mut W,
) -> (Result<JobStatus, WriteFault>, Option<MemoryConnection>)
    ensures looked { IfSome result.1 (λ left. LooksAt bytes job left (W.contents out.old)
        (W.contents out.new) result.0) }
    ensures unopened { result.1 ≡ None → IfOk result.0 (FailsByLedger IsFileFault
        (W.contents out.old) (W.contents out.new)) }
{
    match connect_to_bytes(rt, path, bytes) {
        Ok(connection) => {
            let (done, left) = look_over(rt, path, seed, connection, job, out);
            (done, Some(left))
        }
        Err(fault) => (fail_by_ledger(fault, out), None),
    }
}

// Does the job over a connection to the bytes of a ledger. Also returns the connection.
fn look_over<W: Write>(
    rt: &HostRuntime,
    path: &str,
    seed: HashSeed,
    connection: MemoryConnection,
    job: SnapshotJob,
    out: &mut W,
) -> (Result<JobStatus, WriteFault>, MemoryConnection)
    requires idle { connection.in_transaction ≡ false }
    ensures { (bytes : _) → IsFoundInBytes bytes connection → LooksAt bytes job result.1
        (W.contents out.old) (W.contents out.new) result.0 }
{
    let mut progress = Progress::new(rt, path);
    match job {
        SnapshotJob::Report(report) => match report_over(
            rt.alloc(),
            seed,
            connection,
            report,
            &mut progress,
            out,
        ) {
            Ok((done, ledger)) => (done, connection_of(ledger)),
            Err(
                Refused {
                    refusal,
                    connection,
                },
            ) => (fail_by_ledger(refusal.fault, out), connection),
        },
        SnapshotJob::Audit => run_audit(rt.alloc(), seed, connection, &mut progress, out),
    }
}

// Returns the connection of a ledger that was closed.
fn connection_of(ledger: ClosedBook<FileStore<Memory>>) -> MemoryConnection
    ensures { result ≡ ledger.connection }
{
    let ClosedBook {
        connection,
        committed: _,
    } = ledger;
    connection
}

/// Opens the bytes as a database on a disk in memory. Prints to standard error why they cannot be
/// opened.
pub(crate) fn connect_to_bytes(
    rt: &HostRuntime,
    path: &str,
    bytes: LedgerBytes,
) -> Result<MemoryConnection, OpenFault>
    ensures idle { IfOk result (λ connection. connection.in_transaction ≡ false) }
    ensures found { IfOk result (IsFoundInBytes bytes) }
    ensures refused { IfErr result IsFileFault }
{
    let Ok(files) = memory_files(rt.alloc(), &bytes) else {
        return Err(OpenFault::Memory);
    };
    drop(bytes);
    match Connection::open_files(rt.alloc(), files, Options::new(LOG_SEED)) {
        Ok(connection) => Ok(connection),
        Err((error, _)) => {
            let _ = eprintln!(rt; "cannot open {path}: {error}");
            Err(fault_of_opening(&error))
        }
    }
}

/// Reports why there is no snapshot.
pub(crate) fn fail_by_snapshot<W: Write>(
    fault: SnapshotFault,
    out: &mut W,
) -> Result<JobStatus, WriteFault>
    ensures { IfOk result (λ status. (status ≡ JobStatus.Failed)
        × Appends (W.contents out.old) (W.contents out.new) (snapshot_line fault)) }
{
    match fault {
        SnapshotFault::Busy => fail_by_busy(out),
        SnapshotFault::Unread(ReadFault::Missing) => fail_by_ledger(OpenFault::NotALedger, out),
        SnapshotFault::Unread(ReadFault::Memory) => fail_by_ledger(OpenFault::Memory, out),
        SnapshotFault::Unread(ReadFault::Store) => fail_by_ledger(OpenFault::Store, out),
    }
}
