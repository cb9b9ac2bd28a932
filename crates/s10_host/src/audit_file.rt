//! Audits the ledger in a file.

ghost use Rattle.std.specs.Prelude.{◌≡◌, false};
ghost use Rattle.sqlite_wal.specs.Files.{image_at};
ghost use Rattle.sqlite_wal.specs.Recovery.{Image};
ghost use Rattle.s10_host.specs.Files.{system_files, IsFoundIn};
ghost use Rattle.s10_host.specs.Jobs.{HasAudited};

use crate::audit::run_audit;
use crate::closing::not_connected;
use crate::drawn_seed::drawn_seed;
use crate::files::{ClosedFiles, connect_to_ledger};
use crate::job_end::JobEnd;
use crate::job_resources::JobResources;
use crate::ledger_file::LedgerFile;
use crate::progress::Progress;
use s10_jobs::JobStatus;
use s10_ledger::HashSeed;
use s10_lines::WriteFault;
use sqlite::{Connection, FileStore, Files, Start};
use sqlite_disk::Disk;
use std::io;
use std::io::Write;

/// Audits the ledger, and leaves its files as they are.
pub(crate) fn run_audit_on_file<'a, S: Start, W: Write>(
    rt: &HostRuntime,
    ledger: &str,
    seed: io::Result<HashSeed>,
    start: S,
    out: &mut W,
) -> JobEnd<'a, ClosedFiles<S>>
    ensures { HasAudited (system_files S.row S.Start) (image_at S.Start) (W.contents out.old)
        (W.contents out.new) result.done result.resources.files }
{
    let seed = match drawn_seed(rt, seed) {
        Ok(seed) => seed,
        Err(fault) => return not_connected(fault, out),
    };
    let file = LedgerFile::find(rt, ledger);
    match connect_to_ledger(rt, &file, start) {
        Ok(connection) => audit_on_disk(rt, &file, seed, connection, out),
        Err(fault) => not_connected(fault, out),
    }
}

// Audits the ledger of a connection to a file, and closes its files as they are: its last commits may
// be in the log alone.
fn audit_on_disk<'a, F: Disk + Drop, W: Write>(
    rt: &HostRuntime,
    file: &LedgerFile<'_>,
    seed: HashSeed,
    connection: Connection<FileStore<F>>,
    out: &mut W,
) -> JobEnd<'a, Files<F>>
    requires idle { connection.in_transaction ≡ false }
    ensures { (held : Image) → IsFoundIn held connection → HasAudited F.Disk held
        (W.contents out.old) (W.contents out.new) result.done result.resources.files }
{
    let mut progress = Progress::new(rt, file.path);
    let (done, left) = run_audit(rt.alloc(), seed, connection, &mut progress, out);
    let store = left.into_store();
    put_audited_back(rt, file, &done);
    JobEnd {
        done,
        resources: JobResources {
            files: Some(store.close()),
            ..JobResources::none()
        },
    }
}

// Puts back what opening the file wrote, if the audit refused it. The file is still locked.
fn put_audited_back(
    rt: &HostRuntime,
    file: &LedgerFile<'_>,
    audited: &Result<JobStatus, WriteFault>,
) {
    if let Ok(JobStatus::Failed) = audited {
        file.put_back(rt);
    }
}
