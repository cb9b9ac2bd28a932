//! Closes the files of a ledger after a job, and says how the job ended.

ghost use Rattle.std.specs.Prelude.{◌≡◌, false, Some, None, Ok, Err, IsOk, IfOk, IfSome};
ghost use Rattle.std.specs.Io.KnownBytes.{Appends};
ghost use Rattle.sqlite.specs.Files.{file_state, over_files};
ghost use Rattle.s10_statements.specs.ConnectionState.{IsOpen};
ghost use Rattle.s10_host.specs.Files.{AreFilesOf, Keeps};
ghost use Rattle.s10_host.specs.JobResources.{no_resources};
ghost use Rattle.s10_host.specs.Jobs.{ledger_line, EndsAs, HasClosed};

use crate::files::{checkpoint_and_close, close_refused};
use crate::job_end::JobEnd;
use crate::job_resources::JobResources;
use crate::ledger_file::LedgerFile;
use s10_book::BookFault;
use s10_jobs::{JobStatus, fail_by_ledger};
use s10_ledger::{ClosedBook, OpenFault, Refused};
use s10_lines::WriteFault;
use s10_link::UdpLink;
use sqlite::{FileStore, Files};
use sqlite_disk::Disk;
use std::io::Write;

/// Closes the files of a ledger, whether or not the job over it succeeded. Returns how the job ended,
/// or reports that the last calls could not be committed or that the files could not be closed.
pub(crate) fn end_closed<'a, F: Disk + Drop, W: Write>(
    rt: &HostRuntime,
    path: &str,
    ledger: ClosedBook<FileStore<F>>,
    done: Result<JobStatus, WriteFault>,
    link: Option<UdpLink>,
    out: &mut W,
) -> JobEnd<'a, Files<F>>
    ensures closed { HasClosed ledger.connection ledger.committed done (W.contents out.old)
        (W.contents out.new) result.done result.resources.files }
    ensures link { result.resources.link ≡ link }
{
    let ClosedBook {
        connection,
        committed,
    } = ledger;
    let closed = checkpoint_and_close(rt, path, connection);
    let (done, files) = ended(done, committed, closed, out);
    JobEnd {
        done,
        resources: JobResources {
            files,
            link,
            ..JobResources::none()
        },
    }
}

/// Reports why a ledger was refused, closes its files as they are, and puts back what opening them
/// wrote. Its last commits may be in the log alone.
pub(crate) fn end_refused<'a, F: Disk + Drop, W: Write>(
    rt: &HostRuntime,
    file: &LedgerFile<'_>,
    refused: Refused<FileStore<F>>,
    out: &mut W,
) -> JobEnd<'a, Files<F>>
    requires idle { refused.connection.in_transaction ≡ false }
    ensures printed { IfOk result.done (λ status. (status ≡ JobStatus.Failed)
        × Appends (W.contents out.old) (W.contents out.new) (ledger_line refused.refusal.fault)) }
    ensures of { IfSome result.resources.files (AreFilesOf refused.connection) }
    ensures kept { IfSome result.resources.files (Keeps refused.connection) }
    ensures committed { IsOpen over_files refused.connection
        → (file_state refused.connection).committed ≡ (file_state refused.connection).now }
    ensures unlinked { result.resources.link ≡ None }
{
    let Refused {
        refusal,
        connection,
    } = refused;
    let files = close_refused(connection);
    if files.is_some() {
        file.put_back(rt);
    }
    JobEnd {
        done: fail_by_ledger(refusal.fault, out),
        resources: JobResources {
            files,
            ..JobResources::none()
        },
    }
}

/// Reports why a file cannot be created or opened.
pub(crate) fn not_connected<'a, F, W: Write>(fault: OpenFault, out: &mut W) -> JobEnd<'a, F>
    ensures done { IfOk result.done (λ status. (status ≡ JobStatus.Failed)
        × Appends (W.contents out.old) (W.contents out.new) (ledger_line fault)) }
    ensures nothing { result.resources ≡ no_resources }
{
    JobEnd {
        done: fail_by_ledger(fault, out),
        resources: JobResources::none(),
    }
}

// Returns how the job ended, or reports that the last calls could not be committed or that the
// ledger could not be closed.
fn ended<T, W: Write>(
    done: Result<JobStatus, WriteFault>,
    committed: Result<(), BookFault>,
    closed: Result<T, OpenFault>,
    out: &mut W,
) -> (Result<JobStatus, WriteFault>, Option<T>)
    ensures kept { IfSome result.1 (λ files. (closed ≡ Ok files)
        × EndsAs committed done (W.contents out.old) (W.contents out.new) result.0) }
    ensures lost { result.1 ≡ None → (fault : OpenFault) × (closed ≡ Err fault)
        × IfOk result.0 (λ status. IsOk done × (status ≡ JobStatus.Failed)
        × Appends (W.contents out.old) (W.contents out.new) (ledger_line fault)) }
{
    match closed {
        Ok(files) => match committed {
            Ok(()) => (done, Some(files)),
            Err(_) => (fail_by_closing(done, OpenFault::Store, out), Some(files)),
        },
        Err(fault) => (fail_by_closing(done, fault, out), None),
    }
}

fn fail_by_closing<W: Write>(
    done: Result<JobStatus, WriteFault>,
    fault: OpenFault,
    out: &mut W,
) -> Result<JobStatus, WriteFault>
    ensures { IfOk result (λ status. IsOk done × (status ≡ JobStatus.Failed)
        × Appends (W.contents out.old) (W.contents out.new) (ledger_line fault)) }
{
    let _status = done?;
    fail_by_ledger(fault, out)
}
