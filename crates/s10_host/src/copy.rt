//! Copies the ledger in a file to a new pair of files, and audits the copy.

ghost use Rattle.std.specs.Prelude.{◌≡◌, [], Ok, IfOk};
ghost use Rattle.std.specs.Io.KnownBytes.{Appends};
ghost use Rattle.s10_host.specs.Audited.{audit_status};
ghost use Rattle.s10_host.specs.Copying.{HasCopied, EndsAudit, EndsCopy, EndsSnapshot};
ghost use Rattle.s10_host.specs.Copying.{copied_line, copy_fault_line, copy_fault_status};

use crate::audit::audit_ledger;
use crate::closing::not_connected;
use crate::copy_resources::CopyResources;
use crate::drawn_seed::drawn_seed;
use crate::job_end::JobEnd;
use crate::job_resources::JobResources;
use crate::progress::Progress;
use crate::snapshot::{connect_to_bytes, fail_by_snapshot};
use crate::snapshot_resources::MemoryConnection;
use s10_jobs::{JobStatus, fail_by_ledger, refuse};
use s10_ledger::{HashSeed, OpenFault};
use s10_lines::{WriteFault, write_decimal, write_text};
use s10_snapshot::{CopyFault, HostSource, HostTarget, LedgerBytes, take_snapshot, write_copy};
use std::io;
use std::io::Write;

/// Writes a snapshot of the ledger to a new pair of files, reads these again, and audits what was
/// read.
pub(crate) fn run_copy<'a, F, W: Write>(
    rt: &'a HostRuntime,
    ledger: &'a str,
    to: &'a str,
    seed: io::Result<HashSeed>,
    out: &mut W,
) -> JobEnd<'a, F>
    ensures { HasCopied ledger.now to.now (W.contents out.old) (W.contents out.new) result.done
        result.resources.copied }
{
    let seed = match drawn_seed(rt, seed) {
        Ok(seed) => seed,
        Err(fault) => return not_connected(fault, out),
    };
    let mut source = HostSource::new(rt, ledger);
    let mut target = HostTarget::new(rt, to, ledger);
    let mut again = HostSource::new(rt, to);
    match take_snapshot(rt.alloc(), &mut source) {
        Ok(bytes) => {
            let (done, left) = copy_to(rt, to, seed, bytes, &mut target, &mut again, out);
            JobEnd {
                done,
                resources: JobResources {
                    copied: Some(CopyResources {
                        source,
                        target,
                        again,
                        left,
                    }),
                    ..JobResources::none()
                },
            }
        }
        Err(fault) => JobEnd {
            done: fail_by_snapshot(fault, out),
            resources: JobResources {
                copied: Some(CopyResources {
                    source,
                    target,
                    again,
                    left: None,
                }),
                ..JobResources::none()
            },
        },
    }
}

// Writes the bytes to the target, and audits what is read again. Also returns the connection to that.
fn copy_to<W: Write>(
    rt: &HostRuntime,
    path: &str,
    seed: HashSeed,
    bytes: LedgerBytes,
    target: &mut HostTarget<'_>,
    again: &mut HostSource<'_>,
    out: &mut W,
) -> (Result<JobStatus, WriteFault>, Option<MemoryConnection>)
    requires unwritten { target.old.calls ≡ [] }
    requires unread { again.old.calls ≡ [] }
    ensures copied { EndsSnapshot (W.contents out.old) (W.contents out.new) result.0 (Ok bytes)
        target.new.calls again.new.calls result.1 }
    ensures at { target.new.paths ≡ target.old.paths }
    ensures again_at { again.new.path ≡ again.old.path }
{
    match write_copy(target, bytes) {
        Ok(()) => audit_copy(rt, path, seed, again, out),
        Err(fault) => (fail_by_copy(fault, out), None),
    }
}

// Reads the files of a copy, and audits their bytes.
fn audit_copy<W: Write>(
    rt: &HostRuntime,
    path: &str,
    seed: HashSeed,
    again: &mut HostSource<'_>,
    out: &mut W,
) -> (Result<JobStatus, WriteFault>, Option<MemoryConnection>)
    requires unread { again.old.calls ≡ [] }
    ensures copied { EndsCopy (W.contents out.old) (W.contents out.new) result.0 (Ok tt)
        again.new.calls result.1 }
    ensures at { again.new.path ≡ again.old.path }
{
    match take_snapshot(rt.alloc(), again) {
        Ok(bytes) => audit_bytes(rt, path, seed, bytes, out),
        Err(fault) => (fail_by_snapshot(fault, out), None),
    }
}

// Opens the bytes as a database, audits it and prints what was found.
fn audit_bytes<W: Write>(
    rt: &HostRuntime,
    path: &str,
    seed: HashSeed,
    bytes: LedgerBytes,
    out: &mut W,
) -> (Result<JobStatus, WriteFault>, Option<MemoryConnection>)
    ensures { EndsAudit (W.contents out.old) (W.contents out.new) result.0 (Ok bytes) result.1 }
{
    match connect_to_bytes(rt, path, bytes) {
        Ok(connection) => {
            let mut progress = Progress::new(rt, path);
            let (found, left) = audit_ledger(rt.alloc(), seed, connection, &mut progress);
            (write_copied(found, out), Some(left))
        }
        Err(fault) => (fail_by_ledger(fault, out), None),
    }
}

fn write_copied<W: Write>(
    found: Result<u32, OpenFault>,
    out: &mut W,
) -> Result<JobStatus, WriteFault>
    ensures { IfOk result (λ status. (status ≡ audit_status found)
        × Appends (W.contents out.old) (W.contents out.new) (copied_line found)) }
{
    match found {
        Ok(count) => {
            write_text(b"copied", out)?;
            write_decimal(count, out)?;
            write_text(b"\n", out)?;
            Ok(JobStatus::Done)
        }
        Err(fault) => fail_by_ledger(fault, out),
    }
}

// Reports why the copy was not written.
fn fail_by_copy<W: Write>(fault: CopyFault, out: &mut W) -> Result<JobStatus, WriteFault>
    ensures { IfOk result (λ status. (status ≡ copy_fault_status fault)
        × Appends (W.contents out.old) (W.contents out.new) (copy_fault_line fault)) }
{
    match fault {
        CopyFault::Taken => refuse(b"taken", out),
        CopyFault::Store => fail_by_ledger(OpenFault::Store, out),
    }
}
