//! Prints a report of the ledger in a file.

ghost use Rattle.std.specs.Prelude.{◌≡◌, ◌⊎◌, false};
ghost use Rattle.sqlite_wal.specs.Files.{image_at};
ghost use Rattle.sqlite_wal.specs.Recovery.{Image};
ghost use Rattle.s10_host.specs.Files.{system_files, IsFoundIn};
ghost use Rattle.s10_host.specs.Jobs.{HasReported, IsReportOf, IsUnopened};

use crate::closing::{end_closed, end_refused, not_connected};
use crate::drawn_seed::drawn_seed;
use crate::files::{ClosedFiles, connect_to_ledger};
use crate::job_end::JobEnd;
use crate::job_resources::JobResources;
use crate::ledger_file::LedgerFile;
use crate::progress::Progress;
use crate::report_over::report_over;
use s10_jobs::{Days, Report, ReportKind, fail_by_clock};
use s10_ledger::HashSeed;
use sqlite::{Connection, FileStore, Files, Start};
use sqlite_disk::Disk;
use std::io;
use std::io::Write;

/// Prints the report. Determines its day before the ledger is opened.
pub(crate) fn run_report<'a, S: Start, D: Days, W: Write>(
    rt: &HostRuntime,
    ledger: &str,
    kind: ReportKind,
    day: Option<u32>,
    seed: io::Result<HashSeed>,
    start: S,
    days: &mut D,
    out: &mut W,
) -> JobEnd<'a, ClosedFiles<S>>
    ensures { HasReported (system_files S.row S.Start) (image_at S.Start) D.gives kind day
        days.old days.new (W.contents out.old) (W.contents out.new) result.done
        result.resources.files }
{
    let Some(report) = Report::new(days, kind, day) else {
        return JobEnd {
            done: fail_by_clock(out),
            resources: JobResources::none(),
        };
    };
    let seed = match drawn_seed(rt, seed) {
        Ok(seed) => seed,
        Err(fault) => return not_connected(fault, out),
    };
    let file = LedgerFile::find(rt, ledger);
    match connect_to_ledger(rt, &file, start) {
        Ok(connection) => report_on_disk(rt, &file, seed, connection, report, out),
        Err(fault) => not_connected(fault, out),
    }
}

// Prints a report of the ledger of a connection to a file, and closes its files.
fn report_on_disk<'a, F: Disk + Drop, W: Write>(
    rt: &HostRuntime,
    file: &LedgerFile<'_>,
    seed: HashSeed,
    connection: Connection<FileStore<F>>,
    report: Report,
    out: &mut W,
) -> JobEnd<'a, Files<F>>
    requires idle { connection.in_transaction ≡ false }
    ensures { (held : Image) → IsFoundIn held connection
        → IsUnopened F.Disk held (W.contents out.old) (W.contents out.new) result.done
        result.resources.files
        ⊎ IsReportOf F.Disk held report (W.contents out.old) (W.contents out.new) result.done
        result.resources.files }
{
    let mut progress = Progress::new(rt, file.path);
    match report_over(rt.alloc(), seed, connection, report, &mut progress, out) {
        Ok((done, ledger)) => end_closed(rt, file.path, ledger, done, None, out),
        Err(refused) => end_refused(rt, file, refused, out),
    }
}
