//! Writes a report of the ledger of a connection, over any store.

ghost use Rattle.std.specs.Prelude.{◌≡◌, false, IfOk, IfErr};
ghost use Rattle.s10_host.specs.LedgerJobs.{IsLeftByRefusal, IsRefusedLeft, IsReportedOn, IsUsed};

use s10_jobs::{JobStatus, Report, write_report};
use s10_ledger::{ClosedBook, HashSeed, Observer, Refused, SqlBook};
use s10_lines::WriteFault;
use sqlite::{Alter, Connection};
use std::alloc::Global;
use std::io::Write;

/// Opens the ledger of a connection, writes a report of it and closes it. Returns how the report
/// ended, and the closed ledger.
///
/// # Errors
///
/// `Refused` if the ledger cannot be opened. Nothing is written then.
pub(crate) fn report_over<A: Alter + Drop, K: Observer, W: Write>(
    alloc: Global,
    seed: HashSeed,
    connection: Connection<A>,
    report: Report,
    observer: &mut K,
    out: &mut W,
) -> Result<(Result<JobStatus, WriteFault>, ClosedBook<A>), Refused<A>>
    requires idle { connection.in_transaction ≡ false }
    ensures reported { IfOk result (λ r. IsUsed A.Store
        (IsReportedOn A.Store report (W.contents out.old) (W.contents out.new) r.0)
        connection r.1.connection r.1.committed) }
    ensures refused { IfErr result (λ r. IsRefusedLeft A.Store connection r.connection
        r.refusal.fault) }
    ensures left { IfErr result (λ r. IsLeftByRefusal A.Store connection r.connection) }
    ensures silent { IfErr result (λ r. W.contents out.new ≡ W.contents out.old) }
{
    let mut book = SqlBook::open(alloc, seed, connection, observer)?;
    let done = write_report(&mut book, report, out);
    Ok((done, book.close()))
}
