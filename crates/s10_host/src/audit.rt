//! Audits a ledger.

ghost use Rattle.std.specs.Prelude.{◌≡◌, ◌∷◌, [], ℕ, false, codes, decimal, Result, OnOk, IfOk};
ghost use Rattle.std.specs.Io.KnownBytes.{Appends};
ghost use Rattle.s10_lines.specs.Lines.{line_of};
ghost use Rattle.s10_rows.specs.declared.open_fault.OpenFault.{OpenFault};
ghost use Rattle.s10_host.specs.Audited.{HasFound, audit_line, audit_status};

use s10_book::Book;
use s10_jobs::{JobStatus, write_ledger_fault};
use s10_ledger::{ClosedBook, HashSeed, Observer, OpenFault, Refused, SqlBook};
use s10_lines::{WriteFault, write_decimal, write_text, write_word};
use sqlite::{Alter, Connection};
use std::alloc::Global;
use std::io::Write;

/// Opens the ledger of a connection, which executes all its calls again, and prints what was found.
/// Also returns the connection.
///
/// Prints `ledger ok N` with the number of calls; the status is `Done`. If there is no ledger,
/// prints `ledger` with the fault; the status is `Failed`.
///
/// # Errors
///
/// `WriteFault` if the output fails.
pub fn run_audit<S: Alter, K: Observer, W: Write>(
    alloc: Global,
    seed: HashSeed,
    connection: Connection<S>,
    observer: &mut K,
    output: &mut W,
) -> (Result<JobStatus, WriteFault>, Connection<S>)
    requires idle { connection.in_transaction ≡ false }
    ensures { (found : Result ℕ OpenFault) × HasFound S.Store connection result.1 found
        × IfOk result.0 (λ status. (status ≡ audit_status found)
        × Appends (W.contents output.old) (W.contents output.new) (audit_line found)) }
{
    let (found, left) = audit_ledger(alloc, seed, connection, observer);
    (write_audit(found, output), left)
}

/// Opens the ledger of a connection, which executes all its calls again. Returns the number of calls,
/// or why there is no ledger. Also returns the connection.
pub(crate) fn audit_ledger<S: Alter, K: Observer>(
    alloc: Global,
    seed: HashSeed,
    connection: Connection<S>,
    observer: &mut K,
) -> (Result<u32, OpenFault>, Connection<S>)
    requires idle { connection.in_transaction ≡ false }
    ensures { HasFound S.Store connection result.1 result.0 }
{
    match SqlBook::open(alloc, seed, connection, observer) {
        Ok(book) => {
            let count = book.len();
            let ClosedBook {
                connection,
                committed: _,
            } = book.close();
            (Ok(count), connection)
        }
        Err(
            Refused {
                refusal,
                connection,
            },
        ) => {
            // Brings into scope that a connection in no transaction has nothing to commit.
            prove!(connection.is_autocommit());
            (Err(refusal.fault), connection)
        }
    }
}

fn write_audit<W: Write>(
    found: Result<u32, OpenFault>,
    out: &mut W,
) -> Result<JobStatus, WriteFault>
    ensures { IfOk result (λ status. (status ≡ audit_status found)
        × Appends (W.contents out.old) (W.contents out.new) (audit_line found)) }
{
    match found {
        Ok(count) => {
            write_count(count, out)?;
            Ok(JobStatus::Done)
        }
        Err(fault) => {
            write_ledger_fault(fault, out)?;
            Ok(JobStatus::Failed)
        }
    }
}

fn write_count<W: Write>(count: u32, out: &mut W) -> Result<(), WriteFault>
    ensures { OnOk result (Appends (W.contents out.old) (W.contents out.new)
        (line_of (codes "ledger") (codes "ok" ∷ decimal count ∷ []))) }
{
    write_text(b"ledger", out)?;
    write_word(b"ok", out)?;
    write_decimal(count, out)?;
    write_text(b"\n", out)
}
