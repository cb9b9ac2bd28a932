//! Takes a snapshot of a ledger's two files.

ghost use Rattle.std.specs.Prelude.{◌≡◌, []};
ghost use Rattle.s10_snapshot.specs.Readings.{IsTaken};

use crate::ledger_bytes::LedgerBytes;
use crate::reading::{Reading, is_of_one_log, read_files};
use crate::snapshot_fault::SnapshotFault;
use crate::source::Source;
use std::alloc::Global;

/// The maximum number of readings.
const MAX_READINGS: u32 = 10;

/// Reads the files of a ledger until no checkpoint restarted the log during the read, at most ten
/// times.
///
/// # Errors
///
/// - `Busy` if a checkpoint restarted the log in each of ten readings.
/// - `Unread` if a reading failed.
pub fn take_snapshot<S: Source>(alloc: Global, source: &mut S) -> Result<LedgerBytes, SnapshotFault>
    requires { S.calls source.old ≡ [] }
    ensures taken { IsTaken (S.calls source.new) result }
    ensures at { S.path source.new ≡ S.path source.old }
{
    for _made in 0..MAX_READINGS {
        match read_files(alloc, source) {
            Ok(reading) => {
                if is_of_one_log(&reading) {
                    return Ok(into_bytes(reading));
                }
            }
            Err(fault) => return Err(SnapshotFault::Unread(fault)),
        }
    }
    Err(SnapshotFault::Busy)
}

fn into_bytes(reading: Reading) -> LedgerBytes
    ensures { result ≡ reading.bytes }
{
    reading.bytes
}
