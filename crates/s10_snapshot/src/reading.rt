//! One reading of a ledger's two files.

ghost use Rattle.std.specs.Prelude.{◌≡◌, ◌↔◌, take, IsTrue};
ghost use Rattle.s10_snapshot.specs.Readings.{GivesLog, IsOfOneLog, IsRead};

use crate::ledger_bytes::LedgerBytes;
use crate::part::Part;
use crate::snapshot_fault::ReadFault;
use crate::source::Source;
use std::alloc::Global;

/// The length in bytes of the header of a log.
pub const HEADER_LEN: usize = 32;

/// What was read, in this order: the header of the log, the file, the log, and the header again.
#[derive(Drop)]
pub struct Reading {
    /// The header before the file was read. Shorter if the log was.
    pub before: Vec<u8>,
    /// The bytes of both files.
    pub bytes: LedgerBytes,
    /// The header after the log was read. Shorter if the log was.
    pub after: Vec<u8>,
}

/// Reads the files of a ledger once, and the header of its log before and after.
///
/// # Errors
///
/// The fault of the first call that failed. A missing log is none: it has no bytes.
pub fn read_files<S: Source>(alloc: Global, source: &mut S) -> Result<Reading, ReadFault>
    ensures read { IsRead (S.calls source.old) (S.calls source.new) result }
    ensures at { S.path source.new ≡ S.path source.old }
{
    let before = read_log(alloc, source, HEADER_LEN as u64)?;
    let file = source.read(Part::File, u64::MAX)?;
    let log = read_log(alloc, source, u64::MAX)?;
    let after = read_log(alloc, source, HEADER_LEN as u64)?;
    Ok(Reading {
        before,
        bytes: LedgerBytes { file, log },
        after,
    })
}

// Returns the first bytes of the log. A missing log has none.
fn read_log<S: Source>(alloc: Global, source: &mut S, most: u64) -> Result<Vec<u8>, ReadFault>
    ensures given { GivesLog most (S.calls source.old) (S.calls source.new) result }
    ensures at { S.path source.new ≡ S.path source.old }
{
    match source.read(Part::Log, most) {
        Ok(log) => Ok(log),
        Err(ReadFault::Missing) => Ok(Vec::new(alloc)),
        Err(fault) => Err(fault),
    }
}

/// Returns whether no checkpoint restarted the log while the files were read.
///
/// A server moves the log into the file, and then restarts the log under another header. Until
/// then the log holds every page that it writes into the file. So the log that was read mends each
/// page of the file that was read too early or in parts.
pub fn is_of_one_log(reading: &Reading) -> bool
    ensures { IsTrue result ↔ IsOfOneLog reading.now }
{
    let header = header_of(reading.bytes.log.as_slice());
    header == reading.before.as_slice() && header == reading.after.as_slice()
}

fn header_of(log: &[u8]) -> &[u8]
    ensures { result.now ≡ take 32 log.now }
{
    if log.len() < HEADER_LEN {
        return log;
    }
    &log[..HEADER_LEN]
}
