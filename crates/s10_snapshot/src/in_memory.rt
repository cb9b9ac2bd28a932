//! Puts the bytes of a ledger's two files onto a disk in memory.

ghost use Rattle.std.specs.Prelude.{◌≡◌, IfOk, IsTrue};
ghost use Rattle.sqlite_disk.specs.Memory.{memory_bytes, memory_is_usable};

use crate::ledger_bytes::LedgerBytes;
use sqlite_disk::{Disk, Files, Memory};
use std::alloc::{AllocError, Global};

/// Returns two files in memory with these bytes.
///
/// # Errors
///
/// `AllocError` if memory is lacking.
pub fn memory_files(alloc: Global, bytes: &LedgerBytes) -> Result<Files<Memory>, AllocError>
    ensures log { IfOk result (λ files. memory_bytes files.log ≡ bytes.now.log.items) }
    ensures db { IfOk result (λ files. memory_bytes files.db ≡ bytes.now.file.items) }
    ensures usable { IfOk result (λ files. IsTrue (memory_is_usable files.log)
        × IsTrue (memory_is_usable files.db)) }
{
    let log = memory_file(alloc, bytes.log.as_slice())?;
    let db = memory_file(alloc, bytes.file.as_slice())?;
    Ok(Files { log, db })
}

fn memory_file(alloc: Global, bytes: &[u8]) -> Result<Memory, AllocError>
    ensures held { IfOk result (λ file. memory_bytes file ≡ bytes.now) }
    ensures usable { IfOk result (λ file. IsTrue (memory_is_usable file)) }
{
    let mut file = Memory::new(alloc);
    match file.write_at(0, bytes) {
        Ok(()) => Ok(file),
        Err(_) => Err(AllocError),
    }
}
