//! Writes a copy of a ledger.

ghost use Rattle.std.specs.Prelude.{◌≡◌, []};
ghost use Rattle.s10_snapshot.specs.Copies.{AreMade, RemovesParts, WritesCopy, steps_of};

use crate::copy_fault::CopyFault;
use crate::ledger_bytes::LedgerBytes;
use crate::part::Part;
use crate::target::Target;

/// Writes the bytes of a ledger's two files to two new files, syncs these, and then names them: the
/// log first, and the file once the log's name is synced.
///
/// # Errors
///
/// That of the first call that failed. The new files are removed then.
///
/// - `Taken` if a file has one of the names.
/// - `Store` if a call of the system failed, or memory is lacking.
pub fn write_copy<T: Target>(target: &mut T, bytes: LedgerBytes) -> Result<(), CopyFault>
    requires { T.calls target.old ≡ [] }
    ensures written { WritesCopy bytes (T.calls target.new) result }
    ensures at { T.paths target.new ≡ T.paths target.old }
{
    target.create(Part::File)?;
    if let Err(fault) = target.create(Part::Log) {
        let _ = target.remove(Part::File);
        return Err(fault);
    }
    match write_parts(target, bytes) {
        Ok(()) => Ok(()),
        Err(fault) => {
            remove_parts(target);
            Err(fault)
        }
    }
}

// Writes, syncs and names two files that were created. Stops at the first call that fails.
fn write_parts<T: Target>(target: &mut T, bytes: LedgerBytes) -> Result<(), CopyFault>
    ensures made { AreMade (steps_of bytes) (T.calls target.old) (T.calls target.new) result }
    ensures at { T.paths target.new ≡ T.paths target.old }
{
    target.write(Part::File, bytes.file)?;
    target.write(Part::Log, bytes.log)?;
    target.sync(Part::File)?;
    target.sync(Part::Log)?;
    target.name(Part::Log)?;
    target.sync_folder()?;
    target.name(Part::File)?;
    target.sync_folder()
}

// Removes both files. A file that stays needs its log: without it fewer calls would be in the copy.
fn remove_parts<T: Target>(target: &mut T)
    ensures removed { RemovesParts (T.calls target.old) (T.calls target.new) }
    ensures at { T.paths target.new ≡ T.paths target.old }
{
    if target.remove(Part::File).is_ok() {
        let _ = target.remove(Part::Log);
    }
}
