//! Whether a database file is empty beside a log that is not: its calls may be in the log alone.

ghost use Rattle.std.specs.Prelude.{◌↔◌, IfOk, IsTrue};
ghost use Rattle.sqlite_wal.specs.Reads.{AreClean, OnlyReads};
ghost use Rattle.sqlite.specs.Files.{image_of};
ghost use Rattle.s10_host.specs.Files.{IsEmptied};

use sqlite::Files;
use sqlite_disk::Disk;
use std::io;

/// Returns whether the database file is empty and its log is not. Only reads.
///
/// # Errors
///
/// The system's, if a length cannot be read.
pub(crate) fn is_emptied<D: Disk>(files: &mut Files<D>) -> io::Result<bool>
    requires log { IsTrue (D.Disk.is_usable files.old.log) }
    requires db { IsTrue (D.Disk.is_usable files.old.db) }
    ensures emptied { IfOk result (λ b. AreClean D.Disk files.new.log files.new.db → (IsTrue b
        ↔ IsEmptied (image_of D.Disk files.old))) }
    ensures log { OnlyReads D.Disk files.old.log files.new.log }
    ensures db { OnlyReads D.Disk files.old.db files.new.db }
{
    let len = files.db.len()?;
    let log_len = files.log.len()?;
    Ok(len == 0 && log_len > 0)
}
