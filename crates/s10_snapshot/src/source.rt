//! The trait of what reads a ledger's two files.

ghost use Rattle.std.specs.Prelude.{◌≡◌, ◌∷◌, ℕ, List};
ghost use Rattle.s10_snapshot.specs.Readings.{ReadCalls};

use crate::part::Part;
use crate::snapshot_fault::ReadFault;

/// The two files of a ledger, to be read. Another process may change them.
pub trait Source {
    /// The path of the ledger.
    ghost path: { Self → List ℕ };

    /// The calls that were made, the last first, each with the bytes that it returned or its fault.
    ghost calls: { Self → ReadCalls };

    /// Returns the first bytes of a file, at most this many.
    ///
    /// # Errors
    ///
    /// - `Missing` if the file is not there, in a folder that is.
    /// - `Memory` if out of memory.
    /// - `Store` if a call of the system failed.
    fn read(&mut self, part: Part, most: u64) -> Result<Vec<u8>, ReadFault>
        ensures read { calls self.new ≡ (record { part = part; most = most }, result) ∷ calls self.old }
        ensures at { path self.new ≡ path self.old };
}
