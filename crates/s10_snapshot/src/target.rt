//! The trait of what a copy of a ledger is written to.

ghost use Rattle.std.specs.Prelude.{◌≡◌, ◌∷◌};
ghost use Rattle.s10_snapshot.specs.Copies.{CopyCalls, CopyPaths};
ghost use Rattle.s10_snapshot.specs.declared.copy_call.CopyCall.TheVariants.{Create, Write, Sync, Name};
ghost use Rattle.s10_snapshot.specs.declared.copy_call.CopyCall.TheVariants.{SyncFolder, Remove};

use crate::copy_fault::CopyFault;
use crate::part::Part;

/// Two new files for a copy of a ledger: its file, and its log beside that. Each is created under
/// another name first.
///
/// A call that fails leaves each file where it is.
pub trait Target {
    /// The path of the copy, and that of the ledger.
    ghost paths: { Self → CopyPaths };

    /// The calls that were made, the last first, each with its result.
    ghost calls: { Self → CopyCalls };

    /// Creates a new file beside the name that it gets later.
    ///
    /// # Errors
    ///
    /// - `Taken` if a file has that name, or the one beside. It stays as it is.
    /// - `Store` if a call of the system failed, or memory is lacking.
    fn create(&mut self, part: Part) -> Result<(), CopyFault>
        ensures made { calls self.new ≡ (Create part, result) ∷ calls self.old }
        ensures at { paths self.new ≡ paths self.old };

    /// Appends bytes to a new file.
    ///
    /// # Errors
    ///
    /// `Store` if a call of the system failed.
    fn write(&mut self, part: Part, bytes: Vec<u8>) -> Result<(), CopyFault>
        ensures made { calls self.new ≡ (Write part bytes, result) ∷ calls self.old }
        ensures at { paths self.new ≡ paths self.old };

    /// Makes what a new file holds survive a stop of the machine.
    ///
    /// # Errors
    ///
    /// `Store` if a call of the system failed.
    fn sync(&mut self, part: Part) -> Result<(), CopyFault>
        ensures made { calls self.new ≡ (Sync part, result) ∷ calls self.old }
        ensures at { paths self.new ≡ paths self.old };

    /// Gives a new file its name, in place of the one beside.
    ///
    /// # Errors
    ///
    /// - `Taken` if a file has that name. It stays as it is.
    /// - `Store` if a call of the system failed.
    fn name(&mut self, part: Part) -> Result<(), CopyFault>
        ensures made { calls self.new ≡ (Name part, result) ∷ calls self.old }
        ensures at { paths self.new ≡ paths self.old };

    /// Makes the names in the folder survive a stop of the machine.
    ///
    /// # Errors
    ///
    /// `Store` if a call of the system failed.
    fn sync_folder(&mut self) -> Result<(), CopyFault>
        ensures made { calls self.new ≡ (SyncFolder, result) ∷ calls self.old }
        ensures at { paths self.new ≡ paths self.old };

    /// Removes a new file.
    ///
    /// # Errors
    ///
    /// `Store` if a call of the system failed.
    fn remove(&mut self, part: Part) -> Result<(), CopyFault>
        ensures made { calls self.new ≡ (Remove part, result) ∷ calls self.old }
        ensures at { paths self.new ≡ paths self.old };
}
