//! The fault of an opening that a fault of a book becomes.

ghost use Rattle.std.specs.Prelude.{◌≡◌, ◌≢◌, ◌⊎◌};

use s10_book::BookFault;
use s10_rows::OpenFault;

/// Returns the fault of the opening: `Memory` for `Memory`, and `Store` for any other fault of the
/// book.
pub fn fault_of_book(fault: BookFault) -> OpenFault
    ensures memory { fault ≡ BookFault.Memory → result ≡ OpenFault.Memory }
    ensures store { fault ≢ BookFault.Memory → result ≡ OpenFault.Store }
    ensures either { (result ≡ OpenFault.Memory) ⊎ (result ≡ OpenFault.Store) }
{
    match fault {
        BookFault::Memory => OpenFault::Memory,
        _ => OpenFault::Store,
    }
}
