//! The fault of a book, or of an opening, that an error of a statement becomes.

ghost use Rattle.std.specs.Prelude.{◌≡◌, ◌≢◌, ◌↔◌, Some};
ghost use Rattle.s10_book.specs.declared.book_fault.BookFault.TheVariants.{Full};
ghost use Rattle.s10_ledger.specs.Faults.{IsFaultOf};

use s10_book::BookFault;
use s10_replay::fault_of_book;
use s10_rows::OpenFault;
use sqlite::{Error, ErrorCode};

// Returns `Memory` if the error is lack of memory, and `Store` for any other error.
pub(crate) fn fault_of(error: Error) -> BookFault
    ensures not_full { result ≢ Full }
    ensures memory { (result ≡ BookFault.Memory)
        ↔ (error ≡ Error.SqliteFailure ErrorCode.OutOfMemory) }
{
    match error {
        Error::SqliteFailure(ErrorCode::OutOfMemory) => BookFault::Memory,
        _ => BookFault::Store,
    }
}

// Keeps the error as the last failure, and returns its fault.
pub(crate) fn keep_failure(last_failure: &mut Option<Error>, error: Error) -> BookFault
    ensures not_full { result ≢ Full }
    ensures memory { (result ≡ BookFault.Memory)
        ↔ (error ≡ Error.SqliteFailure ErrorCode.OutOfMemory) }
    ensures kept { last_failure.new ≡ Some error }
{
    *last_failure = Some(error);
    fault_of(error)
}

// Returns the fault of the opening, for an error of a statement that should succeed.
pub(crate) fn opening_fault(error: Error) -> OpenFault
    ensures { IsFaultOf error result }
{
    fault_of_book(fault_of(error))
}
