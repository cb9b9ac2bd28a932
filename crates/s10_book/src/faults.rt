ghost use Rattle.std.specs.Prelude.{◌≡◌};
ghost use Rattle.s10_book.specs.BookFault.{CountsFault};

use crate::book_fault::BookFault;

/// The number of faults of a book, of each kind. A count stays at the greatest u64.
#[derive(Clone, Copy, Debug, PartialEq, Eq)]
pub struct Faults {
    /// Number of calls for which memory was refused.
    pub memory: u64,
    /// Number of calls for which the store beneath the book failed.
    pub store: u64,
}

impl Faults {
    ghost use Rattle.std.specs.Prelude.{◌≡◌};

    /// Returns the counts before the first fault.
    pub fn none() -> Faults
        ensures memory { result.memory ≡ 0 }
        ensures store { result.store ≡ 0 }
    {
        Faults {
            memory: 0,
            store: 0,
        }
    }

    /// Counts a fault of the book. Ignores `Full`, which is the server's answer.
    pub fn add(&mut self, fault: BookFault)
        ensures { CountsFault fault self.old self.new }
    {
        match fault {
            BookFault::Memory => self.memory = self.memory.saturating_add(1),
            BookFault::Store => self.store = self.store.saturating_add(1),
            BookFault::Full => {}
        }
    }
}
