use crate::book::Book;
use crate::book_fault::BookFault;
use s10_history::Entry;

/// The greatest number of calls that are committed together: of the datagrams in a batch, and of
/// the calls that are pending.
pub const MAX_BATCH: u32 = 64;

/// A book that may append calls first and commit them later, several at once.
///
/// A pending call is in the history but is lost if the process dies. A committed call is durable. A
/// server sends a reply only once its call is committed.
pub trait GroupCommit: Book {
    ghost use Rattle.s10_book.specs.Rules.{MayFollow};
    ghost use Rattle.s10_book.specs.BookFault.{CountsResult};
    ghost use Rattle.s10_book.specs.Book.{Grows, FindsAfter, IsPerhapsWith};
    ghost use Rattle.s10_book.specs.GroupCommit.{IsCommittedCall, CommitsSome};
    ghost use Rattle.s10_history.specs.declared.entry.Entry.{Entry};
    ghost use Rattle.s10_book.specs.declared.book_fault.BookFault.{BookFault};
    ghost use Rattle.std.specs.Prelude.{◌≡◌, ◌↔◌, ◌++◌, ◌∷◌, [], ⊤, Result, IsTrue, OnErr, OnOk};

    /// What an append does to the store beneath the book. Says nothing, unless a book defines it.
    ghost appends: { Self → Self → Entry → Result ⊤ BookFault → Type 0 } = { λ _ _ _ _. ⊤ };

    /// Adds a call at the end of the history, as `keep` does. It need not be committed.
    ///
    /// # Errors
    ///
    /// - `Memory` if memory is refused.
    /// - `Store` if the store fails, or if as many calls are pending as the book can hold.
    fn append(&mut self, entry: Entry) -> Result<(), BookFault>
        requires { Self.honest self.old → MayFollow (Self.history self.old) (Self.terms self.old)
            entry }
        ensures faults { CountsResult result (Self.faults self.old) (Self.faults self.new) }
        ensures was_honest { Self.honest self.new → Self.honest self.old }
        ensures same_terms { Self.honest self.new → Self.terms self.new ≡ Self.terms self.old }
        ensures ok { Self.honest self.new
            → OnOk result (Self.history self.new ≡ Self.history self.old ++ entry ∷ []) }
        ensures err { Self.honest self.new
            → OnErr result (Self.history self.new ≡ Self.history self.old) }
        ensures stays_committed { Self.honest self.new
            → Grows (Self.committed self.old) (Self.committed self.new) }
        ensures opened { Self.clean self.new → OnOk result (Self.honest self.new) }
        ensures stop { FindsAfter Self.honest Self.clean Self.may_find self.old self.new
            (IsPerhapsWith (Self.history self.old) entry) }
        ensures appends { Self.appends self.old self.new entry result };

    /// Commits all pending calls. After an error an honest book may have committed the first of
    /// them; the others are still pending.
    ///
    /// # Errors
    ///
    /// - `Memory` if memory is refused.
    /// - `Store` if the store fails.
    fn commit(&mut self) -> Result<(), BookFault>
        ensures faults { CountsResult result (Self.faults self.old) (Self.faults self.new) }
        ensures commits_some { CommitsSome Self.history Self.committed Self.terms Self.honest Self.clean
            Self.may_find self.old self.new }
        ensures opened { Self.clean self.new → OnOk result (Self.honest self.new) }
        ensures done { Self.honest self.new
            → OnOk result (Self.committed self.new ≡ Self.history self.new) };

    /// Returns whether no pending call has this key.
    fn is_committed(&self, customer: u32, number: u32) -> bool
        ensures { Self.honest self.now
            → (IsTrue result ↔ IsCommittedCall (Self.committed self.now) (Self.history self.now)
            customer number) };
}
