use s10_book::BookFault;
use sqlite::{Alter, Connection};

/// What the close of a ledger returns.
pub struct ClosedBook<S: Alter> {
    /// The connection, whose tables stand for the committed calls.
    pub connection: Connection<S>,
    /// The result of the commit. After an error the pending calls are lost.
    pub committed: Result<(), BookFault>,
}
