ghost use Rattle.std.specs.Prelude.{◌≡◌};

use crate::refusal::Refusal;
use s10_statements::Observer;
use sqlite::{Alter, Connection};

/// Why a ledger could not be created or opened, with its connection.
pub struct Refused<S: Alter> {
    /// Why it was refused.
    pub refusal: Refusal,
    /// The connection, returned to the caller.
    pub connection: Connection<S>,
}

impl<S: Alter> Refused<S> {
    // Returns the refusal with the connection. Reports the error of a statement to the observer.
    pub(crate) fn new<W: Observer>(
        refusal: Refusal,
        connection: Connection<S>,
        observer: &mut W,
    ) -> Refused<S>
        ensures refusal { result.refusal ≡ refusal }
        ensures connection { result.connection ≡ connection }
    {
        if let Some(error) = &refusal.cause {
            observer.statement_failed(error);
        }
        Refused {
            refusal,
            connection,
        }
    }
}
