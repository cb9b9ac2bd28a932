use crate::ids::Ids;
use crate::status::Status;
use s10_core::Id;

/// The outcome of a request: done, or the first refusal that applies.
///
/// The first six mean done, one for each kind of request. A day is a day of the ledger.
#[derive(Clone, Copy, Debug, PartialEq, Eq)]
pub enum Outcome {
    /// A Grant created the range with this number, from 1.
    Granted { range: u32 },
    /// A Draw issued the identifier on this day.
    Drawn { day: u32, id: Id },
    /// A DrawMany issued the identifiers on this day.
    DrawnMany { day: u32, ids: Ids },
    /// A Void was done.
    Voided,
    /// The status that a Query asked for.
    Told(Status),
    /// A Withdraw closed the range.
    Withdrawn,
    /// A Grant or a Withdraw of a customer other than the post.
    NotThePost,
    /// A Grant to holder 0, or with its first serial number above its last.
    BadGrant,
    /// A Grant that shares a serial number with a range of the same service and country.
    Overlap,
    /// A Draw or a DrawMany of a customer without an open range of that service and country.
    NoRange,
    /// A Draw or a DrawMany for which the customer's open ranges do not have enough free
    /// identifiers.
    NoneFree,
    /// A Void or a Query of an identifier outside the customer's ranges.
    NotYours,
    /// A Void of an identifier that was never issued.
    NotIssued,
    /// A Void of an identifier that is voided.
    AlreadyVoid,
    /// A Withdraw of a number that no range has.
    NoSuchRange,
    /// A Withdraw of a range that is closed.
    Closed,
    /// A request with a number that its customer used for another request.
    NumberReused,
}
