/// The state of an identifier, in the reply to a Query.
///
/// A day is a whole number, counted as the server's clock counts.
#[derive(Clone, Copy, Debug, PartialEq, Eq)]
pub enum Status {
    /// The identifier is in no range.
    Unknown,
    /// The identifier is in a range, and was never issued.
    Never,
    /// The identifier was last issued on this day.
    Issued { day: u32 },
    /// The identifier was last issued on this day, and then voided.
    Voided { day: u32 },
}
