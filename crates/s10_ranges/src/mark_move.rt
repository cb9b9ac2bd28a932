use crate::lap::Lap;
use crate::mark::Mark;

/// How an issuance moves the mark of its range.
#[derive(Clone, Copy, Debug, PartialEq, Eq)]
pub struct MarkMove {
    /// The number of the range, from 1.
    pub num: u32,
    /// The lap of the range before the issuance.
    pub lap: Lap,
    /// The mark of the range after the issuance.
    pub mark: Mark,
}
