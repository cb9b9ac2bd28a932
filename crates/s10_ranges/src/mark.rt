use crate::lap::Lap;
use s10_core::Serial;

/// The mark of a range: the serial that it gives next, and its lap.
#[derive(Clone, Copy, Debug, PartialEq, Eq)]
pub struct Mark {
    /// The pick: the serial that the range gives next.
    pub serial: Serial,
    /// Whether the mark has wrapped around.
    pub lap: Lap,
}
