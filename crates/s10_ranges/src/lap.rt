/// Whether a range has issued its last serial yet.
#[derive(Clone, Copy, Debug, PartialEq, Eq)]
pub enum Lap {
    /// No serial at or after the mark was issued.
    First,
    /// The mark has wrapped around: every serial of the range was issued at least once.
    Later,
}
