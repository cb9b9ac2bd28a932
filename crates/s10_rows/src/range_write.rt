use crate::range_row::RangeRow;

/// One write of a call to the table `ranges`.
#[derive(Clone, Copy, Debug, PartialEq, Eq)]
pub enum RangeWrite {
    /// Inserts the row.
    New(RangeRow),
    /// Sets the mark of the row with that number.
    Mark { num: i64, mark: i64 },
}
