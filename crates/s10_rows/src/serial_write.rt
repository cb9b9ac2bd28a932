use crate::serial_row::SerialRow;

/// One write of a call to the table `serials`.
#[derive(Clone, Copy, Debug, PartialEq, Eq)]
pub enum SerialWrite {
    /// Inserts the row. The table has no row of its identifier.
    New(SerialRow),
    /// Inserts the row, or replaces the row of its identifier if there is one.
    Again(SerialRow),
}
