use crate::range_write::RangeWrite;
use crate::serial_write::SerialWrite;
use s10_history::Entry;
use s10_wire::Frame;

/// What a kept call writes: its own row, and its writes to `ranges` and `serials`.
///
/// The row of `closed` follows from the entry (`ClosedRow::made_by`).
#[derive(Drop)]
pub struct CallWrite {
    /// The arrival of the call, from 1.
    pub arrival: u32,
    /// The call: request, day and outcome.
    pub entry: Entry,
    /// The datagram of the reply.
    pub reply: Frame,
    /// The writes to `ranges`, in the order in which they are applied.
    pub ranges: Vec<RangeWrite>,
    /// The writes to `serials`, in the order in which they are applied.
    pub serials: Vec<SerialWrite>,
}
