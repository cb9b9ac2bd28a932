//! The typed rows of a ledger's tables: the rows of a history, and what a call writes.
#![tactic(auto)]

mod call_row;
mod call_write;
mod closed_row;
mod head_row;
mod open_fault;
mod prior_issue;
mod range_row;
mod range_write;
mod serial_row;
mod serial_write;

pub use call_row::CallRow;
pub use call_write::CallWrite;
pub use closed_row::ClosedRow;
pub use head_row::HeadRow;
pub use open_fault::OpenFault;
pub use prior_issue::PriorIssue;
pub use range_row::RangeRow;
pub use range_write::RangeWrite;
pub use serial_row::SerialRow;
pub use serial_write::SerialWrite;
