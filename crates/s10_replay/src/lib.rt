//! Part of `s10_index`, split off for the prover alone. Reads the calls of a ledger from their rows
//! and executes them again, and computes the derived rows of a call.
#![tactic(auto)]

mod call_reading;
mod column;
mod derived_writes;
mod faults;
mod head_reading;
mod replaying;
mod serial_reading;
mod usage_reading;

pub use derived_writes::{grant_write, issue_writes, issue_writes_are_complete, void_write};
pub use faults::fault_of_book;
pub use head_reading::settings_in;
pub use replaying::replay_row;
pub use usage_reading::usage_among;
