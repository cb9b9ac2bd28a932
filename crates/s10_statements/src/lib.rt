//! The SQL statements over the five tables of a ledger: they create the tables, read typed rows
//! from them, and write the rows of kept calls.
#![tactic(auto)]

mod creating;
mod from_row;
mod later_marks;
mod migrating;
mod observer;
mod reads;
mod row_reading;
mod row_sink;
mod streamed_row;
mod streams;
mod writes;

pub use creating::{create_tables, refusal_of};
pub use migrating::create_closed;
pub use observer::{NoObserver, Observer};
pub use reads::{all_heads, read_calls, read_closed, read_ranges, read_serials, serials_within};
pub use row_sink::RowSink;
pub use writes::commit_rows;
