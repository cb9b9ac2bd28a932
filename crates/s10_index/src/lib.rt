//! The calls of a ledger with an index, which answers the reads of the rules without a walk over
//! the calls; the book in memory over it; and what a call writes to the tables.
#![tactic(auto)]

mod blocks;
mod call_index;
mod call_log;
mod call_writes;
mod compact_call;
mod compact_outcome;
mod hash_chains;
mod indexed_book;
mod issue_log;
mod issue_place;
mod issue_writes;
mod key_hash;
mod last_issuance;
mod positions;
mod row_id;
mod row_writes;
mod rows;

pub use call_index::CallIndex;
pub use call_log::CallLog;
pub use call_writes::call_write;
pub use indexed_book::IndexedBook;
pub use s10_ranges::HashSeed;
