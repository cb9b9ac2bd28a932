//! The rules, which give each request its outcome, and books, which keep a history by these rules.
#![tactic(auto)]

mod batched;
mod book;
mod book_fault;
mod draws;
mod faults;
mod group_commit;
mod last_failure;
mod laws;
mod picks;
mod plain_book;
mod rules;
mod trip_book;

pub use batched::Batched;
pub use book::Book;
pub use book_fault::BookFault;
pub use draws::successive_draws;
pub use faults::Faults;
pub use group_commit::{GroupCommit, MAX_BATCH};
pub use last_failure::LastFailure;
pub use laws::{
    few_free, free_picks, legal_histories, never_twice, overlaps_are_common_serials,
    sheets_are_successive_draws, successive_candidates, successive_picks, withdrawn_ranges,
};
pub use plain_book::PlainBook;
pub use rules::decide;
pub use trip_book::TripBook;
