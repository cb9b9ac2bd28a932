//! The book over SQL tables: the committed calls are in the tables of a database, the pending ones
//! in the process.
#![tactic(auto)]

mod closed_book;
mod faults;
mod lookups;
mod opening;
mod pending;
mod refusal;
mod refused;
mod sql_book;

pub use closed_book::ClosedBook;
pub use refusal::Refusal;
pub use refused::Refused;
pub use s10_ranges::HashSeed;
pub use s10_rows::OpenFault;
pub use s10_statements::{NoObserver, Observer};
pub use sql_book::SqlBook;
