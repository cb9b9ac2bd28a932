//! Tests of ledgers in tables, and of their rows.

mod batches;
mod books;
pub(crate) mod calls;
mod closed_tables;
mod committing;
mod creating;
mod many_draws;
mod many_ranges;
mod marks;
mod narrow_disk;
mod old_ledgers;
mod openings;
mod portions;
mod readings;
mod row_five;
mod row_writes;
mod rows;
mod served_files;
mod sheet_tables;
mod sheets;
mod stops;
mod table_checks;
mod tables;
mod withdrawals;
mod world;
