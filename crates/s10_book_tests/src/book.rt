//! Tests of books, rules and reports, of ranges in memory, of the book with an index, and of
//! seeds of hashes.

mod answers;
mod batched;
mod books;
mod both_books;
mod dates;
mod failures;
mod granted;
mod hash_seeds;
mod info;
mod lookups;
mod marks;
mod mixed;
mod nine;
mod ranges;
mod reads;
mod reports;
mod successive_draws;
mod trips;
mod used_ranges;
mod withdrawals;
