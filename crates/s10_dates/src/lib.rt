//! Civil dates of days.
#![tactic(auto)]

mod date;

pub use date::{Date, date_of, two_digits};
