//! Identifiers of postal items (UPU S10): their parts, their spelling, reading and writing.
#![tactic(auto)]

mod country;
mod digits;
mod group;
mod id;
mod label;
mod laws;
mod letter_pair;
mod pair;
mod places;
mod serial;
mod service;
mod text_fault;

pub use country::Country;
pub use digits::{check_digit, serial_digits};
pub use group::Group;
pub use id::Id;
pub use laws::one_spelling_each;
pub use pair::pair_number;
pub use serial::Serial;
pub use service::Service;
pub use text_fault::TextFault;
