//! What a ledger holds: its settings and the history of its calls, with the ranges and the
//! issuances of these calls.
#![tactic(auto)]

mod calls;
mod candidate;
mod counts;
mod entry;
mod holder_key;
mod issuance;
mod issue;
mod issues;
mod range;
mod ranges;
mod serial_span;
mod serials;
mod settings;
mod usage;

pub use calls::{closed_in, entry_in, find_in};
pub use candidate::Candidate;
pub use counts::{usage_by, usage_in};
pub use entry::Entry;
pub use holder_key::HolderKey;
pub use issuance::Issuance;
pub use issue::Issue;
pub use issues::{is_free, is_voided, last_issue_in};
pub use range::Range;
pub use ranges::{covering_in, next_range_in, range_in};
pub use serial_span::SerialSpan;
pub use serials::candidate_in;
pub use settings::{MAX_INTERVAL, MAX_LIMIT, Settings};
pub use usage::Usage;
