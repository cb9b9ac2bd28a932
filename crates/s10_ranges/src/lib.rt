//! Part of `s10_index`, split off for the prover alone: the ranges of a ledger with their marks,
//! held in memory and sorted for look-ups by serial and by holder.
#![tactic(auto)]

mod block;
mod block_list;
mod block_search;
mod closed_ranges;
mod cursor;
mod hash_seed;
mod insertion;
mod keys;
mod lap;
mod lap_at;
mod lookups;
mod mark;
mod mark_move;
mod next_mark;
mod order;
mod ranges;
mod rest;
mod rests;
mod sort_key;

pub use hash_seed::HashSeed;
pub use lap::Lap;
pub use mark::Mark;
pub use mark_move::MarkMove;
pub use ranges::Ranges;
pub use rest::Rest;
pub use rests::Rests;
