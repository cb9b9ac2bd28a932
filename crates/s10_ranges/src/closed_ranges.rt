//! The numbers of the closed ranges, held in memory.

ghost use Rattle.std.specs.Prelude.{◌≡◌, ◌<◌, ◌++◌, ◌∷◌, [], List, OnOk};
ghost use Rattle.std.specs.HashSet.{hasher_of, spare};
ghost use Rattle.s10_history.specs.declared.entry.Entry.{Entry};
ghost use Rattle.s10_history.specs.History.{is_closed};
ghost use Rattle.s10_ranges.specs.ClosedRanges.{HasClosed};

use crate::hash_seed::HashSeed;
use s10_history::Entry;
use s10_wire::{Body, Outcome};
use std::alloc::{AllocError, Global};
use std::collections::HashSet;

/// The numbers of the closed ranges of a history.
#[derive(Drop)]
pub struct ClosedRanges {
    /// Range numbers, from 1, in no order.
    numbers: HashSet<u32, HashSeed>,
}

impl ClosedRanges {
    /// Creates an empty set: no range is closed. Its hashes have this seed.
    pub fn new(alloc: Global, seed: HashSeed) -> ClosedRanges
        ensures none { HasClosed result [] }
        ensures seeded { hasher_of result.numbers ≡ seed }
    {
        ClosedRanges {
            numbers: HashSet::with_hasher(alloc, seed),
        }
    }

    /// Reserves memory for one more closed range. The set stays the same.
    ///
    /// # Errors
    ///
    /// `AllocError` if the memory cannot be allocated.
    pub fn reserve(&mut self) -> Result<(), AllocError>
        ensures same { (h : List Entry) → HasClosed self.old h → HasClosed self.new h }
        ensures room { OnOk result (0 < spare self.new.numbers) }
    {
        self.numbers.reserve(1)
    }

    /// Adds the range that the call closes, if the call is a Done Withdraw. Otherwise changes
    /// nothing.
    ///
    /// Requires memory reserved for one more closed range.
    pub fn follow(&mut self, entry: &Entry)
        requires room { 0 < spare self.old.numbers }
        ensures { (h : List Entry) → HasClosed self.old h
            → HasClosed self.new (h ++ entry.now ∷ []) }
    {
        match (entry.request.body, entry.outcome) {
            (Body::Withdraw { range }, Outcome::Withdrawn) => {
                let _ = self.numbers.insert(range);
            }
            _ => {}
        }
    }

    /// Returns whether the range with the number `num` is closed.
    pub fn has(&self, num: u32) -> bool
        ensures { (h : List Entry) → HasClosed self.now h → result ≡ is_closed h num }
    {
        self.numbers.contains(&num)
    }
}
