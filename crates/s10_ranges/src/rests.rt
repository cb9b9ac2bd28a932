ghost use Rattle.std.specs.Prelude.{◌≡◌, ◌<◌, ◌∷◌, ◌++◌, [], List, OnOk, Contains};
ghost use Rattle.std.specs.Prelude.{vec_len, vec_capacity};
ghost use Rattle.s10_history.specs.declared.entry.Entry.{Entry};
ghost use Rattle.s10_history.specs.declared.range.Range.{Range};
ghost use Rattle.s10_history.specs.Settings.{Terms};
ghost use Rattle.s10_history.specs.History.{ranges_of};
ghost use Rattle.s10_book.specs.Rules.{IsLegal, MayFollow};
ghost use Rattle.s10_ranges.specs.Rests.{IsRestOf, AreRests, HasRoomForRest};

use crate::rest::Rest;
use s10_history::Entry;
use std::alloc::{AllocError, Global};

/// The rest of each range of a history, so that a search passes over a range that gives nothing by
/// one comparison.
#[derive(Drop)]
pub struct Rests {
    /// The rests, in order of the numbers of the ranges.
    list: Vec<Rest>,
}

impl Rests {
    /// Creates an empty list of rests.
    pub fn new(alloc: Global) -> Rests
        ensures { AreRests [] result.list.items }
    {
        Rests {
            list: Vec::new(alloc),
        }
    }

    /// Reserves memory for the rest of one more range. The rests stay the same.
    ///
    /// # Errors
    ///
    /// `AllocError` if the memory cannot be allocated.
    pub fn reserve(&mut self) -> Result<(), AllocError>
        ensures same { self.new.list.items ≡ self.old.list.items }
        ensures room { OnOk result (HasRoomForRest self.new) }
    {
        self.list.reserve(1)
    }

    /// Follows a kept call: a range that a Done Grant adds has an unknown rest.
    ///
    /// Requires memory reserved by `reserve`.
    pub fn follow(&mut self, entry: &Entry)
        requires room { HasRoomForRest self.old }
        ensures { (h : List Entry) (t : Terms) → IsLegal h t → MayFollow h t entry.now
            → AreRests h self.old.list.items
            → AreRests (h ++ entry.now ∷ []) self.new.list.items }
    {
        // Whether there is a range does not depend on its number, so 1 will do.
        if entry.range_made(1).is_some() {
            self.list.push_reserved(Rest::Unknown);
        }
    }

    /// Sets the rest of the range with the number `num`. Changes nothing if there is no such range.
    pub fn set(&mut self, num: u32, rest: Rest)
        ensures { (h : List Entry) (r : Range) → AreRests h self.old.list.items
            → Contains (ranges_of h) r → r.num ≡ num → IsRestOf h r rest
            → AreRests h self.new.list.items }
    {
        if num == 0 || num as usize > self.list.len() {
            return;
        }
        self.list[num as usize - 1] = rest;
    }

    /// Returns the rests, in order of the numbers of the ranges.
    pub fn all(&self) -> &[Rest]
        ensures { result.now ≡ self.now.list.items }
    {
        &self.list
    }
}
