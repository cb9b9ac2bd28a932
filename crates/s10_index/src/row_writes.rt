//! The writes of a call, as they are gathered.

ghost use Rattle.std.specs.Prelude.{◌≡◌, [], ◌++◌, ◌∷◌, IfErr, OnOk};

use s10_book::BookFault;
use s10_rows::{RangeWrite, SerialWrite};
use std::alloc::Global;

// The writes of a call to ranges and to serials, in the order in which they are applied.
#[derive(Drop)]
pub(crate) struct RowWrites {
    pub(crate) ranges: Vec<RangeWrite>,
    pub(crate) serials: Vec<SerialWrite>,
}

impl RowWrites {
    // Creates an empty list of writes.
    pub(crate) fn new(alloc: Global) -> RowWrites
        ensures ranges { result.ranges.items ≡ [] }
        ensures serials { result.serials.items ≡ [] }
    {
        RowWrites {
            ranges: Vec::new(alloc),
            serials: Vec::new(alloc),
        }
    }

    // Appends a write to ranges. `Memory` if out of memory.
    pub(crate) fn add_range(&mut self, write: RangeWrite) -> Result<(), BookFault>
        ensures memory { IfErr result (λ f. f ≡ BookFault.Memory) }
        ensures ranges { OnOk result (self.new.ranges.items ≡ self.old.ranges.items ++ write ∷ []) }
        ensures serials { self.new.serials.items ≡ self.old.serials.items }
    {
        match self.ranges.push(write) {
            Ok(()) => Ok(()),
            Err(_) => Err(BookFault::Memory),
        }
    }

    // Appends a write to serials. `Memory` if out of memory.
    pub(crate) fn add_serial(&mut self, write: SerialWrite) -> Result<(), BookFault>
        ensures memory { IfErr result (λ f. f ≡ BookFault.Memory) }
        ensures ranges { self.new.ranges.items ≡ self.old.ranges.items }
        ensures serials { OnOk result (self.new.serials.items ≡ self.old.serials.items ++ write
            ∷ []) }
    {
        match self.serials.push(write) {
            Ok(()) => Ok(()),
            Err(_) => Err(BookFault::Memory),
        }
    }
}
