//! Lists that grow by blocks.

ghost use Rattle.std.specs.Prelude.{◌≡◌, ◌+◌, ◌<◌, ◌≤◌, ◌++◌, ◌∷◌, [], OnOk, Some, length, slice_get};
ghost use Rattle.std.specs.Prelude.{slice_set};

use std::alloc::{AllocError, Global};
use std::marker::Model;

// The number of items of a full block.
const BLOCK: usize = 1_024;

// The greatest number of blocks.
const MAX_BLOCKS: usize = 4_294_967_296;

/// A list that grows by blocks of 1,024 items. No item moves when it grows, and the memory that is
/// reserved and not used is that of one block.
#[derive(Drop)]
pub(crate) struct Blocks<T: Copy> {
    /// Where blocks are allocated.
    alloc: Global,
    /// The blocks, each with memory for 1,024 items. All before the last item are full.
    blocks: Vec<Vec<T>>,
    /// The number of items.
    count: usize,
}

impl<T: Copy> Model for Blocks<T> {
    ghost use Rattle.std.specs.Prelude.{◌-◌, ◌*◌, length};
    ghost use Rattle.s10_index.specs.Blocks.{BlockList, AreBlocks, items_in};

    ghost Value = { BlockList T };

    ghost view = { λ list. record {
      items = items_in list.blocks.items;
      room = 1024 * length list.blocks.items - list.count;
    } };

    ghost invariant = { λ list. AreBlocks list.blocks.items list.count };
}

impl<T: Copy> Blocks<T> {
    /// Creates an empty list.
    pub(crate) fn new(alloc: Global) -> Blocks<T>
        ensures { result.items ≡ [] }
    {
        Blocks {
            alloc,
            blocks: Vec::new(alloc),
            count: 0,
        }
    }

    /// Returns the number of items.
    pub(crate) fn len(&self) -> usize
        ensures { result ≡ length self.now.items }
    {
        self.count
    }

    /// Returns the item at an index, counted from 0. Requires that the index is less than `len()`.
    pub(crate) fn at(&self, place: usize) -> T
        requires { place < length self.now.items }
        ensures { slice_get self.now.items place ≡ Some result }
    {
        self.blocks[place / BLOCK][place % BLOCK]
    }

    /// Replaces the item at an index, counted from 0. Requires that the index is less than `len()`.
    pub(crate) fn set(&mut self, place: usize, item: T)
        requires { place < length self.old.items }
        ensures items { self.new.items ≡ slice_set self.old.items place item }
        ensures room { self.new.room ≡ self.old.room }
    {
        let block = &mut self.blocks[place / BLOCK];
        block[place % BLOCK] = item;
    }

    /// Appends an item, in reserved memory.
    pub(crate) fn push_reserved(&mut self, item: T)
        requires { 0 < self.old.room }
        ensures items { self.new.items ≡ self.old.items ++ item ∷ [] }
        ensures room { self.old.room ≤ self.new.room + 1 }
    {
        let block = &mut self.blocks[self.count / BLOCK];
        block.push_reserved(item);
        self.count += 1;
    }

    /// Reserves memory for `count` more items. The items stay the same.
    ///
    /// # Errors
    ///
    /// `AllocError` if the memory cannot be allocated, or if there would be more than 2^32 blocks.
    pub(crate) fn reserve(&mut self, count: usize) -> Result<(), AllocError>
        ensures items { self.new.items ≡ self.old.items }
        ensures room { OnOk result (count ≤ self.new.room) }
    {
        while self.room() < count {
            self.add_block()?;
        }
        Ok(())
    }

    // Returns the number of items for which memory is reserved.
    fn room(&self) -> usize
        ensures { result ≡ self.now.room }
    {
        BLOCK * self.blocks.len() - self.count
    }

    // Adds an empty block.
    fn add_block(&mut self) -> Result<(), AllocError>
        ensures items { self.new.items ≡ self.old.items }
        ensures room { OnOk result (self.old.room < self.new.room) }
    {
        if self.blocks.len() >= MAX_BLOCKS {
            return Err(AllocError);
        }
        self.blocks.reserve(1)?;
        let block = Vec::with_capacity(self.alloc, BLOCK)?;
        self.blocks.push_reserved(block);
        Ok(())
    }
}
