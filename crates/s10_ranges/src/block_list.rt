//! Indices in an order, in blocks.

ghost use Rattle.std.specs.Prelude.{◌≡◌, ◌<◌, ◌≤◌, ◌+◌, ◌++◌, ◌∷◌, [], length, insert, set};
ghost use Rattle.std.specs.Prelude.{MatchOption, OnOk, min, slice_index, slice_index_or, slice_range};
ghost use Rattle.std.specs.Option.{ForSome};
ghost use Rattle.s10_ranges.specs.Blocks.{AreBlocks};

use crate::block::{Block, HALF};
use crate::cursor::Cursor;
use crate::order::{least_in, lesser};
use std::alloc::{AllocError, Global};

/// Indices in an order, in blocks, each with the least of its indices. Like the leaves of a B+-tree.
///
/// Each block but the last has 256 to 512 indices, so n indices are in at most n / 256 + 1 blocks. An
/// insertion moves at most 512 indices and, if it splits a block, the blocks after it. `least_in`
/// reads the least of each whole block in the span, and the indices of two blocks one by one.
#[derive(Drop)]
pub(crate) struct BlockList {
    /// The blocks, in the order of their indices. None is empty.
    blocks: Vec<Block>,
    /// An empty block, if one is reserved.
    spare: Option<Block>,
    /// Allocates blocks.
    alloc: Global,
    ghost filled: { AreBlocks blocks.items },
    ghost unused: { ForSome spare (λ b. b ≡ []) },
}

impl BlockList {
    ghost use Rattle.s10_ranges.specs.Blocks.{IsCursor, position_of, start_of, halved};
    ghost use Rattle.s10_ranges.specs.BlockList.{indices_of, HasRoomForIndex};
    ghost use Rattle.s10_ranges.specs.Order.{IsLeastIn};
    ghost use Rattle.s10_ranges.specs.declared.block.TheConstants.{BLOCK_SIZE};

    /// Creates an empty list.
    pub fn new(alloc: Global) -> BlockList
        ensures { indices_of result ≡ [] }
    {
        BlockList {
            blocks: Vec::new(alloc),
            spare: None,
            alloc,
        }
    }

    /// Reserves memory for one more index. The list stays the same.
    ///
    /// # Errors
    ///
    /// `AllocError` if the memory cannot be allocated.
    pub fn reserve(&mut self) -> Result<(), AllocError>
        ensures same { self.new.blocks.items ≡ self.old.blocks.items }
        ensures room { OnOk result (HasRoomForIndex self.new) }
    {
        self.blocks.reserve(1)?;
        if self.spare.is_none() {
            self.spare = Some(Block::new(self.alloc)?);
        }
        Ok(())
    }

    /// Returns the blocks, in their order.
    pub fn blocks(&self) -> &[Block]
        ensures { result.now ≡ self.now.blocks.items }
    {
        &self.blocks
    }

    /// Returns the index at the position, or `None` at the end of the list.
    pub fn at(&self, cursor: Cursor) -> Option<u32>
        requires { IsCursor self.now.blocks.items cursor }
        ensures { MatchOption result
            (position_of self.now.blocks.items cursor ≡ length (indices_of self.now))
            (λ i. (position_of self.now.blocks.items cursor < length (indices_of self.now))
            × (slice_index (indices_of self.now) (position_of self.now.blocks.items cursor) ≡ i)) }
    {
        let block = self.blocks.get(cursor.block)?;
        Some(block.indices()[cursor.offset])
    }

    /// Returns the indices from a position up to, but without, `end`, as far as they are in its block.
    pub fn part(&self, cursor: Cursor, end: Cursor) -> &[u32]
        requires start { IsCursor self.now.blocks.items cursor }
        requires end { IsCursor self.now.blocks.items end }
        requires before { position_of self.now.blocks.items cursor
            < position_of self.now.blocks.items end }
        ensures { result.now ≡ slice_range (indices_of self.now)
            (position_of self.now.blocks.items cursor)
            (min (position_of self.now.blocks.items end)
            (start_of self.now.blocks.items (cursor.block + 1))) }
    {
        let indices = self.blocks[cursor.block].indices();
        if cursor.block == end.block {
            return &indices[cursor.offset..end.offset];
        }
        &indices[cursor.offset..]
    }

    /// Returns the position of the first index after the block of an index.
    pub fn next_block(&self, cursor: Cursor) -> Cursor
        requires { cursor.block < length self.now.blocks.items }
        ensures at { IsCursor self.now.blocks.items result }
        ensures next { position_of self.now.blocks.items result
            ≡ start_of self.now.blocks.items (cursor.block + 1) }
    {
        Cursor {
            block: cursor.block + 1,
            offset: 0,
        }
    }

    // Inserts the index in a block that is not full.
    fn insert_within(&mut self, block: usize, offset: usize, index: u32)
        requires there { block < length self.old.blocks.items }
        requires within { offset ≤ length (slice_index_or self.old.blocks.items block []) }
        requires room { length (slice_index_or self.old.blocks.items block []) < BLOCK_SIZE }
        ensures { self.new.blocks.items ≡ set self.old.blocks.items block
            (insert (slice_index_or self.old.blocks.items block []) offset index) }
    {
        let block = &mut self.blocks[block];
        block.insert(offset, index);
    }

    // Adds a block with the index alone at the end.
    fn push_block(&mut self, index: u32)
        requires { HasRoomForIndex self.old }
        ensures { self.new.blocks.items ≡ self.old.blocks.items ++ (index ∷ []) ∷ [] }
    {
        if let Some(mut block) = self.spare.take() {
            block.insert(0, index);
            self.blocks.push_reserved(block);
        }
    }

    // Adds the index at the end of the list, in reserved memory.
    fn push_reserved(&mut self, index: u32)
        requires { HasRoomForIndex self.old }
        ensures { indices_of self.new ≡ indices_of self.old ++ index ∷ [] }
    {
        let count = self.blocks.len();
        if count == 0 || self.blocks[count - 1].is_full() {
            self.push_block(index);
            return;
        }
        let offset = self.blocks[count - 1].indices().len();
        self.insert_within(count - 1, offset, index);
    }

    // Splits the full block into two halves, in reserved memory.
    fn split(&mut self, block: usize)
        requires room { HasRoomForIndex self.old }
        requires there { block < length self.old.blocks.items }
        requires full { length (slice_index_or self.old.blocks.items block []) ≡ BLOCK_SIZE }
        ensures { self.new.blocks.items ≡ halved self.old.blocks.items block }
    {
        if let Some(mut upper) = self.spare.take() {
            let lower = &mut self.blocks[block];
            lower.move_upper(&mut upper);
            let _ = self.blocks.insert(block + 1, upper);
        }
    }

    // Inserts the index in the full block of the position, after splitting it.
    fn insert_split(&mut self, cursor: Cursor, index: u32)
        requires room { HasRoomForIndex self.old }
        requires there { cursor.block < length self.old.blocks.items }
        requires within { cursor.offset
            ≤ length (slice_index_or self.old.blocks.items cursor.block []) }
        requires full { length (slice_index_or self.old.blocks.items cursor.block [])
            ≡ BLOCK_SIZE }
        ensures { indices_of self.new ≡ insert (indices_of self.old)
            (position_of self.old.blocks.items cursor) index }
    {
        self.split(cursor.block);
        if cursor.offset <= HALF {
            self.insert_within(cursor.block, cursor.offset, index);
        } else {
            self.insert_within(cursor.block + 1, cursor.offset - HALF, index);
        }
    }

    /// Inserts the index at the position, in reserved memory.
    ///
    /// Requires memory reserved by `reserve`.
    pub fn insert_reserved(&mut self, cursor: Cursor, index: u32)
        requires room { HasRoomForIndex self.old }
        requires at { IsCursor self.old.blocks.items cursor }
        ensures { indices_of self.new ≡ insert (indices_of self.old)
            (position_of self.old.blocks.items cursor) index }
    {
        if cursor.block == self.blocks.len() {
            self.push_reserved(index);
        } else if self.blocks[cursor.block].is_full() {
            self.insert_split(cursor, index);
        } else {
            self.insert_within(cursor.block, cursor.offset, index);
        }
    }

    // Returns the least index of a block from the offset `start` up to, but without, `end`.
    fn least_within(&self, block: usize, start: usize, end: usize) -> Option<u32>
        requires { end ≤ length (slice_index_or self.now.blocks.items block []) }
        ensures { IsLeastIn (indices_of self.now) (start_of self.now.blocks.items block + start)
            (start_of self.now.blocks.items block + end) result }
    {
        let block = self.blocks.get(block)?;
        least_in(block.indices(), start, end)
    }

    // Returns the least index of the blocks `start` to `end - 1`.
    fn least_of_blocks(&self, start: usize, end: usize) -> Option<u32>
        requires ordered { start ≤ end }
        requires within { end ≤ length self.now.blocks.items }
        ensures { IsLeastIn (indices_of self.now) (start_of self.now.blocks.items start)
            (start_of self.now.blocks.items end) result }
    {
        let mut least = None;
        for block in start..end {
            least = lesser(least, self.blocks[block].least());
        }
        least
    }

    /// Returns the least index from the position `start` up to, but without, `end`, or `None` if
    /// there is none.
    pub fn least_in(&self, start: Cursor, end: Cursor) -> Option<u32>
        requires start { IsCursor self.now.blocks.items start }
        requires end { IsCursor self.now.blocks.items end }
        ensures { IsLeastIn (indices_of self.now) (position_of self.now.blocks.items start)
            (position_of self.now.blocks.items end) result }
    {
        if end.block < start.block {
            return None;
        }
        if start.block == end.block {
            return self.least_within(start.block, start.offset, end.offset);
        }
        let len = self.blocks[start.block].indices().len();
        let first = self.least_within(start.block, start.offset, len);
        let middle = self.least_of_blocks(start.block + 1, end.block);
        let last = self.least_within(end.block, 0, end.offset);
        lesser(lesser(first, middle), last)
    }
}
