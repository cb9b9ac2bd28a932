//! A block of indices.

ghost use Rattle.std.specs.Prelude.{◌≡◌, ◌<◌, ◌≤◌, [], length, insert, take, drop, nat_le, IfOk};
ghost use Rattle.s10_ranges.specs.Order.{IsLeastIn};

use crate::order::{least_in, lesser};
use std::alloc::{AllocError, Global};
use std::marker::Model;

/// How many indices a block has memory for.
pub(crate) const BLOCK_SIZE: usize = 512;

/// How many indices of a full block stay in it when it is split.
pub(crate) const HALF: usize = 256;

/// Up to `BLOCK_SIZE` indices, in their order, with the least of them.
#[derive(Drop)]
pub(crate) struct Block {
    /// The indices.
    indices: Vec<u32>,
    /// The least index, or `None` if there is none.
    least: Option<u32>,
}

impl Model for Block {
    ghost use Rattle.std.specs.Prelude.{List, ℕ, ◌≤◌, length, vec_capacity};
    ghost use Rattle.s10_ranges.specs.Order.{IsLeastIn};
    ghost use Rattle.s10_ranges.specs.declared.block.TheConstants.{BLOCK_SIZE};

    ghost Value = { List ℕ };

    ghost view = { λ b. b.indices.items };

    ghost invariant = { λ b. (BLOCK_SIZE ≤ vec_capacity b.indices)
        × IsLeastIn b.indices.items 0 (length b.indices.items) b.least };
}

impl Block {
    /// Creates an empty block, with memory for `BLOCK_SIZE` indices.
    ///
    /// # Errors
    ///
    /// `AllocError` if the memory cannot be allocated.
    pub fn new(alloc: Global) -> Result<Block, AllocError>
        ensures { IfOk result (λ b. b ≡ []) }
    {
        let indices = Vec::with_capacity(alloc, BLOCK_SIZE)?;
        Ok(Block {
            indices,
            least: None,
        })
    }

    /// Returns the indices, in their order.
    pub fn indices(&self) -> &[u32]
        ensures { result.now ≡ self.now }
    {
        &self.indices
    }

    /// Returns the least index, or `None` if there is none.
    pub fn least(&self) -> Option<u32>
        ensures { IsLeastIn self.now 0 (length self.now) result }
    {
        self.least
    }

    /// Returns whether the block has no memory for one more index.
    pub fn is_full(&self) -> bool
        ensures { result ≡ nat_le BLOCK_SIZE (length self.now) }
    {
        self.indices.len() >= BLOCK_SIZE
    }

    /// Inserts the index at the offset. Requires that the block is not full.
    pub fn insert(&mut self, offset: usize, index: u32)
        requires within { offset ≤ length self.old }
        requires room { length self.old < BLOCK_SIZE }
        ensures { self.new ≡ insert self.old offset index }
    {
        let _ = self.indices.insert(offset, index);
        self.least = lesser(self.least, Some(index));
    }

    /// Moves the indices from the offset `HALF` on to the empty block `upper`.
    pub fn move_upper(&mut self, upper: &mut Block)
        requires empty { upper.old ≡ [] }
        requires full { length self.old ≡ BLOCK_SIZE }
        ensures lower { self.new ≡ take HALF self.old }
        ensures upper { upper.new ≡ drop HALF self.old }
    {
        let _ = upper.indices.extend_from_slice(&self.indices[HALF..]);
        self.indices.truncate(HALF);
        upper.least = least_in(&upper.indices, 0, upper.indices.len());
        self.least = least_in(&self.indices, 0, self.indices.len());
    }
}
