ghost use Rattle.std.specs.Prelude.{◌≡◌, [], IsOk, OnOk};
ghost use Rattle.s10_ends.specs.BatchRoom.{HasRoomFor, exchanges_in, turns_in};

use crate::exchange::Exchange;
use crate::server_turn::Turn;
use std::alloc::{AllocError, Global};

/// The memory in which batches of a server are served, one after another, and the turns of the last
/// one.
#[derive(Drop)]
pub struct BatchRoom {
    pub(crate) taken: Vec<Exchange>,
    pub(crate) turns: Vec<Turn>,
}

impl BatchRoom {
    /// Returns a room without memory and without turns. Does not allocate.
    pub fn new(alloc: Global) -> BatchRoom
        ensures { turns_in result ≡ [] }
    {
        BatchRoom {
            taken: Vec::new(alloc),
            turns: Vec::new(alloc),
        }
    }

    /// Returns the turns of the last batch, in order of arrival.
    pub fn turns(&self) -> &[Turn]
        ensures { result.now ≡ turns_in self.now }
    {
        &self.turns
    }

    /// Removes the last batch, and allocates memory for a batch of `most` datagrams if the room has
    /// less.
    ///
    /// # Errors
    ///
    /// `AllocError` if memory cannot be allocated.
    pub(crate) fn clear_for(&mut self, most: u32) -> Result<(), AllocError>
        ensures exchanges { exchanges_in self.new ≡ [] }
        ensures turns { turns_in self.new ≡ [] }
        ensures room { OnOk result (HasRoomFor most self.new) }
        ensures had { HasRoomFor most self.old → IsOk result }
    {
        self.taken.clear();
        self.turns.clear();
        self.taken.reserve_exact(most as usize)?;
        self.turns.reserve_exact(most as usize + 1)
    }
}
