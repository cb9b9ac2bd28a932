ghost use Rattle.std.specs.Prelude.{◌≡◌, ◌==◌, ◌&&◌, ◌||◌, nat_lt};

/// A position in a list of blocks: that of an index, or the end of the list.
#[derive(Clone, Copy, Debug, PartialEq, Eq)]
pub(crate) struct Cursor {
    /// The index of the block, from 0. At the end it is the number of blocks.
    pub block: usize,
    /// The offset in the block, from 0.
    pub offset: usize,
}

impl Cursor {
    // Returns whether the position is before `end` in the same list.
    pub fn is_before(self, end: Cursor) -> bool
        ensures { result ≡ (nat_lt self.block end.block
            || ((self.block == end.block) && nat_lt self.offset end.offset)) }
    {
        self.block < end.block || (self.block == end.block && self.offset < end.offset)
    }
}
