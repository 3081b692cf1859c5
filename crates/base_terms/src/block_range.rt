// A range of blocks: from a first block up to, and without, an end. It is what an operation asks
// for, what a lock holds and what a piece covers. A range whose end isn't past its start has no
// block. The layer above may rely on `overlaps` telling exactly whether two ranges have a block
// in common, so that an empty range overlaps with nothing.

ghost use Rattle.std.specs.Prelude.{◌≡◌, ◌≤◌, ◌↔◌, IsTrue};
ghost use Rattle.base_terms.specs.Ranges.Blocks.{SharesBlock, len_of};

/// The blocks from `start` on that are below `end`.
#[derive(Clone, Copy, PartialEq, Eq)]
pub struct BlockRange {
    /// The number of the first block.
    pub start: u64,
    /// The number after the last block's.
    pub end: u64,
}

impl BlockRange {
    /// The number of its blocks.
    pub fn len(self) -> u64
        ensures { result ≡ len_of self }
    {
        self.end.saturating_sub(self.start)
    }

    /// Whether it has no block.
    pub fn is_empty(self) -> bool
        ensures { IsTrue result ↔ (self.end ≤ self.start) }
    {
        self.end <= self.start
    }

    /// Whether some block is in both ranges.
    pub fn overlaps(self, other: BlockRange) -> bool
        ensures { IsTrue result ↔ SharesBlock self other }
    {
        self.start.max(other.start) < self.end.min(other.end)
    }
}
