//! Where each block of a volume lies while the volume is converted from an old segment to a new
//! one. A boundary parts the blocks that are converted from those that are not, and next to it a
//! zone may be open, the run of old blocks that is being converted. The layer above may rely on
//! the map being a table of all blocks, each with its side and its place, and on `next_piece`
//! giving the longest run of blocks that one key and one transfer can serve.
//!
//! No call takes memory.
#![tactic(auto)]

mod map;

pub use map::{Map, Piece};

/// The order in which blocks are converted.
#[derive(Clone, Copy, PartialEq, Eq)]
pub enum Direction {
    /// From the first block up: what is below the boundary is new.
    Forward,
    /// From the last block down: what is from the boundary on is new.
    Backward,
}

/// What a block belongs to.
#[derive(Clone, Copy, Debug, PartialEq, Eq)]
pub enum Side {
    /// The old segment, with its place and key.
    Old,
    /// The new segment, with its place and key.
    New,
    /// The open zone: still where the old segment has it.
    Zone,
}
