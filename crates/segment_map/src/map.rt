// The map of a volume and its pieces.

ghost use Rattle.std.specs.Prelude.{◌+◌, ◌^◌, ◌<◌, ◌≤◌};
ghost use Rattle.segment_map.specs.Sides.{left_of};

use crate::{Direction, Side};
use base_terms::BlockRange;

/// The bytes of the longest piece: 1 MiB.
const MOST_BYTES: u32 = 1_048_576;

/// Where the blocks of a volume lie. A block has the size of the disk's atom.
#[derive(Clone, Copy, PartialEq, Eq)]
pub struct Map {
    /// The bytes of a block, 1 MiB at most.
    pub atom: u32,
    /// The number of blocks of the volume.
    pub blocks: u64,
    /// The block that parts new from old, at most `blocks`.
    pub boundary: u64,
    /// The order of the conversion, which says on which side of the boundary the new blocks are.
    pub direction: Direction,
    /// The number of blocks of the open zone, 0 where none is open. They are old blocks next to
    /// the boundary.
    pub zone: u64,
    /// The place of block 0 in the old segment, in atoms of the disk.
    pub old_place: u64,
    /// The place of block 0 in the new segment, in atoms of the disk.
    pub new_place: u64,
    ghost some_atom: { 0 < atom },
    ghost most_atom: { atom ≤ 1048576 },
    ghost within: { boundary ≤ blocks },
    ghost zone_left: { zone ≤ left_of direction blocks boundary },
    ghost old_places: { old_place + blocks ≤ 2 ^ 64 },
    ghost new_places: { new_place + blocks ≤ 2 ^ 64 },
}

/// A run of blocks on one side.
#[derive(Clone, Copy, PartialEq, Eq)]
pub struct Piece {
    /// The first block.
    pub first: u64,
    /// The number of blocks.
    pub count: u64,
    /// The side of each.
    pub side: Side,
}

impl Map {
    ghost use Rattle.std.specs.Prelude.{◌≡◌};
    ghost use Rattle.segment_map.specs.Maps.{IsNextPiece, place_at, side_at, sides_of};
    ghost use Rattle.segment_map.specs.Sides.{IsRunEnd, passed_of};

    /// The side of a block of the volume.
    pub fn side(&self, block: u64) -> Side
        requires { block < self.now.blocks }
        ensures { side_at self.now block ≡ Some result }
    {
        match self.direction {
            Direction::Forward => {
                if block < self.boundary {
                    Side::New
                } else if block < self.boundary + self.zone {
                    Side::Zone
                } else {
                    Side::Old
                }
            }
            Direction::Backward => {
                if block < self.boundary - self.zone {
                    Side::Old
                } else if block < self.boundary {
                    Side::Zone
                } else {
                    Side::New
                }
            }
        }
    }

    /// The place of a block of the volume, in atoms of the disk: in the new segment where it is
    /// converted, in the old one where it isn't or is in the open zone.
    pub fn place(&self, block: u64) -> u64
        requires { block < self.now.blocks }
        ensures { place_at self.now block ≡ Some result }
    {
        match self.side(block) {
            Side::Old | Side::Zone => self.old_place + block,
            Side::New => self.new_place + block,
        }
    }

    // The block after the run of blocks on this side.
    fn end_of(&self, side: Side) -> u64
        ensures { IsRunEnd (sides_of self.now) side result }
    {
        match (self.direction, side) {
            (Direction::Forward, Side::New) | (Direction::Backward, Side::Zone) => self.boundary,
            (Direction::Forward, Side::Zone) => self.boundary + self.zone,
            (Direction::Backward, Side::Old) => self.boundary - self.zone,
            (Direction::Forward, Side::Old) | (Direction::Backward, Side::New) => self.blocks,
        }
    }

    /// How many blocks are converted, those of an open zone not among them.
    pub fn converted(&self) -> u64
        ensures { result
            ≡ passed_of self.now.direction self.now.blocks self.now.boundary }
    {
        match self.direction {
            Direction::Forward => self.boundary,
            Direction::Backward => self.blocks - self.boundary,
        }
    }

    /// The longest run of blocks on one side at the start of a range, of at most 1 MiB. The range
    /// has a block and lies in the volume.
    pub fn next_piece(&self, range: BlockRange) -> Piece
        requires some { range.start < range.end }
        requires within { range.end ≤ self.now.blocks }
        ensures { IsNextPiece self.now range result }
    {
        let side = self.side(range.start);
        let most = (MOST_BYTES / self.atom) as u64;
        let end = self.end_of(side).min(range.end);
        Piece {
            first: range.start,
            count: (end - range.start).min(most),
            side,
        }
    }
}
