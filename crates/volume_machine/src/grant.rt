// What an operation is granted.

ghost use Rattle.std.specs.Prelude.{◌≡◌, ◌≤◌, MatchOption};
ghost use Rattle.segment_map.specs.Maps.{IsNextPiece};

use base_terms::BlockRange;
use segment_map::{Map, Piece};

/// The blocks of an operation, which lie in the volume, and the map that they have until its
/// finish.
#[derive(Clone, Copy, PartialEq, Eq)]
pub struct Grant {
    /// The map of the volume.
    pub map: Map,
    /// The blocks; a flush has none.
    pub range: BlockRange,
    ghost inside: { range.end ≤ map.blocks },
}

impl Grant {
    /// The piece from block `at` on, which is a block of the range or its end: there is none
    /// exactly at the end.
    pub fn piece(&self, at: u64) -> Option<Piece>
        requires { at ≤ self.now.range.end }
        ensures { MatchOption result (at ≡ self.now.range.end)
            (IsNextPiece self.now.map (record { start = at; end = self.now.range.end })) }
    {
        let end = self.range.end;
        if at == end {
            return None;
        }
        Some(self.map.next_piece(BlockRange { start: at, end }))
    }
}
