// Operations under way.

ghost use Rattle.std.specs.Prelude.{◌≡◌, ◌+◌, ◌<◌, ◌^◌, Some, false, length};

use crate::Ask;
use base_terms::BlockRange;
use segment_map::Piece;

/// The operation of a lane under way: the session that asked for it, its blocks, how many of its
/// edges were read, the first of its blocks that no piece has covered yet, whether it was settled,
/// and whether one of its events failed.
#[derive(Clone, Copy, PartialEq, Eq)]
pub struct Open {
    pub session: u64,
    pub ask: Ask,
    pub range: BlockRange,
    pub fetched: u32,
    pub next: u64,
    pub settled: bool,
    pub failed: bool,
}

impl Open {
    ghost use Rattle.volume_machine.specs.Pieces.{rest_of, fetching, moved, failing, settling};
    ghost use Rattle.volume_machine.specs.Steps.{after_settle};

    /// An operation of a session on these blocks that has just begun.
    pub fn new(session: u64, ask: Ask, range: BlockRange) -> Open
        ensures { result ≡ record {
          session = session;
          ask = ask;
          range = range;
          fetched = 0;
          next = range.start;
          settled = false;
          failed = false;
        } }
    {
        Open {
            session,
            ask,
            range,
            fetched: 0,
            next: range.start,
            settled: false,
            failed: false,
        }
    }

    /// The blocks that are left.
    pub fn rest(self) -> BlockRange
        ensures { result ≡ rest_of self }
    {
        BlockRange {
            start: self.next,
            end: self.range.end,
        }
    }

    /// The operation after an edge was read.
    pub fn fetching(self) -> Open
        requires { self.fetched + 1 < 2 ^ 32 }
        ensures { result ≡ fetching self }
    {
        Open {
            fetched: self.fetched + 1,
            ..self
        }
    }

    /// The operation after this piece.
    pub fn moved(self, piece: Piece) -> Open
        requires { piece.first + piece.count < 2 ^ 64 }
        ensures { result ≡ moved self piece }
    {
        Open {
            next: piece.first + piece.count,
            ..self
        }
    }

    /// The operation after one of its events failed.
    pub fn failing(self) -> Open
        ensures { result ≡ failing self }
    {
        Open {
            failed: true,
            ..self
        }
    }

    /// The operation once it is settled.
    pub fn settling(self) -> Open
        ensures { result ≡ settling self }
    {
        Open {
            settled: true,
            ..self
        }
    }

    /// What a settle leaves of the operation, which else would be `now`: a flush has ended.
    pub fn after_settle(self, now: Open) -> Option<Open>
        ensures { result ≡ after_settle self now }
    {
        if self.ask.has_lock() { Some(now) } else { None }
    }
}

ghost use Rattle.volume_machine.specs.States.{open_at, LaneBecomes};

/// Gives a lane this operation.
pub fn set_lane(lanes: &mut Vec<Option<Open>>, lane: u32, now: Option<Open>)
    requires { lane < length lanes.old.items }
    ensures { LaneBecomes lanes.old.items lanes.new.items lane now }
{
    lanes[lane as usize] = now;
}

/// The operation of a lane that has one.
pub fn open_of(lanes: &[Option<Open>], lane: u32) -> Open
    requires { (o : Open) × (open_at lanes.now lane ≡ Some o) }
    ensures { open_at lanes.now lane ≡ Some result }
{
    match lanes.get(lane as usize) {
        Some(Some(open)) => *open,
        _ => unreachable!(),
    }
}
