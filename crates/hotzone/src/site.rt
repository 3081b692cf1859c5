// Where the blocks of a zone lie, and what is saved of them.

ghost use Rattle.std.specs.Prelude.{◌≡◌, ◌+◌, ◌<◌, ◌≤◌, ◌^◌};
ghost use Rattle.hotzone.specs.Sites.{IsSaved, count_of, guard_of, part_at, saved_at, site_by};
ghost use Rattle.sector_disk.specs.Geometry.{IsAtom};
ghost use Rattle.luks_rules.specs.Rooms.{capacity_by};

use base_terms::BlockRange;
use luks_meta::Resilience;
use luks_rules::Conversion;
use segment_map::{Direction, Map};

/// The bytes of the longest part: 1 MiB.
const MOST_BYTES: u32 = 1_048_576;

/// The bytes of a digest.
const DIGEST: u32 = 32;

/// What is saved of a zone's blocks before they are written anew.
#[derive(Clone, Copy, PartialEq, Eq)]
pub enum Guard {
    /// Their old atoms.
    Journal,
    /// The SHA-256 digests of these, of 32 bytes each, in the order of the blocks; zeros fill the
    /// last atom.
    Checksum,
}

/// The blocks of a zone, and where its calls lie on the disk.
#[derive(Clone, Copy, PartialEq, Eq)]
pub struct Site {
    /// Its blocks; it has none where no old block is left.
    pub blocks: BlockRange,
    /// How many bytes an atom has, 512 or 4096.
    pub atom: u32,
    /// The atom of the disk at which the first block lies.
    pub own: u64,
    /// The atom of the disk from which on what is saved of the blocks lies.
    pub store: u64,
    /// What is saved of them.
    pub guard: Guard,
}

impl Site {
    ghost use Rattle.base_terms.specs.Ranges.Blocks.{len_of};

    /// How many atoms of the zone the part has that begins behind the first `done` of them: those
    /// that are left, or as many as 1 MiB has.
    pub fn part(&self, done: u64) -> u64
        requires some { 0 < self.now.atom }
        requires within { done ≤ len_of self.now.blocks }
        ensures { result ≡ part_at self.now done }
    {
        (self.blocks.len() - done).min((MOST_BYTES / self.atom) as u64)
    }

    /// Behind how many atoms of what is saved that part's begin.
    pub fn saved_at(&self, done: u64) -> u64
        requires atom { IsAtom self.now.atom }
        ensures { result ≡ saved_at self.now done }
    {
        match self.guard {
            Guard::Journal => done,
            Guard::Checksum => done / (self.atom / DIGEST) as u64,
        }
    }
}

/// How many blocks a zone may have, by what guards it.
pub(crate) fn room_of(conversion: &Conversion, atom: u32) -> u64
    requires some { 0 < atom }
    requires saved { IsSaved conversion.now.resilience }
    ensures { result ≡ capacity_by atom conversion.now.area.size conversion.now.resilience }
{
    match conversion.resilience {
        Resilience::Journal => resil_journal::capacity(conversion.area.size, atom),
        Resilience::Checksum(_) => resil_checksum::capacity(conversion.area.size, atom),
        Resilience::Datashift(_) => unreachable!(),
    }
}

/// What guards the zones of a conversion.
pub(crate) fn guard_by(resilience: Resilience) -> Guard
    requires saved { IsSaved resilience }
    ensures { result ≡ guard_of resilience }
{
    match resilience {
        Resilience::Journal => Guard::Journal,
        Resilience::Checksum(_) => Guard::Checksum,
        Resilience::Datashift(_) => unreachable!(),
    }
}

/// The next zone of a volume with this map, on which none is open: the old blocks beside the
/// boundary, as many as there is room for.
pub fn next_site(map: &Map, room: u64, store: u64, guard: Guard) -> Site
    requires places { map.now.old_place + map.now.blocks < 2 ^ 64 }
    ensures { result ≡ site_by map.now room store guard }
{
    let left = match map.direction {
        Direction::Forward => map.blocks - map.boundary,
        Direction::Backward => map.boundary,
    };
    let count = left.min(room);
    let start = match map.direction {
        Direction::Forward => map.boundary,
        Direction::Backward => map.boundary - count,
    };
    Site {
        blocks: BlockRange {
            start,
            end: start + count,
        },
        atom: map.atom,
        own: map.old_place + start,
        store,
        guard,
    }
}
