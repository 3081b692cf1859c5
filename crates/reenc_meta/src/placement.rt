// Where a volume lies, by its header.

ghost use Rattle.std.specs.Prelude.{◌≡◌, ◌+◌, ◌*◌, ◌/◌, ◌≤◌, ◌<◌, ◌^◌, true, None, IfSome, IsNone};
ghost use Rattle.luks_rules.specs.Areas.{main_bytes};
ghost use Rattle.luks_rules.specs.Segments.{in_progress};
ghost use Rattle.reenc_meta.specs.Placements.{all_atoms, base_of, IsIdlePlacement, IsPlacementOf};
ghost use Rattle.reenc_meta.specs.Places.{IsRightFor};
ghost use Rattle.sector_disk.specs.Geometry.{IsDisk};

use base_terms::Sizes;
use luks_rules::{Extent, Idle, Valid};
use segment_map::{Direction, Map};

/// Where the blocks of a volume lie, and the segment of each of its sides.
#[derive(Clone, Copy, PartialEq, Eq)]
pub struct Placement {
    pub map: Map,
    /// The segment of the blocks that are old or in an open zone.
    pub old: Extent,
    /// The segment of those that are new.
    pub new: Extent,
}

/// The atom at which the main disk begins: 0 unless the header has a disk of its own, which comes
/// in front of it.
pub fn base_atom(sizes: &Sizes) -> u64
    ensures { result ≡ base_of sizes.now }
{
    if sizes.detached {
        sizes.header_atoms
    } else {
        0
    }
}

/// The map of a volume of which nothing is being converted: all its blocks are new.
fn place_segment(sizes: &Sizes, idle: &Idle) -> Placement
    requires disk { IsDisk sizes.now.atom (all_atoms sizes.now) }
    requires within { idle.now.segment.offset + idle.now.blocks * sizes.now.atom
        ≤ main_bytes sizes.now }
    ensures { IsIdlePlacement sizes.now idle.now result }
{
    let place = base_atom(sizes) + idle.segment.offset / sizes.atom as u64;
    Placement {
        map: Map {
            atom: sizes.atom,
            blocks: idle.blocks,
            boundary: idle.blocks,
            direction: Direction::Forward,
            zone: 0,
            old_place: place,
            new_place: place,
        },
        old: idle.segment,
        new: idle.segment,
    }
}

/// Where a volume lies of which nothing is being converted: all blocks are new, and the segment of
/// both sides is the one that is there. None exactly where a conversion is under way. The sizes are
/// those of disks that are joined: atoms of 512 or 4096 bytes, less than `2^63` bytes in all.
pub fn place_idle(valid: &Valid) -> Option<Placement>
    requires { IsDisk valid.now.sizes.atom (all_atoms valid.now.sizes) }
    ensures is { IfSome result (IsPlacementOf valid.now.meta valid.now.sizes) }
    ensures right { IfSome result (IsRightFor valid.now.meta valid.now.sizes) }
    ensures one { IfSome result (λ p. p.old ≡ p.new) }
    ensures closed { IfSome result (λ p. p.map.zone ≡ 0) }
    ensures none { IsNone result → in_progress valid.now.meta.config ≡ true }
{
    valid.is_sound();
    let _parts = valid.meta().parts();
    let sizes = valid.sizes();
    match valid.idle() {
        Some(idle) => Some(place_segment(&sizes, &idle)),
        None => None,
    }
}
