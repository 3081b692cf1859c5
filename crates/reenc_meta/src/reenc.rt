// A conversion under way, and its next metadata.

ghost use Rattle.std.specs.Prelude.{◌≡◌, ◌↔◌, ◌+◌, ◌*◌, ◌<◌, ◌≤◌, ◌^◌, IfOk, IfSome, IsNone, Some};
ghost use Rattle.std.specs.Prelude.{false, not, true};
ghost use Rattle.luks_rules.specs.Plans.{blocks_in};
ghost use Rattle.luks_rules.specs.Rooms.{capacity};
ghost use Rattle.luks_rules.specs.Segments.{in_progress};
ghost use Rattle.luks_rules.specs.Shapes.{may_open, progress_of};
ghost use Rattle.reenc_meta.specs.ConversionMaps.{direction_of};
ghost use Rattle.reenc_meta.specs.Moves.{moved, old_blocks, opened};
ghost use Rattle.reenc_meta.specs.Placements.{all_atoms};
ghost use Rattle.sector_disk.specs.Geometry.{IsDisk};

use crate::layout::{copy_wholes, list_digests, list_segments};
use crate::placement::base_atom;
use crate::runs::{list_runs, list_sides};
use json_members::{Listed, copy_entries};
use luks_meta::{Direction, Meta, Parts, Resilience};
use luks_rules::{Plan, Progress, Valid};
use segment_map::Map;
use std::alloc::{AllocError, Global};

/// A conversion under way: the metadata that say how far it is, and what they say.
#[derive(Clone, Copy)]
pub struct Reenc<'a> {
    pub valid: &'a Valid,
    pub progress: Progress,
    ghost known: { progress_of valid.now.meta valid.now.sizes ≡ Some progress },
    ghost fits: { all_atoms valid.now.sizes * valid.now.sizes.atom < 2 ^ 63 },
    ghost most_atom: { valid.now.sizes.atom ≤ 4096 },
}

/// The first old blocks beside the boundary, so many, as a zone.
fn plan_opened(direction: Direction, plan: &Plan, blocks: u64) -> Plan
    requires { blocks ≤ old_blocks direction plan.now }
    ensures { result ≡ opened direction blocks plan.now }
{
    match direction {
        Direction::Forward => Plan {
            first: plan.first,
            zone: blocks,
            last: plan.last - blocks,
        },
        Direction::Backward => Plan {
            first: plan.first - blocks,
            zone: blocks,
            last: plan.last,
        },
    }
}

/// So many blocks beside the boundary as new ones.
fn plan_moved(direction: Direction, plan: &Plan, blocks: u64) -> Plan
    requires left { blocks ≤ plan.now.zone + old_blocks direction plan.now }
    requires fits { blocks_in plan.now < 2 ^ 64 }
    ensures { result ≡ moved direction blocks plan.now }
{
    match direction {
        Direction::Forward => Plan {
            first: plan.first + blocks,
            zone: 0,
            last: plan.zone + plan.last - blocks,
        },
        Direction::Backward => Plan {
            first: plan.first + plan.zone - blocks,
            zone: 0,
            last: plan.last + blocks,
        },
    }
}

fn map_direction(direction: Direction) -> segment_map::Direction
    ensures { result ≡ direction_of direction }
{
    match direction {
        Direction::Forward => segment_map::Direction::Forward,
        Direction::Backward => segment_map::Direction::Backward,
    }
}

impl<'a> Reenc<'a> {
    ghost use Rattle.reenc_meta.specs.ConversionMaps.{IsMapAt, IsMapOf, IsReadOff, MovesBoundary};
    ghost use Rattle.reenc_meta.specs.ConversionMaps.{OpensZone};
    ghost use Rattle.reenc_meta.specs.Finishes.{MayFinish};
    ghost use Rattle.reenc_meta.specs.Moves.{IsGoneTo, MayBecome, MayMove, MayOpen};
    ghost use Rattle.segment_map.specs.declared.map.Map.{Map as map_type};

    /// The conversion that is under way in a header; none exactly where none is. The sizes are
    /// those of disks that are joined: atoms of 512 or 4096 bytes, less than `2^63` bytes in all.
    pub fn of(valid: &'a Valid) -> Option<Reenc<'a>>
        requires { IsDisk valid.now.sizes.atom (all_atoms valid.now.sizes) }
        ensures is { IfSome result (λ reenc. reenc.valid.now ≡ valid.now) }
        ensures none { IsNone result ↔ (in_progress valid.now.meta.config ≡ false) }
    {
        valid.is_sound();
        match valid.progress() {
            Some(progress) => Some(Reenc { valid, progress }),
            None => None,
        }
    }

    /// The blocks that are old and in no zone.
    fn left(&self) -> u64
        ensures { result ≡ old_blocks self.now.progress.conversion.direction
            self.now.progress.plan }
    {
        match self.progress.conversion.direction {
            Direction::Forward => self.progress.plan.last,
            Direction::Backward => self.progress.plan.first,
        }
    }

    /// Whether blocks are shifted, and so no zone is opened.
    fn is_shifted(&self) -> bool
        ensures { result ≡ not (may_open self.now.progress.conversion.resilience 1) }
    {
        match self.progress.conversion.resilience {
            Resilience::Journal | Resilience::Checksum(_) => false,
            Resilience::Datashift(_) => true,
        }
    }

    /// How many blocks have room in what guards a zone, or in the shift.
    fn room(&self) -> u64
        ensures { result ≡ capacity self.now.valid.now.sizes.atom self.now.progress }
    {
        let area = self.progress.conversion.area.size;
        let atom = self.valid.sizes().atom;
        match self.progress.conversion.resilience {
            Resilience::Journal => resil_journal::capacity(area, atom),
            Resilience::Checksum(_) => resil_checksum::capacity(area, atom),
            Resilience::Datashift(shift) => shift / atom as u64,
        }
    }

    /// Whether a zone of so many blocks may be opened.
    pub fn may_open(&self, blocks: u64) -> bool
        ensures { (result ≡ true)
            ↔ MayOpen self.now.valid.now.sizes.atom self.now.progress blocks }
    {
        self.progress.plan.zone == 0
            && !self.is_shifted()
            && 0 < blocks
            && blocks <= self.room()
            && blocks <= self.left()
    }

    /// Whether the boundary may move by so many blocks.
    pub fn may_move(&self, blocks: u64) -> bool
        ensures { (result ≡ true)
            ↔ MayMove self.now.valid.now.sizes.atom self.now.progress blocks }
    {
        if blocks == 0 {
            return false;
        }
        if !self.is_shifted() {
            return blocks == self.progress.plan.zone;
        }
        blocks <= self.room() && blocks <= self.left()
    }

    /// Whether no block is left to convert.
    pub fn may_finish(&self) -> bool
        ensures { (result ≡ true) ↔ MayFinish self.now.progress }
    {
        self.progress.plan.zone == 0 && self.left() == 0
    }

    /// The metadata of this conversion, so far.
    #[tactic(auto, unfolding(crate::specs::Layouts::laid_out_by))]
    fn lay_out(&self, alloc: Global, plan: &Plan) -> Result<Meta, AllocError>
        requires { MayBecome self.now.valid.now.sizes.atom self.now.progress plan.now }
        ensures { IfOk result (IsGoneTo self.now.valid.now.meta self.now.valid.now.sizes
            self.now.progress plan.now) }
    {
        self.valid.is_sound();
        let parts = self.valid.meta().parts();
        let progress = &self.progress;
        let runs = list_runs(alloc, progress.conversion.direction, plan)?;
        let sides = list_sides(alloc, runs.as_slice())?;
        let wholes = copy_wholes(alloc, progress, parts.segments.as_slice())?;
        let atom = self.valid.sizes().atom;
        let segments = list_segments(alloc, atom, progress, runs.as_slice(), wholes)?;
        let digests = list_digests(alloc, progress, sides.as_slice(), parts.digests.as_slice())?;
        Ok(Meta::new(Parts {
            keyslots: copy_entries(alloc, parts.keyslots.as_slice())?,
            tokens: copy_entries(alloc, parts.tokens.as_slice())?,
            segments,
            digests: Listed::new(digests),
            config: parts.config.copy(alloc)?,
            rest: parts.rest.copy(alloc)?,
        }))
    }

    /// The metadata with an open zone of so many blocks, the first old ones beside the boundary.
    /// The condition is that no zone is open, that nothing is shifted, and that the zone has a
    /// block and no more than there is room for and than are left.
    ///
    /// # Errors
    ///
    /// Memory was wanted.
    pub fn open_zone(&self, alloc: Global, blocks: u64) -> Result<Meta, AllocError>
        requires { MayOpen self.now.valid.now.sizes.atom self.now.progress blocks }
        ensures is { IfOk result (IsGoneTo self.now.valid.now.meta self.now.valid.now.sizes
            self.now.progress (opened self.now.progress.conversion.direction blocks
            self.now.progress.plan)) }
        ensures map { IfOk result (λ next. (before after : map_type)
            → IsMapAt self.now.valid.now.sizes self.now.progress before
            → IsMapOf next self.now.valid.now.sizes after → OpensZone blocks before after) }
    {
        let direction = self.progress.conversion.direction;
        self.lay_out(alloc, &plan_opened(direction, &self.progress.plan, blocks))
    }

    /// The metadata with the boundary so many blocks on, and without a zone. The condition is that
    /// these are the blocks of the open zone or, where blocks are shifted, at least one and no more
    /// than the shift has room for and than are left.
    ///
    /// # Errors
    ///
    /// Memory was wanted.
    pub fn move_boundary(&self, alloc: Global, blocks: u64) -> Result<Meta, AllocError>
        requires { MayMove self.now.valid.now.sizes.atom self.now.progress blocks }
        ensures is { IfOk result (IsGoneTo self.now.valid.now.meta self.now.valid.now.sizes
            self.now.progress (moved self.now.progress.conversion.direction blocks
            self.now.progress.plan)) }
        ensures map { IfOk result (λ next. (before after : map_type)
            → IsMapAt self.now.valid.now.sizes self.now.progress before
            → IsMapOf next self.now.valid.now.sizes after → MovesBoundary blocks before after) }
    {
        self.valid.is_sound();
        let direction = self.progress.conversion.direction;
        self.lay_out(alloc, &plan_moved(direction, &self.progress.plan, blocks))
    }

    /// Where the blocks of the volume lie, and which of them are old, new or in an open zone.
    pub fn map(&self) -> Map
        ensures is { IsMapAt self.now.valid.now.sizes self.now.progress result }
        ensures live { IsReadOff self.now.valid.now.meta self.now.valid.now.sizes
            self.now.progress result }
    {
        self.valid.is_sound();
        let sizes = self.valid.sizes();
        let plan = &self.progress.plan;
        let base = base_atom(&sizes);
        let atom = sizes.atom as u64;
        Map {
            atom: sizes.atom,
            blocks: plan.first + plan.zone + plan.last,
            boundary: match self.progress.conversion.direction {
                Direction::Forward => plan.first,
                Direction::Backward => plan.first + plan.zone,
            },
            direction: map_direction(self.progress.conversion.direction),
            zone: plan.zone,
            old_place: base + self.progress.old.offset / atom,
            new_place: base + self.progress.new.offset / atom,
        }
    }
}
