// The conversion of a volume that is in use.

ghost use Rattle.std.specs.Prelude.{◌≡◌, ◌*◌, ◌<◌, ◌^◌, ◌++◌, ◌∷◌, [], true, false, suc, length, IfErr, IfOk};
ghost use Rattle.std.specs.Prelude.{IsSome, None, Some};
ghost use Rattle.base_terms.specs.declared.block_range.BlockRange.{BlockRange as blocks};
ghost use Rattle.base_terms.specs.declared.disk_sizes.Sizes.{Sizes};
ghost use Rattle.hotzone.specs.Workers.{MayGoOn, range_in};
ghost use Rattle.sector_disk.specs.JoinedDisks.Counts.{HasSizes};
ghost use Rattle.range_lock.specs.Locks.{IsStanding, has_entry};
ghost use Rattle.reenc_meta.specs.ConversionMaps.{IsMapOf};
ghost use Rattle.volume_core.specs.Turns.{HasLeft, HasWorked, IsRenewed, IsTurn, MayRenew, StandsAs};
ghost use Rattle.volume_core.specs.Turns.{locked, shared, taken, write_on};
ghost use Rattle.volume_core.specs.Zones.{HasArmed, IsReadBy, worked_of};
ghost use Rattle.volume_laws.specs.Converting.{IsInOrder};
ghost use Rattle.volume_machine.specs.Asks.{IsWrite};
ghost use Rattle.volume_machine.specs.Seals.{seals_of};
ghost use Rattle.volume_machine.specs.States.{LaneBecomes, open_at};
ghost use Rattle.volume_machine.specs.WorkSteps.{WorkStep};
ghost use Rattle.volume_machine.specs.declared.open.Open.{Open};
ghost use Rattle.hotzone.specs.ZoneEvents.Promises.{IsLaneFree, breaks};
ghost use Rattle.hotzone.specs.ZoneEvents.Readings.{reading_of};

use crate::answers::Worked;
use crate::volume::{Volume, lock};
use base_terms::BlockRange;
use cipher_laws::SectorCipher;
use hotzone::{
    Halt, Zone, maps_follow, sizes_are_told, steps_are_works, zones_are_planned,
    zones_begin_in_order,
};
use luks_store::Loaded;
use range_lock::{Standing, Table};
use sector_disk::Disk;
use segment_map::Map;
use std::alloc::{AllocError, Global};
use std::mem;
use std::thread::Threads;
use volume_machine::{Ask, Open, set_lane};

// What the worker does next.
#[derive(Clone, Copy)]
pub(crate) enum Turn {
    // No step is left.
    Ends,
    // It takes the blocks of the next zone.
    Takes(BlockRange),
    // It leaves blocks that are new.
    Leaves,
    // It waits for the blocks of the next zone.
    Waits(u32),
    // It makes the next step of the zone, or of the finish.
    Goes,
}

impl<D: Disk, C: SectorCipher + Copy> Volume<D, C> {
    /// Takes what the conversion of the volume needs, which is under way by its header: the buffers
    /// of a zone's part. No zone of it is open, it is guarded by a journal or by checksum, and the
    /// header's map is the volume's. What is promised of its steps asks besides that both copies on
    /// the disk hold this header, and that the volume's keys are those of its segments. Where there
    /// is no memory the volume is as it was, and the header is gone.
    pub fn arm(&mut self, alloc: Global, loaded: Loaded) -> Result<(), AllocError>
        requires unarmed { self.old.work ≡ None }
        requires unbroken { self.old.broken ≡ false }
        requires free { IsLaneFree self.old }
        requires may { MayGoOn loaded }
        requires sizes { HasSizes loaded.valid.sizes self.old.disk }
        requires map { IsMapOf loaded.valid.meta loaded.valid.sizes self.old.map }
        ensures armed { IfOk result (λ _. HasArmed loaded self.old self.new) }
        ensures read { IfOk result (λ _. IsReadBy loaded.valid.sizes self.new) }
        ensures order { IfOk result (λ _. IsInOrder (reading_of loaded.valid.sizes) self.new) }
        ensures refused { IfErr result (λ _. self.new ≡ self.old) }
    {
        loaded.is_stored();
        let zone = Zone::new(alloc, loaded, self.keys)?;
        zone.is_working();
        zones_begin_in_order::<C>();
        put_zone(&mut self.zone, zone);
        Ok(())
    }

    // The last lane, which is the conversion's own.
    fn worker_lane(&self) -> u32
        ensures { suc result ≡ length self.now.lanes }
    {
        (self.lanes.len() - 1) as u32
    }
}

impl<D: Disk, C: SectorCipher + Copy + Sync> Volume<D, C> {
    /// The next step of the conversion: at most one device call. The blocks of a zone are taken as a
    /// write of a lane of clients takes its own, behind those that came earlier, and left when they
    /// are new. A step that fails leaves them, and breaks the volume where it was a write, a sync, or
    /// a read behind a zone's first commit; on a broken volume nothing more is converted. One that
    /// can't be made breaks nothing, and the zone, or the finish, begins anew with the next call.
    ///
    /// Memory is wanted for headers, before the first write of a zone, and of the finish.
    pub fn work<R: Threads + Sync>(&mut self, rt: &R, alloc: Global) -> Worked
        requires armed { IsSome self.old.work }
        ensures step { (sizes : Sizes) → IsReadBy sizes self.old → WorkStep (reading_of sizes)
            (seals_of C.sealed C.opened self.old.map.atom self.old.keys) self.old self.new
            (worked_of result) }
        ensures read { (sizes : Sizes) → IsReadBy sizes self.old → IsReadBy sizes self.new }
        ensures keys { self.new.keys ≡ self.old.keys }
        ensures armed { IsSome self.new.work }
    {
        steps_are_works::<C>();
        zones_are_planned::<C>();
        maps_follow::<C>();
        sizes_are_told::<C>();
        let lane = self.worker_lane();
        let Some(zone) = &mut self.zone else {
            unreachable!()
        };
        zone.is_working();
        let worked = go_on(
            rt,
            alloc,
            zone,
            lane,
            &mut self.map,
            &mut self.table,
            &mut self.lanes,
            &mut self.broken,
            &mut self.disk,
        );
        zone.is_working();
        worked
    }
}

// The next step of a zone, on what a volume shares between the worker and clients.
fn go_on<R: Threads + Sync, D: Disk, C: SectorCipher + Copy + Sync>(
    rt: &R,
    alloc: Global,
    zone: &mut Zone<C>,
    lane: u32,
    map: &mut Map,
    table: &mut Table,
    lanes: &mut Vec<Option<Open>>,
    broken: &mut bool,
    disk: &mut D,
) -> Worked
    requires below { lane < length lanes.old.items }
    requires halted { broken.old ≡ false → MayRenew zone.old.halted }
    requires locked { (o : Open) → open_at lanes.old.items lane ≡ Some o
        → has_entry lane table.old.entries ≡ true }
    requires free { open_at lanes.old.items lane ≡ None
        → (has_entry lane table.old.entries ≡ false) × (length table.old.entries < table.old.room) }
    requires fits { broken.old ≡ false → open_at lanes.old.items lane ≡ None → (range : blocks)
        → range_in zone.old ≡ Some range
        → (range.start < range.end) × (range.end * map.old.atom < 2 ^ 63) }
    requires sizes { HasSizes zone.old.loaded.valid.sizes (D.device disk.old) }
    ensures { HasWorked C.sealed C.opened lane zone.old zone.new
        (shared map.old table.old lanes.old.items broken.old (D.device disk.old))
        (shared map.new table.new lanes.new.items broken.new (D.device disk.new)) result }
{
    if *broken {
        leave(table, lanes, lane);
        return Worked::Broken;
    }
    renew(zone);
    match next_turn(zone, table, lanes.as_slice(), lane) {
        Turn::Ends => return Worked::Finished,
        Turn::Takes(range) => {
            let ask = write_of(range, map.atom);
            return take(table, lanes, lane, ask, range);
        }
        Turn::Leaves => {
            leave(table, lanes, lane);
            return Worked::Stepped;
        }
        Turn::Waits(other) => return Worked::Waiting(other),
        Turn::Goes => {}
    }
    match zone.step(rt, alloc, disk) {
        Ok(_) => {
            *map = zone.map();
            Worked::Stepped
        }
        Err(fault) => {
            *broken = is_breaking(zone.halted());
            leave(table, lanes, lane);
            Worked::Fault(fault)
        }
    }
}

// A volume's zone is put in, in place of none.
fn put_zone<C: SectorCipher + Copy>(own: &mut Option<Zone<C>>, zone: Zone<C>)
    ensures { own.new ≡ Some zone }
{
    drop(mem::replace(own, Some(zone)));
}

// Lets a zone that was given up begin anew, or the finish.
fn renew<C: SectorCipher + Copy>(zone: &mut Zone<C>)
    requires { MayRenew zone.old.halted }
    ensures { IsRenewed zone.old zone.new }
{
    if zone.halted().is_some() {
        zone.again();
    }
}

// What the worker does next, on a volume that isn't broken. While a zone is at hand the lane has its
// blocks and no others, and holds them.
fn next_turn<C: SectorCipher + Copy>(
    zone: &Zone<C>,
    table: &Table,
    lanes: &[Option<Open>],
    lane: u32,
) -> Turn
    requires below { lane < length lanes.now }
    requires locked { (o : Open) → open_at lanes.now lane ≡ Some o
        → has_entry lane table.now.entries ≡ true }
    ensures { IsTurn zone.now table.now.entries (open_at lanes.now lane) lane result }
{
    if zone.is_over() {
        return Turn::Ends;
    }
    let Some(open) = lanes[lane as usize] else {
        return match zone.range() {
            Some(range) => Turn::Takes(range),
            None => Turn::Goes,
        };
    };
    let Some(range) = zone.range() else {
        return Turn::Leaves;
    };
    if range != open.range {
        return Turn::Leaves;
    }
    match table.ask(lane) {
        Standing::Held => Turn::Goes,
        Standing::Waiting(other) => Turn::Waits(other),
    }
}

// Takes blocks for the worker: it enters the table of locks behind all others.
fn take(
    table: &mut Table,
    lanes: &mut Vec<Option<Open>>,
    lane: u32,
    ask: Ask,
    range: BlockRange,
) -> Worked
    requires below { lane < length lanes.old.items }
    requires room { length table.old.entries < table.old.room }
    requires new { has_entry lane table.old.entries ≡ false }
    requires writes { IsWrite ask }
    ensures entered { table.new.entries ≡ table.old.entries ++ locked lane range ∷ [] }
    ensures stands { StandsAs (IsStanding table.old.entries (locked lane range)) result }
    ensures lane { LaneBecomes lanes.old.items lanes.new.items lane (Some (taken ask range)) }
    ensures room { table.new.room ≡ table.old.room }
{
    set_lane(lanes, lane, Some(Open::new(0, ask, range)));
    match lock(table, lane, range, ask) {
        Standing::Held => Worked::Stepped,
        Standing::Waiting(other) => Worked::Waiting(other),
    }
}

// Whether a conversion that was halted so breaks its volume.
fn is_breaking(halted: Option<Halt>) -> bool
    ensures { result ≡ breaks halted }
{
    match halted {
        Some(Halt::Failed) | Some(Halt::InCommit(_)) => true,
        Some(Halt::GivenUp) | None => false,
    }
}

// A write of these blocks.
fn write_of(range: BlockRange, atom: u32) -> Ask
    requires rising { range.start < range.end }
    requires small { range.end * atom < 2 ^ 63 }
    ensures { result ≡ write_on range atom }
{
    Ask::Write {
        offset: range.start * u64::from(atom),
        length: range.len() * u64::from(atom),
        fua: false,
    }
}

// Leaves the blocks of a lane, where it has some.
fn leave(table: &mut Table, lanes: &mut Vec<Option<Open>>, lane: u32)
    requires { lane < length lanes.old.items }
    ensures left { HasLeft lane table.old.entries table.new.entries lanes.old.items lanes.new.items }
    ensures room { table.new.room ≡ table.old.room }
{
    if table.has_entry(lane) {
        table.leave(lane);
        set_lane(lanes, lane, None);
    }
}
