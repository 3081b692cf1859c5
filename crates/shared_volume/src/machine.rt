// A volume as the machine of a cell.

ghost use Rattle.std.specs.Prelude.{◌≡◌, ◌&&◌, [], IsSome, is_none, is_some};
ghost use Rattle.base_terms.specs.declared.disk_sizes.Sizes.{Sizes};
ghost use Rattle.shared_volume.specs.Ciphers.{opened, sealed};
ghost use Rattle.shared_volume.specs.Histories.{MayBeShared, StandsFor};
ghost use Rattle.volume_core.specs.Zones.{IsReadBy, worked_of};
ghost use Rattle.volume_machine.specs.Seals.{seals_of};
ghost use Rattle.volume_machine.specs.States.{open_at};
ghost use Rattle.volume_machine.specs.WorkSteps.{WorkStep};
ghost use Rattle.volume_core.specs.WorkerLoop.Telling.{converted_in};
ghost use Rattle.hotzone.specs.ZoneEvents.Readings.{reading_of};

use crate::asking::{SharedEvent, SharedOutcome, WorkDone};
use crate::calling::{LaneCall, make_call};
use sector_cipher::Context;
use sector_disk::Disk;
use std::alloc::Global;
use std::snapshot::Snapshot;
use std::sync::Wait;
use std::thread::Threads;
use volume_cell::Machine;
use volume_core::{Volume, converted_of};

/// A volume, and for the proofs alone what it was when it was handed in. The steps of its worker
/// take memory where this says.
pub struct SharedVolume<D: Disk> {
    volume: Volume<D, Context>,
    opening: Snapshot<Volume<D, Context>>,
    alloc: Global,
}

// By hand, so that a value that is dropped in place is one call to the prover.
impl<D: Disk + Drop> Drop for SharedVolume<D> {
    fn drop(self) {
        let SharedVolume {
            volume,
            opening,
            alloc: _,
        } = self;
        drop(volume);
        drop(opening);
    }
}

impl<D: Disk> SharedVolume<D> {
    /// The machine of a volume on which no operation is under way.
    //
    // Out of line: with each move of a volume, of 18 KiB, in one function LLVM doesn't end.
    #[inline(never)]
    pub fn of(alloc: Global, volume: Volume<D, Context>) -> SharedVolume<D>
        requires { MayBeShared volume }
        ensures opening { result.opening.value ≡ volume }
        ensures volume { result.volume ≡ volume }
        ensures stands { StandsFor (seals_of sealed opened result.opening.value.map.atom
            result.opening.value.keys) result.opening.value result.volume [] }
    {
        let opening = Snapshot::of(&volume);
        SharedVolume {
            volume,
            opening,
            alloc,
        }
    }

    /// The volume.
    pub fn into_volume(self) -> Volume<D, Context>
        ensures { result ≡ self.volume }
    {
        let SharedVolume {
            volume,
            opening,
            alloc: _,
        } = self;
        drop(opening);
        volume
    }
}

impl<D: Disk> Machine for SharedVolume<D> {
    ghost use Rattle.shared_volume.specs.Histories.{Fits};

    type Event = SharedEvent;

    type Outcome = SharedOutcome;

    type Start = Volume<D, Context>;

    ghost start = { λ machine. machine.opening.value };

    ghost stands_for = { λ machine history.
        StandsFor (seals_of sealed opened machine.opening.value.map.atom
        machine.opening.value.keys) machine.opening.value machine.volume history };

    ghost fits = { λ start name calls event.
        Fits (seals_of sealed opened start.map.atom start.keys) start name calls event };

    // A step of the worker may seal a MiB, or sync the disk.
    fn is_long(event: &SharedEvent) -> bool {
        matches!(event, SharedEvent::Worker(_))
    }

    fn act<R: Threads + Wait + Sync>(&mut self, rt: &R, event: SharedEvent) -> SharedOutcome {
        match event {
            SharedEvent::Client(LaneCall { lane, call }) => {
                SharedOutcome::Client(make_call(&mut self.volume, lane, call))
            }
            SharedEvent::Worker(lane) => {
                SharedOutcome::Worker(make_step(rt, self.alloc, &mut self.volume, lane))
            }
        }
    }
}

/// Makes the next step of a volume's worker, whose lane has this number.
fn make_step<R: Threads + Wait + Sync, D: Disk>(
    rt: &R,
    alloc: Global,
    volume: &mut Volume<D, Context>,
    lane: u32,
) -> WorkDone
    requires armed { IsSome volume.old.work }
    ensures step { (sizes : Sizes) → IsReadBy sizes volume.old → WorkStep (reading_of sizes)
        (seals_of sealed opened volume.old.map.atom volume.old.keys) volume.old volume.new
        (worked_of result.worked) }
    ensures read { (sizes : Sizes) → IsReadBy sizes volume.old → IsReadBy sizes volume.new }
    ensures armed { IsSome volume.new.work }
    ensures converted { result.converted ≡ converted_in volume.new.map }
    ensures has_left { result.has_left ≡ (is_some (open_at volume.old.lanes lane)
        && is_none (open_at volume.new.lanes lane)) }
{
    let had = volume.operation(lane).is_some();
    let worked = volume.work(rt, alloc);
    WorkDone {
        worked,
        converted: converted_of(volume),
        has_left: had && volume.operation(lane).is_none(),
    }
}
