// A conversion that is led to its end.

ghost use Rattle.std.specs.Prelude.{List, ℕ, IsSome, ◌≡◌, ◌<◌, ◌-◌, ◌^◌, false};
ghost use Rattle.crash_laws.specs.HeaderAreas.Headers.{Header, Layout};
ghost use Rattle.base_terms.specs.declared.disk_sizes.Sizes.{Sizes};
ghost use Rattle.reenc_worker.specs.Answers.{AreAnswers};
ghost use Rattle.reenc_worker.specs.declared.ends.WorkAnswer.{WorkAnswer};
ghost use Rattle.volume_core.specs.Zones.{IsReadBy};
ghost use Rattle.volume_laws.specs.Converting.{IsInOrder};
ghost use Rattle.volume_machine.specs.Seals.{seals_of};
ghost use Rattle.volume_machine.specs.States.{IsIdle};
ghost use Rattle.volume_laws.specs.WorkerRuns.Conversions.{HasConverted, IsFaultless, MayConvert};
ghost use Rattle.volume_laws.specs.WorkerRuns.Steps.{HasWorked};
ghost use Rattle.hotzone.specs.ZoneEvents.Readings.{reading_of};

use crate::Volume;
use crate::volume_worker::telling::{converted_of, told};
use cipher_laws::SectorCipher;
use gates::{Gate, Place};
use reenc_worker::{WorkAnswer, WorkerEnd};
use sector_disk::Disk;
use std::alloc::Global;
use std::thread::Threads;
use volume_laws::conversions_end;

/// Leads the conversion of a volume to its end, zone after zone, on which no operation is under way:
/// all that it does are steps of the volume's worker. Before each the gate is told how far the
/// conversion is, and may hold the thread.
///
/// Of a volume of which blocks were to be converted and no zone was at hand it is told so: with
/// `Finished` every block is new, by a header that converts nothing, and the areas of the keyslots
/// that it hasn't any more hold zeros, which are certain to be kept. With `Device` a device call
/// failed: the volume is broken, or the zone was given up. With `Clash`, `NoFit`, `Memory`, or a
/// zone that was given up, the volume stays in use as far as it is, and the call may be made again.
/// `Broken` comes where the volume was broken before, and nothing was done; `Spent` behind
/// `2^64 - 1` steps. It waits for nobody.
pub fn finish_conversion<R: Threads + Sync, D: Disk, C: SectorCipher + Copy + Sync, G: Gate>(
    rt: &R,
    alloc: Global,
    volume: &mut Volume<D, C>,
    gate: &G,
) -> WorkerEnd
    requires armed { IsSome volume.old.work }
    requires idle { IsIdle volume.old }
    ensures worked { (sizes : Sizes) → IsReadBy sizes volume.old →
        IsInOrder (reading_of sizes) volume.old → (answers : List WorkAnswer)
        × HasWorked (reading_of sizes)
        (seals_of C.sealed C.opened volume.old.map.atom volume.old.keys) volume.old volume.new answers
        × AreAnswers result answers }
    ensures converted { (sizes : Sizes) (layout : Layout) (header : Header (List ℕ)) →
        IsReadBy sizes volume.old → MayConvert (reading_of sizes) layout header volume.old →
        HasConverted (reading_of sizes)
        (seals_of C.sealed C.opened volume.old.map.atom volume.old.keys) layout header
        volume.old volume.new result }
    ensures read { (sizes : Sizes) → IsReadBy sizes volume.old →
        IsInOrder (reading_of sizes) volume.old → IsReadBy sizes volume.new }
    ensures order { (sizes : Sizes) → IsReadBy sizes volume.old →
        IsInOrder (reading_of sizes) volume.old → IsInOrder (reading_of sizes) volume.new }
    ensures armed { IsSome volume.new.work }
    ensures complete { (sizes : Sizes) (layout : Layout) (header : Header (List ℕ)) →
        IsReadBy sizes volume.old → MayConvert (reading_of sizes) layout header volume.old →
        volume.old.broken ≡ false → volume.new.disk.faults ≡ volume.old.disk.faults →
        volume.old.disk.faults < 2 ^ 64 - 1 → IsFaultless result }
{
    conversions_end::<C>();
    for _ in 0..u64::MAX {
        gate.tell(converted_of(volume));
        gate.pause(Place::Work);
        match told(volume.work(rt, alloc)) {
            WorkAnswer::Stepped | WorkAnswer::Waiting => {}
            WorkAnswer::Ended(end) => return end,
        }
    }
    WorkerEnd::Spent
}
