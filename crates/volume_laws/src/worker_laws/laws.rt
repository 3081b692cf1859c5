// Laws of a conversion that its worker leads, alone, or beside clients.

ghost use Rattle.std.specs.Prelude.{List, ◌≡◌, ◌<◌, ◌-◌, ◌^◌, false, ℕ};
ghost use Rattle.crash_laws.specs.HeaderAreas.Headers.{Header, Layout};
ghost use Rattle.reenc_worker.specs.Answers.{AreAnswers};
ghost use Rattle.reenc_worker.specs.declared.ends.WorkAnswer.{WorkAnswer};
ghost use Rattle.reenc_worker.specs.declared.ends.WorkerEnd.{WorkerEnd};
ghost use Rattle.volume_machine.specs.Readings.{Reading};
ghost use Rattle.volume_machine.specs.Seals.{Seals};
ghost use Rattle.volume_machine.specs.States.{State};
ghost use Rattle.volume_machine.specs.declared.keys.Keys.{Keys};
ghost use Rattle.volume_laws.specs.WorkerRuns.Conversions.{HasConverted, IsFaultless, MayConvert};
ghost use Rattle.volume_laws.specs.WorkerRuns.Leaving.{DeedsLeaveTheRest, WorksLeaveTheRest};
ghost use Rattle.volume_laws.specs.WorkerRuns.Steps.{HasWorked};

use cipher_laws::SectorCipher;

/// A worker that leads a conversion alone, with no operation under way, leaves by each of its ends
/// what that end says. Where no device call failed it ends with `Finished`, `Clash`, `NoFit`,
/// `Memory` or `Spent`, unless the volume was broken before.
pub fn conversions_end<C: SectorCipher>()
    ensures ends { (reading : Reading) (seals : Seals) (layout : Layout)
        (header : Header (List ℕ)) (old new : State (Keys C)) (answers : List WorkAnswer)
        (end : WorkerEnd) → MayConvert reading layout header old →
        HasWorked reading seals old new answers → AreAnswers end answers →
        HasConverted reading seals layout header old new end }
    ensures complete { (reading : Reading) (seals : Seals) (layout : Layout)
        (header : Header (List ℕ)) (old new : State (Keys C)) (end : WorkerEnd) →
        HasConverted reading seals layout header old new end → old.broken ≡ false →
        new.disk.faults ≡ old.disk.faults → old.disk.faults < 2 ^ 64 - 1 → IsFaultless end }
{}

/// Behind each of the deeds by which a conversion goes on, steps of its worker and events of clients in
/// any order, each header that a stop may leave says of both sides, of what guards zones and of keyslots
/// what the first one said, or the conversion is at its end by it, and it says of the new side what that
/// said. And the rest of the disk stays: where blocks stay in their places, as they do by journal and by
/// checksum, each atom that is no copy's and no block's, and isn't in the area that guards zones, holds
/// what it held, and a stop leaves there only that or what it might have left before; or it is in an area
/// of a keyslot that the last header hasn't any more, which then stands for certain.
pub fn deeds_leave_the_rest<C: SectorCipher>()
    ensures { DeedsLeaveTheRest C }
{}

/// So it is wherever a worker stops that leads a conversion alone.
pub fn works_leave_the_rest<C: SectorCipher>()
    ensures { WorksLeaveTheRest C }
{}
