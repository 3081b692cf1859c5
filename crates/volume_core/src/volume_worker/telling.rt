// What a volume's answers are to a worker, and what a gate is told.

ghost use Rattle.std.specs.Prelude.{◌≡◌, Err};
ghost use Rattle.reenc_worker.specs.declared.ends.WorkAnswer.TheVariants.{Ended};
ghost use Rattle.volume_core.specs.Zones.{worked_of};
ghost use Rattle.volume_core.specs.WorkerLoop.Telling.{converted_in};
ghost use Rattle.volume_laws.specs.WorkerRuns.Steps.{told_by};
ghost use Rattle.hotzone.specs.ZoneEvents.Promises.{answer_of};

use crate::{Volume, Worked, ZoneFault};
use cipher_laws::SectorCipher;
use gates::Converted;
use reenc_worker::{NoFit, WorkAnswer, WorkerEnd};
use sector_disk::Disk;

/// What a call of a worker is answered by a volume's answer.
pub fn told(worked: Worked) -> WorkAnswer
    ensures { result ≡ told_by (worked_of worked) }
{
    match worked {
        Worked::Stepped => WorkAnswer::Stepped,
        Worked::Waiting(_) => WorkAnswer::Waiting,
        Worked::Finished => WorkAnswer::Ended(WorkerEnd::Finished),
        Worked::Fault(fault) => WorkAnswer::Ended(end_of(fault)),
        Worked::Broken => WorkAnswer::Ended(WorkerEnd::Broken),
    }
}

/// How far the conversion of a volume is.
pub fn converted_of<D: Disk, C: SectorCipher + Copy>(volume: &Volume<D, C>) -> Converted
    ensures { result ≡ converted_in volume.now.map }
{
    let map = volume.map();
    Converted {
        done: map.converted(),
        blocks: map.blocks,
        atom: map.atom,
    }
}

/// How a worker ends by a step that failed, or can't be made.
fn end_of(fault: ZoneFault) -> WorkerEnd
    ensures { Ended result ≡ told_by (answer_of (Err fault)) }
{
    match fault {
        ZoneFault::Device => WorkerEnd::Device,
        ZoneFault::DigestClash { block, digest } => WorkerEnd::Clash { block, digest },
        ZoneFault::SeqEnd { left, wanted } => WorkerEnd::NoFit(NoFit::SeqEnd { left, wanted }),
        ZoneFault::JsonFull { length, limit } => WorkerEnd::NoFit(NoFit::JsonFull {
            length,
            limit,
        }),
        ZoneFault::Memory => WorkerEnd::Memory,
    }
}
