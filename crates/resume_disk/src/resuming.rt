// A conversion on a disk that is led to its end.

ghost use Rattle.std.specs.Prelude.{◌≡◌, ◌≢◌, IfErr, IfOk};
ghost use Rattle.reenc_worker.specs.declared.ends.WorkerEnd.TheVariants.{Finished as finished_end};
ghost use Rattle.resume_disk.specs.Refusals.{IsUnfinishedBy};
ghost use Rattle.resume_disk.specs.Resuming.{IsFinishedBy};
ghost use Rattle.resume_disk.specs.declared.refusal.Unfinished.TheVariants.{Halted as halted_run};

use crate::refusal::{Finished, Halted, Unfinished};
use crate::taking::take_up_conversion;
use cipher_laws::SectorCipher;
use gates::Gate;
use reenc_worker::WorkerEnd;
use sector_cipher::Context;
use sector_disk::Disk;
use std::alloc::Global;
use std::thread::Threads;
use volume_core::finish_conversion;

/// What a run is answered by its worker's end, with the disk.
fn conclude<D: Disk>(
    header: Option<D>,
    disk: D,
    end: WorkerEnd,
    blocks: u64,
) -> Result<Finished<D>, Unfinished<D>>
    ensures finished { IfOk result (λ f. (end ≡ finished_end)
        × (f ≡ record { header = header; disk = disk; blocks = blocks })) }
    ensures halted { IfErr result (λ u. (end ≢ finished_end)
        × (u ≡ halted_run (record { header = header; disk = disk; end = end }))) }
{
    match end {
        WorkerEnd::Finished => Ok(Finished {
            header,
            disk,
            blocks,
        }),
        WorkerEnd::Device
        | WorkerEnd::Clash { .. }
        | WorkerEnd::NoFit(_)
        | WorkerEnd::Broken
        | WorkerEnd::Spent
        | WorkerEnd::Memory => Err(Unfinished::Halted(Halted { header, disk, end })),
    }
}

/// Leads the conversion of the volume on a disk to its end, which a passphrase of 1 to 512 bytes
/// opens on both sides. The header is read, and the keyslots, by which nothing is written; then the
/// disk is synced, the header is read and checked once more, a copy of it that lacks or is older is
/// written anew, and a zone that a stop left open is written again; and then zone after zone is
/// converted, until every block is new by a header that converts nothing. Before each step the gate
/// is told how far the conversion is, and may hold the thread. Nothing is written before all checks
/// have passed.
///
/// # Errors
///
/// Why the conversion isn't at its end, with the disk. It wasn't led on, as where bytes that may be
/// sectors of the volume lie behind the disk's last whole atom: then nothing was written, unless a
/// device call failed, or memory was wanted once all was written by which the volume is opened. Or its
/// worker ended so: with `Clash`, `NoFit` or `Memory` the volume stays in use as far
/// as it is converted by its header, and the call may be made again; with `Device` a device call
/// failed, and the disk is as a stop may leave it.
pub fn resume_conversion<R: Threads + Sync, D: Disk, G: Gate>(
    rt: &R,
    alloc: Global,
    disk: D,
    pass: &[u8],
    gate: &G,
) -> Result<Finished<D>, Unfinished<D>>
    ensures finished { IfOk result (λ f. IsFinishedBy ⟦<Context as SectorCipher>⟧.sector
        ⟦<Context as SectorCipher>⟧.sealed ⟦<Context as SectorCipher>⟧.opened D.device disk
        pass.now f.header f.disk f.blocks) }
    ensures unfinished { IfErr result (IsUnfinishedBy ⟦<Context as SectorCipher>⟧.sector
        ⟦<Context as SectorCipher>⟧.sealed ⟦<Context as SectorCipher>⟧.opened D.device disk
        pass.now) }
{
    match take_up_conversion(rt, alloc, disk, pass, 1, gate) {
        Ok(volume) => {
            let mut volume = volume;
            let end = finish_conversion(rt, alloc, &mut volume, gate);
            let blocks = volume.progress().blocks;
            let (header, disk) = volume.into_disk().parts();
            conclude(header, disk, end, blocks)
        }
        Err(refused) => Err(Unfinished::Refused(refused)),
    }
}
