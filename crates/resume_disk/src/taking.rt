// A conversion on a disk that is taken up again.

ghost use Rattle.std.specs.Prelude.{◌<◌, IfErr, IfOk};
ghost use Rattle.resume_disk.specs.Refusals.{IsRefusedBy};
ghost use Rattle.resume_disk.specs.Resuming.{IsOpenedMidway};

use crate::midway::{ConversionFault, open_conversion};
use crate::refusal::{Refusal, Refused};
use crate::unlocking::unlock_sides;
use cipher_laws::SectorCipher;
use gates::Gate;
use reenc_recovery::disks_tell_lawfully;
use sector_cipher::Context;
use sector_disk::{Disk, JoinedDisk};
use std::alloc::Global;
use std::thread::Threads;
use volume_core::Volume;

/// Opens the volume of which a conversion is under way on a disk, which a passphrase of 1 to 512
/// bytes opens on both sides, with so many lanes, of which the last one is the conversion's own. The
/// header is read, and the keyslots, by which nothing is written; then the disk is synced, the header
/// is read and checked once more, a copy of it that lacks or is older is written anew, which the gate
/// is told, and a zone that a stop left open is written again. The volume has what its conversion takes: the next zone begins
/// with its worker's first step, and without one nothing more is converted. Nothing is written before
/// all checks have passed.
///
/// # Errors
///
/// Why no volume is opened, with the disk. Then nothing was written, unless a device call failed, or
/// memory was wanted once all was written by which the volume is opened; by the header that stands
/// then the call may be made again.
pub fn take_up_conversion<R: Threads + Sync, D: Disk, G: Gate>(
    rt: &R,
    alloc: Global,
    disk: D,
    pass: &[u8],
    lanes: u32,
    gate: &G,
) -> Result<Volume<JoinedDisk<D>, Context>, Refused<D>>
    requires { 0 < lanes }
    ensures taken { IfOk result (IsOpenedMidway ⟦<Context as SectorCipher>⟧.sector
        ⟦<Context as SectorCipher>⟧.sealed ⟦<Context as SectorCipher>⟧.opened (D.device disk)
        pass.now lanes) }
    ensures refused { IfErr result (λ refused. IsRefusedBy ⟦<Context as SectorCipher>⟧.sector
        ⟦<Context as SectorCipher>⟧.sealed ⟦<Context as SectorCipher>⟧.opened D.device disk
        pass.now refused.refusal refused.header refused.disk) }
{
    let (disk, found) = unlock_sides(alloc, disk, pass, gate);
    let keys = match found {
        Ok(keys) => keys,
        Err(refusal) => {
            return Err(Refused {
                header: None,
                disk,
                refusal,
            });
        }
    };
    let joined = JoinedDisk::alone(disk);
    disks_tell_lawfully(&joined);
    let _sizes = joined.sizes();
    match open_conversion(rt, alloc, joined, &keys, lanes) {
        Ok(volume) => Ok(volume),
        Err(ConversionFault { disk, cause }) => {
            let (header, disk) = disk.parts();
            Err(Refused {
                header,
                disk,
                refusal: Refusal::Unopened(cause),
            })
        }
    }
}
