// The opening of a volume that is being converted, in one call.

ghost use Rattle.std.specs.Prelude.{◌≡◌, ◌<◌, ℕ, List, Some, IfErr, IfOk, IfSome};
ghost use Rattle.resume_disk.specs.OpenedMidway.Causes.{HasCauseIn, IsCauseIn};
ghost use Rattle.resume_disk.specs.OpenedMidway.Openings.{IsLedOn, IsNotLedOn, IsOpenedOf};
ghost use Rattle.resume_disk.specs.OpenedMidway.Openings.{IsUnopened};
ghost use Rattle.resume_disk.specs.OpenedMidway.Runs.{BeginsBy, FitsVolume, header_in};
ghost use Rattle.sector_disk.specs.JoinedDisks.Counts.{HasSizes, joint_in, sizes_of};
ghost use Rattle.luks_store.specs.Copying.Held.{repair_stage_in};
ghost use Rattle.luks_store.specs.declared.header_copies.repair.RepairStage.TheVariants.{Broken};
ghost use Rattle.luks_store.specs.Devices.{device_of, front_of};
ghost use Rattle.luks_store.specs.Loads.{stored_in};
ghost use Rattle.reenc_recovery.specs.Calls.{RepairFits};
ghost use Rattle.volume_core.specs.Zones.{IsReadBy};
ghost use Rattle.volume_laws.specs.Converting.{IsInOrder};
ghost use Rattle.volume_machine.specs.Sound.{IsSound};
ghost use Rattle.hotzone.specs.ZoneEvents.Readings.{reading_of};
ghost use Rattle.image_laws.specs.Led.Holding.{TellsLawfully};

use crate::midway::arming::arm_volume;
use crate::midway::checking::{Begun, check_conversion};
use crate::midway::fault::{ConversionCause, ConversionFault};
use crate::midway::stepping::lead;
use base_terms::Failed;
use cipher_laws::SectorCipher;
use reenc_recovery::{OpenCause, SideKeys, disks_tell_lawfully, mend};
use sector_cipher::Context;
use sector_disk::{Disk, JoinedDisk};
use std::alloc::{AllocError, Global};
use std::thread::Threads;
use volume_core::{Lanes, Volume};

/// Joined disks tell their table and their bytes alike, as each disk does.
fn tell_lawfully<D: Disk>(disk: &JoinedDisk<D>)
    ensures { TellsLawfully (device_of disk.now) }
{
    disks_tell_lawfully(disk);
}

/// Leads a conversion on that passed all checks: the repair of its header, the steps by which a zone
/// that is open is written again, and the volume.
fn lead_on<R: Threads + Sync, D: Disk>(
    rt: &R,
    alloc: Global,
    disk: JoinedDisk<D>,
    begun: Begun,
    lanes: Lanes,
) -> Result<Volume<JoinedDisk<D>, Context>, ConversionFault<D>>
    requires begins { BeginsBy begun.keys begun.course }
    requires volume { FitsVolume ⟦<Context as SectorCipher>⟧.sector (header_in begun.course)
        begun.keys }
    requires repair { IfSome begun.repair (λ r. repair_stage_in r ≡ Broken) }
    requires fits { IfSome begun.repair (RepairFits (device_of disk)) }
    requires sizes { HasSizes (header_in begun.course).valid.sizes (device_of disk) }
    ensures led { IfOk result (IsLedOn ⟦<Context as SectorCipher>⟧.sector ⟦<Context as SectorCipher>⟧.sealed
        ⟦<Context as SectorCipher>⟧.opened (header_in begun.course).valid.sizes
        (header_in begun.course) begun.keys begun.repair lanes (device_of disk)) }
    ensures read { IfOk result (IsReadBy (header_in begun.course).valid.sizes) }
    ensures order { IfOk result
        (IsInOrder (reading_of (header_in begun.course).valid.sizes)) }
    ensures sound { IfOk result IsSound }
    ensures left { IfErr result (λ fault. IsNotLedOn ⟦<Context as SectorCipher>⟧.sector ⟦<Context as SectorCipher>⟧.sealed
        ⟦<Context as SectorCipher>⟧.opened (header_in begun.course) begun.keys begun.repair
        (device_of disk) (device_of fault.disk) fault.cause) }
{
    let mut disk = disk;
    let Begun {
        keys,
        course,
        repair,
    } = begun;
    match mend(&mut disk, repair) {
        Ok(()) => {}
        Err(Failed) => {
            drop(course);
            return Err(ConversionFault {
                disk,
                cause: ConversionCause::Opening(OpenCause::Device),
            });
        }
    }
    let header = match lead(rt, &mut disk, course) {
        Ok(header) => header,
        Err(Failed) => {
            return Err(ConversionFault {
                disk,
                cause: ConversionCause::Opening(OpenCause::Device),
            });
        }
    };
    disks_tell_lawfully(&disk);
    match arm_volume(alloc, disk, header, keys, lanes) {
        Ok(volume) => Ok(volume),
        Err(disk) => Err(ConversionFault {
            disk,
            cause: ConversionCause::Opening(OpenCause::Memory),
        }),
    }
}

/// The volume that lies under the header of joined disks, by which a conversion is under way that is
/// guarded by a journal or by checksum, with so many lanes; it has what its conversion takes, and goes
/// on with it. The disks are synced; then the header is read and checked, and the keys of both sides
/// are compared with the digests of their segments; a copy of the header that lacks or is older is
/// written anew, and synced; and last the zone that a stop left open, where there is one, is written
/// again, and the boundary moved over it. Nothing is written before all checks have passed, the header
/// with the boundary moved among them. Where no volume is opened the disks are handed back, which tell
/// their table and their bytes alike; the keys are the caller's, whatever is answered.
///
/// # Errors
///
/// Why no volume is opened, as [`ConversionCause`] names it. Memory for the buffer of the conversion
/// is wanted last, when all is written.
pub fn open_conversion<R: Threads + Sync, D: Disk>(
    rt: &R,
    alloc: Global,
    disk: JoinedDisk<D>,
    keys: &SideKeys,
    lanes: u32,
) -> Result<Volume<JoinedDisk<D>, Context>, ConversionFault<D>>
    requires { 0 < lanes }
    ensures opened { IfOk result (IsOpenedOf ⟦<Context as SectorCipher>⟧.sector
        ⟦<Context as SectorCipher>⟧.sealed ⟦<Context as SectorCipher>⟧.opened (sizes_of disk)
        keys.now lanes (joint_in disk)) }
    ensures read { IfOk result (IsReadBy (sizes_of disk)) }
    ensures order { IfOk result (IsInOrder (reading_of (sizes_of disk))) }
    ensures sound { IfOk result IsSound }
    ensures unopened { IfErr result (λ fault. IsUnopened ⟦<Context as SectorCipher>⟧.sector
        ⟦<Context as SectorCipher>⟧.sealed ⟦<Context as SectorCipher>⟧.opened (sizes_of disk)
        (sizes_of fault.disk) keys.now (joint_in disk) (joint_in fault.disk) fault.cause) }
    ensures cause { IfErr result
        (λ fault. HasCauseIn (device_of disk) (device_of fault.disk) fault.cause) }
    ensures refused { IfErr result (λ fault. (all : List ℕ) → (device_of disk).values ≡ Some all →
        IsCauseIn (sizes_of disk) keys.now
        (stored_in (sizes_of disk) (front_of (sizes_of disk) all)) fault.cause) }
    ensures lawful { IfErr result (λ fault. TellsLawfully (device_of fault.disk)) }
{
    let _sizes = disk.sizes();
    let mut disk = disk;
    let lanes = match Lanes::new(alloc, lanes) {
        Ok(lanes) => lanes,
        Err(AllocError) => {
            tell_lawfully(&disk);
            return Err(ConversionFault {
                disk,
                cause: ConversionCause::Opening(OpenCause::Memory),
            });
        }
    };
    match disk.sync() {
        Ok(()) => {}
        Err(Failed) => {
            tell_lawfully(&disk);
            return Err(ConversionFault {
                disk,
                cause: ConversionCause::Opening(OpenCause::Device),
            });
        }
    }
    let begun = match check_conversion(alloc, &mut disk, keys) {
        Ok(begun) => begun,
        Err(cause) => {
            tell_lawfully(&disk);
            return Err(ConversionFault { disk, cause });
        }
    };
    match lead_on(rt, alloc, disk, begun, lanes) {
        Ok(volume) => Ok(volume),
        Err(fault) => {
            tell_lawfully(&fault.disk);
            Err(fault)
        }
    }
}
