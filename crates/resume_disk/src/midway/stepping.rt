// A zone that is written again, to its end.

ghost use Rattle.std.specs.Prelude.{◌≡◌, IfErr, IfOk};
ghost use Rattle.resume_disk.specs.OpenedMidway.Runs.{BeginsBy, FitsVolume, LeadsTo, MendsZone};
ghost use Rattle.resume_disk.specs.OpenedMidway.Runs.{header_in, last_of};
ghost use Rattle.hotzone.specs.Workers.{MayGoOn};
ghost use Rattle.sector_disk.specs.JoinedDisks.Counts.{HasSizes};
ghost use Rattle.sector_disk.specs.Devices.{failed_call};
ghost use Rattle.volume_machine.specs.declared.keys.Keys.{Keys as keys_type};
ghost use Rattle.image_laws.specs.Led.Runs.{MendRun};
ghost use Rattle.zone_mending.specs.Menders.{IsNew, IsUnderWay};
ghost use Rattle.zone_mending.specs.declared.mender.MendCall.TheVariants as calls;

use crate::midway::checking::Course;
use base_terms::Failed;
use cipher_laws::SectorCipher;
use luks_store::Loaded;
use reenc_recovery::disks_tell_lawfully;
use sector_disk::Disk;
use std::thread::Threads;
use zone_mending::Mending;

/// Makes the steps that are left by which an open zone is written again, one device call each.
///
/// # Errors
///
/// A device call failed, and none was made behind it.
pub fn make_steps<R: Threads + Sync, D: Disk, C: SectorCipher + Copy + Sync>(
    rt: &R,
    disk: &mut D,
    mending: &mut Mending<C>,
) -> Result<(), Failed>
    requires goes { IsUnderWay mending.old.next }
    requires sizes { HasSizes mending.old.loaded.valid.sizes (D.device disk.old) }
    ensures run { MendRun C.sealed C.opened mending.old (D.device disk.old) mending.new
        (D.device disk.new) (last_of result) }
    ensures sizes { HasSizes mending.new.loaded.valid.sizes (D.device disk.new) }
    ensures done { IfOk result (λ _. mending.new.next ≡ calls.Done) }
    ensures loaded { mending.new.loaded ≡ mending.old.loaded }
    ensures keys { mending.new.keys ≡ mending.old.keys }
{
    'steps: loop {
        mending.is_mending();
        match mending.step(rt, disk) {
            Ok(true) => {
                disks_tell_lawfully(disk);
                return Ok(());
            }
            Ok(false) => disks_tell_lawfully(disk),
            Err(Failed) => {
                disks_tell_lawfully(disk);
                return Err(Failed);
            }
        }
    }
}

/// Writes an open zone again to its end: the header with the boundary moved over it, by which the
/// conversion may go on.
fn write_again<R: Threads + Sync, D: Disk, C: SectorCipher + Copy + Sync>(
    rt: &R,
    disk: &mut D,
    mending: Mending<C>,
) -> Result<Loaded, Failed>
    requires goes { IsUnderWay mending.next }
    requires sizes { HasSizes mending.loaded.valid.sizes (D.device disk.old) }
    ensures leads { IfOk result (λ last. (keys : keys_type C) → IsNew mending.loaded keys mending
        → LeadsTo C.sector C.sealed C.opened mending.loaded keys (D.device disk.old) (D.device disk.new)
        last) }
    ensures sizes { IfOk result (λ last. HasSizes last.valid.sizes (D.device disk.new)) }
    ensures same { IfOk result (λ last. last.valid.sizes ≡ mending.loaded.valid.sizes) }
    ensures may { IfOk result MayGoOn }
    ensures fits { IfOk result (λ last. (keys : keys_type C) → IsNew mending.loaded keys mending
        → FitsVolume C.sector mending.loaded keys → FitsVolume C.sector last keys) }
    ensures failed { IfErr result (λ _. (keys : keys_type C) → IsNew mending.loaded keys mending
        → MendsZone C.sector C.sealed C.opened mending.loaded keys (D.device disk.old) (D.device disk.new)
        failed_call) }
{
    disks_tell_lawfully(disk);
    mending.is_mending();
    let mut mending = mending;
    match make_steps(rt, disk, &mut mending) {
        Ok(()) => {
            mending.is_mending();
            Ok(mending.into_loaded())
        }
        Err(Failed) => {
            mending.is_mending();
            drop(mending);
            Err(Failed)
        }
    }
}

/// Leads a conversion to the header by which it goes on.
///
/// # Errors
///
/// A device call failed, and none was made behind it.
pub(crate) fn lead<R: Threads + Sync, D: Disk, C: SectorCipher + Copy + Sync>(
    rt: &R,
    disk: &mut D,
    course: Course<Mending<C>>,
) -> Result<Loaded, Failed>
    requires begins { (keys : keys_type C) × BeginsBy keys course }
    requires sizes { HasSizes (header_in course).valid.sizes (D.device disk.old) }
    ensures leads { IfOk result (λ last. (keys : keys_type C) → BeginsBy keys course
        → LeadsTo C.sector C.sealed C.opened (header_in course) keys (D.device disk.old)
        (D.device disk.new) last) }
    ensures sizes { IfOk result (λ last. HasSizes last.valid.sizes (D.device disk.new)) }
    ensures same { IfOk result (λ last. last.valid.sizes ≡ (header_in course).valid.sizes) }
    ensures may { IfOk result MayGoOn }
    ensures fits { IfOk result (λ last. (keys : keys_type C) → BeginsBy keys course
        → FitsVolume C.sector (header_in course) keys → FitsVolume C.sector last keys) }
    ensures failed { IfErr result (λ _. (keys : keys_type C) → BeginsBy keys course
        → MendsZone C.sector C.sealed C.opened (header_in course) keys (D.device disk.old)
        (D.device disk.new) failed_call) }
{
    match course {
        Course::Closed(header) => Ok(header),
        Course::Open(mending) => write_again(rt, disk, mending),
    }
}
