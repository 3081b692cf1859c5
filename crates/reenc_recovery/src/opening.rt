// An opening in one call.

ghost use Rattle.std.specs.Prelude.{◌≡◌, ◌<◌, ℕ, List, Some, IfErr, IfOk};
ghost use Rattle.sector_disk.specs.JoinedDisks.Counts.{joint_in, sizes_of};
ghost use Rattle.luks_store.specs.Devices.{device_of, front_of};
ghost use Rattle.luks_store.specs.Loads.{stored_in};
ghost use Rattle.reenc_recovery.specs.Causes.{HasCauseIn, IsCauseIn};
ghost use Rattle.reenc_recovery.specs.Tables.{TellsSince};
ghost use Rattle.reenc_recovery.specs.Volumes.{IsOpenedOf, IsUnopened};
ghost use Rattle.volume_machine.specs.Beginnings.{IsFresh, new_volume};
ghost use Rattle.volume_machine.specs.Sound.{IsSound};

use crate::checking::{Checked, check};
use crate::fault::{OpenCause, OpenFault};
use crate::keys::SideKeys;
use crate::laws::{contents_stay_behind_headers, opened_volumes_start, openings_keep_contents};
use crate::repairing::mend;
use crate::telling::disks_tell_lawfully;
use base_terms::Failed;
use cipher_laws::SectorCipher;
use luks_store::header_copies::{copies_are_read, copies_mean_what_they_share};
use luks_store::{metadata_go_by_meaning, used_copies_are_headers};
use sector_cipher::Context;
use sector_disk::{Disk, JoinedDisk};
use std::alloc::{AllocError, Global};
use volume_core::{Lanes, Volume};

/// The volume that lies under the header of joined disks, of which nothing is being converted, with
/// so many lanes. The disks are synced; then the header is read and checked, and the key is
/// compared with the digest of the segment; and last a copy of the header that lacks or is older is
/// written anew, and synced. So each atom of the volume's disks is certain. Nothing is written
/// before all checks have passed, and memory is never wanted once something was written. Where no
/// volume is opened the disks are handed back; the keys are the caller's, whatever is answered.
///
/// Whether a copy of the header could lie hidden in front of its second one isn't tested: there is
/// no cause for it, and the promise on what a stop leaves is one of images without such a copy.
pub fn open_volume<D: Disk>(
    alloc: Global,
    disk: JoinedDisk<D>,
    keys: &SideKeys,
    lanes: u32,
) -> Result<Volume<JoinedDisk<D>, Context>, OpenFault<D>>
    requires { 0 < lanes }
    ensures opened { IfOk result (IsOpenedOf ⟦<Context as SectorCipher>⟧.sector
        ⟦<Context as SectorCipher>⟧.sealed ⟦<Context as SectorCipher>⟧.opened (sizes_of disk)
        keys.now.new (joint_in disk)) }
    ensures tables { IfOk result
        (λ volume. TellsSince (sizes_of disk) (device_of disk) volume.disk) }
    ensures lanes { IfOk result
        (λ volume. volume ≡ new_volume volume.map volume.keys lanes volume.disk) }
    ensures fresh { IfOk result IsFresh }
    ensures sound { IfOk result IsSound }
    ensures unopened { IfErr result (λ fault. IsUnopened (sizes_of disk) (sizes_of fault.disk)
        keys.now.new (joint_in disk) (joint_in fault.disk) fault.cause) }
    ensures cause { IfErr result
        (λ fault. HasCauseIn (device_of disk) (device_of fault.disk) fault.cause) }
    ensures refused { IfErr result (λ fault. (all : List ℕ) → (device_of disk).values ≡ Some all →
        IsCauseIn (sizes_of disk) keys.now.new
        (stored_in (sizes_of disk) (front_of (sizes_of disk) all)) fault.cause) }
{
    copies_are_read();
    copies_mean_what_they_share();
    used_copies_are_headers();
    metadata_go_by_meaning();
    contents_stay_behind_headers();
    openings_keep_contents();
    opened_volumes_start::<Context>();
    disks_tell_lawfully(&disk);
    let _sizes = disk.sizes();
    let mut disk = disk;
    let lanes = match Lanes::new(alloc, lanes) {
        Ok(lanes) => lanes,
        Err(AllocError) => {
            return Err(OpenFault {
                disk,
                cause: OpenCause::Memory,
            });
        }
    };
    match disk.sync() {
        Ok(()) => {}
        Err(Failed) => {
            return Err(OpenFault {
                disk,
                cause: OpenCause::Device,
            });
        }
    }
    let checked = match check(alloc, &mut disk, keys) {
        Ok(checked) => checked,
        Err(cause) => return Err(OpenFault { disk, cause }),
    };
    let Checked {
        header: _header,
        opening,
        repair,
    } = checked;
    match mend(&mut disk, repair) {
        Ok(()) => {}
        Err(Failed) => {
            disks_tell_lawfully(&disk);
            return Err(OpenFault {
                disk,
                cause: OpenCause::Device,
            });
        }
    }
    disks_tell_lawfully(&disk);
    Ok(Volume::opened(disk, opening.placement.map, opening.keys, lanes))
}
