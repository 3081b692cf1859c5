// The reads and all checks of an opening.

ghost use Rattle.std.specs.Prelude.{◌≡◌, List, ℕ, Some, Ok, IfErr, IfOk, IfSome};
ghost use Rattle.sector_disk.specs.JoinedDisks.Counts.{joint_in, sizes_of};
ghost use Rattle.luks_store.specs.Commits.{FitsDisks};
ghost use Rattle.luks_store.specs.Devices.{IsUnwritten, device_of, front_of};
ghost use Rattle.luks_store.specs.Loads.{stored_in};
ghost use Rattle.reenc_recovery.specs.Calls.{IsRepairFor};
ghost use Rattle.reenc_recovery.specs.Causes.{HasCauseIn, IsCauseIn};
ghost use Rattle.reenc_recovery.specs.Openings.{HasPassed};

use crate::fault::OpenCause;
use crate::judging::{Opening, judge_volume};
use crate::keys::SideKeys;
use cipher_laws::SectorCipher;
use luks_store::header_copies::Repair;
use luks_store::{Loaded, load};
use sector_cipher::Context;
use sector_disk::{Disk, JoinedDisk};
use std::alloc::Global;

/// A header that passed all checks, the volume that it places, and the repair that it asks for.
#[derive(Drop)]
pub struct Checked {
    pub header: Loaded,
    pub opening: Opening,
    /// The copy that lacks or is older, where there is one.
    pub repair: Option<Repair>,
}

/// Reads the header of disks that were synced, and makes all checks of it and of the keys. Nothing
/// is written, and the repair has its memory.
///
/// # Errors
///
/// Why the volume isn't opened, as [`crate::open_volume`] says it.
pub fn check<D: Disk>(
    alloc: Global,
    disk: &mut JoinedDisk<D>,
    keys: &SideKeys,
) -> Result<Checked, OpenCause>
    ensures unwritten { IsUnwritten (joint_in disk.old) (joint_in disk.new) }
    ensures sizes { sizes_of disk.new ≡ sizes_of disk.old }
    ensures passed { IfOk result (λ c. HasPassed ⟦<Context as SectorCipher>⟧.sector
        ⟦<Context as SectorCipher>⟧.sealed ⟦<Context as SectorCipher>⟧.opened
        (sizes_of disk.old) keys.now.new c.header c.opening.placement c.opening.keys) }
    ensures repair { IfOk result (λ c. IsRepairFor c.header.copies c.repair) }
    ensures fits { IfOk result (λ c. IfSome c.repair (FitsDisks (sizes_of disk.old))) }
    ensures held { IfOk result (λ c. (all : List ℕ) → (device_of disk.old).values ≡ Some all →
        stored_in (sizes_of disk.old) (front_of (sizes_of disk.old) all) ≡ Ok c.header) }
    ensures cause { IfErr result (HasCauseIn (device_of disk.old) (device_of disk.new)) }
    ensures refused { IfErr result (λ cause. (all : List ℕ) →
        (device_of disk.old).values ≡ Some all → IsCauseIn (sizes_of disk.old) keys.now.new
        (stored_in (sizes_of disk.old) (front_of (sizes_of disk.old) all)) cause) }
{
    let _sizes = disk.sizes();
    let header = match load(alloc, disk) {
        Ok(header) => header,
        Err(fault) => return Err(OpenCause::from(fault)),
    };
    header.is_stored();
    let opening = match judge_volume(alloc, header.valid(), keys) {
        Ok(opening) => opening,
        Err(cause) => return Err(cause),
    };
    match header.repair(alloc) {
        Ok(repair) => Ok(Checked {
            header,
            opening,
            repair,
        }),
        Err(_) => Err(OpenCause::Memory),
    }
}
