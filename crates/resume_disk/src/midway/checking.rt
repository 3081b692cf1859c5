// The reads and all checks of the opening of a volume that is being converted.

ghost use Rattle.std.specs.Prelude.{◌≡◌, ℕ, List, Ok, Some, IfErr, IfOk, IfSome, IsSomeAnd};
ghost use Rattle.resume_disk.specs.OpenedMidway.Causes.{HasCauseIn, IsCauseIn};
ghost use Rattle.resume_disk.specs.OpenedMidway.Openings.{HasPassed};
ghost use Rattle.resume_disk.specs.OpenedMidway.Runs.{BeginsBy, FitsVolume, header_in};
ghost use Rattle.hotzone.specs.Sites.{IsSaved};
ghost use Rattle.sector_disk.specs.JoinedDisks.Counts.{joint_in, sizes_of};
ghost use Rattle.luks_rules.specs.Shapes.{progress_of};
ghost use Rattle.luks_store.specs.Commits.{FitsDisks};
ghost use Rattle.luks_store.specs.Devices.{IsUnwritten, device_of, front_of};
ghost use Rattle.luks_store.specs.Loads.{stored_in};
ghost use Rattle.reenc_meta.specs.Placements.{all_atoms};
ghost use Rattle.reenc_recovery.specs.Calls.{IsRepairFor};
ghost use Rattle.sector_disk.specs.Geometry.{IsDisk};
ghost use Rattle.zone_mending.specs.OpenZones.{HasZone, IsNotMade};

use crate::midway::fault::ConversionCause;
use crate::midway::sides::judge_conversion;
use cipher_laws::SectorCipher;
use luks_store::header_copies::Repair;
use luks_store::{Loaded, load};
use reenc_recovery::{OpenCause, SideKeys};
use sector_cipher::Context;
use sector_disk::{Disk, JoinedDisk};
use std::alloc::Global;
use volume_machine::Keys;
use zone_mending::{MendFault, Mending, has_zone};

/// How a conversion is led on.
#[derive(Drop)]
pub enum Course<Z> {
    /// By this header, by which no zone is open.
    Closed(Loaded),
    /// Behind what writes the open zone again.
    Open(Z),
}

/// A conversion whose header and keys passed all checks.
#[derive(Drop)]
pub struct Begun {
    /// The ciphers of its sides.
    pub keys: Keys<Context>,
    /// How it is led on.
    pub course: Course<Mending<Context>>,
    /// The repair that its header asks for: the copy that lacks or is older, where there is one.
    pub repair: Option<Repair>,
}

/// How a conversion that may be led on is led by a header. Where a zone is open the header with the
/// boundary moved over it is made, and the buffers of a part are taken.
fn begin_course<C: SectorCipher + Copy + Sync>(
    alloc: Global,
    header: Loaded,
    keys: Keys<C>,
) -> Result<Course<Mending<C>>, MendFault>
    requires disk { IsDisk header.valid.sizes.atom (all_atoms header.valid.sizes) }
    requires guarded { IsSomeAnd (progress_of header.valid.meta header.valid.sizes)
        (λ now. IsSaved now.conversion.resilience) }
    requires fits { FitsVolume C.sector header keys }
    ensures begins { IfOk result (BeginsBy keys) }
    ensures header { IfOk result (λ course. header_in course ≡ header) }
    ensures unmade { IfErr result (λ fault. HasZone header × IsNotMade header fault) }
{
    if !has_zone(&header) {
        return Ok(Course::Closed(header));
    }
    match Mending::new(alloc, header, keys) {
        Ok(mending) => Ok(Course::Open(mending)),
        Err(fault) => Err(fault),
    }
}

/// Reads the header of disks that were synced, and makes all checks of it and of the keys of its
/// sides. Nothing is written; the repair has its memory, and where a zone is open the header with the
/// boundary moved over it is made.
///
/// # Errors
///
/// Why the volume isn't opened, as [`crate::open_conversion`] says it.
pub fn check_conversion<D: Disk>(
    alloc: Global,
    disk: &mut JoinedDisk<D>,
    keys: &SideKeys,
) -> Result<Begun, ConversionCause>
    ensures unwritten { IsUnwritten (joint_in disk.old) (joint_in disk.new) }
    ensures sizes { sizes_of disk.new ≡ sizes_of disk.old }
    ensures passed { IfOk result (λ b. HasPassed ⟦<Context as SectorCipher>⟧.sector
        ⟦<Context as SectorCipher>⟧.sealed ⟦<Context as SectorCipher>⟧.opened
        (sizes_of disk.old) keys.now (header_in b.course) b.keys) }
    ensures begins { IfOk result (λ b. BeginsBy b.keys b.course) }
    ensures volume { IfOk result (λ b. FitsVolume ⟦<Context as SectorCipher>⟧.sector
        (header_in b.course) b.keys) }
    ensures repair { IfOk result (λ b. IsRepairFor (header_in b.course).copies b.repair) }
    ensures fits { IfOk result (λ b. IfSome b.repair (FitsDisks (sizes_of disk.old))) }
    ensures held { IfOk result (λ b. (all : List ℕ) → (device_of disk.old).values ≡ Some all →
        stored_in (sizes_of disk.old) (front_of (sizes_of disk.old) all)
        ≡ Ok (header_in b.course)) }
    ensures cause { IfErr result (HasCauseIn (device_of disk.old) (device_of disk.new)) }
    ensures refused { IfErr result (λ cause. (all : List ℕ) →
        (device_of disk.old).values ≡ Some all → IsCauseIn (sizes_of disk.old) keys.now
        (stored_in (sizes_of disk.old) (front_of (sizes_of disk.old) all)) cause) }
{
    let _sizes = disk.sizes();
    let header = match load(alloc, disk) {
        Ok(header) => header,
        Err(fault) => return Err(ConversionCause::Opening(OpenCause::from(fault))),
    };
    header.is_stored();
    let sides = match judge_conversion(alloc, header.valid(), keys) {
        Ok(sides) => sides,
        Err(cause) => return Err(cause),
    };
    let repair = match header.repair(alloc) {
        Ok(repair) => repair,
        Err(_) => return Err(ConversionCause::Opening(OpenCause::Memory)),
    };
    match begin_course(alloc, header, sides) {
        Ok(course) => Ok(Begun {
            keys: sides,
            course,
            repair,
        }),
        Err(fault) => Err(ConversionCause::from(fault)),
    }
}
