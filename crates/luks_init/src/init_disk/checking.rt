// The reads and all checks of an opening, on a disk that is joined to none.

ghost use Rattle.std.specs.Prelude.{◌≡◌, List, ℕ, Some, Ok, IfErr, IfOk, IfSome};
ghost use Rattle.header_report.specs.Examinations.{sizes_alone};
ghost use Rattle.luks_store.specs.Commits.{FitsDisks};
ghost use Rattle.luks_store.specs.Devices.{KeepsBytes, front_of};
ghost use Rattle.luks_store.specs.Loads.{stored_in};
ghost use Rattle.reenc_recovery.specs.Calls.{IsRepairFor};
ghost use Rattle.reenc_recovery.specs.Causes.{HasCauseIn, IsCauseIn};
ghost use Rattle.reenc_recovery.specs.Openings.{HasPassed};

use cipher_laws::SectorCipher;
use reenc_recovery::{Checked, OpenCause, SideKeys, check};
use sector_cipher::Context;
use sector_disk::{Disk, JoinedDisk};
use std::alloc::Global;

/// Reads the header of a disk, makes all checks of it and of the keys, and hands the disk back. It
/// is joined to none, and parted again, only for the reads. Nothing is written.
///
/// # Errors
///
/// Why the volume isn't opened, as [`reenc_recovery::check`] says it.
pub(crate) fn check_alone<D: Disk>(
    alloc: Global,
    disk: D,
    keys: &SideKeys,
) -> (D, Result<Checked, OpenCause>)
    ensures read { KeepsBytes (D.device disk) (D.device result.0) }
    ensures passed { IfOk result.1 (λ c. HasPassed ⟦<Context as SectorCipher>⟧.sector
        ⟦<Context as SectorCipher>⟧.sealed ⟦<Context as SectorCipher>⟧.opened
        (sizes_alone (D.device disk)) keys.now.new c.header c.opening.placement c.opening.keys) }
    ensures repair { IfOk result.1 (λ c. IsRepairFor c.header.copies c.repair) }
    ensures fits { IfOk result.1
        (λ c. IfSome c.repair (FitsDisks (sizes_alone (D.device disk)))) }
    ensures held { IfOk result.1 (λ c. (all : List ℕ) → (D.device disk).values ≡ Some all →
        stored_in (sizes_alone (D.device disk)) (front_of (sizes_alone (D.device disk)) all)
        ≡ Ok c.header) }
    ensures cause { IfErr result.1 (HasCauseIn (D.device disk) (D.device result.0)) }
    ensures refused { IfErr result.1 (λ cause. (all : List ℕ) →
        (D.device disk).values ≡ Some all → IsCauseIn (sizes_alone (D.device disk)) keys.now.new
        (stored_in (sizes_alone (D.device disk)) (front_of (sizes_alone (D.device disk)) all))
        cause) }
{
    let mut joined = JoinedDisk::alone(disk);
    let _sizes = joined.sizes();
    let checked = check(alloc, &mut joined, keys);
    let (head, disk) = joined.parts();
    let None = head else { unreachable!() };
    (disk, checked)
}
