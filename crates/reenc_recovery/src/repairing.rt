// The repair of a header, as the opening of its volume makes it.

ghost use Rattle.std.specs.Prelude.{◌≡◌, IfSome};
ghost use Rattle.luks_store.specs.Copying.Held.{copy_in, place_in, repair_stage_in};
ghost use Rattle.luks_store.specs.declared.header_copies.repair.RepairStage.TheVariants.{Broken};
ghost use Rattle.reenc_recovery.specs.Calls.{RepairFits, RepairRun};

use crate::telling::disks_tell_lawfully;
use base_terms::Failed;
use luks_store::header_copies::Repair;
use sector_disk::Disk;

/// Writes the copy of the header that lacks or is older, where there is one, and syncs. The disk is
/// one of whatever kind: the header and its volume lie on it, or it is two that are joined.
///
/// # Errors
///
/// A device call failed, and none was made behind it.
pub fn mend<D: Disk>(disk: &mut D, repair: Option<Repair>) -> Result<(), Failed>
    requires begun { IfSome repair (λ r. repair_stage_in r ≡ Broken) }
    requires fits { IfSome repair (RepairFits (D.device disk.old)) }
    ensures run { RepairRun repair (D.device disk.old) (D.device disk.new) result }
    ensures size { (D.device disk.new).size ≡ (D.device disk.old).size }
    ensures atoms { (D.device disk.new).atoms ≡ (D.device disk.old).atoms }
{
    let Some(repair) = repair else {
        return Ok(());
    };
    let mut repair = repair;
    match repair.step(disk) {
        Ok(_) => {}
        Err(Failed) => return Err(Failed),
    }
    disks_tell_lawfully(disk);
    match repair.step(disk) {
        Ok(_) => Ok(()),
        Err(Failed) => Err(Failed),
    }
}
