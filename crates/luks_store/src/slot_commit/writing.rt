// The device calls that write a new keyslot.

ghost use Rattle.std.specs.Prelude.{◌≡◌};
ghost use Rattle.sector_disk.specs.JoinedDisks.Counts.{HasSizes};
ghost use Rattle.luks_store.specs.Copying.Held.{stage_in};
ghost use Rattle.luks_store.specs.SlotCommits.Calls.{FitsSlot, MakesCalls, WritesSlot, calls_from};

use crate::Commit;
use base_terms::{Bytes, Failed};
use sector_disk::Disk;

/// A new keyslot: its area, as it is to stand on the disk, and a commit of the header that names
/// it.
pub struct SlotCommit {
    /// The byte of the disk at which the area begins, in whole atoms.
    pub area_offset: u64,
    /// The bytes of the area, whole atoms.
    pub area: Bytes,
    pub commit: Commit,
}

// By hand, so that a value that is dropped in place is one call to the prover.
impl Drop for SlotCommit {
    fn drop(self) {
        let SlotCommit {
            area_offset: _,
            area,
            commit,
        } = self;
        drop(area);
        drop(commit);
    }
}

/// Writes and syncs both copies of the header, those that aren't yet.
fn write_copies<D: Disk>(disk: &mut D, slot: &mut SlotCommit) -> Result<(), Failed>
    requires { HasSizes slot.old.commit.sizes (D.device disk.old) }
    ensures { MakesCalls slot.old (calls_from (stage_in slot.old.commit.copies))
        (D.device disk.old) (D.device disk.new) result }
{
    'calls: while !slot.commit.is_over() {
        match slot.commit.step(disk) {
            Ok(_) => {}
            Err(failed) => return Err(failed),
        }
    }
    Ok(())
}

/// Writes a new keyslot and the header that names it: a write of the area, a sync, and the four
/// calls of the commit. Nothing else of the disk is touched.
///
/// # Errors
///
/// A call failed, and none was made behind it.
#[tactic(auto, unfolding(crate::specs::SlotCommits::Calls::MakesCalls))]
pub fn write_slot<D: Disk>(disk: &mut D, slot: &mut SlotCommit) -> Result<(), Failed>
    requires { FitsSlot slot.old (D.device disk.old) }
    ensures { WritesSlot slot.old (D.device disk.old) (D.device disk.new) result }
{
    let atom = disk.atom() as u64;
    match disk.write(slot.area_offset / atom, slot.area.as_slice()) {
        Ok(()) => {}
        Err(failed) => return Err(failed),
    }
    match disk.sync() {
        Ok(()) => write_copies(disk, slot),
        Err(failed) => Err(failed),
    }
}
