// The calls by which a conversion is begun on a disk.

ghost use Rattle.std.specs.Prelude.{◌≡◌, IfErr, IfOk};
ghost use Rattle.header_report.specs.Examinations.{sizes_alone};
ghost use Rattle.luks_init.specs.DiskInit.Calls.{IsBegunOf, IsReady, IsUnbegunOf};
ghost use Rattle.luks_init.specs.DiskInit.Makings.{IsMade, IsUnready};
ghost use Rattle.luks_init.specs.DiskInit.Slips.{LosesNothing};
ghost use Rattle.luks_init.specs.declared.init_disk.refusal.Refusal.TheVariants.{Unopened};
ghost use Rattle.luks_init.specs.Wishes.{IsWish};
ghost use Rattle.reenc_meta.specs.Placements.{all_atoms};
ghost use Rattle.reenc_recovery.specs.Calls.{DiskSyncsAndReads};
ghost use Rattle.sector_disk.specs.Devices.{succeeded};
ghost use Rattle.sector_disk.specs.Geometry.{IsDisk};
ghost use Rattle.volume_opening.specs.declared.refusal.Refusal.TheVariants.{Opening};

use crate::Wish;
use crate::init_disk::changes::tell_changes;
use crate::init_disk::checking::check_alone;
use crate::init_disk::laws::slots_keep_contents;
use crate::init_disk::making::make_slot;
use crate::init_disk::refusal::Refusal;
use crate::init_disk::slips::lose_nothing;
use base_terms::Failed;
use gates::Gate;
use luks_store::header_copies::Repair;
use luks_store::{Loaded, SlotCommit, write_slot};
use reenc_recovery::{
    Checked, OpenCause, SideKeys, disks_tell_lawfully, mend, openings_keep_contents,
};
use sector_disk::Disk;
use std::alloc::Global;
use volume_opening::note_repair;

/// What was checked and made, before anything is written.
#[derive(Drop)]
struct Ready {
    header: Loaded,
    repair: Option<Repair>,
    slot: SlotCommit,
}

/// The refusal of an opening.
fn unopened(cause: OpenCause) -> Refusal
    ensures { result ≡ Unopened (Opening cause) }
{
    Refusal::Unopened(volume_opening::Refusal::Opening(cause))
}

/// What is to be written of a header that passed all checks, unless something would be lost by it of
/// a disk that has so many bytes behind its last whole atom.
fn make_safely(
    alloc: Global,
    header: &Loaded,
    tail: u64,
    wish: &Wish,
    pass: &[u8],
    seed: &[u8; 32],
) -> Result<SlotCommit, Refusal>
    requires disk { IsDisk header.now.valid.sizes.atom (all_atoms header.now.valid.sizes) }
    requires wish { IsWish wish.now header.now.valid.sizes.atom }
    ensures safe { IfOk result (λ _. LosesNothing wish.now header.now.valid.meta
        header.now.valid.sizes tail) }
    ensures made { IfOk result (IsMade header.now wish.now pass.now seed.now) }
    ensures unready { IfErr result (IsUnready header.now wish.now pass.now seed.now tail) }
{
    match lose_nothing(alloc, header.valid(), tail, wish) {
        Ok(()) => {}
        Err(refusal) => return Err(refusal),
    }
    match make_slot(alloc, header, wish, pass, seed) {
        Ok(slot) => Ok(slot),
        Err(fault) => Err(Refusal::Unmade(fault)),
    }
}

/// Syncs a disk, reads its header, and makes all checks and what is to be written. Nothing is
/// written, and the disk is handed back.
fn make_ready<D: Disk>(
    alloc: Global,
    disk: D,
    keys: &SideKeys,
    wish: &Wish,
    pass: &[u8],
    seed: &[u8; 32],
) -> (D, Result<Ready, Refusal>)
    requires { IsWish wish.now (D.device disk).size }
    ensures calls { IfOk result.1 (λ _. DiskSyncsAndReads (D.device disk) (D.device result.0)) }
    ensures ready { IfOk result.1 (λ r. IsReady (sizes_alone (D.device disk)) keys.now.new wish.now
        pass.now seed.now (D.device disk) r.header r.repair r.slot) }
    ensures unbegun { IfErr result.1 (IsUnbegunOf (sizes_alone (D.device disk)) keys.now.new
        wish.now pass.now seed.now (D.device disk) (D.device result.0)) }
{
    openings_keep_contents();
    let mut disk = disk;
    match disk.sync() {
        Ok(()) => {}
        Err(Failed) => return (disk, Err(unopened(OpenCause::Device))),
    }
    let (disk, checked) = check_alone(alloc, disk, keys);
    let checked = match checked {
        Ok(checked) => checked,
        Err(cause) => return (disk, Err(unopened(cause))),
    };
    let Checked {
        header,
        opening: _opening,
        repair,
    } = checked;
    match make_safely(alloc, &header, disk.tail(), wish, pass, seed) {
        Ok(slot) => {
            let ready = Ready {
                header,
                repair,
                slot,
            };
            (disk, Ok(ready))
        }
        Err(refusal) => (disk, Err(refusal)),
    }
}

/// Begins the conversion of the volume under the header of a disk and the key of its segment: a
/// sync, the reads, all checks, the repair of a copy that lacks or is older, and then the new
/// keyslot and the next header. The gate is told before what changes. The disk is handed back.
pub(crate) fn start<D: Disk, G: Gate>(
    alloc: Global,
    disk: D,
    keys: &SideKeys,
    wish: &Wish,
    pass: &[u8],
    seed: &[u8; 32],
    gate: &G,
) -> (D, Result<(), Refusal>)
    requires { IsWish wish.now (D.device disk).size }
    ensures begun { IfOk result.1 (λ _. IsBegunOf (sizes_alone (D.device disk)) keys.now.new
        wish.now pass.now seed.now (D.device disk) (D.device result.0) succeeded) }
    ensures unbegun { IfErr result.1 (IsUnbegunOf (sizes_alone (D.device disk)) keys.now.new
        wish.now pass.now seed.now (D.device disk) (D.device result.0)) }
{
    openings_keep_contents();
    slots_keep_contents();
    disks_tell_lawfully(&disk);
    let (disk, ready) = make_ready(alloc, disk, keys, wish, pass, seed);
    let mut disk = disk;
    let ready = match ready {
        Ok(ready) => ready,
        Err(refusal) => return (disk, Err(refusal)),
    };
    let Ready {
        header,
        repair,
        slot,
    } = ready;
    tell_changes(alloc, gate, header.valid(), &keys.new, wish);
    note_repair(alloc, gate, &header);
    match mend(&mut disk, repair) {
        Ok(()) => {}
        Err(Failed) => {
            disks_tell_lawfully(&disk);
            return (disk, Err(unopened(OpenCause::Device)));
        }
    }
    disks_tell_lawfully(&disk);
    let mut slot = slot;
    match write_slot(&mut disk, &mut slot) {
        Ok(()) => (disk, Ok(())),
        Err(Failed) => {
            let refusal = Refusal::Writing;
            (disk, Err(refusal))
        }
    }
}
