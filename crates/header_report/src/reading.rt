ghost use Rattle.std.specs.Prelude.{◌≡◌, ℕ, List, Some, IfOk, IfErr};
ghost use Rattle.sector_disk.specs.JoinedDisks.Counts.{joint_in, sizes_of};
ghost use Rattle.luks_store.specs.Devices.{device_of, front_of, IsUnwritten};
ghost use Rattle.luks_store.specs.Loads.{Answers, HasCause, stored_in};
ghost use Rattle.header_report.specs.Examinations.{Explains, IsReadAlone, Tells, seen};

use crate::copies::copy_notice;
use crate::text::report;
use luks_store::{Loaded, StoreFault, load};
use sector_disk::{Disk, JoinedDisk};
use std::alloc::Global;

/// A disk whose header was read: the disk, what the header says, or why none is told, and what is
/// said of a copy that isn't as the other one.
#[derive(Drop)]
pub struct Examined<D> {
    pub disk: D,
    pub told: Result<String, StoreFault>,
    pub notice: Option<&'static str>,
}

/// Whether another look may find a header: where no copy is valid, or both differ, a commit of
/// another program may have been half way.
fn may_be_half_way(loaded: &Result<Loaded, StoreFault>) -> bool {
    match loaded {
        Err(StoreFault::NoHeader { .. } | StoreFault::CopiesDiffer { .. }) => true,
        Ok(_) | Err(_) => false,
    }
}

/// The header of a disk, which is read once more where a commit may have been half way.
fn load_settled<D: Disk>(alloc: Global, disk: &mut JoinedDisk<D>) -> Result<Loaded, StoreFault>
    ensures held { (all : List ℕ) → (device_of disk.old).values ≡ Some all → Answers result
        (stored_in (sizes_of disk.old) (front_of (sizes_of disk.old) all)) }
    ensures sized { IfOk result (λ loaded. loaded.valid.sizes ≡ sizes_of disk.old) }
    ensures unwritten { IsUnwritten (joint_in disk.old) (joint_in disk.new) }
    ensures sizes { sizes_of disk.new ≡ sizes_of disk.old }
    ensures cause { IfErr result
        (λ fault. HasCause (device_of disk.old) (device_of disk.new) fault) }
{
    let loaded = load(alloc, disk);
    if may_be_half_way(&loaded) {
        return load(alloc, disk);
    }
    loaded
}

/// What the header of a loaded volume says, or why none is told.
fn told(alloc: Global, loaded: Result<Loaded, StoreFault>) -> Result<String, StoreFault>
    ensures { Explains loaded (seen result) }
{
    match loaded {
        Ok(loaded) => match report(alloc, &loaded) {
            Ok(text) => Ok(text),
            Err(_) => Err(StoreFault::Memory),
        },
        Err(fault) => Err(fault),
    }
}

/// What is said of a copy of the header that was read.
fn notice_of(loaded: &Result<Loaded, StoreFault>) -> Option<&'static str> {
    match loaded {
        Ok(loaded) => copy_notice(loaded),
        Err(_) => None,
    }
}

/// Reads the header on a disk, and tells what it says or why there is none. Nothing is written, and
/// the disk is handed back.
pub fn examine<D: Disk>(alloc: Global, disk: D) -> Examined<D>
    ensures told { Tells (D.device disk) (seen result.told) }
    ensures read { IsReadAlone (D.device disk) (D.device result.disk) }
    ensures cause { IfErr (seen result.told)
        (λ fault. HasCause (D.device disk) (D.device result.disk) fault) }
{
    let mut joined = JoinedDisk::alone(disk);
    let _sizes = joined.sizes();
    let loaded = load_settled(alloc, &mut joined);
    let (head, disk) = joined.parts();
    let None = head else { unreachable!() };
    let notice = notice_of(&loaded);
    Examined {
        disk,
        told: told(alloc, loaded),
        notice,
    }
}
