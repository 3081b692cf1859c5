ghost use Rattle.std.specs.Prelude.{◌≡◌, IsTrue};

use crate::same::same;
use base_terms::{Failed, Sizes};
use memory_disks::MemDisk;
use sector_disk::{Disk, JoinedDisk};
use std::alloc::{AllocError, Global};
use std::test::Fail;

/// A head of two atoms of 512 bytes and a main disk of three, whose calls of these numbers fail.
fn two_and_three(
    alloc: Global,
    head_fails: &[u64],
    main_fails: &[u64],
) -> Result<JoinedDisk<MemDisk>, AllocError> {
    let head = MemDisk::new(alloc, 512, 2, 100, head_fails)?;
    match MemDisk::new(alloc, 512, 3, 100, main_fails) {
        Ok(main) => Ok(JoinedDisk::with(head, main)),
        Err(AllocError) => {
            drop(head);
            Err(AllocError)
        }
    }
}

/// Whether it has five atoms of 512 bytes.
fn has_five(disk: &JoinedDisk<MemDisk>) -> bool
    ensures { IsTrue result → ((⟦<JoinedDisk<MemDisk> as Disk>⟧.device disk.now).size ≡ 512)
        × ((⟦<JoinedDisk<MemDisk> as Disk>⟧.device disk.now).atoms ≡ 5) }
{
    disk.atom() == 512 && disk.atoms() == 5
}

/// Writes sevens to the two atoms at the seam.
fn write_over_the_seam(disk: &mut JoinedDisk<MemDisk>) -> Result<(), Failed> {
    if !has_five(disk) {
        return Err(Failed);
    }
    disk.write(1, &[7; 1024])
}

/// The last byte of each atom.
fn last_bytes(disk: &mut JoinedDisk<MemDisk>) -> Result<[u8; 5], Failed> {
    if !has_five(disk) {
        return Err(Failed);
    }
    let mut buf = [1; 2560];
    disk.read(0, &mut buf)?;
    Ok([buf[511], buf[1023], buf[1535], buf[2047], buf[2559]])
}

/// Whether a write over the seam, a sync and a read of all succeed, how many of these failed, and
/// what a further read finds.
fn outcomes(
    alloc: Global,
    head_fails: &[u64],
    main_fails: &[u64],
) -> Result<([bool; 3], u64, Result<[u8; 5], Failed>), AllocError> {
    let mut disk = two_and_three(alloc, head_fails, main_fails)?;
    let written = write_over_the_seam(&mut disk).is_ok();
    let synced = disk.sync().is_ok();
    let read = last_bytes(&mut disk).is_ok();
    let faults = disk.faults();
    let left = last_bytes(&mut disk);
    Ok(([written, synced, read], faults, left))
}

#[test]
fn a_fault_of_either_disk_at_each_call_is_the_calls(rt: HostRuntime) {
    let alloc = rt.alloc();
    let sevens = [0, 7, 7, 0, 0];
    same(
        &rt,
        outcomes(alloc, &[], &[]),
        Ok(([true, true, true], 0, Ok(sevens))),
    );
    same(
        &rt,
        outcomes(alloc, &[0], &[]),
        Ok(([false, true, true], 1, Ok([0, 0, 0, 0, 0]))),
    );
    same(
        &rt,
        outcomes(alloc, &[1], &[]),
        Ok(([true, false, true], 1, Ok(sevens))),
    );
    same(
        &rt,
        outcomes(alloc, &[2], &[]),
        Ok(([true, true, false], 1, Ok(sevens))),
    );
    same(
        &rt,
        outcomes(alloc, &[], &[0]),
        Ok(([false, true, true], 1, Ok([0, 7, 0, 0, 0]))),
    );
    same(
        &rt,
        outcomes(alloc, &[], &[1]),
        Ok(([true, false, true], 1, Ok(sevens))),
    );
    same(
        &rt,
        outcomes(alloc, &[], &[2]),
        Ok(([true, true, false], 1, Ok(sevens))),
    );
    same(
        &rt,
        outcomes(alloc, &[1], &[1]),
        Ok(([true, false, false], 2, Ok(sevens))),
    );
}

/// How many calls there were of the head, where there is one, and of the main disk.
fn calls_of_parts(disk: JoinedDisk<MemDisk>) -> (Option<u64>, u64) {
    let (head, main) = disk.parts();
    match head {
        Some(head) => (Some(head.calls()), main.calls()),
        None => (None, main.calls()),
    }
}

#[test]
fn parts_hold_what_was_written_over_the_seam(rt: HostRuntime) -> Result<(), Fail> {
    let mut disk = two_and_three(rt.alloc(), &[], &[])?;
    same(&rt, (disk.atom(), disk.atoms()), (512, 5));
    same(&rt, (disk.base(), disk.detached()), (2, true));
    same(
        &rt,
        disk.sizes(),
        Sizes {
            atom: 512,
            header_atoms: 2,
            main_atoms: 3,
            detached: true,
        },
    );
    disk.mark(9);
    same(&rt, write_over_the_seam(&mut disk), Ok(()));
    same(&rt, calls_of_parts(disk), (Some(1), 1));
    Ok(())
}

#[test]
fn a_disk_alone_is_the_main_disk(rt: HostRuntime) -> Result<(), Fail> {
    let main = MemDisk::new(rt.alloc(), 512, 3, 100, &[])?;
    let mut disk = JoinedDisk::alone(main);
    same(&rt, (disk.base(), disk.detached()), (0, false));
    same(
        &rt,
        disk.sizes(),
        Sizes {
            atom: 512,
            header_atoms: 3,
            main_atoms: 3,
            detached: false,
        },
    );
    same(&rt, disk.sync(), Ok(()));
    same(&rt, calls_of_parts(disk), (None, 1));
    Ok(())
}
