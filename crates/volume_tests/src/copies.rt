ghost use Rattle.std.specs.Prelude.{◌≡◌, ◌+◌, ◌≤◌, length, IfSome};
ghost use Rattle.luks_bin.specs.Copies.{holds_nul};
ghost use Rattle.memory_disks.specs.Mem.{atom_of, atoms_of};

use crate::headers::header;
use crate::same::same;
use base_terms::{Failed, zeros};
use luks_bin::read_copy;
use luks_store::header_copies::{Commit, CommitError, Repair};
use memory_disks::MemDisk;
use sector_disk::Disk;
use std::alloc::{AllocError, Global};
use std::test::Fail;

/// What a step answered, and None where none may follow.
type Step = Option<Result<bool, Failed>>;

const DONE: Step = Some(Ok(false));

const LAST: Step = Some(Ok(true));

const FAILED: Step = Some(Err(Failed));

/// A commit of a text of two bytes after a header of number 3.
fn begun(alloc: Global) -> Option<Commit>
    ensures size { IfSome result (λ commit. commit.size ≡ 16384) }
    ensures first { IfSome result (λ commit. length commit.first ≡ 16384) }
    ensures second { IfSome result (λ commit. length commit.second ≡ 16384) }
{
    Commit::new(alloc, &header(3), &[1; 64], &[2; 64], b"{}").ok()
}

/// One more step, where one may follow.
fn step(commit: &mut Commit, disk: &mut MemDisk) -> Step
    requires atom { atom_of disk.old ≡ 512 }
    requires atoms { atoms_of disk.old ≡ 64 }
    requires size { commit.old.size ≡ 16384 }
    requires first { length commit.old.first ≡ 16384 }
    requires second { length commit.old.second ≡ 16384 }
    ensures atom { atom_of disk.new ≡ 512 }
    ensures atoms { atoms_of disk.new ≡ 64 }
    ensures size { commit.new.size ≡ 16384 }
    ensures first { length commit.new.first ≡ 16384 }
    ensures second { length commit.new.second ≡ 16384 }
{
    if commit.is_over() {
        return None;
    }
    Some(commit.step(disk))
}

/// The number of the copy that stands at an atom, 0 where none does. None where the disk can't be
/// read.
fn number_at(alloc: Global, disk: &mut MemDisk, atom: u64) -> Option<u64>
    requires atom { atom_of disk.old ≡ 512 }
    requires atoms { atoms_of disk.old ≡ 64 }
    requires within { atom + 32 ≤ 64 }
    ensures atom { atom_of disk.new ≡ 512 }
    ensures atoms { atoms_of disk.new ≡ 64 }
{
    let mut copy = zeros(alloc, 16384).ok()?;
    disk.read(atom, &mut copy).ok()?;
    match read_copy(&copy, atom * 512) {
        Ok(header) => Some(header.seqid),
        Err(_) => Some(0),
    }
}

/// The numbers of the copies on a disk.
fn numbers_on(alloc: Global, disk: &mut MemDisk) -> Option<[u64; 2]>
    requires atom { atom_of disk.old ≡ 512 }
    requires atoms { atoms_of disk.old ≡ 64 }
{
    let first = number_at(alloc, disk, 0)?;
    Some([first, number_at(alloc, disk, 32)?])
}

/// What five steps answer on a disk whose calls of these numbers fail, and the copies' numbers
/// then.
fn outcomes(alloc: Global, fails: &[u64]) -> Option<([Step; 5], [u64; 2])> {
    let mut disk = MemDisk::new(alloc, 512, 64, 1000, fails).ok()?;
    let mut commit = begun(alloc)?;
    let steps = [
        step(&mut commit, &mut disk),
        step(&mut commit, &mut disk),
        step(&mut commit, &mut disk),
        step(&mut commit, &mut disk),
        step(&mut commit, &mut disk),
    ];
    Some((steps, numbers_on(alloc, &mut disk)?))
}

#[test]
fn a_commit_is_a_write_a_sync_a_write_and_a_sync(rt: HostRuntime) {
    let alloc = rt.alloc();
    same(
        &rt,
        outcomes(alloc, &[]),
        Some(([DONE, DONE, DONE, LAST, None], [4, 4])),
    );
    same(
        &rt,
        outcomes(alloc, &[0]),
        Some(([FAILED, None, None, None, None], [0, 0])),
    );
    same(
        &rt,
        outcomes(alloc, &[1]),
        Some(([DONE, FAILED, None, None, None], [4, 0])),
    );
    same(
        &rt,
        outcomes(alloc, &[2]),
        Some(([DONE, DONE, FAILED, None, None], [4, 0])),
    );
    same(
        &rt,
        outcomes(alloc, &[3]),
        Some(([DONE, DONE, DONE, FAILED, None], [4, 4])),
    );
}

/// One more step of a repair, where one may follow.
fn repair_step(repair: &mut Repair, disk: &mut MemDisk) -> Step
    requires atom { atom_of disk.old ≡ 512 }
    requires atoms { atoms_of disk.old ≡ 64 }
    requires place { repair.old.place ≤ 16384 }
    requires size { length repair.old.copy ≡ 16384 }
    ensures atom { atom_of disk.new ≡ 512 }
    ensures atoms { atoms_of disk.new ≡ 64 }
    ensures place { repair.new.place ≤ 16384 }
    ensures size { length repair.new.copy ≡ 16384 }
{
    if repair.is_over() {
        return None;
    }
    Some(repair.step(disk))
}

/// What three steps of a repair by this copy answer on a disk that has none and whose calls of
/// these numbers fail, and the copies' numbers then.
fn repaired(alloc: Global, used: &[u8], place: u64, fails: &[u64]) -> Option<([Step; 3], [u64; 2])>
    requires size { length used.now ≡ 16384 }
    requires place { place ≤ 16384 }
{
    let mut disk = MemDisk::new(alloc, 512, 64, 1000, fails).ok()?;
    let mut repair = Repair::new(alloc, used, place, &[9; 64]).ok()?;
    let steps = [
        repair_step(&mut repair, &mut disk),
        repair_step(&mut repair, &mut disk),
        repair_step(&mut repair, &mut disk),
    ];
    Some((steps, numbers_on(alloc, &mut disk)?))
}

#[test]
fn a_repair_is_a_write_and_a_sync(rt: HostRuntime) -> Result<(), Fail> {
    let alloc = rt.alloc();
    let Some(commit) = begun(alloc) else {
        return Err(Fail::new("no memory"));
    };
    let (first, second) = (commit.first(), commit.second());
    same(
        &rt,
        repaired(alloc, second, 0, &[]),
        Some(([DONE, LAST, None], [4, 0])),
    );
    same(
        &rt,
        repaired(alloc, second, 0, &[0]),
        Some(([FAILED, None, None], [0, 0])),
    );
    same(
        &rt,
        repaired(alloc, second, 0, &[1]),
        Some(([DONE, FAILED, None], [4, 0])),
    );
    same(
        &rt,
        repaired(alloc, first, 16384, &[]),
        Some(([DONE, LAST, None], [0, 4])),
    );
    Ok(())
}

/// Whether a text has a NUL.
fn has_nul(text: &[u8]) -> bool
    ensures { result ≡ holds_nul text.now }
{
    text.contains(&0)
}

/// Why a commit of so many bytes after a header of this number isn't made.
fn refusal(alloc: Global, seqid: u64, len: usize) -> Result<Option<CommitError>, AllocError>
    requires { len ≤ 20000 }
{
    let mut text = zeros(alloc, len)?;
    text.fill(32);
    if has_nul(&text) {
        return Err(AllocError);
    }
    match Commit::new(alloc, &header(seqid), &[1; 64], &[2; 64], &text) {
        Ok(_) => Ok(None),
        Err(error) => Ok(Some(error)),
    }
}

#[test]
fn a_commit_is_refused_after_the_last_number_and_where_the_text_is_too_long(rt: HostRuntime) {
    let alloc = rt.alloc();
    let full = Some(CommitError::JsonFull {
        len: 12288,
        limit: 12287,
    });
    same(&rt, refusal(alloc, 3, 12287), Ok(None));
    same(&rt, refusal(alloc, 3, 12288), Ok(full));
    let last = Ok(Some(CommitError::SeqEnd));
    same(&rt, refusal(alloc, u64::MAX, 2), last);
    same(&rt, refusal(alloc, u64::MAX, 12288), last);
}
