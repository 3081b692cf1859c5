// A repair of a header: the copy that lacks or is older, and how far its writing is.

ghost use Rattle.std.specs.Prelude.{◌≡◌, ◌≢◌, ◌↔◌, ◌⊎◌, ◌/◌, ◌≤◌, ℕ, length, Ok, IfOk, IsTrue};
ghost use Rattle.crash_laws.specs.HeaderAreas.Headers.{IsHeader};
ghost use Rattle.luks_bin.specs.Copies.{copy_of, text_of};
ghost use Rattle.luks_bin.specs.Hidden.{hides_copy};
ghost use Rattle.luks_bin.specs.Shares.{Agree};
ghost use Rattle.luks_bin.specs.Writing.{moved};
ghost use Rattle.luks_bin.specs.declared.header.BinHeader.{BinHeader};
ghost use Rattle.luks_store.specs.Copying.Meanings.{header_of, header_reader};
ghost use Rattle.luks_store.specs.Copying.Steps.{RepairCall, done_of, is_last_repair, repair_after};
ghost use Rattle.luks_store.specs.Copying.Steps.{repair_next};
ghost use Rattle.luks_store.specs.declared.header_copies.repair.RepairStage.TheVariants.{Broken, Over};
ghost use Rattle.sector_disk.specs.Geometry.{IsInDisk};

use base_terms::{Bytes, Failed};
use luks_bin::{copies_are_spelt, move_copy};
use sector_disk::Disk;
use std::alloc::{AllocError, Global};

/// How many of a repair's two device calls are done.
#[derive(Clone, Copy, PartialEq, Eq)]
pub enum RepairStage {
    /// None.
    Broken,
    /// The copy is written.
    Written,
    /// Both, or one has failed.
    Over,
}

/// A repair of a header: the copy that is written anew with the bytes of the one that is used, and
/// how far this is. It is two device calls: write the copy, sync.
#[derive(Drop)]
pub struct Repair {
    copy: Bytes,
    place: u64,
    stage: RepairStage,
}

/// A copy as it stands, but as that of another place with this salt.
fn copy_for(alloc: Global, used: &[u8], place: u64, salt: &[u8; 64]) -> Result<Bytes, AllocError>
    requires { 4096 ≤ length used.now }
    ensures bytes { IfOk result (λ copy. copy ≡ moved place salt.now used.now) }
    ensures size { IfOk result (λ copy. length copy ≡ length used.now) }
    ensures shared { IfOk result (λ copy. Agree copy used.now) }
    ensures text { IfOk result (λ copy. text_of copy ≡ text_of used.now) }
    ensures valid { IfOk result (λ copy. (from : ℕ) (h : BinHeader) → copy_of from used.now ≡ Ok h
        → length used.now ≡ h.hdr_size → (place ≡ 0) ⊎ (place ≡ h.hdr_size)
        → copy_of place copy ≡ Ok (record h { hdr_offset = place; salt = salt.now })) }
    ensures hidden { IfOk result (λ copy. hides_copy copy ≡ hides_copy used.now) }
{
    let mut copy = Vec::from_slice(alloc, used)?;
    move_copy(&mut copy, place, salt);
    Ok(Bytes::new(copy))
}

impl Repair {
    ghost use Rattle.luks_store.specs.Copying.Held.{copy_in};

    /// A repair that writes the copy that is used as it stands, but for magic, salt, hdr_offset and
    /// checksum, to another place with this salt. The place is the byte of the disk: 0 for the
    /// primary, the header's size for the secondary. Of no other place is anything said but the
    /// bytes; both copies are a header where the one that is used is valid and this is the other's
    /// place. It hides a copy exactly where the one that is used does.
    pub fn new(
        alloc: Global,
        used: &[u8],
        place: u64,
        salt: &[u8; 64],
    ) -> Result<Repair, AllocError>
        requires { 4096 ≤ length used.now }
        ensures begun { IfOk result (λ repair. repair.stage ≡ Broken) }
        ensures place { IfOk result (λ repair. repair.place ≡ place) }
        ensures bytes { IfOk result (λ repair. repair.copy ≡ moved place salt.now used.now) }
        ensures size { IfOk result (λ repair. length repair.copy ≡ length used.now) }
        ensures shared { IfOk result (λ repair. Agree repair.copy used.now) }
        ensures text { IfOk result (λ repair. text_of repair.copy ≡ text_of used.now) }
        ensures valid { IfOk result
            (λ repair. (from : ℕ) (h : BinHeader) → copy_of from used.now ≡ Ok h
            → length used.now ≡ h.hdr_size → (place ≡ 0) ⊎ (place ≡ h.hdr_size)
            → copy_of place repair.copy ≡ Ok (record h { hdr_offset = place; salt = salt.now })) }
        ensures hidden { IfOk result (λ repair. hides_copy repair.copy ≡ hides_copy used.now) }
        ensures primary { IfOk result
            (λ repair. (h : BinHeader) → copy_of h.hdr_size used.now ≡ Ok h
            → length used.now ≡ h.hdr_size → place ≡ 0
            → IsHeader header_reader (header_of repair.copy used.now)) }
        ensures secondary { IfOk result (λ repair. (h : BinHeader) → copy_of 0 used.now ≡ Ok h
            → length used.now ≡ h.hdr_size → place ≡ h.hdr_size
            → IsHeader header_reader (header_of used.now repair.copy)) }
    {
        copies_are_spelt();
        let copy = copy_for(alloc, used, place, salt)?;
        Ok(Repair {
            copy,
            place,
            stage: RepairStage::Broken,
        })
    }

    /// The bytes of the copy that is written anew.
    pub fn copy(&self) -> &[u8]
        ensures { result.now ≡ copy_in self.now }
    {
        self.copy.as_slice()
    }

    /// Whether no device call may follow: all are made, or one has failed.
    pub fn is_over(&self) -> bool
        ensures { IsTrue result ↔ (self.now.stage ≡ Over) }
    {
        self.stage == RepairStage::Over
    }

    /// The next device call. It answers true exactly at the last one; after a call that failed none
    /// may follow.
    pub fn step<D: Disk>(&mut self, disk: &mut D) -> Result<bool, Failed>
        requires under_way { self.old.stage ≢ Over }
        requires fits { IsInDisk (D.device disk.old).size (D.device disk.old).atoms
            (self.old.place / (D.device disk.old).size) (length self.old.copy) }
        ensures call { RepairCall self.old.stage self.old.copy self.old.place
            (D.device disk.old) (D.device disk.new) (done_of result) }
        ensures disk_size { (D.device disk.new).size ≡ (D.device disk.old).size }
        ensures disk_atoms { (D.device disk.new).atoms ≡ (D.device disk.old).atoms }
        ensures last { IfOk result (λ last. last ≡ is_last_repair self.old.stage) }
        ensures next { self.new ≡ record self.old { stage = repair_after self.old.stage result } }
    {
        let stage = self.stage;
        match self.call(disk) {
            Ok(()) => {
                self.stage = stage.next();
                Ok(stage.is_last())
            }
            Err(Failed) => {
                self.stage = RepairStage::Over;
                Err(Failed)
            }
        }
    }

    /// The device call that comes next.
    fn call<D: Disk>(&self, disk: &mut D) -> Result<(), Failed>
        requires under_way { self.now.stage ≢ Over }
        requires fits { IsInDisk (D.device disk.old).size (D.device disk.old).atoms
            (self.now.place / (D.device disk.old).size) (length self.now.copy) }
        ensures call { RepairCall self.now.stage self.now.copy self.now.place
            (D.device disk.old) (D.device disk.new) result }
        ensures disk_size { (D.device disk.new).size ≡ (D.device disk.old).size }
        ensures disk_atoms { (D.device disk.new).atoms ≡ (D.device disk.old).atoms }
    {
        match self.stage {
            RepairStage::Broken => {
                let atom = disk.atom() as u64;
                disk.write(self.place / atom, self.copy.as_slice())
            }
            RepairStage::Written => disk.sync(),
            RepairStage::Over => unreachable!(),
        }
    }
}

impl RepairStage {
    /// The stage after a call that is done.
    fn next(self) -> RepairStage
        ensures { result ≡ repair_next self }
    {
        match self {
            RepairStage::Broken => RepairStage::Written,
            RepairStage::Written => RepairStage::Over,
            RepairStage::Over => RepairStage::Over,
        }
    }

    /// Whether one call is left.
    fn is_last(self) -> bool
        ensures { result ≡ is_last_repair self }
    {
        match self {
            RepairStage::Written => true,
            _ => false,
        }
    }
}
