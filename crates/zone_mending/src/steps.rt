// The steps by which a zone is written again, one device call each.

ghost use Rattle.std.specs.Prelude.{◌≡◌, ◌≢◌, ◌<◌, ◌≤◌};
ghost use Rattle.hotzone.specs.Sites.{IsPartStart, count_of};
ghost use Rattle.hotzone.specs.declared.site.Guard.TheVariants as guards;
ghost use Rattle.sector_disk.specs.JoinedDisks.Counts.{HasSizes};
ghost use Rattle.luks_store.specs.declared.header_copies.commit.Stage.TheVariants.{Ended};
ghost use Rattle.volume_machine.specs.Seals.{seals_of};
ghost use Rattle.zone_mending.specs.Menders.{FitsDisk, after_move, after_write};
ghost use Rattle.zone_mending.specs.Menders.{stage_of_move};
ghost use Rattle.zone_mending.specs.Steps.{Steps};
ghost use Rattle.zone_mending.specs.declared.mender.MendCall.TheVariants as calls;

use crate::mender::{MendCall, Mender};
use base_terms::Failed;
use cipher_laws::SectorCipher;
use hotzone::{Guard, Site};
use sector_disk::Disk;
use std::thread::Threads;

/// What comes behind a part that was written.
fn behind_write(site: &Site, done: u64) -> MendCall
    requires some { 0 < site.now.atom }
    requires within { done ≤ count_of site.now }
    ensures { result ≡ after_write site.now done }
{
    let count = site.blocks.len();
    let done = done + site.part(done);
    if done == count {
        MendCall::Settle
    } else {
        MendCall::ReadSaved { done }
    }
}

/// What comes behind a call of the commit.
fn behind_move(last: bool) -> MendCall
    ensures { result ≡ after_move last }
{
    if last { MendCall::Done } else { MendCall::Move }
}

impl<C: SectorCipher + Copy> Mender<C> {
    /// What was saved of a part is read.
    pub(crate) fn read_saved<D: Disk>(&mut self, done: u64, disk: &mut D) -> Result<bool, Failed>
        requires next { self.old.next ≡ calls.ReadSaved done }
        requires within { done < count_of self.old.site }
        requires start { IsPartStart self.old.site done }
        requires fits { FitsDisk C.sector self.old (D.device disk.old) }
        ensures { Steps (seals_of C.sealed C.opened self.old.site.atom self.old.keys)
            (D.device disk.old) (D.device disk.new) self.old self.new result }
    {
        match self.site.guard {
            Guard::Journal => self.read_atoms(done, disk),
            Guard::Checksum => self.read_digests(done, disk),
        }
    }

    /// By journal its old atoms are.
    fn read_atoms<D: Disk>(&mut self, done: u64, disk: &mut D) -> Result<bool, Failed>
        requires guard { self.old.site.guard ≡ guards.Journal }
        requires next { self.old.next ≡ calls.ReadSaved done }
        requires within { done < count_of self.old.site }
        requires fits { FitsDisk C.sector self.old (D.device disk.old) }
        ensures { Steps (seals_of C.sealed C.opened self.old.site.atom self.old.keys)
            (D.device disk.old) (D.device disk.new) self.old self.new result }
    {
        match self.read_part(done, disk) {
            Ok(()) => {
                self.next = MendCall::Write { done };
                Ok(false)
            }
            Err(Failed) => {
                self.next = MendCall::Failed;
                Err(Failed)
            }
        }
    }

    /// By checksum their digests are.
    fn read_digests<D: Disk>(&mut self, done: u64, disk: &mut D) -> Result<bool, Failed>
        requires guard { self.old.site.guard ≡ guards.Checksum }
        requires next { self.old.next ≡ calls.ReadSaved done }
        requires within { done < count_of self.old.site }
        requires start { IsPartStart self.old.site done }
        requires fits { FitsDisk C.sector self.old (D.device disk.old) }
        ensures { Steps (seals_of C.sealed C.opened self.old.site.atom self.old.keys)
            (D.device disk.old) (D.device disk.new) self.old self.new result }
    {
        match self.lay_digests(done, disk) {
            Ok(()) => {
                self.next = MendCall::ReadOwn { done };
                Ok(false)
            }
            Err(Failed) => {
                self.next = MendCall::Failed;
                Err(Failed)
            }
        }
    }

    /// The part is read as it stands in the zone.
    pub(crate) fn read_own<D: Disk>(&mut self, done: u64, disk: &mut D) -> Result<bool, Failed>
        requires next { self.old.next ≡ calls.ReadOwn done }
        requires within { done < count_of self.old.site }
        requires fits { FitsDisk C.sector self.old (D.device disk.old) }
        ensures { Steps (seals_of C.sealed C.opened self.old.site.atom self.old.keys)
            (D.device disk.old) (D.device disk.new) self.old self.new result }
    {
        match self.find_part(done, disk) {
            Ok(()) => {
                self.next = MendCall::Write { done };
                Ok(false)
            }
            Err(Failed) => {
                self.next = MendCall::Failed;
                Err(Failed)
            }
        }
    }

    /// The sync behind which all is written for certain.
    pub(crate) fn settle<D: Disk>(&mut self, disk: &mut D) -> Result<bool, Failed>
        requires next { self.old.next ≡ calls.Settle }
        ensures { Steps (seals_of C.sealed C.opened self.old.site.atom self.old.keys)
            (D.device disk.old) (D.device disk.new) self.old self.new result }
    {
        match disk.sync() {
            Ok(()) => {
                self.next = MendCall::Move;
                Ok(false)
            }
            Err(Failed) => {
                self.next = MendCall::Failed;
                Err(Failed)
            }
        }
    }

    /// The next call of the commit that moves the boundary.
    pub(crate) fn move_on<D: Disk>(&mut self, disk: &mut D) -> Result<bool, Failed>
        requires next { self.old.next ≡ calls.Move }
        requires under_way { stage_of_move self.old ≢ Ended }
        requires sizes { HasSizes self.old.moved.commit.sizes (D.device disk.old) }
        ensures { Steps (seals_of C.sealed C.opened self.old.site.atom self.old.keys)
            (D.device disk.old) (D.device disk.new) self.old self.new result }
    {
        match self.moved.commit.step(disk) {
            Ok(last) => {
                self.next = behind_move(last);
                Ok(last)
            }
            Err(Failed) => {
                self.next = MendCall::Failed;
                Err(Failed)
            }
        }
    }
}

impl<C: SectorCipher + Copy + Sync> Mender<C> {
    /// A part is written anew.
    pub(crate) fn write_again<R: Threads + Sync, D: Disk>(
        &mut self,
        rt: &R,
        done: u64,
        disk: &mut D,
    ) -> Result<bool, Failed>
        requires next { self.old.next ≡ calls.Write done }
        requires within { done < count_of self.old.site }
        requires fits { FitsDisk C.sector self.old (D.device disk.old) }
        ensures { Steps (seals_of C.sealed C.opened self.old.site.atom self.old.keys)
            (D.device disk.old) (D.device disk.new) self.old self.new result }
    {
        match self.write_part(rt, done, disk) {
            Ok(()) => {
                self.next = behind_write(&self.site, done);
                Ok(false)
            }
            Err(Failed) => {
                self.next = MendCall::Failed; // the part may be torn
                Err(Failed)
            }
        }
    }
}
