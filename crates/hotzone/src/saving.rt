// The steps of a zone that save its parts.

ghost use Rattle.std.specs.Prelude.{◌≡◌, ◌<◌, ◌≤◌, Err};
ghost use Rattle.hotzone.specs.Headings.{AreMade, MayOpenFrom};
ghost use Rattle.hotzone.specs.Laid.{AreLaid, IsBegun, IsSealed};
ghost use Rattle.hotzone.specs.Making.{Makes};
ghost use Rattle.hotzone.specs.Sites.{IsPartStart, count_of};
ghost use Rattle.hotzone.specs.Steps.{TellsPart, after_save};
ghost use Rattle.hotzone.specs.Workers.{FitsDisk, HasRoom, IsAsLong};
ghost use Rattle.hotzone.specs.declared.worker.Halt.TheVariants.{GivenUp};
ghost use Rattle.hotzone.specs.declared.worker.NextCall.TheVariants.{Save, SaveFirst};
ghost use Rattle.reenc_meta.specs.Placements.{all_atoms};
ghost use Rattle.sector_disk.specs.Geometry.{IsDisk};
ghost use Rattle.volume_machine.specs.Seals.{seals_of};

use crate::headers::make_headers;
use crate::scratch::Scratch;
use crate::site::Site;
use crate::steps::{FAILED, Made, Stop};
use crate::worker::{Halt, Headers, NextCall, Stepped, Worker, ZoneFault};
use base_terms::Failed;
use cipher_laws::SectorCipher;
use sector_disk::Disk;
use std::alloc::Global;
use std::thread::Threads;

/// What comes behind a part that was saved.
fn behind_save(site: &Site, done: u64, headers: Headers) -> NextCall
    requires some { 0 < site.now.atom }
    requires within { done ≤ count_of site.now }
    ensures { result ≡ after_save site.now done headers }
{
    let blocks = site.blocks.len();
    let part = site.part(done);
    let done = done + part;
    if done == blocks {
        NextCall::Keep(headers)
    } else {
        NextCall::Read { done, headers }
    }
}

/// A zone is given up before this call of it is made.
fn give_up(fault: ZoneFault, next: NextCall) -> Made
    ensures { result ≡ record { next = next; answer = Err (record { fault = fault; halt = GivenUp }) } }
{
    Made {
        next,
        answer: Err(Stop {
            fault,
            halt: Halt::GivenUp,
        }),
    }
}

impl<C: SectorCipher + Copy + Sync> Worker<C> {
    /// Digests are compared, the headers are made, and the first part is saved; by journal it is
    /// laid for what seals it anew.
    pub(crate) fn save_first<R: Threads + Sync, D: Disk>(
        &self,
        rt: &R,
        alloc: Global,
        scratch: &mut Scratch,
        disk: &mut D,
    ) -> Made
        requires fits { FitsDisk C.sector self.now (D.device disk.old) }
        requires room { HasRoom self.now.site scratch.old }
        requires sealed { IsSealed (seals_of C.sealed C.opened self.now.site.atom self.now.keys) self.now
            scratch.old }
        requires begun { IsBegun (seals_of C.sealed C.opened self.now.site.atom self.now.keys) self.now
            scratch.old }
        requires disk { IsDisk self.now.loaded.valid.sizes.atom
            (all_atoms self.now.loaded.valid.sizes) }
        requires may { MayOpenFrom self.now.loaded (count_of self.now.site) }
        ensures makes { Makes (seals_of C.sealed C.opened self.now.site.atom self.now.keys)
            (D.device disk.old) (D.device disk.new) self.now SaveFirst self.now result }
        ensures sealed { IsSealed (seals_of C.sealed C.opened self.now.site.atom self.now.keys) self.now
            scratch.new }
        ensures begun { IsBegun (seals_of C.sealed C.opened self.now.site.atom self.now.keys) self.now
            scratch.new }
        ensures scratch { IsAsLong scratch.old scratch.new }
    {
        match self.find_clash(rt, scratch, 0) {
            Some(fault) => give_up(fault, NextCall::SaveFirst),
            None => {
                self.lay_part(scratch);
                self.save_made(alloc, scratch, disk)
            }
        }
    }

    /// The headers are made, and the first part is saved.
    fn save_made<D: Disk>(&self, alloc: Global, scratch: &Scratch, disk: &mut D) -> Made
        requires fits { FitsDisk C.sector self.now (D.device disk.old) }
        requires room { HasRoom self.now.site scratch.now }
        requires laid { AreLaid self.now 0 scratch.now }
        requires tells { TellsPart (seals_of C.sealed C.opened self.now.site.atom self.now.keys)
            self.now 0 }
        requires disk { IsDisk self.now.loaded.valid.sizes.atom
            (all_atoms self.now.loaded.valid.sizes) }
        requires may { MayOpenFrom self.now.loaded (count_of self.now.site) }
        ensures { Makes (seals_of C.sealed C.opened self.now.site.atom self.now.keys)
            (D.device disk.old) (D.device disk.new) self.now SaveFirst self.now result }
    {
        match make_headers(alloc, &self.loaded, self.site.blocks.len()) {
            Ok(headers) => self.save_with(scratch, headers, disk),
            Err(fault) => give_up(fault, NextCall::SaveFirst),
        }
    }

    /// The first part is saved.
    fn save_with<D: Disk>(&self, scratch: &Scratch, headers: Headers, disk: &mut D) -> Made
        requires fits { FitsDisk C.sector self.now (D.device disk.old) }
        requires room { HasRoom self.now.site scratch.now }
        requires laid { AreLaid self.now 0 scratch.now }
        requires tells { TellsPart (seals_of C.sealed C.opened self.now.site.atom self.now.keys)
            self.now 0 }
        requires made { AreMade self.now.loaded (count_of self.now.site) headers }
        ensures { Makes (seals_of C.sealed C.opened self.now.site.atom self.now.keys)
            (D.device disk.old) (D.device disk.new) self.now SaveFirst self.now result }
    {
        match self.save_part(scratch, 0, disk) {
            Ok(()) => Made {
                next: behind_save(&self.site, 0, headers),
                answer: Ok(Stepped::Went),
            },
            Err(Failed) => Made {
                next: NextCall::SaveFirst,
                answer: FAILED,
            },
        }
    }

    /// Digests are compared, and it is saved.
    pub(crate) fn save<R: Threads + Sync, D: Disk>(
        &self,
        rt: &R,
        scratch: &mut Scratch,
        done: u64,
        headers: Headers,
        disk: &mut D,
    ) -> Made
        requires within { done < count_of self.now.site }
        requires start { IsPartStart self.now.site done }
        requires fits { FitsDisk C.sector self.now (D.device disk.old) }
        requires room { HasRoom self.now.site scratch.old }
        requires sealed { IsSealed (seals_of C.sealed C.opened self.now.site.atom self.now.keys) self.now
            scratch.old }
        requires begun { IsBegun (seals_of C.sealed C.opened self.now.site.atom self.now.keys) self.now
            scratch.old }
        ensures makes { Makes (seals_of C.sealed C.opened self.now.site.atom self.now.keys)
            (D.device disk.old) (D.device disk.new) self.now (Save done headers) self.now result }
        ensures sealed { IsSealed (seals_of C.sealed C.opened self.now.site.atom self.now.keys) self.now
            scratch.new }
        ensures begun { IsBegun (seals_of C.sealed C.opened self.now.site.atom self.now.keys) self.now
            scratch.new }
        ensures scratch { IsAsLong scratch.old scratch.new }
    {
        match self.find_clash(rt, scratch, done) {
            Some(fault) => give_up(fault, NextCall::Save { done, headers }),
            None => self.save_told(scratch, done, headers, disk),
        }
    }

    /// It is saved.
    fn save_told<D: Disk>(
        &self,
        scratch: &Scratch,
        done: u64,
        headers: Headers,
        disk: &mut D,
    ) -> Made
        requires within { done < count_of self.now.site }
        requires start { IsPartStart self.now.site done }
        requires fits { FitsDisk C.sector self.now (D.device disk.old) }
        requires room { HasRoom self.now.site scratch.now }
        requires laid { AreLaid self.now done scratch.now }
        requires tells { TellsPart (seals_of C.sealed C.opened self.now.site.atom self.now.keys)
            self.now done }
        ensures { Makes (seals_of C.sealed C.opened self.now.site.atom self.now.keys)
            (D.device disk.old) (D.device disk.new) self.now (Save done headers) self.now result }
    {
        match self.save_part(scratch, done, disk) {
            Ok(()) => Made {
                next: behind_save(&self.site, done, headers),
                answer: Ok(Stepped::Went),
            },
            Err(Failed) => Made {
                next: NextCall::Save { done, headers },
                answer: FAILED,
            },
        }
    }
}
