// The steps of a zone, one device call each.

ghost use Rattle.std.specs.Prelude.{◌≡◌, ◌<◌, ◌≤◌, MatchBool};
ghost use Rattle.hotzone.specs.Laid.{IsBegun, IsSealed};
ghost use Rattle.hotzone.specs.Making.{GoesOn, IsZoneDone, Makes};
ghost use Rattle.hotzone.specs.Steps.{HasMoved, after_open, after_write};
ghost use Rattle.hotzone.specs.Workers.{IsNextZone, MayGoOn};
ghost use Rattle.hotzone.specs.Workers.{FitsDisk, IsAsLong, MayCommit, first_call};
ghost use Rattle.hotzone.specs.Sites.{count_of};
ghost use Rattle.hotzone.specs.declared.worker.NextCall.TheVariants.{Begin, ReadFirst};
ghost use Rattle.hotzone.specs.declared.worker.NextCall.TheVariants.{Read, Keep, Open};
ghost use Rattle.hotzone.specs.declared.worker.NextCall.TheVariants.{ReadAgain, Write, Settle};
ghost use Rattle.hotzone.specs.declared.worker.NextCall.TheVariants.{Move};
ghost use Rattle.reenc_meta.specs.Placements.{all_atoms};
ghost use Rattle.sector_disk.specs.Geometry.{IsDisk};
ghost use Rattle.volume_machine.specs.Seals.{seals_of};

use crate::scratch::Scratch;
use crate::site::{Site, guard_by, next_site, room_of};
use crate::worker::{Halt, Headers, NextCall, NextHeader, Stepped, Worker, ZoneFault};
use base_terms::Failed;
use cipher_laws::SectorCipher;
use luks_store::Loaded;
use reenc_meta::Reenc;
use sector_disk::Disk;
use segment_map::Map;
use std::alloc::Global;
use std::thread::Threads;

/// The first call of a zone; of one without blocks there is none.
pub(crate) fn begin_with(site: &Site) -> NextCall
    ensures { result ≡ first_call site.now }
{
    if site.blocks.is_empty() {
        NextCall::Finish
    } else {
        NextCall::Begin
    }
}

/// What comes behind a call of the commit that opens the zone, by whether it was the last one.
fn behind_open(site: &Site, headers: Headers, last: bool) -> NextCall
    requires some { 0 < site.now.atom }
    ensures { MatchBool last (result ≡ after_open site.now headers) (result ≡ Open headers) }
{
    if !last {
        return NextCall::Open(headers);
    }
    if site.part(0) == site.blocks.len() {
        NextCall::Write { done: 0, headers }
    } else {
        NextCall::ReadAgain { done: 0, headers }
    }
}

/// What comes behind a part that was written.
fn behind_write(site: &Site, done: u64, headers: Headers) -> NextCall
    requires some { 0 < site.now.atom }
    requires within { done ≤ count_of site.now }
    ensures { result ≡ after_write site.now done headers }
{
    let blocks = site.blocks.len();
    let part = site.part(done);
    let done = done + part;
    if done == blocks {
        NextCall::Settle(headers)
    } else {
        NextCall::ReadAgain { done, headers }
    }
}

/// Where the next zone lies by a header, and the map of the volume.
pub(crate) fn lay_next(loaded: &Loaded) -> (Map, Site)
    requires disk { IsDisk loaded.now.valid.sizes.atom (all_atoms loaded.now.valid.sizes) }
    requires may { MayGoOn loaded.now }
    ensures { IsNextZone loaded.now result.0 result.1 }
{
    loaded.valid().is_sound();
    match Reenc::of(loaded.valid()) {
        Some(reenc) => {
            let map = reenc.map();
            let conversion = &reenc.progress.conversion;
            let room = room_of(conversion, map.atom);
            let store = conversion.area.offset / map.atom as u64;
            let site = next_site(&map, room, store, guard_by(conversion.resilience));
            (map, site)
        }
        None => unreachable!(),
    }
}

/// Why a step isn't made, or has failed, and how it leaves the conversion.
#[derive(Clone, Copy)]
pub(crate) struct Stop {
    pub(crate) fault: ZoneFault,
    pub(crate) halt: Halt,
}

/// A step: the call that comes next, or that failed; and what the step was, or why it wasn't.
#[derive(Drop)]
pub(crate) struct Made {
    pub(crate) next: NextCall,
    pub(crate) answer: Result<Stepped, Stop>,
}

/// What is answered to a device call that failed, and was none of a commit.
pub(crate) const FAILED: Result<Stepped, Stop> = Err(Stop {
    fault: ZoneFault::Device,
    halt: Halt::Failed,
});

/// What is answered to a read that failed before the first commit of its zone.
const MISSED: Result<Stepped, Stop> = Err(Stop {
    fault: ZoneFault::Device,
    halt: Halt::GivenUp,
});

impl<C: SectorCipher + Copy + Sync> Worker<C> {
    /// The sync with which a zone begins.
    pub(crate) fn begin<D: Disk>(&self, disk: &mut D) -> Made
        ensures { Makes (seals_of C.sealed C.opened self.now.site.atom self.now.keys)
            (D.device disk.old) (D.device disk.new) self.now Begin self.now result }
    {
        match disk.sync() {
            Ok(()) => Made {
                next: NextCall::ReadFirst,
                answer: Ok(Stepped::Went),
            },
            Err(Failed) => Made {
                next: NextCall::Begin,
                answer: FAILED,
            },
        }
    }

    /// The first part of the old atoms is read.
    pub(crate) fn read_first<D: Disk>(&mut self, alloc: Global, disk: &mut D) -> Made
        requires fits { FitsDisk C.sector self.old (D.device disk.old) }
        ensures { Makes (seals_of C.sealed C.opened self.old.site.atom self.old.keys)
            (D.device disk.old) (D.device disk.new) self.old ReadFirst self.new result }
    {
        match self.read_part(alloc, 0, disk) {
            Ok(()) => Made {
                next: NextCall::SaveFirst,
                answer: Ok(Stepped::Went),
            },
            Err(Failed) => Made {
                next: NextCall::ReadFirst,
                answer: MISSED,
            },
        }
    }

    /// A further part of the old atoms is read.
    pub(crate) fn read<D: Disk>(
        &mut self,
        alloc: Global,
        done: u64,
        headers: Headers,
        disk: &mut D,
    ) -> Made
        requires within { done < count_of self.old.site }
        requires fits { FitsDisk C.sector self.old (D.device disk.old) }
        ensures { Makes (seals_of C.sealed C.opened self.old.site.atom self.old.keys)
            (D.device disk.old) (D.device disk.new) self.old (Read done headers) self.new result }
    {
        match self.read_part(alloc, done, disk) {
            Ok(()) => Made {
                next: NextCall::Save { done, headers },
                answer: Ok(Stepped::Went),
            },
            Err(Failed) => Made {
                next: NextCall::Read { done, headers },
                answer: MISSED,
            },
        }
    }

    /// The sync behind which all is saved for certain.
    pub(crate) fn keep<R: Threads + Sync, D: Disk>(
        &self,
        rt: &R,
        scratch: &mut Scratch,
        headers: Headers,
        disk: &mut D,
    ) -> Made
        requires fits { FitsDisk C.sector self.now (D.device disk.old) }
        requires sealed { IsSealed (seals_of C.sealed C.opened self.now.site.atom self.now.keys)
            self.now scratch.old }
        requires begun { IsBegun (seals_of C.sealed C.opened self.now.site.atom self.now.keys)
            self.now scratch.old }
        ensures makes { Makes (seals_of C.sealed C.opened self.now.site.atom self.now.keys)
            (D.device disk.old) (D.device disk.new) self.now (Keep headers) self.now result }
        ensures sealed { IsSealed (seals_of C.sealed C.opened self.now.site.atom self.now.keys)
            self.now scratch.new }
        ensures begun { IsBegun (seals_of C.sealed C.opened self.now.site.atom self.now.keys)
            self.now scratch.new }
        ensures scratch { IsAsLong scratch.old scratch.new }
    {
        match self.sync_beside(rt, scratch, disk) {
            Ok(()) => Made {
                next: NextCall::Open(headers),
                answer: Ok(Stepped::Went),
            },
            Err(Failed) => Made {
                next: NextCall::Keep(headers),
                answer: FAILED,
            },
        }
    }

    /// The next call of the commit that opens the zone.
    pub(crate) fn open<R: Threads + Sync, D: Disk>(
        &self,
        rt: &R,
        scratch: &mut Scratch,
        headers: Headers,
        disk: &mut D,
    ) -> Made
        requires commit { MayCommit headers.opened (D.device disk.old) }
        requires fits { FitsDisk C.sector self.now (D.device disk.old) }
        requires sealed { IsSealed (seals_of C.sealed C.opened self.now.site.atom self.now.keys)
            self.now scratch.old }
        requires begun { IsBegun (seals_of C.sealed C.opened self.now.site.atom self.now.keys)
            self.now scratch.old }
        ensures makes { Makes (seals_of C.sealed C.opened self.now.site.atom self.now.keys)
            (D.device disk.old) (D.device disk.new) self.now (Open headers) self.now result }
        ensures sealed { IsSealed (seals_of C.sealed C.opened self.now.site.atom self.now.keys)
            self.now scratch.new }
        ensures begun { IsBegun (seals_of C.sealed C.opened self.now.site.atom self.now.keys)
            self.now scratch.new }
        ensures scratch { IsAsLong scratch.old scratch.new }
    {
        let Headers { opened, moved } = headers;
        let mut opened = opened;
        let stage = opened.stage();
        match self.step_beside(rt, scratch, &mut opened, disk) {
            Ok(last) => Made {
                next: behind_open(&self.site, Headers { opened, moved }, last),
                answer: Ok(Stepped::Went),
            },
            Err(Failed) => Made {
                next: NextCall::Open(Headers { opened, moved }),
                answer: Err(Stop {
                    fault: ZoneFault::Device,
                    halt: Halt::InCommit(stage),
                }),
            },
        }
    }

    /// A part is read again.
    pub(crate) fn read_again<D: Disk>(
        &mut self,
        alloc: Global,
        done: u64,
        headers: Headers,
        disk: &mut D,
    ) -> Made
        requires within { done < count_of self.old.site }
        requires fits { FitsDisk C.sector self.old (D.device disk.old) }
        ensures { Makes (seals_of C.sealed C.opened self.old.site.atom self.old.keys)
            (D.device disk.old) (D.device disk.new) self.old (ReadAgain done headers) self.new
            result }
    {
        match self.read_part(alloc, done, disk) {
            Ok(()) => Made {
                next: NextCall::Write { done, headers },
                answer: Ok(Stepped::Went),
            },
            Err(Failed) => Made {
                next: NextCall::ReadAgain { done, headers },
                answer: FAILED,
            },
        }
    }

    /// The sync behind which all is written for certain.
    pub(crate) fn settle<D: Disk>(&self, headers: Headers, disk: &mut D) -> Made
        ensures { Makes (seals_of C.sealed C.opened self.now.site.atom self.now.keys)
            (D.device disk.old) (D.device disk.new) self.now (Settle headers) self.now result }
    {
        match disk.sync() {
            Ok(()) => Made {
                next: NextCall::Move(headers),
                answer: Ok(Stepped::Went),
            },
            Err(Failed) => Made {
                next: NextCall::Settle(headers),
                answer: FAILED,
            },
        }
    }

    /// The next call of the commit that moves the boundary. With the last one the next zone is at
    /// hand.
    pub(crate) fn turn<D: Disk>(&mut self, headers: Headers, disk: &mut D) -> Made
        requires commit { MayCommit headers.moved.commit (D.device disk.old) }
        requires may { MayGoOn headers.moved.loaded }
        requires disk { IsDisk headers.moved.loaded.valid.sizes.atom
            (all_atoms headers.moved.loaded.valid.sizes) }
        ensures { Makes (seals_of C.sealed C.opened self.old.site.atom self.old.keys)
            (D.device disk.old) (D.device disk.new) self.old (Move headers) self.new result }
    {
        let Headers { opened, moved } = headers;
        let NextHeader { commit, loaded } = moved;
        let mut commit = commit;
        let stage = commit.stage();
        match commit.step(disk) {
            Ok(last) => {
                let moved = NextHeader { commit, loaded };
                self.behind_move(Headers { opened, moved }, last)
            }
            Err(Failed) => Made {
                next: NextCall::Move(Headers {
                    opened,
                    moved: NextHeader { commit, loaded },
                }),
                answer: Err(Stop {
                    fault: ZoneFault::Device,
                    halt: Halt::InCommit(stage),
                }),
            },
        }
    }

    /// What comes behind a call of that commit, by whether it was the last one.
    fn behind_move(&mut self, headers: Headers, last: bool) -> Made
        requires may { MayGoOn headers.moved.loaded }
        requires disk { IsDisk headers.moved.loaded.valid.sizes.atom
            (all_atoms headers.moved.loaded.valid.sizes) }
        ensures { MatchBool last (IsZoneDone self.old headers self.new result)
            (GoesOn self.old headers self.new result) }
    {
        if !last {
            return Made {
                next: NextCall::Move(headers),
                answer: Ok(Stepped::Went),
            };
        }
        let Headers {
            opened: _opened,
            moved,
        } = headers;
        let NextHeader {
            commit: _commit,
            loaded,
        } = moved;
        Made {
            next: self.go_on(loaded),
            answer: Ok(Stepped::ZoneDone),
        }
    }

    /// The next zone behind this header: its first call.
    fn go_on(&mut self, loaded: Loaded) -> NextCall
        requires disk { IsDisk loaded.valid.sizes.atom (all_atoms loaded.valid.sizes) }
        requires may { MayGoOn loaded }
        ensures { HasMoved self.old (record self.new { next = result }) loaded }
    {
        let (map, site) = lay_next(&loaded);
        self.loaded = loaded;
        self.map = map;
        self.site = site;
        begin_with(&site)
    }

    /// A part is written anew.
    pub(crate) fn write<R: Threads + Sync, D: Disk>(
        &mut self,
        rt: &R,
        scratch: &Scratch,
        done: u64,
        headers: Headers,
        disk: &mut D,
    ) -> Made
        requires within { done < count_of self.old.site }
        requires fits { FitsDisk C.sector self.old (D.device disk.old) }
        requires sealed { IsSealed
            (seals_of C.sealed C.opened self.old.site.atom self.old.keys) self.old scratch.now }
        ensures { Makes (seals_of C.sealed C.opened self.old.site.atom self.old.keys)
            (D.device disk.old) (D.device disk.new) self.old (Write done headers) self.new result }
    {
        match self.write_part(rt, scratch, done, disk) {
            Ok(()) => Made {
                next: behind_write(&self.site, done, headers),
                answer: Ok(Stepped::Went),
            },
            Err(Failed) => Made {
                next: NextCall::Write { done, headers },
                answer: FAILED,
            },
        }
    }
}
