// A conversion's zones, one after the other.

ghost use Rattle.std.specs.Prelude.{◌≡◌, ◌↔◌, length, IfOk, IsTrue, None, Some};
ghost use Rattle.cipher_laws.specs.Bytes.{AreBytes};
ghost use Rattle.hotzone.specs.Steps.{Steps};
ghost use Rattle.hotzone.specs.Workers.{HasKeys, HasRoom, IsAsLong, IsDone, IsNew, IsWorking};
ghost use Rattle.hotzone.specs.Workers.{IsMapNow, MapsFit, MayGoOn, first_call, range_in};
ghost use Rattle.hotzone.specs.declared.worker.Halt.TheVariants.{GivenUp};
ghost use Rattle.hotzone.specs.declared.worker.Stepped.TheVariants.{AllDone};
ghost use Rattle.sector_disk.specs.JoinedDisks.Counts.{HasSizes};
ghost use Rattle.luks_rules.specs.States.{IsSound};
ghost use Rattle.luks_store.specs.Loads.{IsStored};
ghost use Rattle.reenc_meta.specs.Placements.{all_atoms};
ghost use Rattle.sector_disk.specs.Geometry.{IsDisk};
ghost use Rattle.volume_machine.specs.Seals.{seals_of};

use crate::scratch::{Scratch, new_scratch};
use crate::steps::{Made, Stop, begin_with, lay_next};
use crate::worker::{Halt, NextCall, Stepped, Worker, ZoneFault};
use base_terms::{BlockRange, Buffer, bytes_are_below_256, zeros};
use cipher_laws::SectorCipher;
use luks_store::Loaded;
use sector_disk::Disk;
use segment_map::{Direction, Map};
use std::alloc::{AllocError, Global};
use std::marker::Model;
use std::mem;
use std::thread::Threads;
use volume_machine::Keys;

/// A conversion that goes on, zone by zone, one device call a step.
pub struct Zone<C: SectorCipher + Copy> {
    worker: Worker<C>,
    scratch: Scratch,
}

// By hand, so that a value that is dropped in place is one call to the prover.
impl<C: SectorCipher + Copy> Drop for Zone<C> {
    fn drop(self) {
        let Zone { worker, scratch } = self;
        drop(worker);
        drop(scratch);
    }
}

impl<C: SectorCipher + Copy> Model for Zone<C> {
    ghost use Rattle.hotzone.specs.Laid.{IsBegun, IsSealed};
    ghost use Rattle.hotzone.specs.Workers.{HasRoom, IsWorking};
    ghost use Rattle.hotzone.specs.declared.worker.Worker.{Worker as worker_type};
    ghost use Rattle.luks_store.specs.contracts.commit.Prepared as prepared_type;
    ghost use Rattle.luks_store.specs.contracts.loaded.Stored as stored_type;
    ghost use Rattle.std.specs.Coded.{codes};
    ghost use Rattle.volume_machine.specs.Seals.{seals_of};

    ghost Value = { worker_type C };

    ghost coded = { Prim.hlevel (codes, stored_type.the_row.coded, prepared_type.the_row.coded) };

    ghost view = { λ zone. zone.worker };

    ghost invariant = { λ zone. IsWorking C.sector zone.worker
        × HasRoom zone.worker.site zone.scratch
        × IsSealed (seals_of C.sealed C.opened zone.worker.site.atom zone.worker.keys)
        zone.worker zone.scratch
        × IsBegun (seals_of C.sealed C.opened zone.worker.site.atom zone.worker.keys)
        zone.worker zone.scratch };
}

/// A worker that begins with a header, with the buffer of a part.
fn new_worker<C: SectorCipher + Copy>(
    alloc: Global,
    loaded: Loaded,
    keys: Keys<C>,
) -> Result<Worker<C>, AllocError>
    requires disk { IsDisk loaded.valid.sizes.atom (all_atoms loaded.valid.sizes) }
    requires may { MayGoOn loaded }
    requires maps { MapsFit loaded }
    requires keys { HasKeys C.sector loaded keys }
    ensures working { IfOk result (IsWorking C.sector) }
    ensures new { IfOk result (λ worker. IsNew loaded keys worker) }
{
    loaded.valid().is_sound();
    let (map, site) = lay_next(&loaded);
    match zeros(alloc, site.bytes(0)) {
        Ok(bytes) => Ok(Worker {
            keys,
            loaded,
            map,
            site,
            buffer: Buffer::new(bytes),
            next: begin_with(&site),
            halted: None,
        }),
        Err(AllocError) => {
            drop(loaded);
            Err(AllocError)
        }
    }
}

impl<C: SectorCipher + Copy> Zone<C> {
    /// A conversion that goes on behind a header by which no zone is open, guarded by a journal or by
    /// checksum. It takes the buffer of a part; by checksum also those of a part sealed anew and of
    /// its digests, and by journal that of a part sealed anew where it is sealed in slices. The keys
    /// fit the blocks of both sides; that they are the keys of these segments is for the caller to
    /// know, since each step opens and seals by them. So it is with the disk: before the first step
    /// both copies on it hold this header, each atom of theirs for certain, and between steps nobody
    /// else writes what they write. Where there is no memory header and keys are gone.
    pub fn new(alloc: Global, loaded: Loaded, keys: Keys<C>) -> Result<Zone<C>, AllocError>
        requires disk { IsDisk loaded.valid.sizes.atom (all_atoms loaded.valid.sizes) }
        requires may { MayGoOn loaded }
        requires maps { MapsFit loaded }
        requires keys { HasKeys C.sector loaded keys }
        ensures { IfOk result (λ zone. IsNew loaded keys zone) }
    {
        match new_worker(alloc, loaded, keys) {
            Ok(worker) => match new_scratch(alloc, &worker.site) {
                Ok(scratch) => Ok(Zone { worker, scratch }),
                Err(AllocError) => {
                    drop(worker);
                    Err(AllocError)
                }
            },
            Err(AllocError) => Err(AllocError),
        }
    }

    /// The blocks of the zone at hand, or of the one that comes next; none exactly where no old
    /// block is left.
    pub fn range(&self) -> Option<BlockRange>
        ensures { result ≡ range_in self.now }
    {
        if self.worker.site.blocks.is_empty() {
            return None;
        }
        Some(self.worker.site.blocks)
    }

    /// What holds between its steps: a law, with nothing to run. What its calls touch lies on the
    /// disk, and the next one has what it needs; its header is one that a disk held, whose metadata
    /// break no rule; and it has two salts of 64 bytes, and a buffer of bytes.
    pub fn is_working(&self)
        ensures working { IsWorking C.sector self.now }
        ensures stored { IsStored self.now.loaded }
        ensures ruled { IsSound self.now.loaded.valid.meta self.now.loaded.valid.sizes }
        ensures first_salt { length self.now.loaded.copies.primary.salt ≡ 64 }
        ensures second_salt { length self.now.loaded.copies.secondary.salt ≡ 64 }
        ensures bytes { AreBytes self.now.buffer }
    {
        self.worker.loaded.is_stored();
        self.worker.loaded.valid().is_sound();
        let _first = self.worker.loaded.primary().salt;
        let _second = self.worker.loaded.secondary().salt;
        let buffer = &self.worker.buffer;
        bytes_are_below_256(buffer.front(buffer.len()));
    }

    /// Whether all steps are made.
    pub fn is_over(&self) -> bool
        ensures { IsTrue result ↔ IsDone self.now.next }
    {
        match &self.worker.next {
            NextCall::Over(_) => true,
            _ => false,
        }
    }

    /// Where the blocks of the volume lie now: by the header from which the commit at hand leads, or
    /// the next one.
    pub fn map(&self) -> Map
        ensures { IsMapNow self.now result }
    {
        let Map {
            atom,
            blocks,
            boundary,
            direction,
            old_place,
            new_place,
            ..
        } = self.worker.map;
        match &self.worker.next {
            NextCall::ReadAgain { .. }
            | NextCall::Write { .. }
            | NextCall::Settle(_)
            | NextCall::Move(_) => Map {
                atom,
                blocks,
                boundary,
                direction,
                zone: self.worker.site.blocks.len(),
                old_place,
                new_place,
            },
            NextCall::Wipe { .. } | NextCall::Rest(_) | NextCall::Over(_) => Map {
                atom,
                blocks,
                boundary: blocks,
                direction: Direction::Forward,
                zone: 0,
                old_place: new_place,
                new_place,
            },
            _ => self.worker.map,
        }
    }

    /// How a step that wasn't made, or failed, has left it; none may follow then.
    pub fn halted(&self) -> Option<Halt>
        ensures { result ≡ self.now.halted }
    {
        self.worker.halted
    }

    /// A zone that was given up begins anew, or the finish: nothing of it is written but what was
    /// saved. It takes no memory.
    pub fn again(&mut self)
        requires given_up { self.old.halted ≡ Some GivenUp }
        ensures { self.new ≡ record self.old { next = first_call self.old.site; halted = None } }
    {
        let first = begin_with(&self.worker.site);
        drop(mem::replace(&mut self.worker.next, first));
        self.worker.halted = None;
    }
}

impl<C: SectorCipher + Copy + Sync> Zone<C> {
    /// The next step: the one device call that the state names. A sync begins a zone; what its
    /// parts hold is read and saved, and synced; four calls commit the header with the zone open;
    /// its parts are written anew, and synced; and four calls commit the header with the boundary
    /// moved over it. A part of 256 KiB and more is sealed by several threads, where they can be
    /// started. By journal such a part, where it is the zone's only one, is sealed in slices beside
    /// the three syncs before it is written.
    ///
    /// # Errors
    ///
    /// The device call failed; or, before a part is saved, a block of it has an old atom and a new
    /// one of the same digest; or, before the first write of a zone or of the finish, its headers
    /// can't be made. Of the latter two no call was made. The state keeps the call, and says how it was left; no
    /// step may follow, unless it is given up and begins [`Zone::again`].
    pub fn step<R: Threads + Sync, D: Disk>(
        &mut self,
        rt: &R,
        alloc: Global,
        disk: &mut D,
    ) -> Result<Stepped, ZoneFault>
        requires runs { self.old.halted ≡ None }
        requires next { IsDone self.old.next → ⊥ }
        requires sizes { HasSizes self.old.loaded.valid.sizes (D.device disk.old) }
        ensures steps { Steps (seals_of C.sealed C.opened self.old.site.atom self.old.keys)
            (D.device disk.old) (D.device disk.new) self.old self.new result }
        ensures sizes { HasSizes self.new.loaded.valid.sizes (D.device disk.new) }
        ensures went { IfOk result (λ _. self.new.halted ≡ None) }
        ensures over { IfOk result (λ stepped. (stepped ≡ AllDone) ↔ IsDone self.new.next) }
    {
        self.worker.advance(rt, alloc, &mut self.scratch, disk)
    }
}

impl<C: SectorCipher + Copy + Sync> Worker<C> {
    ghost use Rattle.hotzone.specs.Laid.{IsBegun, IsSealed};
    ghost use Rattle.hotzone.specs.Making.{HasStepped, IsPut, MayMake, Makes};
    ghost use Rattle.hotzone.specs.declared.worker.NextCall.TheVariants.{Begin};

    /// The next step.
    fn advance<R: Threads + Sync, D: Disk>(
        &mut self,
        rt: &R,
        alloc: Global,
        scratch: &mut Scratch,
        disk: &mut D,
    ) -> Result<Stepped, ZoneFault>
        requires working { IsWorking C.sector self.old }
        requires room { HasRoom self.old.site scratch.old }
        requires sealed { IsSealed
            (seals_of C.sealed C.opened self.old.site.atom self.old.keys) self.old scratch.old }
        requires begun { IsBegun
            (seals_of C.sealed C.opened self.old.site.atom self.old.keys) self.old scratch.old }
        requires runs { self.old.halted ≡ None }
        requires next { IsDone self.old.next → ⊥ }
        requires sizes { HasSizes self.old.loaded.valid.sizes (D.device disk.old) }
        ensures stepped { HasStepped C.sector
            (seals_of C.sealed C.opened self.old.site.atom self.old.keys) (D.device disk.old)
            (D.device disk.new) self.old self.new result }
        ensures room { HasRoom self.new.site scratch.new }
        ensures sealed { IsSealed
            (seals_of C.sealed C.opened self.new.site.atom self.new.keys) self.new scratch.new }
        ensures begun { IsBegun
            (seals_of C.sealed C.opened self.new.site.atom self.new.keys) self.new scratch.new }
    {
        self.loaded.valid().is_sound();
        let call = self.take_next();
        let Made { next, answer } = self.make(rt, call, alloc, scratch, disk);
        self.put_answer(next, answer)
    }

    /// The call that comes next is taken out.
    fn take_next(&mut self) -> NextCall
        ensures next { result ≡ self.old.next }
        ensures rest { self.new ≡ record self.old { next = Begin } }
    {
        mem::replace(&mut self.next, NextCall::Begin)
    }

    /// The one behind it is put in.
    fn put_next(&mut self, next: NextCall)
        ensures { self.new ≡ record self.old { next = next } }
    {
        drop(mem::replace(&mut self.next, next));
    }

    /// What a call has come to is put in.
    fn put_answer(
        &mut self,
        next: NextCall,
        answer: Result<Stepped, Stop>,
    ) -> Result<Stepped, ZoneFault>
        ensures { IsPut self.old next self.new answer result }
    {
        self.put_next(next);
        match answer {
            Ok(stepped) => Ok(stepped),
            Err(stop) => {
                self.halted = Some(stop.halt);
                Err(stop.fault)
            }
        }
    }

    /// Makes a call.
    fn make<R: Threads + Sync, D: Disk>(
        &mut self,
        rt: &R,
        call: NextCall,
        alloc: Global,
        scratch: &mut Scratch,
        disk: &mut D,
    ) -> Made
        requires may { MayMake C.sector self.old (D.device disk.old) call }
        requires room { HasRoom self.old.site scratch.old }
        requires sealed { IsSealed
            (seals_of C.sealed C.opened self.old.site.atom self.old.keys) self.old scratch.old }
        requires begun { IsBegun
            (seals_of C.sealed C.opened self.old.site.atom self.old.keys) self.old scratch.old }
        ensures makes { Makes (seals_of C.sealed C.opened self.old.site.atom self.old.keys)
            (D.device disk.old) (D.device disk.new) self.old call self.new result }
        ensures scratch { IsAsLong scratch.old scratch.new }
        ensures sealed { IsSealed
            (seals_of C.sealed C.opened self.new.site.atom self.new.keys) self.new scratch.new }
        ensures begun { IsBegun
            (seals_of C.sealed C.opened self.new.site.atom self.new.keys) self.new scratch.new }
    {
        match call {
            NextCall::Begin => self.begin(disk),
            NextCall::ReadFirst => {
                scratch.is_first = false;
                scratch.begun = false;
                self.read_first(alloc, disk)
            }
            NextCall::SaveFirst => self.save_first(rt, alloc, scratch, disk),
            NextCall::Read { done, headers } => {
                scratch.is_first = false;
                scratch.begun = false;
                self.read(alloc, done, headers, disk)
            }
            NextCall::Save { done, headers } => self.save(rt, scratch, done, headers, disk),
            NextCall::Keep(headers) => self.keep(rt, scratch, headers, disk),
            NextCall::Open(headers) => self.open(rt, scratch, headers, disk),
            NextCall::ReadAgain { done, headers } => {
                scratch.is_first = false;
                scratch.begun = false;
                self.read_again(alloc, done, headers, disk)
            }
            NextCall::Write { done, headers } => {
                let made = self.write(rt, scratch, done, headers, disk);
                scratch.is_first = false;
                scratch.begun = false;
                made
            }
            NextCall::Settle(headers) => self.settle(headers, disk),
            NextCall::Move(headers) => {
                scratch.is_first = false;
                scratch.begun = false;
                self.turn(headers, disk)
            }
            NextCall::Finish => self.finish(alloc, disk),
            NextCall::End(ending) => self.end(ending, disk),
            NextCall::Wipe { done, ending } => self.wipe(done, ending, disk),
            NextCall::Rest(ending) => self.rest(ending, disk),
            NextCall::Over(_) => unreachable!(),
        }
    }
}
