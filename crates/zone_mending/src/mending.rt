// A zone that a stop left open, written again.

ghost use Rattle.std.specs.Prelude.{◌≡◌, ◌↔◌, IfErr, IfOk, IsTrue, false};
ghost use Rattle.hotzone.specs.Workers.{HasKeys, MapsFit, MayGoOn};
ghost use Rattle.hotzone.specs.declared.site.Guard.TheVariants as guards;
ghost use Rattle.sector_disk.specs.JoinedDisks.Counts.{HasSizes};
ghost use Rattle.luks_store.specs.Copying.Held.{stage_in};
ghost use Rattle.luks_store.specs.declared.header_copies.commit.Stage.TheVariants.{Begun};
ghost use Rattle.reenc_meta.specs.Placements.{all_atoms};
ghost use Rattle.sector_disk.specs.Geometry.{IsAtom, IsDisk};
ghost use Rattle.segment_map.specs.declared.map.Map.{Map as map_type};
ghost use Rattle.volume_machine.specs.Seals.{seals_of};
ghost use Rattle.zone_mending.specs.Menders.{HasRoom, IsMending, IsNew, IsUnderWay, LeavesNext};
ghost use Rattle.zone_mending.specs.OpenZones.{HasZone, IsMoved, IsNotMade, IsOpenZone};
ghost use Rattle.zone_mending.specs.Steps.{Steps};
ghost use Rattle.zone_mending.specs.declared.mender.MendCall.TheVariants as calls;

use crate::mender::{MendCall, MendFault, Mender};
use crate::zone::{find_zone, move_header};
use base_terms::{Buffer, Failed, zeros};
use cipher_laws::SectorCipher;
use hotzone::{Guard, NextHeader, Site};
use luks_store::Loaded;
use sector_disk::Disk;
use std::alloc::{AllocError, Global};
use std::marker::Model;
use std::thread::Threads;
use volume_machine::Keys;

/// A zone that a stop left open is written again, one device call a step.
pub struct Mending<C: SectorCipher + Copy> {
    mender: Mender<C>,
}

impl<C: SectorCipher + Copy> Model for Mending<C> {
    ghost use Rattle.luks_store.specs.contracts.commit.Prepared as prepared_type;
    ghost use Rattle.luks_store.specs.contracts.loaded.Stored as stored_type;
    ghost use Rattle.std.specs.Coded.{codes};
    ghost use Rattle.zone_mending.specs.Menders.{IsMending};
    ghost use Rattle.zone_mending.specs.declared.mender.Mender.{Mender as mender_type};

    ghost Value = { mender_type C };

    ghost coded = { Prim.hlevel (codes, stored_type.the_row.coded, prepared_type.the_row.coded) };

    ghost view = { λ mending. mending.mender };

    ghost invariant = { λ mending. IsMending C.sector mending.mender };
}

// By hand, so that one that is dropped in place is one call to the prover.
impl<C: SectorCipher + Copy> Drop for Mending<C> {
    fn drop(self) {
        let Mending { mender } = self;
        drop(mender);
    }
}

/// Room for the digests of a part, where digests are saved.
fn digest_room(alloc: Global, site: &Site) -> Result<Buffer, AllocError>
    requires atom { IsAtom site.now.atom }
    ensures { IfOk result (HasRoom site.now) }
{
    match site.guard {
        Guard::Journal => Ok(Buffer::empty(alloc)),
        Guard::Checksum => make_room(alloc, site),
    }
}

/// So where they are.
fn make_room(alloc: Global, site: &Site) -> Result<Buffer, AllocError>
    requires atom { IsAtom site.now.atom }
    requires guard { site.now.guard ≡ guards.Checksum }
    ensures { IfOk result (HasRoom site.now) }
{
    let bytes = zeros(alloc, site.digest_bytes(0))?;
    Ok(Buffer::new(bytes))
}

/// A zone that is written again by the header to come, with the buffer of a part.
fn make_mender<C: SectorCipher + Copy>(
    alloc: Global,
    loaded: Loaded,
    keys: Keys<C>,
    site: Site,
    moved: NextHeader,
) -> Result<Mender<C>, AllocError>
    requires disk { IsDisk loaded.valid.sizes.atom (all_atoms loaded.valid.sizes) }
    requires maps { MapsFit loaded }
    requires keys { HasKeys C.sector loaded keys }
    requires zone { (map : map_type) × IsOpenZone loaded map site }
    requires moved { IsMoved loaded moved }
    requires begun { stage_in moved.commit.copies ≡ Begun }
    ensures mends { IfOk result (IsMending C.sector) }
    ensures new { IfOk result (IsNew loaded keys) }
{
    loaded.is_stored();
    loaded.valid().is_sound();
    match zeros(alloc, site.bytes(0)) {
        Ok(bytes) => match digest_room(alloc, &site) {
            Ok(digests) => Ok(Mender {
                keys,
                loaded,
                moved,
                site,
                buffer: Buffer::new(bytes),
                digests,
                next: MendCall::ReadSaved { done: 0 },
            }),
            Err(AllocError) => Err(AllocError),
        },
        Err(AllocError) => Err(AllocError),
    }
}

/// A zone that is written again behind its header.
fn new_mender<C: SectorCipher + Copy>(
    alloc: Global,
    loaded: Loaded,
    keys: Keys<C>,
) -> Result<Mender<C>, MendFault>
    requires disk { IsDisk loaded.valid.sizes.atom (all_atoms loaded.valid.sizes) }
    requires zone { HasZone loaded }
    requires maps { MapsFit loaded }
    requires keys { HasKeys C.sector loaded keys }
    ensures mends { IfOk result (IsMending C.sector) }
    ensures new { IfOk result (IsNew loaded keys) }
    ensures unmade { IfErr result (IsNotMade loaded) }
{
    let site = find_zone(&loaded);
    match move_header(alloc, &loaded, &site) {
        Ok(moved) => match make_mender(alloc, loaded, keys, site, moved) {
            Ok(mender) => Ok(mender),
            Err(AllocError) => Err(MendFault::Memory),
        },
        Err(fault) => Err(fault),
    }
}

/// The header behind a zone that was written again.
fn take_moved<C: SectorCipher + Copy>(mender: Mender<C>) -> Loaded
    requires mends { IsMending C.sector mender }
    ensures is { result ≡ mender.moved.loaded }
    ensures disk { IsDisk result.valid.sizes.atom (all_atoms result.valid.sizes) }
    ensures may { MayGoOn result }
    ensures maps { MapsFit result }
    ensures keys { HasKeys C.sector result mender.keys }
{
    let Mender {
        keys: _,
        loaded: _,
        moved,
        site: _,
        buffer: _,
        digests: _,
        next: _,
    } = mender;
    let NextHeader { commit: _, loaded } = moved;
    loaded
}

impl<C: SectorCipher + Copy + Sync> Mending<C> {
    /// The zone that is open by a header, guarded by a journal or by checksum, under the keys of the
    /// volume's sides. The header to come is made, and the buffer of a part is taken, by checksum also
    /// that of its digests. The condition of the
    /// first step is that both copies on the disk are this header, and that no atom is in doubt.
    ///
    /// # Errors
    ///
    /// The header that comes behind it can't be made: it has no number, or its text no room; or
    /// memory was wanted. Header and keys are gone then.
    pub fn new(alloc: Global, loaded: Loaded, keys: Keys<C>) -> Result<Mending<C>, MendFault>
        requires disk { IsDisk loaded.valid.sizes.atom (all_atoms loaded.valid.sizes) }
        requires zone { HasZone loaded }
        requires maps { MapsFit loaded }
        requires keys { HasKeys C.sector loaded keys }
        ensures new { IfOk result (IsNew loaded keys) }
        ensures unmade { IfErr result (IsNotMade loaded) }
    {
        match new_mender(alloc, loaded, keys) {
            Ok(mender) => Ok(Mending { mender }),
            Err(fault) => Err(fault),
        }
    }

    /// What holds between its steps: a law, with nothing to run.
    pub fn is_mending(&self)
        ensures { IsMending C.sector self.now }
    {
        let _mender = &self.mender;
    }

    /// Whether a step may follow: none does behind the last one, and behind one that failed.
    pub fn is_over(&self) -> bool
        ensures over { IsTrue result ↔ (IsUnderWay self.now.next → ⊥) }
        ensures goes { (result ≡ false) → IsUnderWay self.now.next }
    {
        match self.mender.next {
            MendCall::Done | MendCall::Failed => true,
            MendCall::ReadSaved { .. }
            | MendCall::ReadOwn { .. }
            | MendCall::Write { .. }
            | MendCall::Settle
            | MendCall::Move => false,
        }
    }

    /// The next step: the one device call that the state names. Part by part what was saved is read,
    /// by checksum also the part as it stands, and what is old of it is written anew to the zone; a
    /// sync follows, and four calls commit the header with the
    /// boundary moved over the zone. It answers true at the last one; behind one that failed none
    /// may follow.
    pub fn step<R: Threads + Sync, D: Disk>(&mut self, rt: &R, disk: &mut D) -> Result<bool, Failed>
        requires goes { IsUnderWay self.old.next }
        requires sizes { HasSizes self.old.loaded.valid.sizes (D.device disk.old) }
        ensures steps { Steps (seals_of C.sealed C.opened self.old.site.atom self.old.keys)
            (D.device disk.old) (D.device disk.new) self.old self.new result }
        ensures sizes { HasSizes self.new.loaded.valid.sizes (D.device disk.new) }
        ensures left { IfOk result (λ last. LeavesNext last self.new.next) }
        ensures failed { IfErr result (λ _. self.new.next ≡ calls.Failed) }
    {
        self.mender.advance(rt, disk)
    }

    /// The header with the boundary moved over the zone, once both copies on the disk are it: the
    /// conversion may go on by it.
    pub fn into_loaded(self) -> Loaded
        requires done { self.next ≡ calls.Done }
        ensures is { result ≡ self.moved.loaded }
        ensures disk { IsDisk result.valid.sizes.atom (all_atoms result.valid.sizes) }
        ensures may { MayGoOn result }
        ensures maps { MapsFit result }
        ensures keys { HasKeys C.sector result self.keys }
    {
        let Mending { mender } = self;
        take_moved(mender)
    }
}

impl<C: SectorCipher + Copy + Sync> Mender<C> {
    ghost use Rattle.zone_mending.specs.Menders.{Asks};
    ghost use Rattle.zone_mending.specs.Steps.{HasStepped};

    /// The next step.
    fn advance<R: Threads + Sync, D: Disk>(&mut self, rt: &R, disk: &mut D) -> Result<bool, Failed>
        requires mends { IsMending C.sector self.old }
        requires goes { IsUnderWay self.old.next }
        requires sizes { HasSizes self.old.loaded.valid.sizes (D.device disk.old) }
        ensures { HasStepped C.sector (seals_of C.sealed C.opened self.old.site.atom self.old.keys)
            (D.device disk.old) (D.device disk.new) self.old self.new result }
    {
        let call = self.next;
        self.make(call, rt, disk)
    }

    /// Makes the call that comes next.
    fn make<R: Threads + Sync, D: Disk>(
        &mut self,
        call: MendCall,
        rt: &R,
        disk: &mut D,
    ) -> Result<bool, Failed>
        requires next { self.old.next ≡ call }
        requires asks { Asks C.sector self.old (D.device disk.old) call }
        ensures { Steps (seals_of C.sealed C.opened self.old.site.atom self.old.keys)
            (D.device disk.old) (D.device disk.new) self.old self.new result }
    {
        match call {
            MendCall::ReadSaved { done } => self.read_saved(done, disk),
            MendCall::ReadOwn { done } => self.read_own(done, disk),
            MendCall::Write { done } => self.write_again(rt, done, disk),
            MendCall::Settle => self.settle(disk),
            MendCall::Move => self.move_on(disk),
            MendCall::Done | MendCall::Failed => unreachable!(),
        }
    }
}
