// The part of a zone of one part that a journal guards: from 256 KiB on it is sealed anew slice by
// slice, each beside a sync, so that its write finds it sealed.

ghost use Rattle.std.specs.Prelude.{◌≡◌, ◌≢◌, ◌+◌, ◌*◌, ◌/◌, ◌%◌, ◌<◌, ◌≤◌, ◌^◌, length, take};
ghost use Rattle.std.specs.Prelude.{drop, true, IsTrue};
ghost use Rattle.hotzone.specs.Ciphers.{HaveLaws};
ghost use Rattle.hotzone.specs.Commits.{StepsCommit};
ghost use Rattle.hotzone.specs.Laid.{HasBegun, IsBegun, IsSealed};
ghost use Rattle.hotzone.specs.Sites.{bytes_at, count_of, part_at};
ghost use Rattle.hotzone.specs.Steps.{part_in, resealed};
ghost use Rattle.hotzone.specs.Workers.{FitsDisk, IsAsLong, MayCommit};
ghost use Rattle.sector_disk.specs.Devices.{SyncCall};
ghost use Rattle.sector_disk.specs.Geometry.{IsAtom};
ghost use Rattle.volume_machine.specs.Seals.{KeysFit, seals_of};
ghost use borrow.Rule.Slice.PartMut.{put_mid};
ghost use denote.Param.Send.{IsSync};

use crate::parts::{count_parts, lay_first};
use crate::scratch::Scratch;
use crate::site::{Guard, Site};
use crate::worker::Worker;
use base_terms::{Buffer, Failed, bytes_are_below_256};
use bulk_seal::{seal_many, unseal_many};
use cipher_laws::SectorCipher;
use luks_store::{Commit, Stage};
use sector_disk::Disk;
use segment_map::{Piece, Side};
use std::thread::{Threads, join_mut};
use volume_machine::Keys;

/// Of how many bytes a part must be that is sealed in slices. A shorter one is sealed at once, in the
/// time that the threads would take to start.
const LEAST_BYTES: usize = 262_144;

/// Whether the parts of a zone like this one are sealed in slices: a journal guards it, it has one
/// part, and that is long enough.
pub(crate) fn is_sliced(site: &Site) -> bool
    requires atom { IsAtom site.now.atom }
{
    site.guard == Guard::Journal
        && site.part(0) == site.blocks.len()
        && site.bytes(0) >= LEAST_BYTES
}

/// Atoms that one key opens are sealed with another, where they lie.
fn change_key<R: Threads + Sync, C: SectorCipher + Sync>(
    rt: &R,
    old: &C,
    was: u64,
    new: &C,
    is: u64,
    atom: usize,
    bytes: &mut [u8],
    parts: usize,
)
    requires some { 0 < atom }
    requires old_sectors { atom % C.sector old.now ≡ 0 }
    requires new_sectors { atom % C.sector new.now ≡ 0 }
    requires whole { length bytes.old % atom ≡ 0 }
    requires old_range { was + length bytes.old / 512 < 2 ^ 64 }
    requires new_range { is + length bytes.old / 512 < 2 ^ 64 }
    requires parts { (0 < parts) × (parts ≤ 16) }
    ensures { bytes.new ≡ C.sealed new.now is (C.opened old.now was bytes.old) }
{
    unseal_many(rt, old, was, atom, bytes, parts);
    seal_many(rt, new, is, atom, bytes, parts);
}

// What the ciphers of both keys make of sectors: facts for the proof of slices.
fn tell_laws<C: SectorCipher>(keys: &Keys<C>)
    ensures { HaveLaws C.sector C.sealed C.opened keys.now }
{}

/// Blocks of the old side are sealed anew in another thread, where one can be started, while a call
/// is made in this one.
fn reseal_beside<R: Threads + Sync, C: SectorCipher + Sync, B, W: FnMut() -> B>(
    rt: &R,
    keys: &Keys<C>,
    atom: u32,
    piece: Piece,
    bytes: &mut [u8],
    call: &mut W,
) -> B
    requires known { IsAtom atom }
    requires fits { KeysFit C.sector keys.now atom (piece.first + piece.count) }
    requires size { length bytes.old ≡ piece.count * atom }
    requires call { W.pre call.old }
    ensures sealed { bytes.new
        ≡ resealed (seals_of C.sealed C.opened atom keys.now) piece.first bytes.old }
    ensures length { length bytes.new ≡ length bytes.old }
    ensures call { W.step call.old result call.new }
{
    let Piece {
        first,
        count,
        side: _,
    } = piece;
    let before = Piece {
        first,
        count,
        side: Side::Old,
    };
    let after = Piece {
        first,
        count,
        side: Side::New,
    };
    let was = keys.number(atom, before);
    let is = keys.number(atom, after);
    let size = atom as usize;
    let parts = count_parts(bytes.len());
    let old = &keys.old;
    let new = &keys.new;
    let mut seal = ||
        requires { IsSync R.row × IsSync C.row × (0 < size) × (size % C.sector old.now ≡ 0)
            × (size % C.sector new.now ≡ 0) × (length bytes.now % size ≡ 0)
            × (was + length bytes.now / 512 < 2 ^ 64) × (is + length bytes.now / 512 < 2 ^ 64)
            × (0 < parts) × (parts ≤ 16) }
        ensures { bytes.exit.now
            ≡ C.sealed new.entry.now is (C.opened old.entry.now was bytes.entry.now) }
    { change_key(rt, old, was, new, is, size, bytes, parts) };
    let ((), told) = join_mut(rt, &mut seal, call);
    told
}

/// So a run of them among other bytes, from one on.
fn reseal_among<R: Threads + Sync, C: SectorCipher + Sync, B, W: FnMut() -> B>(
    rt: &R,
    keys: &Keys<C>,
    atom: u32,
    piece: Piece,
    bytes: &mut [u8],
    from: usize,
    call: &mut W,
) -> B
    requires known { IsAtom atom }
    requires fits { KeysFit C.sector keys.now atom (piece.first + piece.count) }
    requires room { from + piece.count * atom ≤ length bytes.old }
    requires call { W.pre call.old }
    ensures sealed { bytes.new ≡ put_mid from (piece.count * atom) bytes.old
        (resealed (seals_of C.sealed C.opened atom keys.now) piece.first
        (take (piece.count * atom) (drop from bytes.old))) }
    ensures length { length bytes.new ≡ length bytes.old }
    ensures call { W.step call.old result call.new }
{
    let len = piece.count as usize * atom as usize;
    reseal_beside(rt, keys, atom, piece, &mut bytes[from..from + len], call)
}

/// So in a buffer.
fn reseal_slice<R: Threads + Sync, C: SectorCipher + Sync, B, W: FnMut() -> B>(
    rt: &R,
    keys: &Keys<C>,
    atom: u32,
    piece: Piece,
    buffer: &mut Buffer,
    from: usize,
    call: &mut W,
) -> B
    requires known { IsAtom atom }
    requires fits { KeysFit C.sector keys.now atom (piece.first + piece.count) }
    requires room { from + piece.count * atom ≤ length buffer.old }
    requires call { W.pre call.old }
    ensures sealed { buffer.new ≡ put_mid from (piece.count * atom) buffer.old
        (resealed (seals_of C.sealed C.opened atom keys.now) piece.first
        (take (piece.count * atom) (drop from buffer.old))) }
    ensures length { length buffer.new ≡ length buffer.old }
    ensures call { W.step call.old result call.new }
{
    reseal_among(rt, keys, atom, piece, buffer.as_mut_slice(), from, call)
}

/// Lays bytes at the front of a buffer.
fn lay_at_front(buffer: &mut Buffer, front: &[u8])
    requires { length front.now ≤ length buffer.old }
    ensures front { take (length front.now) buffer.new ≡ front.now }
    ensures length { length buffer.new ≡ length buffer.old }
{
    lay_first(buffer.as_mut_slice(), front);
}

/// Whether the next call of a commit that is so far is a sync.
fn is_sync(stage: Stage) -> bool {
    match stage {
        Stage::FirstWritten | Stage::SecondWritten => true,
        _ => false,
    }
}

impl<C: SectorCipher + Copy + Sync> Worker<C> {
    /// Whether the part at hand is to be laid: it is sealed in slices, and there is room.
    fn may_lay(&self, scratch: &Scratch, len: usize) -> bool
        requires known { IsAtom self.now.site.atom }
        ensures { IsTrue result → len ≤ length scratch.now.sealed }
    {
        is_sliced(&self.site) && len <= scratch.sealed.len()
    }

    /// The part at hand is laid where it is sealed anew, if it is to be.
    pub(crate) fn lay_part(&self, scratch: &mut Scratch)
        requires known { IsAtom self.now.site.atom }
        requires keys { KeysFit C.sector self.now.keys self.now.site.atom
            (self.now.site.blocks.start + count_of self.now.site) }
        requires part { bytes_at self.now.site 0 ≤ length self.now.buffer }
        requires sealed { IsSealed (seals_of C.sealed C.opened self.now.site.atom self.now.keys)
            self.now scratch.old }
        ensures sealed { IsSealed (seals_of C.sealed C.opened self.now.site.atom self.now.keys)
            self.now scratch.new }
        ensures begun { IsBegun (seals_of C.sealed C.opened self.now.site.atom self.now.keys)
            self.now scratch.new }
        ensures digests { scratch.new.digests ≡ scratch.old.digests }
        ensures scratch { IsAsLong scratch.old scratch.new }
    {
        let len = self.site.bytes(0);
        if !self.may_lay(scratch, len) {
            scratch.begun = false;
            return;
        }
        self.lay(scratch, len);
    }

    /// So where there is room.
    fn lay(&self, scratch: &mut Scratch, len: usize)
        requires known { IsAtom self.now.site.atom }
        requires keys { KeysFit C.sector self.now.keys self.now.site.atom
            (self.now.site.blocks.start + count_of self.now.site) }
        requires part { bytes_at self.now.site 0 ≤ length self.now.buffer }
        requires room { len ≤ length scratch.old.sealed }
        requires size { len ≡ bytes_at self.now.site 0 }
        ensures sealed { IsSealed (seals_of C.sealed C.opened self.now.site.atom self.now.keys)
            self.now scratch.new }
        ensures begun { IsBegun (seals_of C.sealed C.opened self.now.site.atom self.now.keys)
            self.now scratch.new }
        ensures digests { scratch.new.digests ≡ scratch.old.digests }
        ensures scratch { IsAsLong scratch.old scratch.new }
    {
        tell_laws(&self.keys);
        lay_at_front(&mut scratch.sealed, self.buffer.front(len));
        scratch.is_first = false;
        scratch.ready = 0;
        scratch.begun = true;
    }

    /// A sync, beside which a slice of the part that is laid is sealed anew.
    pub(crate) fn sync_beside<R: Threads + Sync, D: Disk>(
        &self,
        rt: &R,
        scratch: &mut Scratch,
        disk: &mut D,
    ) -> Result<(), Failed>
        requires fits { FitsDisk C.sector self.now (D.device disk.old) }
        requires sealed { IsSealed (seals_of C.sealed C.opened self.now.site.atom self.now.keys)
            self.now scratch.old }
        requires begun { IsBegun (seals_of C.sealed C.opened self.now.site.atom self.now.keys)
            self.now scratch.old }
        ensures call { SyncCall (D.device disk.old) (D.device disk.new) result }
        ensures sealed { IsSealed (seals_of C.sealed C.opened self.now.site.atom self.now.keys)
            self.now scratch.new }
        ensures begun { IsBegun (seals_of C.sealed C.opened self.now.site.atom self.now.keys)
            self.now scratch.new }
        ensures scratch { IsAsLong scratch.old scratch.new }
    {
        let mut sync = || -> Result<(), Failed>
            ensures { SyncCall (D.device disk.entry.now) (D.device disk.exit.now) result }
        { disk.sync() };
        self.beside(rt, scratch, true, &mut sync)
    }

    /// The next call of a commit; a sync is one beside which a slice of the part that is laid is
    /// sealed anew.
    pub(crate) fn step_beside<R: Threads + Sync, D: Disk>(
        &self,
        rt: &R,
        scratch: &mut Scratch,
        commit: &mut Commit,
        disk: &mut D,
    ) -> Result<bool, Failed>
        requires may { MayCommit commit.old (D.device disk.old) }
        requires fits { FitsDisk C.sector self.now (D.device disk.old) }
        requires sealed { IsSealed (seals_of C.sealed C.opened self.now.site.atom self.now.keys)
            self.now scratch.old }
        requires begun { IsBegun (seals_of C.sealed C.opened self.now.site.atom self.now.keys)
            self.now scratch.old }
        ensures commit { StepsCommit commit.old commit.new (D.device disk.old)
            (D.device disk.new) result }
        ensures sealed { IsSealed (seals_of C.sealed C.opened self.now.site.atom self.now.keys)
            self.now scratch.new }
        ensures begun { IsBegun (seals_of C.sealed C.opened self.now.site.atom self.now.keys)
            self.now scratch.new }
        ensures scratch { IsAsLong scratch.old scratch.new }
    {
        let seals = is_sync(commit.stage());
        let mut step = || -> Result<bool, Failed>
            requires { MayCommit commit.now (D.device disk.now) }
            ensures { StepsCommit commit.entry.now commit.exit.now (D.device disk.entry.now)
                (D.device disk.exit.now) result }
        { commit.step(disk) };
        self.beside(rt, scratch, seals, &mut step)
    }

    /// Makes a call; beside it, where it is told to, a slice of the part that is laid is sealed anew.
    fn beside<R: Threads + Sync, B, W: FnMut() -> B>(
        &self,
        rt: &R,
        scratch: &mut Scratch,
        seals: bool,
        call: &mut W,
    ) -> B
        requires known { IsAtom self.now.site.atom }
        requires keys { KeysFit C.sector self.now.keys self.now.site.atom
            (self.now.site.blocks.start + count_of self.now.site) }
        requires part { bytes_at self.now.site 0 ≤ length self.now.buffer }
        requires sealed { IsSealed (seals_of C.sealed C.opened self.now.site.atom self.now.keys)
            self.now scratch.old }
        requires begun { IsBegun (seals_of C.sealed C.opened self.now.site.atom self.now.keys)
            self.now scratch.old }
        requires call { W.pre call.old }
        ensures call { W.step call.old result call.new }
        ensures sealed { IsSealed (seals_of C.sealed C.opened self.now.site.atom self.now.keys)
            self.now scratch.new }
        ensures begun { IsBegun (seals_of C.sealed C.opened self.now.site.atom self.now.keys)
            self.now scratch.new }
        ensures scratch { IsAsLong scratch.old scratch.new }
    {
        if seals && scratch.begun {
            self.seal_slice(rt, scratch, call)
        } else {
            call()
        }
    }

    /// Makes a call, and seals a third of the part that is laid anew, or what is left of it.
    fn seal_slice<R: Threads + Sync, B, W: FnMut() -> B>(
        &self,
        rt: &R,
        scratch: &mut Scratch,
        call: &mut W,
    ) -> B
        requires known { IsAtom self.now.site.atom }
        requires keys { KeysFit C.sector self.now.keys self.now.site.atom
            (self.now.site.blocks.start + count_of self.now.site) }
        requires part { bytes_at self.now.site 0 ≤ length self.now.buffer }
        requires begun { HasBegun (seals_of C.sealed C.opened self.now.site.atom self.now.keys)
            self.now.site (part_in self.now 0) scratch.old.ready scratch.old.sealed }
        requires call { W.pre call.old }
        ensures call { W.step call.old result call.new }
        ensures sealed { IsSealed (seals_of C.sealed C.opened self.now.site.atom self.now.keys)
            self.now scratch.new }
        ensures begun { IsBegun (seals_of C.sealed C.opened self.now.site.atom self.now.keys)
            self.now scratch.new }
        ensures scratch { IsAsLong scratch.old scratch.new }
    {
        tell_laws(&self.keys);
        bytes_are_below_256(self.buffer.front(self.buffer.len()));
        let site = self.site;
        let all = site.part(0);
        let ready = scratch.ready;
        let count = (all / 3 + 1).min(all - ready);
        let piece = Piece {
            first: site.blocks.start + ready,
            count,
            side: Side::New,
        };
        let from = ready as usize * site.atom as usize;
        let told = reseal_slice(
            rt,
            &self.keys,
            site.atom,
            piece,
            &mut scratch.sealed,
            from,
            call,
        );
        scratch.ready = ready + count;
        scratch.begun = ready + count < all;
        scratch.is_first = ready + count == all;
        told
    }
}
