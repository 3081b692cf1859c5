// Parts of a zone that is guarded by checksum: their digests are compared, and saved.

ghost use Rattle.std.specs.Prelude.{◌≡◌, ◌+◌, ◌*◌, ◌/◌, ◌%◌, ◌<◌, ◌≤◌, length, take, false, MatchOption};
ghost use Rattle.hotzone.specs.Sites.{IsPartStart, bytes_at, count_of, part_at};
ghost use Rattle.hotzone.specs.Laid.{AreLaid, IsBegun, IsSealed};
ghost use Rattle.hotzone.specs.Steps.{Clashes, SavesPart, TellsPart, part_in, resealed};
ghost use Rattle.hotzone.specs.Workers.{FitsDisk, HasRoom, IsAsLong};
ghost use Rattle.hotzone.specs.declared.site.Guard.TheVariants as guards;
ghost use Rattle.resil_checksum.specs.Digests.{AreSaved, saved_len};
ghost use Rattle.sector_disk.specs.Geometry.{IsAtom};
ghost use Rattle.sector_disk.specs.DiskViews.Parts.{block_at};
ghost use Rattle.volume_machine.specs.Seals.{KeysFit, seals_of};

use crate::parts::{count_parts, reseal};
use crate::scratch::Scratch;
use crate::site::{Guard, Site};
use crate::worker::{Worker, ZoneFault};
use base_terms::{Buffer, Failed};
use cipher_laws::SectorCipher;
use resil_checksum::{clash_by, save, saved_len};
use sector_disk::Disk;
use segment_map::{Piece, Side};
use std::thread::Threads;
use volume_machine::Keys;

impl Site {
    /// How many bytes are saved of that part by checksum.
    pub fn digest_bytes(&self, done: u64) -> usize
        requires atom { IsAtom self.now.atom }
        requires within { done ≤ count_of self.now }
        ensures { result ≡ saved_len (part_at self.now done) self.now.atom }
    {
        saved_len(self.part(done), self.atom) as usize
    }
}

/// Blocks of the old side sealed anew, at the front of bytes.
fn reseal_front<R: Threads + Sync, C: SectorCipher + Sync>(
    rt: &R,
    keys: &Keys<C>,
    atom: u32,
    piece: Piece,
    old: &[u8],
    bytes: &mut [u8],
)
    requires known { IsAtom atom }
    requires fits { KeysFit C.sector keys.now atom (piece.first + piece.count) }
    requires size { length old.now ≡ piece.count * atom }
    requires room { length old.now ≤ length bytes.old }
    ensures front { take (length old.now) bytes.new
        ≡ resealed (seals_of C.sealed C.opened atom keys.now) piece.first old.now }
    ensures length { length bytes.new ≡ length bytes.old }
{
    let len = old.len();
    bytes[..len].copy_from_slice(old);
    reseal(rt, keys, atom, piece, bytes, len);
}

/// So at the front of a buffer.
fn reseal_into<R: Threads + Sync, C: SectorCipher + Sync>(
    rt: &R,
    keys: &Keys<C>,
    atom: u32,
    piece: Piece,
    old: &[u8],
    buffer: &mut Buffer,
)
    requires known { IsAtom atom }
    requires fits { KeysFit C.sector keys.now atom (piece.first + piece.count) }
    requires size { length old.now ≡ piece.count * atom }
    requires room { length old.now ≤ length buffer.old }
    ensures front { take (length old.now) buffer.new
        ≡ resealed (seals_of C.sealed C.opened atom keys.now) piece.first old.now }
    ensures length { length buffer.new ≡ length buffer.old }
{
    reseal_front(rt, keys, atom, piece, old, buffer.as_mut_slice());
}

/// One of these digests.
fn digest_at(digests: &[u8], block: u64) -> [u8; 32]
    requires { block * 32 + 32 ≤ length digests.now }
    ensures { result ≡ block_at 32 digests.now block }
{
    let at = block as usize * 32;
    let mut digest = [0; 32];
    digest.copy_from_slice(&digests[at..at + 32]);
    digest
}

impl<C: SectorCipher + Copy + Sync> Worker<C> {
    /// The first block of the part at hand of which old atom and new one have the same digest, where
    /// digests are saved. They are laid then, as they are saved.
    pub(crate) fn find_clash<R: Threads + Sync>(
        &self,
        rt: &R,
        scratch: &mut Scratch,
        done: u64,
    ) -> Option<ZoneFault>
        requires known { IsAtom self.now.site.atom }
        requires keys { KeysFit C.sector self.now.keys self.now.site.atom
            (self.now.site.blocks.start + count_of self.now.site) }
        requires part { bytes_at self.now.site 0 ≤ length self.now.buffer }
        requires room { HasRoom self.now.site scratch.old }
        requires sealed { IsSealed (seals_of C.sealed C.opened self.now.site.atom self.now.keys) self.now
            scratch.old }
        requires begun { IsBegun (seals_of C.sealed C.opened self.now.site.atom self.now.keys) self.now
            scratch.old }
        requires within { done ≤ count_of self.now.site }
        ensures finds { MatchOption result
            (TellsPart (seals_of C.sealed C.opened self.now.site.atom self.now.keys) self.now done)
            (Clashes (seals_of C.sealed C.opened self.now.site.atom self.now.keys) self.now done) }
        ensures laid { AreLaid self.now done scratch.new }
        ensures sealed { IsSealed (seals_of C.sealed C.opened self.now.site.atom self.now.keys) self.now
            scratch.new }
        ensures begun { IsBegun (seals_of C.sealed C.opened self.now.site.atom self.now.keys) self.now
            scratch.new }
        ensures scratch { IsAsLong scratch.old scratch.new }
    {
        match self.site.guard {
            Guard::Journal => None,
            Guard::Checksum => self.compare(rt, scratch, done),
        }
    }

    /// So by digests.
    fn compare<R: Threads + Sync>(
        &self,
        rt: &R,
        scratch: &mut Scratch,
        done: u64,
    ) -> Option<ZoneFault>
        requires guard { self.now.site.guard ≡ guards.Checksum }
        requires known { IsAtom self.now.site.atom }
        requires keys { KeysFit C.sector self.now.keys self.now.site.atom
            (self.now.site.blocks.start + count_of self.now.site) }
        requires part { bytes_at self.now.site 0 ≤ length self.now.buffer }
        requires room { bytes_at self.now.site 0 ≤ length scratch.old.sealed }
        requires digests { saved_len (part_at self.now.site 0) self.now.site.atom
            ≤ length scratch.old.digests }
        requires within { done ≤ count_of self.now.site }
        ensures finds { MatchOption result
            (TellsPart (seals_of C.sealed C.opened self.now.site.atom self.now.keys) self.now done)
            (Clashes (seals_of C.sealed C.opened self.now.site.atom self.now.keys) self.now done) }
        ensures laid { AreSaved self.now.site.atom (part_at self.now.site done)
            (part_in self.now done)
            (take (saved_len (part_at self.now.site done) self.now.site.atom) scratch.new.digests) }
        ensures sealed { IsSealed (seals_of C.sealed C.opened self.now.site.atom self.now.keys) self.now
            scratch.new }
        ensures begun { scratch.new.begun ≡ false }
        ensures scratch { IsAsLong scratch.old scratch.new }
    {
        let site = self.site;
        let size = site.bytes(done);
        let old = self.buffer.front(size);
        let len = site.digest_bytes(done);
        lay_digests(rt, old, site.atom, &mut scratch.digests, len);
        let piece = Piece {
            first: site.blocks.start + done,
            count: site.part(done),
            side: Side::New,
        };
        reseal_into(rt, &self.keys, site.atom, piece, old, &mut scratch.sealed);
        scratch.begun = false;
        scratch.is_first = done == 0;
        let new = scratch.sealed.front(size);
        let digests = scratch.digests.front(len);
        match clash_by(rt, digests, new, site.atom, count_parts(size)) {
            Some(k) => Some(ZoneFault::DigestClash {
                block: site.blocks.start + done + k,
                digest: digest_at(digests, k),
            }),
            None => None,
        }
    }
}

impl<C: SectorCipher + Copy> Worker<C> {
    /// Saves the digests of the part at hand, which are laid.
    pub(crate) fn save_digests<D: Disk>(
        &self,
        digests: &Buffer,
        done: u64,
        disk: &mut D,
    ) -> Result<(), Failed>
        requires guard { self.now.site.guard ≡ guards.Checksum }
        requires fits { FitsDisk C.sector self.now (D.device disk.old) }
        requires room { saved_len (part_at self.now.site 0) self.now.site.atom
            ≤ length digests.now }
        requires laid { AreSaved self.now.site.atom (part_at self.now.site done)
            (part_in self.now done)
            (take (saved_len (part_at self.now.site done) self.now.site.atom) digests.now) }
        requires within { done ≤ count_of self.now.site }
        requires start { IsPartStart self.now.site done }
        ensures call { SavesPart self.now done (D.device disk.old) (D.device disk.new) result }
    {
        let site = self.site;
        let len = site.digest_bytes(done);
        let at = site.store + site.saved_at(done);
        disk.write(at, digests.front(len))
    }
}

/// Lays the digests of old atoms at the front of bytes, in so many of them.
fn lay_front<R: Threads + Sync>(rt: &R, old: &[u8], atom: u32, bytes: &mut [u8], len: usize)
    requires some { 0 < atom }
    requires whole { length old.now % atom ≡ 0 }
    requires size { len ≡ saved_len (length old.now / atom) atom }
    requires room { len ≤ length bytes.old }
    ensures saved { AreSaved atom (length old.now / atom) old.now (take len bytes.new) }
    ensures length { length bytes.new ≡ length bytes.old }
{
    save(rt, old, atom, &mut bytes[..len], count_parts(old.len()));
}

/// So at the front of a buffer.
fn lay_digests<R: Threads + Sync>(rt: &R, old: &[u8], atom: u32, buffer: &mut Buffer, len: usize)
    requires some { 0 < atom }
    requires whole { length old.now % atom ≡ 0 }
    requires size { len ≡ saved_len (length old.now / atom) atom }
    requires room { len ≤ length buffer.old }
    ensures saved { AreSaved atom (length old.now / atom) old.now (take len buffer.new) }
    ensures length { length buffer.new ≡ length buffer.old }
{
    lay_front(rt, old, atom, buffer.as_mut_slice(), len);
}
