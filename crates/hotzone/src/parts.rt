// The parts of a zone: the device calls that read, save and write them.

ghost use Rattle.std.specs.Prelude.{◌≡◌, ◌+◌, ◌*◌, ◌<◌, ◌≤◌, length, take, true};
ghost use Rattle.hotzone.specs.Laid.{AreLaid, IsSealed};
ghost use Rattle.hotzone.specs.Sites.{IsPartStart, bytes_at, count_of};
ghost use Rattle.hotzone.specs.Steps.{ReadsPart, SavesPart, WritesPart, part_in, resealed};
ghost use Rattle.hotzone.specs.Workers.{FitsDisk, HasRoom};
ghost use Rattle.hotzone.specs.declared.site.Guard.TheVariants as guards;
ghost use Rattle.sector_disk.specs.Geometry.{IsAtom};
ghost use Rattle.volume_machine.specs.Seals.{KeysFit, seals_of};

use crate::scratch::Scratch;
use crate::site::{Guard, Site};
use crate::worker::Worker;
use base_terms::{Buffer, Failed};
use bulk_seal::{seal_many, unseal_many};
use cipher_laws::SectorCipher;
use sector_disk::{Disk, read_into};
use segment_map::{Piece, Side};
use std::alloc::Global;
use std::mem;
use std::thread::Threads;
use volume_machine::Keys;

impl Site {
    /// How many bytes that part has.
    pub fn bytes(&self, done: u64) -> usize
        requires atom { IsAtom self.now.atom }
        requires within { done ≤ count_of self.now }
        ensures { result ≡ bytes_at self.now done }
    {
        self.part(done) as usize * self.atom as usize
    }
}

/// In how many parts threads work on so many bytes: in four from 1 MiB on, in two from 256 KiB on.
pub(crate) fn count_parts(len: usize) -> usize
    ensures some { 0 < result }
    ensures few { result ≤ 16 }
{
    if len >= 1_048_576 {
        4
    } else if len >= 262_144 {
        2
    } else {
        1
    }
}

/// Seals blocks of the old side anew for the new side, from one on, at the front of bytes. Threads
/// take a part of the work: the bytes of 1 MiB and more are cut in four, those of 256 KiB and more
/// in two.
pub fn reseal<R: Threads + Sync, C: SectorCipher + Sync>(
    rt: &R,
    keys: &Keys<C>,
    atom: u32,
    piece: Piece,
    bytes: &mut [u8],
    len: usize,
)
    requires known { IsAtom atom }
    requires fits { KeysFit C.sector keys.now atom (piece.first + piece.count) }
    requires size { len ≡ piece.count * atom }
    requires front { len ≤ length bytes.old }
    ensures front { take len bytes.new
        ≡ resealed (seals_of C.sealed C.opened atom keys.now) piece.first (take len bytes.old) }
    ensures length { length bytes.new ≡ length bytes.old }
{
    let Piece {
        first,
        count,
        side: _,
    } = piece;
    let old = Piece {
        first,
        count,
        side: Side::Old,
    };
    let new = Piece {
        first,
        count,
        side: Side::New,
    };
    let parts = count_parts(len);
    let was = keys.number(atom, old);
    let is = keys.number(atom, new);
    let size = atom as usize;
    unseal_many(rt, &keys.old, was, size, &mut bytes[..len], parts);
    seal_many(rt, &keys.new, is, size, &mut bytes[..len], parts);
}

/// Lays bytes at the front of others.
pub(crate) fn lay_first(bytes: &mut [u8], front: &[u8])
    requires { length front.now ≤ length bytes.old }
    ensures front { take (length front.now) bytes.new ≡ front.now }
    ensures length { length bytes.new ≡ length bytes.old }
{
    bytes[..front.len()].copy_from_slice(front);
}

impl<C: SectorCipher + Copy> Worker<C> {
    /// Reads the part behind `done` atoms of the zone into the buffer.
    pub(crate) fn read_part<D: Disk>(
        &mut self,
        alloc: Global,
        done: u64,
        disk: &mut D,
    ) -> Result<(), Failed>
        requires fits { FitsDisk C.sector self.old (D.device disk.old) }
        requires within { done ≤ count_of self.old.site }
        ensures call { ReadsPart self.old done self.new.buffer (D.device disk.old)
            (D.device disk.new) result }
        ensures rest { self.new ≡ record self.old { buffer = self.new.buffer } }
        ensures long { length self.new.buffer ≡ length self.old.buffer }
    {
        let len = self.site.bytes(done);
        let buffer = mem::replace(&mut self.buffer, Buffer::empty(alloc));
        match read_into(disk, self.site.own + done, buffer, len) {
            Ok(same) => {
                self.buffer = same;
                Ok(())
            }
            Err(same) => {
                self.buffer = same;
                Err(Failed)
            }
        }
    }

    /// Saves the part at hand, by what guards the zone.
    pub(crate) fn save_part<D: Disk>(
        &self,
        scratch: &Scratch,
        done: u64,
        disk: &mut D,
    ) -> Result<(), Failed>
        requires fits { FitsDisk C.sector self.now (D.device disk.old) }
        requires room { HasRoom self.now.site scratch.now }
        requires laid { AreLaid self.now done scratch.now }
        requires within { done ≤ count_of self.now.site }
        requires start { IsPartStart self.now.site done }
        ensures call { SavesPart self.now done (D.device disk.old) (D.device disk.new) result }
    {
        match self.site.guard {
            Guard::Journal => self.save_atoms(done, disk),
            Guard::Checksum => self.save_digests(&scratch.digests, done, disk),
        }
    }

    /// By journal it is saved as it is.
    fn save_atoms<D: Disk>(&self, done: u64, disk: &mut D) -> Result<(), Failed>
        requires guard { self.now.site.guard ≡ guards.Journal }
        requires fits { FitsDisk C.sector self.now (D.device disk.old) }
        requires within { done ≤ count_of self.now.site }
        ensures { SavesPart self.now done (D.device disk.old) (D.device disk.new) result }
    {
        let len = self.site.bytes(done);
        disk.write(self.site.store + done, self.buffer.front(len))
    }
}

impl<C: SectorCipher + Copy + Sync> Worker<C> {
    /// The part at hand is sealed anew in the buffer; where that is done already, it is taken from
    /// there.
    fn seal_part<R: Threads + Sync>(&mut self, rt: &R, scratch: &Scratch, done: u64, len: usize)
        requires known { IsAtom self.old.site.atom }
        requires keys { KeysFit C.sector self.old.keys self.old.site.atom
            (self.old.site.blocks.start + count_of self.old.site) }
        requires room { bytes_at self.old.site 0 ≤ length self.old.buffer }
        requires sealed { IsSealed
            (seals_of C.sealed C.opened self.old.site.atom self.old.keys) self.old scratch.now }
        requires within { done ≤ count_of self.old.site }
        requires size { len ≡ bytes_at self.old.site done }
        ensures sealed { take len self.new.buffer
            ≡ resealed (seals_of C.sealed C.opened self.old.site.atom self.old.keys)
            (self.old.site.blocks.start + done) (part_in self.old done) }
        ensures rest { self.new ≡ record self.old { buffer = self.new.buffer } }
        ensures long { length self.new.buffer ≡ length self.old.buffer }
    {
        if done == 0 && scratch.is_first {
            self.take_sealed(scratch, done, len)
        } else {
            self.seal_anew(rt, done, len)
        }
    }

    /// It is taken from where it is sealed.
    fn take_sealed(&mut self, scratch: &Scratch, done: u64, len: usize)
        requires room { bytes_at self.old.site 0 ≤ length self.old.buffer }
        requires sealed { IsSealed
            (seals_of C.sealed C.opened self.old.site.atom self.old.keys) self.old scratch.now }
        requires first { scratch.now.is_first ≡ true }
        requires none { done ≡ 0 }
        requires size { len ≡ bytes_at self.old.site done }
        ensures sealed { take len self.new.buffer
            ≡ resealed (seals_of C.sealed C.opened self.old.site.atom self.old.keys)
            (self.old.site.blocks.start + done) (part_in self.old done) }
        ensures rest { self.new ≡ record self.old { buffer = self.new.buffer } }
        ensures long { length self.new.buffer ≡ length self.old.buffer }
    {
        lay_first(self.buffer.as_mut_slice(), scratch.sealed.front(len));
    }

    /// It is sealed anew where it lies.
    fn seal_anew<R: Threads + Sync>(&mut self, rt: &R, done: u64, len: usize)
        requires known { IsAtom self.old.site.atom }
        requires keys { KeysFit C.sector self.old.keys self.old.site.atom
            (self.old.site.blocks.start + count_of self.old.site) }
        requires room { bytes_at self.old.site 0 ≤ length self.old.buffer }
        requires within { done ≤ count_of self.old.site }
        requires size { len ≡ bytes_at self.old.site done }
        ensures sealed { take len self.new.buffer
            ≡ resealed (seals_of C.sealed C.opened self.old.site.atom self.old.keys)
            (self.old.site.blocks.start + done) (part_in self.old done) }
        ensures rest { self.new ≡ record self.old { buffer = self.new.buffer } }
        ensures long { length self.new.buffer ≡ length self.old.buffer }
    {
        let site = self.site;
        let piece = Piece {
            first: site.blocks.start + done,
            count: site.part(done),
            side: Side::New,
        };
        reseal(
            rt,
            &self.keys,
            site.atom,
            piece,
            self.buffer.as_mut_slice(),
            len,
        );
    }

    /// Writes the part at hand anew.
    pub(crate) fn write_part<R: Threads + Sync, D: Disk>(
        &mut self,
        rt: &R,
        scratch: &Scratch,
        done: u64,
        disk: &mut D,
    ) -> Result<(), Failed>
        requires fits { FitsDisk C.sector self.old (D.device disk.old) }
        requires sealed { IsSealed
            (seals_of C.sealed C.opened self.old.site.atom self.old.keys) self.old scratch.now }
        requires within { done ≤ count_of self.old.site }
        ensures call { WritesPart
            (seals_of C.sealed C.opened self.old.site.atom self.old.keys) self.old done
            (D.device disk.old) (D.device disk.new) result }
        ensures sealed { part_in self.new done
            ≡ resealed (seals_of C.sealed C.opened self.old.site.atom self.old.keys)
            (self.old.site.blocks.start + done) (part_in self.old done) }
        ensures rest { self.new ≡ record self.old { buffer = self.new.buffer } }
        ensures long { length self.new.buffer ≡ length self.old.buffer }
    {
        let site = self.site;
        let len = site.bytes(done);
        self.seal_part(rt, scratch, done, len);
        disk.write(site.own + done, self.buffer.front(len))
    }
}
