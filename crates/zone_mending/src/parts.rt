// The parts of a zone that is written again: the device calls that read and write them.

ghost use Rattle.std.specs.Prelude.{◌≡◌, ◌≢◌, ◌+◌, ◌*◌, ◌<◌, ◌≤◌, length, take};
ghost use Rattle.hotzone.specs.Sites.{IsPartStart, bytes_at, count_of};
ghost use Rattle.hotzone.specs.Steps.{resealed};
ghost use Rattle.hotzone.specs.declared.site.Guard.TheVariants as guards;
ghost use Rattle.sector_disk.specs.Devices.{ReadCall};
ghost use Rattle.sector_disk.specs.Geometry.{IsAtom, IsInDisk};
ghost use Rattle.sha2.specs.Sha256.{sha256};
ghost use Rattle.volume_machine.specs.Seals.{KeysFit, seals_of};
ghost use Rattle.zone_mending.specs.Menders.{FitsDisk, HasRoom};
ghost use Rattle.zone_mending.specs.Steps.{IsAnew, IsJudged, ReadsDigests, ReadsOwn, ReadsSaved};
ghost use Rattle.zone_mending.specs.Steps.{WritesAgain};

use crate::mender::Mender;
use base_terms::{Failed, Judged};
use cipher_laws::SectorCipher;
use hotzone::{Guard, reseal};
use resil_checksum::judge;
use sector_disk::Disk;
use segment_map::{Piece, Side};
use std::thread::Threads;
use volume_machine::Keys;

/// Reads whole atoms from atom `at` on to the front of bytes.
fn read_front<D: Disk>(disk: &mut D, at: u64, bytes: &mut [u8], len: usize) -> Result<(), Failed>
    requires front { len ≤ length bytes.old }
    requires inside { IsInDisk (D.device disk.old).size (D.device disk.old).atoms at len }
    ensures call { ReadCall (D.device disk.old).size at (take len bytes.new)
        (D.device disk.old) (D.device disk.new) result }
    ensures length { length bytes.new ≡ length bytes.old }
{
    disk.read(at, &mut bytes[..len])
}

impl<C: SectorCipher + Copy> Mender<C> {
    /// Reads the old atoms that were saved of the part behind `done` atoms of the zone into the buffer.
    pub(crate) fn read_part<D: Disk>(&mut self, done: u64, disk: &mut D) -> Result<(), Failed>
        requires guard { self.old.site.guard ≡ guards.Journal }
        requires fits { FitsDisk C.sector self.old (D.device disk.old) }
        requires within { done < count_of self.old.site }
        ensures call { ReadsSaved self.old.site done self.new.buffer (D.device disk.old)
            (D.device disk.new) result }
        ensures rest { self.new ≡ record self.old { buffer = self.new.buffer } }
        ensures long { length self.new.buffer ≡ length self.old.buffer }
    {
        let len = self.site.bytes(done);
        let at = self.site.store + done;
        read_front(disk, at, self.buffer.as_mut_slice(), len)
    }

    /// Reads the digests that were saved of it to where they are laid.
    pub(crate) fn lay_digests<D: Disk>(&mut self, done: u64, disk: &mut D) -> Result<(), Failed>
        requires guard { self.old.site.guard ≡ guards.Checksum }
        requires fits { FitsDisk C.sector self.old (D.device disk.old) }
        requires within { done < count_of self.old.site }
        requires start { IsPartStart self.old.site done }
        ensures call { ReadsDigests self.old.site done self.new.digests (D.device disk.old)
            (D.device disk.new) result }
        ensures rest { self.new ≡ record self.old { digests = self.new.digests } }
        ensures long { length self.new.digests ≡ length self.old.digests }
    {
        let len = self.site.digest_bytes(done);
        let at = self.site.store + self.site.saved_at(done);
        read_front(disk, at, self.digests.as_mut_slice(), len)
    }

    /// Reads the part as it stands in the zone into the buffer.
    pub(crate) fn find_part<D: Disk>(&mut self, done: u64, disk: &mut D) -> Result<(), Failed>
        requires fits { FitsDisk C.sector self.old (D.device disk.old) }
        requires within { done < count_of self.old.site }
        ensures call { ReadsOwn self.old.site done self.new.buffer (D.device disk.old)
            (D.device disk.new) result }
        ensures rest { self.new ≡ record self.old { buffer = self.new.buffer } }
        ensures long { length self.new.buffer ≡ length self.old.buffer }
    {
        let len = self.site.bytes(done);
        let at = self.site.own + done;
        read_front(disk, at, self.buffer.as_mut_slice(), len)
    }
}

/// Seals a block anew whose digest this is; any other is new, and stays.
fn renew_block<R: Threads + Sync, C: SectorCipher + Sync>(
    rt: &R,
    keys: &Keys<C>,
    atom: u32,
    first: u64,
    told: &[u8],
    block: &mut [u8],
)
    requires known { IsAtom atom }
    requires fits { KeysFit C.sector keys.now atom (first + 1) }
    requires size { length block.old ≡ atom }
    ensures old { sha256 block.old ≡ told.now → block.new
        ≡ resealed (seals_of C.sealed C.opened atom keys.now) first block.old }
    ensures new { sha256 block.old ≢ told.now → block.new ≡ block.old }
    ensures length { length block.new ≡ length block.old }
{
    match judge(block, told) {
        Judged::Old => {
            let piece = Piece {
                first,
                count: 1,
                side: Side::New,
            };
            let len = block.len();
            reseal(rt, keys, atom, piece, block, len);
        }
        Judged::New | Judged::FromSave => {}
    }
}

/// Seals anew those of a piece's blocks whose digests these are.
fn renew<R: Threads + Sync, C: SectorCipher + Sync>(
    rt: &R,
    keys: &Keys<C>,
    atom: u32,
    piece: Piece,
    digests: &[u8],
    bytes: &mut [u8],
)
    requires known { IsAtom atom }
    requires fits { KeysFit C.sector keys.now atom (piece.first + piece.count) }
    requires told { piece.count * 32 ≤ length digests.now }
    requires size { length bytes.old ≡ piece.count * atom }
    ensures judged { IsJudged (seals_of C.sealed C.opened atom keys.now) atom piece.first
        piece.count digests.now bytes.old bytes.new }
    ensures length { length bytes.new ≡ length bytes.old }
{
    let size = atom as usize;
    'renewed: for k in 0..piece.count {
        let at = k as usize * size;
        let told = k as usize * 32;
        let first = piece.first + k;
        let digest = &digests[told..told + 32];
        renew_block(rt, keys, atom, first, digest, &mut bytes[at..at + size]);
    }
}

/// So at the front of bytes.
fn renew_front<R: Threads + Sync, C: SectorCipher + Sync>(
    rt: &R,
    keys: &Keys<C>,
    atom: u32,
    piece: Piece,
    digests: &[u8],
    bytes: &mut [u8],
    len: usize,
)
    requires known { IsAtom atom }
    requires fits { KeysFit C.sector keys.now atom (piece.first + piece.count) }
    requires told { piece.count * 32 ≤ length digests.now }
    requires size { len ≡ piece.count * atom }
    requires front { len ≤ length bytes.old }
    ensures judged { IsJudged (seals_of C.sealed C.opened atom keys.now) atom piece.first
        piece.count digests.now (take len bytes.old) (take len bytes.new) }
    ensures length { length bytes.new ≡ length bytes.old }
{
    renew(rt, keys, atom, piece, digests, &mut bytes[..len]);
}

impl<C: SectorCipher + Copy + Sync> Mender<C> {
    /// Seals what is old of the part at hand anew.
    fn seal_part<R: Threads + Sync>(&mut self, rt: &R, done: u64)
        requires known { IsAtom self.old.site.atom }
        requires keys { KeysFit C.sector self.old.keys self.old.site.atom
            (self.old.site.blocks.start + count_of self.old.site) }
        requires within { done < count_of self.old.site }
        requires room { bytes_at self.old.site 0 ≤ length self.old.buffer }
        requires digest_room { HasRoom self.old.site self.old.digests }
        ensures anew { IsAnew (seals_of C.sealed C.opened self.old.site.atom self.old.keys)
            self.old.site done self.old.digests self.old.buffer
            (take (bytes_at self.old.site done) self.new.buffer) }
        ensures rest { self.new ≡ record self.old { buffer = self.new.buffer } }
        ensures long { length self.new.buffer ≡ length self.old.buffer }
    {
        let site = self.site;
        let len = site.bytes(done);
        let piece = Piece {
            first: site.blocks.start + done,
            count: site.part(done),
            side: Side::New,
        };
        let bytes = self.buffer.as_mut_slice();
        match site.guard {
            Guard::Journal => reseal(rt, &self.keys, site.atom, piece, bytes, len),
            Guard::Checksum => {
                let told = self.digests.front(site.digest_bytes(done));
                renew_front(rt, &self.keys, site.atom, piece, told, bytes, len);
            }
        }
    }

    /// Seals what is old of the part at hand anew and writes it where the zone has it.
    pub(crate) fn write_part<R: Threads + Sync, D: Disk>(
        &mut self,
        rt: &R,
        done: u64,
        disk: &mut D,
    ) -> Result<(), Failed>
        requires fits { FitsDisk C.sector self.old (D.device disk.old) }
        requires within { done < count_of self.old.site }
        ensures call { WritesAgain
            (seals_of C.sealed C.opened self.old.site.atom self.old.keys) self.old.site done
            self.old.digests self.old.buffer (D.device disk.old) (D.device disk.new) result }
        ensures rest { self.new ≡ record self.old { buffer = self.new.buffer } }
        ensures long { length self.new.buffer ≡ length self.old.buffer }
    {
        let len = self.site.bytes(done);
        self.seal_part(rt, done);
        disk.write(self.site.own + done, self.buffer.front(len))
    }
}
