// The keys of a volume.

ghost use Rattle.std.specs.Prelude.{◌≡◌, ◌+◌, ◌*◌, ◌^◌, ◌<◌, ◌≤◌, length};
ghost use Rattle.sector_disk.specs.Geometry.{IsAtom};

use crate::Sealers;
use cipher_laws::SectorCipher;
use segment_map::{Piece, Side};
use std::thread::Threads;

/// The keys of a volume: each side's cipher, and the IV number of the first 512 bytes of its
/// segment. An open zone is the old segment's.
#[derive(Clone, Copy)]
pub struct Keys<C> {
    pub old: C,
    pub old_tweak: u64,
    pub new: C,
    pub new_tweak: u64,
}

impl<C: SectorCipher> Keys<C> {
    ghost use Rattle.volume_machine.specs.Seals.{KeysFit, key_of, tweak_of, number_of};

    /// The key of a side.
    pub fn key(&self, side: Side) -> &C
        ensures { result.now ≡ key_of self.now side }
    {
        match side {
            Side::Old | Side::Zone => &self.old,
            Side::New => &self.new,
        }
    }

    /// The IV number of the first 512 bytes of a piece of blocks of `atom` bytes.
    pub fn number(&self, atom: u32, piece: Piece) -> u64
        requires known { IsAtom atom }
        requires fits { KeysFit C.sector self.now atom (piece.first + piece.count) }
        ensures { result ≡ number_of self.now atom piece.side piece.first }
    {
        let tweak = match piece.side {
            Side::Old | Side::Zone => self.old_tweak,
            Side::New => self.new_tweak,
        };
        tweak + piece.first * u64::from(atom / 512)
    }
}

impl<C: SectorCipher + Sync> Keys<C> {
    ghost use Rattle.volume_machine.specs.Seals.{KeysFit, seals_of};

    /// Opens the bytes of a piece where they lie, as a volume with these keys and blocks of `atom`
    /// bytes has sealed them. Threads take a part of a piece of 256 KiB and more.
    pub fn unseal<R: Threads + Sync>(
        &self,
        rt: &R,
        sealers: &Sealers,
        atom: u32,
        piece: Piece,
        bytes: &mut [u8],
    )
        requires known { IsAtom atom }
        requires fits { KeysFit C.sector self.now atom (piece.first + piece.count) }
        requires size { length bytes.old ≡ piece.count * atom }
        ensures { bytes.new
            ≡ (seals_of C.sealed C.opened atom self.now).opened piece.side piece.first bytes.old }
    {
        let number = self.number(atom, piece);
        sealers.unseal(rt, self.key(piece.side), number, atom as usize, bytes);
    }

    /// Seals the bytes of a piece where they lie. Threads take a part of a piece of 256 KiB and
    /// more.
    pub fn seal<R: Threads + Sync>(
        &self,
        rt: &R,
        sealers: &Sealers,
        atom: u32,
        piece: Piece,
        bytes: &mut [u8],
    )
        requires known { IsAtom atom }
        requires fits { KeysFit C.sector self.now atom (piece.first + piece.count) }
        requires size { length bytes.old ≡ piece.count * atom }
        ensures { bytes.new
            ≡ (seals_of C.sealed C.opened atom self.now).sealed piece.side piece.first bytes.old }
    {
        let number = self.number(atom, piece);
        sealers.seal(rt, self.key(piece.side), number, atom as usize, bytes);
    }
}
