// Pieces that are ready to be written.

ghost use Rattle.std.specs.Prelude.{◌≡◌, ◌+◌, ◌*◌, ◌≤◌, length, take};
ghost use Rattle.cipher_laws.specs.Bytes.{AreBytes};
ghost use Rattle.sector_disk.specs.Geometry.{IsAtom};
ghost use Rattle.volume_machine.specs.Seals.{KeysFit, seals_of};

use crate::{Keys, Sealers};
use base_terms::{Buffer, bytes_are_below_256};
use cipher_laws::SectorCipher;
use segment_map::Piece;
use std::marker::Model;
use std::thread::Threads;

/// The bytes of a piece of a write, sealed, at the front of a buffer. Sealing needs no volume, so
/// that a lane may do it while others use the volume.
#[derive(Drop)]
pub struct Prepared {
    buffer: Buffer,
    len: usize,
}

impl Model for Prepared {
    ghost use Rattle.std.specs.Prelude.{◌≤◌, length, take};
    ghost use Rattle.volume_machine.specs.Fronts.{Front};

    ghost Value = { Front };

    ghost view = { λ p. record { bytes = take p.len p.buffer; room = length p.buffer } };

    ghost invariant = { λ p. p.len ≤ length p.buffer };
}

impl Prepared {
    /// Seals the bytes of a piece where they lie, at the front of a buffer, with the keys of its
    /// volume, whose blocks have `atom` bytes. It takes no memory. Threads take a part of a piece of
    /// 256 KiB and more.
    #[inline(always)]
    pub fn seal<R: Threads + Sync, C: SectorCipher + Sync>(
        rt: &R,
        sealers: &Sealers,
        keys: &Keys<C>,
        atom: u32,
        piece: Piece,
        buffer: Buffer,
        len: usize,
    ) -> Prepared
        requires known { IsAtom atom }
        requires fits { KeysFit C.sector keys.now atom (piece.first + piece.count) }
        requires size { len ≡ piece.count * atom }
        requires front { len ≤ length buffer }
        ensures bytes { result.bytes ≡ (seals_of C.sealed C.opened atom keys.now).sealed
            piece.side piece.first (take len buffer) }
        ensures length { length result.bytes ≡ len }
        ensures are_bytes { AreBytes result.bytes }
        ensures room { result.room ≡ length buffer }
    {
        let mut buffer = buffer;
        seal_front(rt, sealers, keys, atom, piece, buffer.as_mut_slice(), len);
        bytes_are_below_256(buffer.front(len));
        Prepared { buffer, len }
    }

    /// The sealed bytes.
    pub fn as_slice(&self) -> &[u8]
        ensures { result.now ≡ self.now.bytes }
    {
        self.buffer.front(self.len)
    }

    /// The whole buffer, with the sealed bytes at its front.
    pub fn into_buffer(self) -> Buffer
        ensures front { take (length self.bytes) result ≡ self.bytes }
        ensures room { length result ≡ self.room }
    {
        let Prepared { buffer, len: _ } = self;
        buffer
    }
}

/// Seals the bytes of a piece at the front of others.
#[inline(always)]
fn seal_front<R: Threads + Sync, C: SectorCipher + Sync>(
    rt: &R,
    sealers: &Sealers,
    keys: &Keys<C>,
    atom: u32,
    piece: Piece,
    bytes: &mut [u8],
    len: usize,
)
    requires known { IsAtom atom }
    requires fits { KeysFit C.sector keys.now atom (piece.first + piece.count) }
    requires size { len ≡ piece.count * atom }
    requires front { len ≤ length bytes.old }
    ensures front { take len bytes.new ≡ (seals_of C.sealed C.opened atom keys.now).sealed
        piece.side piece.first (take len bytes.old) }
    ensures length { length bytes.new ≡ length bytes.old }
{
    keys.seal(rt, sealers, atom, piece, &mut bytes[..len]);
}
