// Bytes at the front of buffers.

ghost use Rattle.std.specs.Prelude.{◌≡◌, ◌+◌, ◌*◌, ◌<◌, ◌≤◌, ◌++◌, [], length, take, max, IfOk};
ghost use Rattle.std.specs.Prelude.{OnErr, true, false, replicate};
ghost use Rattle.sector_disk.specs.Geometry.{IsAtom};
ghost use Rattle.volume_machine.specs.Seals.{KeysFit, seals_of};

use base_terms::Buffer;
use cipher_laws::SectorCipher;
use segment_map::Piece;
use std::alloc::{AllocError, Global};
use std::mem;
use std::thread::Threads;
use volume_machine::{Keys, Sealers};

/// Takes a buffer, and leaves an empty one, which has no memory.
#[inline(always)]
pub(crate) fn taken(alloc: Global, buffer: &mut Buffer) -> Buffer
    ensures taken { result ≡ buffer.old }
    ensures left { buffer.new ≡ [] }
{
    mem::replace(buffer, Buffer::empty(alloc))
}

/// Makes a buffer at least so long.
#[inline(always)]
pub(crate) fn grown(buffer: Buffer, len: usize) -> Result<Buffer, AllocError>
    ensures long { IfOk result (λ longer. length longer ≡ max (length buffer) len) }
    ensures front { IfOk result (λ longer. take (length buffer) longer ≡ buffer) }
    ensures memory { OnErr result (length buffer < len) }
{
    if len <= buffer.len() {
        return Ok(buffer);
    }
    let mut longer = buffer;
    longer.grow(len)?;
    Ok(longer)
}

/// Makes the first bytes of a buffer zeros, where it is to have zeros.
#[inline(always)]
pub(crate) fn with_zeros(buffer: Buffer, len: usize, zeroes: bool) -> Buffer
    requires { len ≤ length buffer }
    ensures zeros { zeroes ≡ true → take len result ≡ replicate len 0 }
    ensures same { zeroes ≡ false → result ≡ buffer }
    ensures length { length result ≡ length buffer }
{
    let mut buffer = buffer;
    if zeroes {
        zero_front(buffer.as_mut_slice(), len);
    }
    buffer
}

fn zero_front(bytes: &mut [u8], len: usize)
    requires { len ≤ length bytes.old }
    ensures front { take len bytes.new ≡ replicate len 0 }
    ensures length { length bytes.new ≡ length bytes.old }
{
    bytes[..len].fill(0);
}

/// Puts bytes in place of as many of a buffer's own from `at` on.
pub(crate) fn put(buffer: &mut Buffer, at: usize, bytes: &[u8])
    requires { at + length bytes.now ≤ length buffer.old }
    ensures front { take (at + length bytes.now) buffer.new ≡ take at buffer.old ++ bytes.now }
    ensures length { length buffer.new ≡ length buffer.old }
{
    put_in(buffer.as_mut_slice(), at, bytes);
}

fn put_in(into: &mut [u8], at: usize, bytes: &[u8])
    requires { at + length bytes.now ≤ length into.old }
    ensures front { take (at + length bytes.now) into.new ≡ take at into.old ++ bytes.now }
    ensures length { length into.new ≡ length into.old }
{
    into[at..at + bytes.len()].copy_from_slice(bytes);
}

/// Opens the bytes of a piece at the front of a buffer. Threads take a part of a long piece.
pub(crate) fn unseal_front<R: Threads + Sync, C: SectorCipher + Sync>(
    rt: &R,
    sealers: &Sealers,
    keys: &Keys<C>,
    atom: u32,
    piece: Piece,
    buffer: &mut Buffer,
    len: usize,
)
    requires known { IsAtom atom }
    requires fits { KeysFit C.sector keys.now atom (piece.first + piece.count) }
    requires size { len ≡ piece.count * atom }
    requires front { len ≤ length buffer.old }
    ensures front { take len buffer.new ≡ (seals_of C.sealed C.opened atom keys.now).opened
        piece.side piece.first (take len buffer.old) }
    ensures length { length buffer.new ≡ length buffer.old }
{
    unseal_part(rt, sealers, keys, atom, piece, buffer.as_mut_slice(), len);
}

fn unseal_part<R: Threads + Sync, C: SectorCipher + Sync>(
    rt: &R,
    sealers: &Sealers,
    keys: &Keys<C>,
    atom: u32,
    piece: Piece,
    bytes: &mut [u8],
    len: usize,
)
    requires known { IsAtom atom }
    requires fits { KeysFit C.sector keys.now atom (piece.first + piece.count) }
    requires size { len ≡ piece.count * atom }
    requires front { len ≤ length bytes.old }
    ensures front { take len bytes.new ≡ (seals_of C.sealed C.opened atom keys.now).opened
        piece.side piece.first (take len bytes.old) }
    ensures length { length bytes.new ≡ length bytes.old }
{
    keys.unseal(rt, sealers, atom, piece, &mut bytes[..len]);
}
