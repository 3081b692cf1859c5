// Sectors in a row, sealed eight side by side.

ghost use Rattle.std.specs.Prelude.{◌≡◌, ℕ, ◌+◌, ◌*◌, ◌/◌, ◌%◌, ◌<◌, ◌≤◌, ◌^◌, length};
ghost use Rattle.cipher_laws.specs.Eight.{block};
ghost use Rattle.cipher_laws.specs.CipherBlocks.Blocks.{block_of, with_block};
ghost use Rattle.cbc_essiv.specs.Cbc.{cbc_sealed};
ghost use Rattle.cbc_essiv.specs.Rows.{sector_of, IsSealedTo};

use cipher_laws::{BlockCipher, EightBlocks, block_at, put_block, sealed_numbers, xor_eight};
use std::simd::prelude::*;

// Seals sectors in a row as far as they are eight and eight, and hands back the number of the
// sector after them.
pub(crate) fn seal_eights<C: BlockCipher>(
    body: &C,
    iv: &C,
    size: usize,
    first: u64,
    bytes: &mut [u8],
) -> u64
    requires some { 0 < size }
    requires units { size % 512 ≡ 0 }
    requires in_range { first + length bytes.old / 512 < 2 ^ 64 }
    ensures { IsSealedTo (C.sealed body.now) (C.sealed iv.now) size
        (8 * (length bytes.old / size / 8)) first result bytes.old bytes.new }
{
    let units = (size / 512) as u64;
    let mut number = first;
    for i in 0..bytes.len() / size / 8 {
        let at = size * (8 * i);
        let ivs = sealed_numbers(iv, number, units);
        seal_eight_chains(body, &ivs, size, &mut bytes[at..at + 8 * size]);
        number += 8 * units;
    }
    number
}

// Seals eight sectors of `size` bytes in a row, each chained from an IV of its own on: the blocks
// at one place of the eight sectors are sealed at once.
pub(crate) fn seal_eight_chains<C: BlockCipher>(
    cipher: &C,
    ivs: &EightBlocks,
    size: usize,
    row: &mut [u8],
)
    requires blocks { size % 16 ≡ 0 }
    requires eight { length row.old ≡ 8 * size }
    ensures { (k : ℕ) → k < 8 → sector_of size k row.new
        ≡ cbc_sealed (C.sealed cipher.now) (block k ivs.now) (sector_of size k row.old) }
{
    let mut chain = *ivs;
    for i in 0..size / 16 {
        let mut blocks = xor_eight(&eight_apart(row, size, 16 * i), &chain);
        cipher.seal_eight(&mut blocks);
        put_apart(row, size, 16 * i, &blocks);
        chain = blocks;
    }
}

// The eight blocks at `at` in eight sectors.
#[inline(always)]
fn eight_apart(row: &[u8], size: usize, at: usize) -> EightBlocks
    requires within { at + 16 ≤ size }
    requires eight { length row.now ≡ 8 * size }
    ensures { (k : ℕ) → k < 8 → block k result ≡ block_of (sector_of size k row.now) at }
{
    EightBlocks {
        b0: vector_in(row, size, 0, at),
        b1: vector_in(row, size, 1, at),
        b2: vector_in(row, size, 2, at),
        b3: vector_in(row, size, 3, at),
        b4: vector_in(row, size, 4, at),
        b5: vector_in(row, size, 5, at),
        b6: vector_in(row, size, 6, at),
        b7: vector_in(row, size, 7, at),
    }
}

// The block at `at` in sector k of eight, as a vector.
#[inline(always)]
fn vector_in(row: &[u8], size: usize, k: usize, at: usize) -> u8x16
    requires below { k < 8 }
    requires within { at + 16 ≤ size }
    requires eight { length row.now ≡ 8 * size }
    ensures { result ≡ block_of (sector_of size k row.now) at }
{
    u8x16::from_array(block_at(row, size * k + at))
}

// Puts a block at `at` in each of eight sectors.
#[inline(always)]
fn put_apart(row: &mut [u8], size: usize, at: usize, blocks: &EightBlocks)
    requires within { at + 16 ≤ size }
    requires eight { length row.old ≡ 8 * size }
    ensures put { (k : ℕ) → k < 8 → sector_of size k row.new
        ≡ with_block (sector_of size k row.old) at (block k blocks.now) }
    ensures lengths { (k : ℕ) → k < 8 → length (block k blocks.now) ≡ 16 }
{
    let arrays = blocks.to_arrays();
    for k in 0..8 {
        let start = size * k;
        put_block(&mut row[start..start + size], at, &arrays[k]);
    }
}
