// Eight blocks in a row.

ghost use Rattle.std.specs.Prelude.{◌≡◌, ℕ, ◌+◌, ◌*◌, ◌<◌, ◌≤◌, length};
ghost use Rattle.cipher_laws.specs.Eight.{block};
ghost use Rattle.cipher_laws.specs.CipherBlocks.Blocks.{block_of, with_eight, xored};

use crate::EightBlocks;
use crate::blocks::block::{block_at, put_block};
use std::simd::prelude::*;

// The block at `at`, as a vector.
#[inline(always)]
fn vector_at(sector: &[u8], at: usize) -> u8x16
    requires { at + 16 ≤ length sector.now }
    ensures { result ≡ block_of sector.now at }
{
    u8x16::from_array(block_at(sector, at))
}

/// The eight blocks from `at` on, which is counted in bytes.
#[inline(always)]
pub fn eight_at(sector: &[u8], at: usize) -> EightBlocks
    requires { at + 128 ≤ length sector.now }
    ensures { (k : ℕ) → k < 8 → block k result ≡ block_of sector.now (at + 16 * k) }
{
    EightBlocks {
        b0: vector_at(sector, at),
        b1: vector_at(sector, at + 16),
        b2: vector_at(sector, at + 32),
        b3: vector_at(sector, at + 48),
        b4: vector_at(sector, at + 64),
        b5: vector_at(sector, at + 80),
        b6: vector_at(sector, at + 96),
        b7: vector_at(sector, at + 112),
    }
}

/// Puts eight blocks in a row from `at` on, which is counted in bytes.
#[inline(always)]
pub fn put_eight(sector: &mut [u8], at: usize, blocks: &EightBlocks)
    requires { at + 128 ≤ length sector.old }
    ensures { sector.new ≡ with_eight sector.old at (λ k. block k blocks.now) }
{
    put_block(sector, at, &blocks.b0.to_array());
    put_block(sector, at + 16, &blocks.b1.to_array());
    put_block(sector, at + 32, &blocks.b2.to_array());
    put_block(sector, at + 48, &blocks.b3.to_array());
    put_block(sector, at + 64, &blocks.b4.to_array());
    put_block(sector, at + 80, &blocks.b5.to_array());
    put_block(sector, at + 96, &blocks.b6.to_array());
    put_block(sector, at + 112, &blocks.b7.to_array());
}

/// Eight blocks, each xored with its fellow.
#[inline(always)]
#[tactic(auto, unfolding(crate::specs::CipherBlocks::Blocks::xored))]
pub fn xor_eight(a: &EightBlocks, b: &EightBlocks) -> EightBlocks
    ensures { (k : ℕ) → k < 8 → block k result ≡ xored (block k a.now) (block k b.now) }
{
    EightBlocks {
        b0: a.b0 ^ b.b0,
        b1: a.b1 ^ b.b1,
        b2: a.b2 ^ b.b2,
        b3: a.b3 ^ b.b3,
        b4: a.b4 ^ b.b4,
        b5: a.b5 ^ b.b5,
        b6: a.b6 ^ b.b6,
        b7: a.b7 ^ b.b7,
    }
}
