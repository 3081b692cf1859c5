// The numbers of eight sectors, sealed at once.

ghost use Rattle.std.specs.Prelude.{◌≡◌, ℕ, ◌+◌, ◌*◌, ◌<◌, ◌^◌};
ghost use Rattle.cipher_laws.specs.Eight.{block};
ghost use Rattle.cipher_laws.specs.CipherBlocks.Blocks.{number_block};

use crate::blocks::block::number_block;
use crate::{BlockCipher, EightBlocks};
use std::simd::prelude::*;

// The number of the sector `k` sectors after the first, as a block.
#[inline(always)]
fn number_after(first: u64, step: u64, k: u64) -> u8x16
    ensures { first + k * step < 2 ^ 64 → result ≡ number_block (first + k * step) }
{
    let number = first.wrapping_add(k.wrapping_mul(step));
    u8x16::from_array(number_block(u128::from(number)))
}

/// What eight sectors' numbers as blocks are sealed to: the first number is `first`, and each other
/// one is `step` more than the one before. Of a number past the largest `u64` nothing is said.
pub fn sealed_numbers<C: BlockCipher>(cipher: &C, first: u64, step: u64) -> EightBlocks
    ensures { (k : ℕ) → k < 8 → first + k * step < 2 ^ 64 →
        block k result ≡ C.sealed cipher.now (number_block (first + k * step)) }
{
    let mut blocks = EightBlocks {
        b0: number_after(first, step, 0),
        b1: number_after(first, step, 1),
        b2: number_after(first, step, 2),
        b3: number_after(first, step, 3),
        b4: number_after(first, step, 4),
        b5: number_after(first, step, 5),
        b6: number_after(first, step, 6),
        b7: number_after(first, step, 7),
    };
    cipher.seal_eight(&mut blocks);
    blocks
}
