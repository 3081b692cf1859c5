// Tweaks: a block's as a number, and those of eight blocks in a row.

ghost use Rattle.std.specs.Prelude.{◌≡◌, ℕ, ◌<◌};
ghost use Rattle.cipher_laws.specs.Eight.{block};
ghost use Rattle.cipher_laws.specs.CipherBlocks.Blocks.{number_block};
ghost use Rattle.xts_mode.specs.Xts.{doubled, doubled_times};

use cipher_laws::EightBlocks;
use std::simd::prelude::*;

// The tweak times alpha.
#[inline(always)]
pub(crate) fn double(tweak: u128) -> u128
    ensures { result ≡ doubled tweak }
{
    (tweak << 1) ^ ((tweak >> 127) * 0x87)
}

// The tweak as a block.
#[inline(always)]
fn mask(tweak: u128) -> u8x16
    ensures { result ≡ number_block tweak }
{
    u64x2::from_array([(tweak % (1 << 64)) as u64, (tweak >> 64) as u64]).to_le_bytes()
}

// The tweaks of eight blocks in a row as blocks, the first of them under this tweak, and the tweak
// after them.
#[inline(always)]
#[tactic(auto, unfolding(crate::specs::Xts::doubled_times))]
pub(crate) fn eight_tweaks(tweak: u128) -> (EightBlocks, u128)
    ensures masks { (k : ℕ) → k < 8 → block k result.0 ≡ number_block (doubled_times k tweak) }
    ensures next { result.1 ≡ doubled_times 8 tweak }
{
    let second = double(tweak);
    let third = double(second);
    let fourth = double(third);
    let fifth = double(fourth);
    let sixth = double(fifth);
    let seventh = double(sixth);
    let eighth = double(seventh);
    let masks = EightBlocks {
        b0: mask(tweak),
        b1: mask(second),
        b2: mask(third),
        b3: mask(fourth),
        b4: mask(fifth),
        b5: mask(sixth),
        b6: mask(seventh),
        b7: mask(eighth),
    };
    (masks, double(eighth))
}
