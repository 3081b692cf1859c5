// The blocks of one sector, under its first tweak.

ghost use Rattle.std.specs.Prelude.{◌≡◌, ℕ, ◌*◌, ◌/◌, ◌%◌, ◌<◌, length};
ghost use Rattle.std.specs.Int.{from_le_bytes, w128};
ghost use Rattle.cipher_laws.specs.Eight.{block};
ghost use Rattle.cipher_laws.specs.CipherBlocks.Blocks.{xored};
ghost use Rattle.xts_mode.specs.Xts.{whitened, xts_from, IsWhitenedTo};

use crate::tweak::{double, eight_tweaks};
use cipher_laws::{
    BlockCipher, EightBlocks, UnderIv, block_at, eight_at, number_block, put_block, put_eight, xor,
    xor_eight,
};

// XTS of a sector by a cipher of blocks, under the first tweak as a block.
#[derive_where(Clone, Copy)]
pub(crate) struct Whitening<'a, C>(pub(crate) &'a C);

impl<C: BlockCipher> UnderIv for Whitening<'_, C> {
    ghost changed = { λ it tweak. xts_from (C.sealed it.0.now) (from_le_bytes w128 tweak) };

    fn change(&self, iv: [u8; 16], sector: &mut [u8]) {
        whiten_blocks(self.0, u128::from_le_bytes(iv), sector);
    }
}

// Works on the blocks of a sector, the first of them under the tweak `first`: eight at a time, and
// one by one where fewer are left.
pub(crate) fn whiten_blocks<C: BlockCipher>(cipher: &C, first: u128, sector: &mut [u8])
    requires { length sector.old % 16 ≡ 0 }
    ensures { sector.new ≡ xts_from (C.sealed cipher.now) first sector.old }
{
    let tweak = whiten_eights(cipher, first, sector);
    let done = 128 * (sector.len() / 128);
    whiten_each(cipher, tweak, &mut sector[done..]);
}

// Works on the blocks of a sector as far as they are eight and eight, and hands back the tweak of
// the block after them.
fn whiten_eights<C: BlockCipher>(cipher: &C, first: u128, sector: &mut [u8]) -> u128
    ensures { IsWhitenedTo (C.sealed cipher.now) (128 * (length sector.old / 128)) result
        (xts_from (C.sealed cipher.now) first sector.old) sector.new }
{
    let mut tweak = first;
    for i in 0..sector.len() / 128 {
        let (masks, next) = eight_tweaks(tweak);
        let blocks = whiten_eight(cipher, &masks, &eight_at(sector, 128 * i));
        put_eight(sector, 128 * i, &blocks);
        tweak = next;
    }
    tweak
}

// Works on the blocks one by one, the first of them under the tweak `first`.
fn whiten_each<C: BlockCipher>(cipher: &C, first: u128, sector: &mut [u8])
    requires { length sector.old % 16 ≡ 0 }
    ensures { sector.new ≡ xts_from (C.sealed cipher.now) first sector.old }
{
    let mut tweak = first;
    for i in 0..sector.len() / 16 {
        let block = block_at(sector, 16 * i);
        put_block(sector, 16 * i, &whiten(cipher, tweak, &block));
        tweak = double(tweak);
    }
}

// Eight blocks, each under its tweak as a block.
#[inline(always)]
fn whiten_eight<C: BlockCipher>(
    cipher: &C,
    masks: &EightBlocks,
    blocks: &EightBlocks,
) -> EightBlocks
    ensures { (k : ℕ) → k < 8 → block k result
        ≡ xored (C.sealed cipher.now (xored (block k blocks.now) (block k masks.now)))
        (block k masks.now) }
{
    let mut masked = xor_eight(blocks, masks);
    cipher.seal_eight(&mut masked);
    xor_eight(&masked, masks)
}

// One block under its tweak.
#[inline(always)]
#[tactic(auto, unfolding(crate::specs::Xts::whitened))]
fn whiten<C: BlockCipher>(cipher: &C, tweak: u128, block: &[u8; 16]) -> [u8; 16]
    ensures { result ≡ whitened (C.sealed cipher.now) tweak block.now }
{
    let mask = number_block(tweak);
    let mut masked = xor(block, &mask);
    cipher.seal(&mut masked);
    xor(&masked, &mask)
}
