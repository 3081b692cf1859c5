// The blocks of one sector, chained from its IV on.

ghost use Rattle.std.specs.Prelude.{◌≡◌, ℕ, ◌*◌, ◌/◌, ◌%◌, ◌<◌, length};
ghost use Rattle.cipher_laws.specs.Eight.{block};
ghost use Rattle.cbc_essiv.specs.Cbc.{cbc_sealed, cbc_opened, before, IsUnsealedTo};

use cipher_laws::{
    BlockCipher, EightBlocks, UnderIv, block_at, eight_at, put_block, put_eight, xor, xor_eight,
};
use std::simd::prelude::*;

// CBC of a sector by a cipher of blocks, under the IV.
#[derive_where(Clone, Copy)]
pub(crate) struct SealsChain<'a, C>(pub(crate) &'a C);

impl<C: BlockCipher> UnderIv for SealsChain<'_, C> {
    ghost changed = { λ it. cbc_sealed (C.sealed it.0.now) };

    fn change(&self, iv: [u8; 16], sector: &mut [u8]) {
        seal_chain(self.0, &iv, sector);
    }
}

// And its inverse.
#[derive_where(Clone, Copy)]
pub(crate) struct UnsealsChain<'a, C>(pub(crate) &'a C);

impl<C: BlockCipher> UnderIv for UnsealsChain<'_, C> {
    ghost changed = { λ it. cbc_opened (C.opened it.0.now) };

    fn change(&self, iv: [u8; 16], sector: &mut [u8]) {
        unseal_chain(self.0, &iv, sector);
    }
}

// Seals a sector's blocks, the first of them after the block `iv`.
pub(crate) fn seal_chain<C: BlockCipher>(cipher: &C, iv: &[u8; 16], sector: &mut [u8])
    requires { length sector.old % 16 ≡ 0 }
    ensures { sector.new ≡ cbc_sealed (C.sealed cipher.now) iv.now sector.old }
{
    let mut chain = *iv;
    for i in 0..sector.len() / 16 {
        let mut block = xor(&block_at(sector, 16 * i), &chain);
        cipher.seal(&mut block);
        put_block(sector, 16 * i, &block);
        chain = block;
    }
}

// Unseals a sector's blocks, the first of them after the block `iv`: eight at a time, and one by
// one where fewer are left.
pub(crate) fn unseal_chain<C: BlockCipher>(cipher: &C, iv: &[u8; 16], sector: &mut [u8])
    requires { length sector.old % 16 ≡ 0 }
    ensures { sector.new ≡ cbc_opened (C.opened cipher.now) iv.now sector.old }
{
    let chain = unseal_eights(cipher, u8x16::from_array(*iv), sector);
    let done = 128 * (sector.len() / 128);
    unseal_each(cipher, &chain.to_array(), &mut sector[done..]);
}

// Unseals a sector's blocks as far as they are eight and eight, and hands back the sealed block
// that the block after them is chained to.
fn unseal_eights<C: BlockCipher>(cipher: &C, iv: u8x16, sector: &mut [u8]) -> u8x16
    ensures { IsUnsealedTo (C.opened cipher.now) (128 * (length sector.old / 128)) result
        (cbc_opened (C.opened cipher.now) iv sector.old) sector.new }
{
    let mut chain = iv;
    for i in 0..sector.len() / 128 {
        let sealed = eight_at(sector, 128 * i);
        let mut blocks = sealed;
        cipher.unseal_eight(&mut blocks);
        put_eight(
            sector,
            128 * i,
            &xor_eight(&blocks, &shifted(chain, &sealed)),
        );
        chain = sealed.b7;
    }
    chain
}

// The blocks before eight blocks in a row, where `first` stands before the first.
#[inline(always)]
fn shifted(first: u8x16, blocks: &EightBlocks) -> EightBlocks
    ensures { (k : ℕ) → k < 8 → block k result ≡ before first blocks.now k }
{
    EightBlocks {
        b0: first,
        b1: blocks.b0,
        b2: blocks.b1,
        b3: blocks.b2,
        b4: blocks.b3,
        b5: blocks.b4,
        b6: blocks.b5,
        b7: blocks.b6,
    }
}

// Unseals a sector's blocks one by one, the first of them after the block `iv`.
fn unseal_each<C: BlockCipher>(cipher: &C, iv: &[u8; 16], sector: &mut [u8])
    requires { length sector.old % 16 ≡ 0 }
    ensures { sector.new ≡ cbc_opened (C.opened cipher.now) iv.now sector.old }
{
    let mut chain = *iv;
    for i in 0..sector.len() / 16 {
        let sealed = block_at(sector, 16 * i);
        let mut block = sealed;
        cipher.unseal(&mut block);
        put_block(sector, 16 * i, &xor(&block, &chain));
        chain = sealed;
    }
}
