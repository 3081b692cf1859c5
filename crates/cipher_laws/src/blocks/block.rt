// Blocks of 16 bytes.

ghost use Rattle.std.specs.Prelude.{◌≡◌, ◌+◌, ◌≤◌, length};
ghost use Rattle.cipher_laws.specs.CipherBlocks.Blocks.{block_of, with_block, xored, number_block};

use std::simd::u8x16;

/// The block at `at`, which is counted in bytes.
#[inline(always)]
pub fn block_at(sector: &[u8], at: usize) -> [u8; 16]
    requires { at + 16 ≤ length sector.now }
    ensures { result ≡ block_of sector.now at }
{
    let mut block = [0u8; 16];
    block.copy_from_slice(&sector[at..at + 16]);
    block
}

/// Puts the block at `at`, which is counted in bytes.
#[inline(always)]
pub fn put_block(sector: &mut [u8], at: usize, block: &[u8; 16])
    requires { at + 16 ≤ length sector.old }
    ensures { sector.new ≡ with_block sector.old at block.now }
{
    sector[at..at + 16].copy_from_slice(block);
}

/// The two blocks, xored.
#[inline(always)]
#[tactic(auto, unfolding(crate::specs::CipherBlocks::Blocks::xored))]
pub fn xor(a: &[u8; 16], b: &[u8; 16]) -> [u8; 16]
    ensures { result ≡ xored a.now b.now }
{
    (u8x16::from_array(*a) ^ u8x16::from_array(*b)).to_array()
}

/// A number as a block: its 16 bytes, the lowest first.
#[inline(always)]
#[tactic(auto, unfolding(crate::specs::CipherBlocks::Blocks::number_block))]
pub fn number_block(number: u128) -> [u8; 16]
    ensures { result ≡ number_block number }
{
    number.to_le_bytes()
}
