// Eight blocks to bit planes and back. A block's bytes, which lie column after column, come to lie
// row after row; then in each lane the bytes of the eight blocks are a square of bits, which is
// transposed.

ghost use Rattle.std.specs.Prelude.{◌≡◌, ◌<◌, ℕ, [], slice_index, slice_index_or};
ghost use Rattle.cipher_laws.specs.Eight.{block, blocks_of};
ghost use Rattle.aes_core.specs.Planes.{state_in, bits_of};
ghost use Rattle.aes_core.specs.Transposition.{first_bits, second_bits, rows, columns, AreTurned};

use crate::plane::Plane;
use crate::planes::Planes;
use cipher_laws::EightBlocks;
use std::simd::prelude::*;

#[inline(always)]
pub(crate) fn to_planes(blocks: EightBlocks) -> Planes
    ensures { (k : ℕ) → k < 8 → state_in k result ≡ block k blocks }
{
    let square = transposed(turned(blocks));
    Planes {
        b0: Plane(square.b0),
        b1: Plane(square.b1),
        b2: Plane(square.b2),
        b3: Plane(square.b3),
        b4: Plane(square.b4),
        b5: Plane(square.b5),
        b6: Plane(square.b6),
        b7: Plane(square.b7),
    }
}

#[inline(always)]
pub(crate) fn to_blocks(planes: Planes) -> EightBlocks
    ensures { (k : ℕ) → k < 8 → block k result ≡ state_in k planes }
{
    let square = EightBlocks {
        b0: planes.b0.0,
        b1: planes.b1.0,
        b2: planes.b2.0,
        b3: planes.b3.0,
        b4: planes.b4.0,
        b5: planes.b5.0,
        b6: planes.b6.0,
        b7: planes.b7.0,
    };
    turned(transposed(square))
}

// Eight times the same block.
#[inline(always)]
pub(crate) fn copies(block: u8x16) -> EightBlocks
    ensures { (k : ℕ) → k < 8 → slice_index_or (blocks_of result) k [] ≡ block }
{
    EightBlocks {
        b0: block,
        b1: block,
        b2: block,
        b3: block,
        b4: block,
        b5: block,
        b6: block,
        b7: block,
    }
}

// Each block with its rows for its columns.
#[inline(always)]
fn turned(blocks: EightBlocks) -> EightBlocks
    ensures { (k : ℕ) → k < 8 → AreTurned (block k blocks) (block k result) }
{
    EightBlocks {
        b0: turned_block(blocks.b0),
        b1: turned_block(blocks.b1),
        b2: turned_block(blocks.b2),
        b3: turned_block(blocks.b3),
        b4: turned_block(blocks.b4),
        b5: turned_block(blocks.b5),
        b6: turned_block(blocks.b6),
        b7: turned_block(blocks.b7),
    }
}

#[inline(always)]
fn turned_block(block: u8x16) -> u8x16
    ensures { AreTurned block result }
{
    block.swizzle([0, 4, 8, 12, 1, 5, 9, 13, 2, 6, 10, 14, 3, 7, 11, 15])
}

// In each lane, bit k of vector i for bit i of vector k.
#[inline(always)]
fn transposed(x: EightBlocks) -> EightBlocks
    ensures { (p : ℕ) → p < 16 → rows p result ≡ columns p x }
{
    let a01 = exchange(x.b0, x.b1, 1, 0x55);
    let a23 = exchange(x.b2, x.b3, 1, 0x55);
    let a45 = exchange(x.b4, x.b5, 1, 0x55);
    let a67 = exchange(x.b6, x.b7, 1, 0x55);
    let b02 = exchange(a01.first, a23.first, 2, 0x33);
    let b13 = exchange(a01.second, a23.second, 2, 0x33);
    let b46 = exchange(a45.first, a67.first, 2, 0x33);
    let b57 = exchange(a45.second, a67.second, 2, 0x33);
    let c04 = exchange(b02.first, b46.first, 4, 0x0f);
    let c15 = exchange(b13.first, b57.first, 4, 0x0f);
    let c26 = exchange(b02.second, b46.second, 4, 0x0f);
    let c37 = exchange(b13.second, b57.second, 4, 0x0f);
    EightBlocks {
        b0: c04.first,
        b1: c15.first,
        b2: c26.first,
        b3: c37.first,
        b4: c04.second,
        b5: c15.second,
        b6: c26.second,
        b7: c37.second,
    }
}

#[derive(Clone, Copy)]
struct Pair {
    first: u8x16,
    second: u8x16,
}

// The bits of b that the mask has, exchanged for the bits of a that are n places above.
#[inline(always)]
fn exchange(a: u8x16, b: u8x16, n: u8, mask: u8) -> Pair
    requires { n < 8 }
    ensures first { (p : ℕ) → p < 16 → bits_of (slice_index result.first p)
        ≡ first_bits n mask (bits_of (slice_index a p)) (bits_of (slice_index b p)) }
    ensures second { (p : ℕ) → p < 16 → bits_of (slice_index result.second p)
        ≡ second_bits n mask (bits_of (slice_index a p)) (bits_of (slice_index b p)) }
{
    let places = u8x16::splat(n);
    let exchanged = ((a >> places) ^ b) & u8x16::splat(mask);
    Pair {
        first: a ^ (exchanged << places),
        second: b ^ exchanged,
    }
}
