// The S-box and its inverse by gates on planes (FIPS 197, sections 5.1.1 and 5.3.2), each in 115
// gates or fewer: linear forms of the bits, inversion in the field, and sums that are the bits of
// the result. Neither has the constant 63 hexadecimal of the affine transformation: the one leaves
// it out of its result, and the other takes a byte without it.

ghost use Rattle.std.specs.Prelude.{◌≡◌, ℕ};
ghost use Rattle.aes_core.specs.Planes.{bits_in, state_in, translated};
ghost use Rattle.aes_core.specs.Circuit.{forms_in, products_in, linear_forms, inverse_forms, sums};
ghost use Rattle.aes_core.specs.Circuit.{inverse_sums};
ghost use Rattle.aes_core.specs.State.{sub_bytes, inverse_sub_bytes};

use crate::inversion::{Forms, Products, inversion};
use crate::planes::Planes;
use crate::transposition::{copies, to_blocks, to_planes};
use std::simd::prelude::*;

// The constant of the affine transformation.
pub(crate) const CONSTANT: u8 = 0x63;

#[inline(always)]
pub(crate) fn sub_bytes(state: Planes) -> Planes
    ensures { (k : ℕ) → state_in k result ≡ translated (sub_bytes (state_in k state)) }
{
    sums(inversion(linear_forms(state)))
}

#[inline(always)]
pub(crate) fn inverse_sub_bytes(state: Planes) -> Planes
    ensures { (k : ℕ) → state_in k result ≡ inverse_sub_bytes (translated (state_in k state)) }
{
    inverse_sums(inversion(inverse_forms(state)))
}

// SubBytes of one block alone, with the constant.
pub(crate) fn sub_block(block: u8x16) -> u8x16
    ensures { result ≡ sub_bytes block }
{
    let boxed = to_blocks(sub_bytes(to_planes(copies(block))));
    boxed.b0 ^ u8x16::splat(CONSTANT)
}

#[inline(always)]
fn linear_forms(x: Planes) -> Forms
    ensures { (k p : ℕ) → forms_in k p result ≡ linear_forms (bits_in k p x) }
{
    let y14 = x.b4 ^ x.b2;
    let y13 = x.b7 ^ x.b1;
    let y9 = x.b7 ^ x.b4;
    let y8 = x.b7 ^ x.b2;
    let t0 = x.b6 ^ x.b5;
    let y1 = t0 ^ x.b0;
    let y12 = y13 ^ y14;
    let y5 = y1 ^ x.b1;
    let t1 = x.b3 ^ y12;
    let y15 = t1 ^ x.b2;
    let y20 = t1 ^ x.b6;
    let y10 = y15 ^ t0;
    let y11 = y20 ^ y9;
    let y16 = t0 ^ y11;
    Forms {
        y0: x.b0,
        y1,
        y2: y1 ^ x.b7,
        y3: y5 ^ y8,
        y4: y1 ^ x.b4,
        y5,
        y6: y15 ^ x.b0,
        y7: x.b0 ^ y11,
        y8,
        y9,
        y10,
        y11,
        y12,
        y13,
        y14,
        y15,
        y16,
        y17: y10 ^ y11,
        y18: x.b7 ^ y16,
        y19: y10 ^ y8,
        y20,
        y21: y13 ^ y16,
    }
}

#[inline(always)]
fn inverse_forms(x: Planes) -> Forms
    ensures { (k p : ℕ) → forms_in k p result ≡ inverse_forms (bits_in k p x) }
{
    let y3 = x.b4 ^ x.b7;
    let y19 = x.b0 ^ x.b3;
    let y8 = x.b6 ^ x.b7;
    let y9 = x.b3 ^ x.b4;
    let y5 = x.b4 ^ x.b6;
    let y1 = y19 ^ x.b4;
    let y13 = y1 ^ x.b1;
    let y2 = y13 ^ y5;
    let y14 = y9 ^ y8;
    let y6 = y3 ^ x.b6;
    let y18 = y9 ^ x.b5;
    let y7 = y18 ^ y2;
    let y16 = y7 ^ y1;
    let y4 = y2 ^ y9;
    let t0 = x.b2 ^ x.b7;
    let y0 = t0 ^ x.b5;
    let y15 = y0 ^ y6;
    Forms {
        y0,
        y1,
        y2,
        y3,
        y4,
        y5,
        y6,
        y7,
        y8,
        y9,
        y10: y8 ^ y19,
        y11: t0 ^ y4,
        y12: y14 ^ y13,
        y13,
        y14,
        y15,
        y16,
        y17: y15 ^ y16,
        y18,
        y19,
        y20: t0 ^ y2,
        y21: y7 ^ x.b1,
    }
}

#[inline(always)]
fn sums(z: Products) -> Planes
    ensures { (k p : ℕ) → bits_in k p result ≡ sums (products_in k p z) }
{
    let t46 = z.z15 ^ z.z16;
    let t48 = z.z5 ^ z.z13;
    let t53 = z.z0 ^ z.z3;
    let t57 = (z.z2 ^ z.z12) ^ t53;
    let t58 = z.z4 ^ t46;
    let t59 = z.z3 ^ (z.z6 ^ z.z7);
    let t62 = (z.z7 ^ z.z8) ^ t58;
    let t63 = (z.z9 ^ z.z10) ^ t58;
    let t64 = z.z4 ^ t59;
    let t65 = (z.z14 ^ t57) ^ t62;
    let t66 = z.z1 ^ t63;
    let b4 = t53 ^ t66;
    Planes {
        b0: t48 ^ (t46 ^ t57),
        b1: (z.z12 ^ t48) ^ t62,
        b2: (z.z10 ^ z.z11) ^ t65,
        b3: (z.z2 ^ z.z5) ^ t66,
        b4,
        b5: (z.z16 ^ z.z17) ^ (t64 ^ t65),
        b6: t64 ^ b4,
        b7: t59 ^ t63,
    }
}

#[inline(always)]
fn inverse_sums(z: Products) -> Planes
    ensures { (k p : ℕ) → bits_in k p result ≡ inverse_sums (products_in k p z) }
{
    let t0 = z.z12 ^ z.z16;
    let t3 = (z.z6 ^ z.z13) ^ (z.z15 ^ t0);
    let t4 = z.z5 ^ z.z3;
    let b7 = t4 ^ (z.z8 ^ t3);
    let t7 = z.z0 ^ t4;
    let t9 = t3 ^ (z.z4 ^ z.z3);
    let t11 = z.z17 ^ (z.z9 ^ z.z11);
    let b2 = (z.z1 ^ z.z8) ^ (t7 ^ t9);
    let b1 = z.z7 ^ t9;
    let t16 = z.z2 ^ t7;
    let t18 = t16 ^ (z.z10 ^ z.z11);
    let t20 = t18 ^ (z.z14 ^ b2);
    Planes {
        b0: z.z15 ^ t11,
        b1,
        b2,
        b3: (z.z16 ^ z.z17) ^ (b1 ^ t18),
        b4: b7 ^ t16,
        b5: z.z13 ^ t20,
        b6: t20 ^ (t0 ^ t11),
        b7,
    }
}
