// One bit plane, with the gates between planes and the moves within one.

ghost use Rattle.std.specs.Prelude.{◌≡◌, ℕ, ◌+◌, ◌*◌, bit_xor, bit_and};

use std::ops::{BitAnd, BitXor};
use std::simd::prelude::*;

// One bit of each of the 16 bytes of eight blocks. Lane 4 * r + c is row r of column c of the
// state, and bit k of a lane is block k's.
#[derive(Clone, Copy)]
pub(crate) struct Plane(pub(crate) u8x16);

impl BitXor for Plane {
    ghost use Rattle.aes_core.specs.Planes.{bit_in};

    type Output = Plane;

    ghost bitxor_gives = { λ a b sum. (k p : ℕ)
        → bit_in k p sum ≡ bit_xor (bit_in k p a) (bit_in k p b) };

    #[inline(always)]
    fn bitxor(self, other: Plane) -> Plane {
        Plane(self.0 ^ other.0)
    }
}

impl BitAnd for Plane {
    ghost use Rattle.aes_core.specs.Planes.{bit_in};

    type Output = Plane;

    ghost bitand_gives = { λ a b product. (k p : ℕ)
        → bit_in k p product ≡ bit_and (bit_in k p a) (bit_in k p b) };

    #[inline(always)]
    fn bitand(self, other: Plane) -> Plane {
        Plane(self.0 & other.0)
    }
}

impl Plane {
    ghost use Rattle.aes_core.specs.Planes.{bit_in, place};

    // Each row where the row above it was.
    #[inline(always)]
    pub(crate) fn up_one(self) -> Plane
        ensures { (k r c : ℕ) → bit_in k (place r c) result ≡ bit_in k (place (r + 1) c) self }
    {
        Plane(
            self.0
                .swizzle([4, 5, 6, 7, 8, 9, 10, 11, 12, 13, 14, 15, 0, 1, 2, 3]),
        )
    }

    #[inline(always)]
    pub(crate) fn up_two(self) -> Plane
        ensures { (k r c : ℕ) → bit_in k (place r c) result ≡ bit_in k (place (r + 2) c) self }
    {
        Plane(
            self.0
                .swizzle([8, 9, 10, 11, 12, 13, 14, 15, 0, 1, 2, 3, 4, 5, 6, 7]),
        )
    }

    // Row r moved r columns to the left.
    #[inline(always)]
    pub(crate) fn shift_rows(self) -> Plane
        ensures { (k r c : ℕ) → bit_in k (place r c) result ≡ bit_in k (place r (c + r)) self }
    {
        Plane(
            self.0
                .swizzle([0, 1, 2, 3, 5, 6, 7, 4, 10, 11, 8, 9, 15, 12, 13, 14]),
        )
    }

    // Row r moved r columns to the right.
    #[inline(always)]
    pub(crate) fn inverse_shift_rows(self) -> Plane
        ensures { (k r c : ℕ) → bit_in k (place r c) result ≡ bit_in k (place r (c + 3 * r)) self }
    {
        Plane(
            self.0
                .swizzle([0, 1, 2, 3, 7, 4, 5, 6, 10, 11, 8, 9, 13, 14, 15, 12]),
        )
    }
}
