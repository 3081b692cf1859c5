// Eight blocks in eight bit planes: sums, products by x, and rows moved.

ghost use Rattle.std.specs.Prelude.{◌≡◌, ℕ, ◌+◌, bit_xor};
ghost use Rattle.aes_core.specs.Field.{times_x};
ghost use Rattle.aes_core.specs.State.{shift_rows, inverse_shift_rows};

use crate::plane::Plane;
use std::ops::BitXor;

// Plane i has bit i of each byte.
#[derive(Clone, Copy)]
pub(crate) struct Planes {
    pub(crate) b0: Plane,
    pub(crate) b1: Plane,
    pub(crate) b2: Plane,
    pub(crate) b3: Plane,
    pub(crate) b4: Plane,
    pub(crate) b5: Plane,
    pub(crate) b6: Plane,
    pub(crate) b7: Plane,
}

impl BitXor for Planes {
    ghost use Rattle.aes_core.specs.Planes.{byte_in};

    type Output = Planes;

    ghost bitxor_gives = { λ x y sum. (k p : ℕ)
        → byte_in k p sum ≡ bit_xor (byte_in k p x) (byte_in k p y) };

    #[inline(always)]
    fn bitxor(self, other: Planes) -> Planes {
        Planes {
            b0: self.b0 ^ other.b0,
            b1: self.b1 ^ other.b1,
            b2: self.b2 ^ other.b2,
            b3: self.b3 ^ other.b3,
            b4: self.b4 ^ other.b4,
            b5: self.b5 ^ other.b5,
            b6: self.b6 ^ other.b6,
            b7: self.b7 ^ other.b7,
        }
    }
}

impl Planes {
    ghost use Rattle.aes_core.specs.Planes.{byte_in, state_in, place};

    // Each byte times x: its bits one place up, and where the highest falls out, x^4 + x^3 + x + 1.
    #[inline(always)]
    pub(crate) fn times_x(self) -> Planes
        ensures { (k p : ℕ) → byte_in k p result ≡ times_x (byte_in k p self) }
    {
        Planes {
            b0: self.b7,
            b1: self.b0 ^ self.b7,
            b2: self.b1,
            b3: self.b2 ^ self.b7,
            b4: self.b3 ^ self.b7,
            b5: self.b4,
            b6: self.b5,
            b7: self.b6,
        }
    }

    // Each row where the row above it was.
    #[inline(always)]
    pub(crate) fn up_one(self) -> Planes
        ensures { (k r c : ℕ) → byte_in k (place r c) result ≡ byte_in k (place (r + 1) c) self }
    {
        Planes {
            b0: self.b0.up_one(),
            b1: self.b1.up_one(),
            b2: self.b2.up_one(),
            b3: self.b3.up_one(),
            b4: self.b4.up_one(),
            b5: self.b5.up_one(),
            b6: self.b6.up_one(),
            b7: self.b7.up_one(),
        }
    }

    #[inline(always)]
    pub(crate) fn up_two(self) -> Planes
        ensures { (k r c : ℕ) → byte_in k (place r c) result ≡ byte_in k (place (r + 2) c) self }
    {
        Planes {
            b0: self.b0.up_two(),
            b1: self.b1.up_two(),
            b2: self.b2.up_two(),
            b3: self.b3.up_two(),
            b4: self.b4.up_two(),
            b5: self.b5.up_two(),
            b6: self.b6.up_two(),
            b7: self.b7.up_two(),
        }
    }

    // ShiftRows (FIPS 197, section 5.1.2).
    #[inline(always)]
    pub(crate) fn shift_rows(self) -> Planes
        ensures { (k : ℕ) → state_in k result ≡ shift_rows (state_in k self) }
    {
        Planes {
            b0: self.b0.shift_rows(),
            b1: self.b1.shift_rows(),
            b2: self.b2.shift_rows(),
            b3: self.b3.shift_rows(),
            b4: self.b4.shift_rows(),
            b5: self.b5.shift_rows(),
            b6: self.b6.shift_rows(),
            b7: self.b7.shift_rows(),
        }
    }

    // InvShiftRows (FIPS 197, section 5.3.1).
    #[inline(always)]
    pub(crate) fn inverse_shift_rows(self) -> Planes
        ensures { (k : ℕ) → state_in k result ≡ inverse_shift_rows (state_in k self) }
    {
        Planes {
            b0: self.b0.inverse_shift_rows(),
            b1: self.b1.inverse_shift_rows(),
            b2: self.b2.inverse_shift_rows(),
            b3: self.b3.inverse_shift_rows(),
            b4: self.b4.inverse_shift_rows(),
            b5: self.b5.inverse_shift_rows(),
            b6: self.b6.inverse_shift_rows(),
            b7: self.b7.inverse_shift_rows(),
        }
    }
}
