// Inversion in the field of 256 elements by gates on planes, the middle of the S-box and of its
// inverse: after Boyar and Peralta, "A New Combinational Logic Minimization Technique with
// Applications to Cryptology" (2010), whose names the wires have.
//
// A byte is two elements of a field of 16 elements. What both directions multiply are nine linear
// forms of the one by nine of the other; the products sum up to the norm, which is inverted in the
// field of 16 and multiplied by all eighteen forms.

ghost use Rattle.std.specs.Prelude.{◌≡◌, ℕ};
ghost use Rattle.aes_core.specs.Circuit.{forms_in, quartet_in, products_in};
ghost use Rattle.aes_core.specs.Circuit.{norm, inverted, multiplied, inversion};

use crate::plane::Plane;

// The linear forms of a byte's bits.
#[derive(Clone, Copy)]
pub(crate) struct Forms {
    pub(crate) y0: Plane,
    pub(crate) y1: Plane,
    pub(crate) y2: Plane,
    pub(crate) y3: Plane,
    pub(crate) y4: Plane,
    pub(crate) y5: Plane,
    pub(crate) y6: Plane,
    pub(crate) y7: Plane,
    pub(crate) y8: Plane,
    pub(crate) y9: Plane,
    pub(crate) y10: Plane,
    pub(crate) y11: Plane,
    pub(crate) y12: Plane,
    pub(crate) y13: Plane,
    pub(crate) y14: Plane,
    pub(crate) y15: Plane,
    pub(crate) y16: Plane,
    pub(crate) y17: Plane,
    pub(crate) y18: Plane,
    pub(crate) y19: Plane,
    pub(crate) y20: Plane,
    pub(crate) y21: Plane,
}

// An element of the field of 16.
#[derive(Clone, Copy)]
pub(crate) struct Quartet {
    pub(crate) q0: Plane,
    pub(crate) q1: Plane,
    pub(crate) q2: Plane,
    pub(crate) q3: Plane,
}

// What an element of the field of 16 makes of the eighteen forms.
#[derive(Clone, Copy)]
pub(crate) struct Products {
    pub(crate) z0: Plane,
    pub(crate) z1: Plane,
    pub(crate) z2: Plane,
    pub(crate) z3: Plane,
    pub(crate) z4: Plane,
    pub(crate) z5: Plane,
    pub(crate) z6: Plane,
    pub(crate) z7: Plane,
    pub(crate) z8: Plane,
    pub(crate) z9: Plane,
    pub(crate) z10: Plane,
    pub(crate) z11: Plane,
    pub(crate) z12: Plane,
    pub(crate) z13: Plane,
    pub(crate) z14: Plane,
    pub(crate) z15: Plane,
    pub(crate) z16: Plane,
    pub(crate) z17: Plane,
}

// The products whose sums are the bits of the inverse.
#[inline(always)]
pub(crate) fn inversion(forms: Forms) -> Products
    ensures { (k p : ℕ) → products_in k p result ≡ inversion (forms_in k p forms) }
{
    multiplied(forms, inverted(norm(forms)))
}

#[inline(always)]
fn norm(f: Forms) -> Quartet
    ensures { (k p : ℕ) → quartet_in k p result ≡ norm (forms_in k p f) }
{
    let t2 = f.y12 & f.y15;
    let t4 = (f.y3 & f.y6) ^ t2;
    let t6 = (f.y4 & f.y0) ^ t2;
    let t7 = f.y13 & f.y16;
    let t9 = (f.y5 & f.y1) ^ t7;
    let t11 = (f.y2 & f.y7) ^ t7;
    let t12 = f.y9 & f.y11;
    let t14 = (f.y14 & f.y17) ^ t12;
    let t16 = (f.y8 & f.y10) ^ t12;
    Quartet {
        q0: t4 ^ t14 ^ f.y20,
        q1: t6 ^ t16 ^ f.y19,
        q2: t9 ^ t14 ^ f.y21,
        q3: t11 ^ t16 ^ f.y18,
    }
}

#[inline(always)]
fn inverted(q: Quartet) -> Quartet
    ensures { (k p : ℕ) → quartet_in k p result ≡ inverted (quartet_in k p q) }
{
    let t25 = q.q0 ^ q.q1;
    let t26 = q.q0 & q.q2;
    let t27 = q.q3 ^ t26;
    let t29 = (t25 & t27) ^ q.q1;
    let t33 = ((q.q1 ^ t26) & (q.q2 ^ q.q3)) ^ q.q3;
    let t36 = q.q3 & (t27 ^ t33);
    let t37 = t36 ^ (q.q2 ^ t33);
    let t40 = t25 ^ (t29 & (t27 ^ t36));
    Quartet {
        q0: t29,
        q1: t33,
        q2: t37,
        q3: t40,
    }
}

#[inline(always)]
fn multiplied(f: Forms, q: Quartet) -> Products
    ensures { (k p : ℕ) → products_in k p result ≡ multiplied (forms_in k p f) (quartet_in k p q) }
{
    let t41 = q.q3 ^ q.q2;
    let t42 = q.q0 ^ q.q1;
    let t43 = q.q0 ^ q.q3;
    let t44 = q.q1 ^ q.q2;
    let t45 = t42 ^ t41;
    Products {
        z0: t44 & f.y15,
        z1: q.q2 & f.y6,
        z2: q.q1 & f.y0,
        z3: t43 & f.y16,
        z4: q.q3 & f.y1,
        z5: q.q0 & f.y7,
        z6: t42 & f.y11,
        z7: t45 & f.y17,
        z8: t41 & f.y10,
        z9: t44 & f.y12,
        z10: q.q2 & f.y3,
        z11: q.q1 & f.y4,
        z12: t43 & f.y13,
        z13: q.q3 & f.y5,
        z14: q.q0 & f.y2,
        z15: t42 & f.y9,
        z16: t45 & f.y14,
        z17: t41 & f.y8,
    }
}
