// An unsigned element in the narrowest arithmetic: the more of them fit a register of the processor.
ghost use Rattle.std.specs.Prelude.{◌≡◌, true, false, ℕ, ◌+◌, ◌*◌, ◌/◌, ◌%◌, ◌^◌, ◌<◌, ◌≤◌};
ghost use Rattle.std.specs.Ordering.{nat_cmp};
ghost use Rattle.std.proofs.Common.{refl, lit≤};
ghost use Rattle.narrowing.specs.Narrowing.{form};
ghost use Rattle.narrowing.specs.Points.{narrowed};
ghost use Rattle.narrow.specs.Private.{LowReady, UnsignedReady};

use std::ops::{Add, Shr};

// The type of an element of twice HALF bits. Its order and its operators are those of the natural numbers, where the answer fits.
pub(crate) trait Lane: Copy + Drop + Ord + Add<Self, Output = Self> + Shr<u32, Output = Self> {
    const HALF: u32;

    ghost HALF: { ℕ };

    ghost value: { Self → ℕ };

    // The low bits of x.
    fn of(x: u64) -> Self
        ensures { value result ≡ x % 2 ^ (2 * HALF) };

    fn number(self) -> u64
        ensures { result ≡ value self };

    ghost most_bits: { HALF ≤ 32 };

    ghost order: { (x y : Self) → Self.cmp x y ≡ nat_cmp (value x) (value y) };

    ghost may_add: { (x y : Self) → value x + value y < 2 ^ (2 * HALF) → Self.can_add x y };

    ghost adds: { (x y r : Self) → Self.add_gives x y r → value r ≡ value x + value y };

    ghost may_shift: { (x : Self) (k : ℕ) → k < 2 * HALF → Self.can_shr x k };

    ghost shifts: { (x r : Self) (k : ℕ) → Self.shr_gives x k r → value r ≡ value x / 2 ^ k };
}

impl Lane for u16 {
    const HALF: u32 = 8;

    ghost HALF = { 8 };

    ghost value = { λ x. x };

    fn of(x: u64) -> u16 {
        (x % 65536) as u16
    }

    fn number(self) -> u64 {
        u64::from(self)
    }

    ghost most_bits = { lit≤ tt };

    ghost order = { λ x y. refl };

    ghost may_add = { λ x y h. h };

    ghost adds = { λ x y r h. h };

    ghost may_shift = { λ x k h. h };

    ghost shifts = { λ x r k h. h };
}

impl Lane for u32 {
    const HALF: u32 = 16;

    ghost HALF = { 16 };

    ghost value = { λ x. x };

    fn of(x: u64) -> u32 {
        (x % 4294967296) as u32
    }

    fn number(self) -> u64 {
        u64::from(self)
    }

    ghost most_bits = { lit≤ tt };

    ghost order = { λ x y. refl };

    ghost may_add = { λ x y h. h };

    ghost adds = { λ x y r h. h };

    ghost may_shift = { λ x k h. h };

    ghost shifts = { λ x r k h. h };
}

impl Lane for u64 {
    const HALF: u32 = 32;

    ghost HALF = { 32 };

    ghost value = { λ x. x };

    fn of(x: u64) -> u64 {
        x
    }

    fn number(self) -> u64 {
        self
    }

    ghost most_bits = { lit≤ tt };

    ghost order = { λ x y. refl };

    ghost may_add = { λ x y h. h };

    ghost adds = { λ x y r h. h };

    ghost may_shift = { λ x k h. h };

    ghost shifts = { λ x r k h. h };
}

// What lies above `top` is cut before the sum, which then cannot wrap.
pub(crate) fn saturated<L: Lane>(x: u64, r: bool, shift: u32, top: u64, h: u64) -> u64
    requires { UnsignedReady x r L.HALF shift top h }
    ensures { result ≡ narrowed (form true true) r L.HALF shift x }
{
    let y = L::of(x).min(L::of(top)) + L::of(h);
    (y >> shift).number()
}

// The low half. Halved in the end, of the bits that are kept and one more, so that no sum passes the type.
#[tactic(auto, using(crate::proofs::Rounding::low_is))]
pub(crate) fn low<L: Lane>(x: u64, r: bool, shift: u32) -> u64
    requires { LowReady x L.HALF shift }
    ensures { result ≡ narrowed (form false true) r L.HALF shift x }
{
    let kept = (L::of(x) >> (shift - 1)).number() % (2 << L::HALF);
    (kept + r as u64) / 2 % (1 << L::HALF)
}
