// A signed element in the narrowest arithmetic: clamped to the word's bounds, rounded, shifted and stored.
// A rounded one is halved in the end, so that no sum passes the type. The lesser is taken first: the processor has the lesser and the
// greater of two, and the compiler sees them so.
ghost use Rattle.std.specs.Prelude.{◌≡◌, false, ℕ, ◌-◌, ◌*◌, ◌%◌, ◌^◌, ◌<◌, ◌≤◌, ℤ, ◌+ℤ◌};
ghost use Rattle.std.specs.Int.{Width, w16, w32, w64, cast_signed, cast_unsigned, int_shr};
ghost use mir.Val.{bits};
ghost use Rattle.std.specs.Int.Signed.{mag};
ghost use Rattle.std.specs.Ordering.{int_cmp};
ghost use Rattle.std.proofs.Common.{refl, lit≤};
ghost use Rattle.narrowing.specs.Narrowing.{form, shifted};
ghost use Rattle.narrowing.specs.Points.{narrowed};
ghost use Rattle.narrow.specs.Private.{SignedReady, ShiftReady};

use std::ops::{Add, Shr};

// The type of an element of twice `half` bits. Its order and its operators are those of the whole numbers, where the answer fits. (An impl
// for each type stays, since no macro of this repository may write one; and `unsigned::Lane` has the laws of the natural numbers.)
pub(crate) trait Lane: Copy + Drop + Ord + Add<Self, Output = Self> + Shr<u32, Output = Self> {
    ghost width: { Width };

    ghost half: { ℕ };

    ghost value: { Self → ℤ };

    // The element whose bits are x.
    fn read(x: u64) -> Self
        requires { x < 2 ^ (2 * half) }
        ensures { value result ≡ cast_signed width x };

    fn of(n: i64) -> Self
        requires { mag n < 2 ^ (2 * half - 1) }
        ensures { value result ≡ n };

    // The low half of its bits.
    fn low(self) -> u64
        ensures { result ≡ cast_unsigned width (value self) % 2 ^ half };

    ghost halves: { bits width ≡ 2 * half };

    ghost some_bits: { 3 ≤ half };

    ghost order: { (x y : Self) → Self.cmp x y ≡ int_cmp (value x) (value y) };

    ghost may_add: { (x y : Self) → mag (value x +ℤ value y) < 2 ^ (2 * half - 1) → Self.can_add x y };

    ghost adds: { (x y r : Self) → Self.add_gives x y r → value r ≡ value x +ℤ value y };

    ghost may_shift: { (x : Self) (k : ℕ) → k < 2 * half → Self.can_shr x k };

    ghost shifts: { (x r : Self) (k : ℕ) → Self.shr_gives x k r → value r ≡ int_shr (value x) k };
}

impl Lane for i16 {
    ghost width = { w16 };

    ghost half = { 8 };

    ghost value = { λ x. x };

    fn read(x: u64) -> i16 {
        (x as u16).cast_signed()
    }

    fn of(n: i64) -> i16 {
        n as i16
    }

    fn low(self) -> u64 {
        (self.cast_unsigned() % 256) as u64
    }

    ghost halves = { refl };

    ghost some_bits = { lit≤ tt };

    ghost order = { λ x y. refl };

    ghost may_add = { λ x y h. record { sfits = h } };

    ghost adds = { λ x y r h. h };

    ghost may_shift = { λ x k h. h };

    ghost shifts = { λ x r k h. h };
}

impl Lane for i32 {
    ghost width = { w32 };

    ghost half = { 16 };

    ghost value = { λ x. x };

    fn read(x: u64) -> i32 {
        (x as u32).cast_signed()
    }

    fn of(n: i64) -> i32 {
        n as i32
    }

    fn low(self) -> u64 {
        (self.cast_unsigned() % 65536) as u64
    }

    ghost halves = { refl };

    ghost some_bits = { lit≤ tt };

    ghost order = { λ x y. refl };

    ghost may_add = { λ x y h. record { sfits = h } };

    ghost adds = { λ x y r h. h };

    ghost may_shift = { λ x k h. h };

    ghost shifts = { λ x r k h. h };
}

impl Lane for i64 {
    ghost width = { w64 };

    ghost half = { 32 };

    ghost value = { λ x. x };

    fn read(x: u64) -> i64 {
        x.cast_signed()
    }

    fn of(n: i64) -> i64 {
        n
    }

    fn low(self) -> u64 {
        self.cast_unsigned() % 4294967296
    }

    ghost halves = { refl };

    ghost some_bits = { lit≤ tt };

    ghost order = { λ x y. refl };

    ghost may_add = { λ x y h. record { sfits = h } };

    ghost adds = { λ x y r h. h };

    ghost may_shift = { λ x k h. h };

    ghost shifts = { λ x r k h. h };
}

#[tactic(auto, using(crate::proofs::Lanes::half_is, crate::proofs::Lanes::whole_is))]
fn shifted<L: Lane>(y: L, r: bool, shift: u32) -> L
    requires { ShiftReady r L.half shift (L.value y) }
    ensures { L.value result ≡ shifted r shift (L.value y) }
{
    if r {
        return ((y >> (shift - 1)) + L::of(1)) >> 1;
    }
    y >> shift
}

// The result for the element whose bits are x.
pub(crate) fn narrowed<L: Lane, const OP: bool>(
    x: u64,
    r: bool,
    shift: u32,
    lo: i64,
    hi: i64,
) -> u64
    requires { SignedReady x OP r L.half shift lo hi }
    ensures { result ≡ narrowed (form OP false) r L.half shift x }
{
    let y = L::read(x).min(L::of(hi)).max(L::of(lo));
    shifted(y, r, shift).low()
}
