// One element of a word: its class and its width, and where T puts the result.
ghost use Rattle.std.specs.Prelude.{◌≡◌, ◌*◌, ◌^◌, ◌<◌};
ghost use Rattle.narrowing.specs.Narrowing.{form};
ghost use Rattle.narrowing.specs.Points.{narrowed};
ghost use Rattle.narrowing.specs.Registers.{placed};
ghost use Rattle.part.specs.Private.{Width};
ghost use Rattle.narrow.specs.Private.{Sized, InClass, Prepared};

use crate::bounds::Bounds;
use crate::{signed, unsigned};

// In the arithmetic of I where the element has a sign, and of N where it has none.
fn narrow_in<I: signed::Lane, N: unsigned::Lane, const OP: bool, const U: bool>(
    x: u64,
    r: bool,
    shift: u32,
    a: Bounds,
) -> u64
    requires same { N.HALF ≡ I.half }
    requires fit { x < 2 ^ (2 * I.half) }
    requires sized { Sized I.half shift }
    requires bounds { InClass OP U r I.half shift a }
    ensures { result ≡ narrowed (form OP U) r I.half shift x }
{
    match a {
        Bounds::Signed { lo, hi } => signed::narrowed::<I, OP>(x, r, shift, lo, hi),
        Bounds::Unsigned { top, h } => {
            if OP {
                return unsigned::saturated::<N>(x, r, shift, top, h);
            }
            unsigned::low::<N>(x, r, shift)
        }
    }
}

// An element of W bytes.
pub(crate) fn narrow_one<const W: usize, const OP: bool, const U: bool>(
    x: u64,
    r: bool,
    shift: u32,
    a: Bounds,
) -> u64
    requires fit { x < 2 ^ (8 * W) }
    requires word { Prepared OP U r W shift a }
    ensures { result ≡ narrowed (form OP U) r (4 * W) shift x }
{
    if W == 2 {
        return narrow_in::<i16, u16, OP, U>(x, r, shift, a);
    }
    if W == 4 {
        return narrow_in::<i32, u32, OP, U>(x, r, shift, a);
    }
    narrow_in::<i64, u64, OP, U>(x, r, shift, a)
}

// The result v over the old element y of Zd.
#[tactic(auto, using(crate::proofs::Places::m_is), unfolding(narrowing::specs::Registers::placed))]
pub(crate) fn place<const W: usize>(y: u64, v: u64, t: bool) -> u64
    requires bytes { Width W }
    requires fit { v < 2 ^ (4 * W) }
    ensures { result ≡ placed t (4 * W) v y }
{
    if t {
        let m = 1u64 << (4 * W);
        return y % m + m * v;
    }
    v
}
