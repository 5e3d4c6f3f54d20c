// The bounds of a word's elements, computed once for the word: at s 8, 16 and 32 alike.
ghost use Rattle.std.specs.Prelude.{◌*◌};
ghost use Rattle.narrow.specs.Private.{Sized, InClass};

// A signed element lies from lo to hi. An unsigned one above top is cut; h is the rounding term.
#[derive(Clone, Copy)]
pub(crate) enum Bounds {
    Signed { lo: i64, hi: i64 },
    Unsigned { top: u64, h: u64 },
}

// Those of the word's class, of elements of W bytes.
pub(crate) fn bounds_of<const W: usize, const OP: bool, const U: bool>(
    r: bool,
    shift: u32,
) -> Bounds
    requires { Sized (4 * W) shift }
    ensures { InClass OP U r (4 * W) shift result }
{
    let s = 4 * W as u32;
    let h = u64::from(r) << (shift - 1);
    let p = 1u64 << (s - 1 + shift);
    if U {
        return Bounds::Unsigned {
            top: p - 1 + (p - h),
            h,
        };
    }
    let q = 1u64 << (2 * s - 1);
    if OP {
        let b = (p + h).min(q);
        return Bounds::Signed {
            lo: b.wrapping_neg().cast_signed(),
            hi: (p - 1 - h) as i64,
        };
    }
    let a = (p - 1 + (p - h)).min(q - 1);
    Bounds::Signed {
        lo: h.wrapping_neg().cast_signed(),
        hi: a as i64,
    }
}
